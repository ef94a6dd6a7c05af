//! What steps write, over a store that they leave as it is.

ghost use Rattle.std.specs.Prelude.{◌≡◌, ◌∷◌, [], ◌++◌, IfOk, IfSome, IsSome, OnOk};
ghost use Rattle.std.specs.List.{All, filter};
ghost use Rattle.std.specs.Option.{option_copied};
ghost use Rattle.ncc_store.specs.Answers.{Gives};
ghost use Rattle.ncc_store.specs.Delta.{IsLeast, IsOver, applied};
ghost use Rattle.ncc_store.specs.Exec.{has_label, has_value, made, matching, taken};
ghost use Rattle.ncc_store.specs.Graph.{IsNode, find, ids, replace, without};
ghost use Rattle.ncc_store.specs.Layers.{IsNodeAt, fresh, one, seen_below, seen_one, with_gone, with_put, written_at};
ghost use Rattle.ncc_store.specs.Pattern.{wanted_of};
ghost use Rattle.ncc_store.specs.Props.{IsKeyed, ArePlain};

use crate::fault::{RunError, RunFault};
use crate::node::{NodeList, StoredNode, kept};
use crate::props::value_at;
use crate::ran::Delta;
use crate::scalar::{Scalar, equals};
use crate::store::Store;
use ncc_pack::{Dict, Memory, Sequence, Text};
use std::alloc::Global;
use std::collections::BTreeMap;
use std::marker::Model;

const LAST_ID: i64 = 0x4000_0000_0000_0000;

/// A store with what the steps of one transaction wrote over it. A contract sees the store below, and the store that
/// the next step sees.
#[derive(Drop)]
pub struct Overlay<'s> {
    base: &'s Store,
    next: i64,
    // A node at its id, or nothing where it was removed.
    written: BTreeMap<i64, Option<StoredNode>>,
}

impl<'s> Model for Overlay<'s> {
    ghost use Rattle.ncc_store.specs.Layers.{Layers, seen, IsLayered};

    ghost Value = { Layers };

    ghost use Rattle.std.specs.Coded.{codes};
    ghost use Rattle.ncc_pack.specs.contracts.value.Value as e;

    ghost coded = { Prim.hlevel (codes, e.the_row.coded) };

    ghost view = { λ o. record { base = o.base.now; graph = seen o.base.now o.next o.written.entries } };

    ghost invariant = { λ o. IsLayered o.base.now o.next o.written.entries };
}

/// Says whether a node has the label that a pattern asks for.
fn has_label(label: Option<&str>, node: &StoredNode) -> bool
    ensures { result ≡ has_label (option_copied label.entry) node.now }
{
    match label {
        None => true,
        Some(label) => label == node.label.as_str(),
    }
}

/// Says whether a node has the value that a pattern asks for.
fn has_value(wanted: &Option<(&str, Scalar)>, node: &StoredNode) -> bool
    requires { IsNode node.now }
    ensures { result ≡ has_value (wanted_of wanted.now) node.now }
{
    match wanted {
        None => true,
        Some((key, scalar)) => match value_at(node.props.as_slice(), key) {
            None => false,
            Some(value) => equals(value, scalar),
        },
    }
}

/// Says whether a pattern takes a node.
fn taken(label: Option<&str>, wanted: &Option<(&str, Scalar)>, node: &StoredNode) -> bool
    requires { IsNode node.now }
    ensures { result ≡ taken (option_copied label.entry) (wanted_of wanted.now) node.now }
{
    has_label(label, node) && has_value(wanted, node)
}

/// Adds the id of a node to those that were found, if there is a node and a pattern takes it.
fn add_taken(
    found: &mut Vec<i64>,
    label: Option<&str>,
    wanted: &Option<(&str, Scalar)>,
    node: Option<&StoredNode>,
) -> Result<(), Memory>
    requires { IfSome node (λ n. IsNode n.now) }
    ensures { OnOk result (found.new.items ≡ found.old.items
        ++ ids (filter (taken (option_copied label.entry) (wanted_of wanted.now)) (one (option_copied node.entry)))) }
{
    if let Some(node) = node {
        if taken(label, wanted, node) {
            found.push(node.id)?;
        }
    }
    Ok(())
}

/// A node of a store as it is seen, where it was not removed.
fn seen<'a>(
    node: &'a StoredNode,
    written: &'a BTreeMap<i64, Option<StoredNode>>,
) -> Option<&'a StoredNode>
    requires node { IsNode node.now }
    requires written { All (λ e. IsNodeAt e.0 e.1) written.now.entries }
    ensures seen { one (option_copied result) ≡ seen_one node.now (written_at node.now.id written.now.entries) }
    ensures node { IfSome result (λ n. IsNode n.now) }
{
    match written.get(&node.id) {
        None => Some(node),
        Some(node) => node.as_ref(),
    }
}

/// Adds the ids of the nodes of a store that a pattern takes as they are seen.
fn add_below(
    found: &mut Vec<i64>,
    label: Option<&str>,
    wanted: &Option<(&str, Scalar)>,
    nodes: &[StoredNode],
    written: &BTreeMap<i64, Option<StoredNode>>,
) -> Result<(), Memory>
    requires nodes { All IsNode nodes.now }
    requires written { All (λ e. IsNodeAt e.0 e.1) written.now.entries }
    ensures { OnOk result (found.new.items ≡ found.old.items
        ++ ids (filter (taken (option_copied label.entry) (wanted_of wanted.now)) (seen_below written.now.entries nodes.now))) }
{
    for below in nodes {
        add_taken(found, label, wanted, seen(below, written))?;
    }
    Ok(())
}

/// Adds the ids of the nodes that were made, from an id on, and that a pattern takes.
fn add_made(
    found: &mut Vec<i64>,
    label: Option<&str>,
    wanted: &Option<(&str, Scalar)>,
    next: i64,
    written: &BTreeMap<i64, Option<StoredNode>>,
) -> Result<(), Memory>
    requires { All (λ e. IsNodeAt e.0 e.1) written.now.entries }
    ensures { OnOk result (found.new.items ≡ found.old.items
        ++ ids (filter (taken (option_copied label.entry) (wanted_of wanted.now)) (fresh next written.now.entries))) }
{
    for (_, made) in written.range(next..) {
        add_taken(found, label, wanted, made.as_ref())?;
    }
    Ok(())
}

/// Writes nodes at their ids.
fn write_put(written: &mut BTreeMap<i64, Option<StoredNode>>, put: NodeList) -> Result<(), Memory>
    ensures { OnOk result (written.new.entries ≡ with_put written.old.entries put) }
{
    for node in put.into_vec() {
        drop(written.insert(node.id, Some(node))?);
    }
    Ok(())
}

/// Writes that nothing stands at these ids.
fn write_gone(written: &mut BTreeMap<i64, Option<StoredNode>>, gone: &[i64]) -> Result<(), Memory>
    ensures { OnOk result (written.new.entries ≡ with_gone written.old.entries gone.now) }
{
    for id in gone {
        written.insert(*id, None)?;
    }
    Ok(())
}

impl<'s> Overlay<'s> {
    /// A store over which nothing is written. It takes no memory.
    pub(crate) fn new(alloc: Global, base: &'s Store) -> Overlay<'s>
        ensures { result ≡ record { base = base.now; graph = base.now } }
    {
        Overlay {
            base,
            next: base.next(),
            written: BTreeMap::new(alloc),
        }
    }

    /// A store over which an earlier delta is written. Its nodes are moved.
    pub(crate) fn over(
        alloc: Global,
        base: &'s Store,
        earlier: Delta,
    ) -> Result<Overlay<'s>, Memory>
        requires { IsOver base.now earlier }
        ensures { IfOk result (λ o. o ≡ record { base = base.now; graph = applied earlier base.now }) }
    {
        let Delta { next, put, gone } = earlier;
        let low = base.next();
        prove!(low <= next);
        let mut written = BTreeMap::new(alloc);
        write_put(&mut written, put)?;
        write_gone(&mut written, gone.as_slice())?;
        Ok(Overlay {
            base,
            next,
            written,
        })
    }

    /// The node of an id.
    pub(crate) fn node(&self, id: i64) -> Option<&StoredNode>
        ensures found { option_copied result ≡ find id self.now.graph.nodes }
        ensures node { IfSome result (λ n. IsNode n.now) }
    {
        match self.written.get(&id) {
            None => self.base.node(id),
            Some(node) => node.as_ref(),
        }
    }

    /// The ids of the nodes that a pattern takes, ascending.
    pub(crate) fn matching(
        &self,
        alloc: Global,
        label: Option<&str>,
        wanted: &Option<(&str, Scalar)>,
    ) -> Result<Vec<i64>, Memory>
        ensures { IfOk result (λ is. is.items ≡ matching (option_copied label.entry) (wanted_of wanted.now) self.now.graph) }
    {
        let mut found = Vec::new(alloc);
        add_below(&mut found, label, wanted, self.base.nodes(), &self.written)?;
        add_made(&mut found, label, wanted, self.base.next(), &self.written)?;
        Ok(found)
    }

    /// Puts a node in the place of the one that has its id.
    pub(crate) fn replace(&mut self, node: StoredNode) -> Result<(), Memory>
        requires there { IsSome (find node.id self.old.graph.nodes) }
        requires node { IsNode node }
        ensures replaced { OnOk result (self.new ≡ record self.old
            { graph = record self.old.graph { nodes = replace node self.old.graph.nodes } }) }
        ensures base { self.new.base ≡ self.old.base }
    {
        self.written.insert(node.id, Some(node))?;
        Ok(())
    }

    /// Removes the node of an id.
    pub(crate) fn remove(&mut self, id: i64) -> Result<(), Memory>
        requires there { IsSome (find id self.old.graph.nodes) }
        ensures removed { OnOk result (self.new ≡ record self.old
            { graph = record self.old.graph { nodes = without id self.old.graph.nodes } }) }
        ensures base { self.new.base ≡ self.old.base }
    {
        self.written.insert(id, None)?;
        Ok(())
    }

    /// Makes a node, and answers its id.
    pub(crate) fn make(&mut self, label: Text, props: Dict) -> Result<i64, RunError>
        requires keyed { IsKeyed props }
        requires plain { ArePlain props }
        ensures made { Gives (λ id. (self.new.graph, id ∷ [])) result (made label props self.old.graph) }
        ensures base { self.new.base ≡ self.old.base }
    {
        let id = self.next;
        if id >= LAST_ID {
            return Err(RunError::Fault(RunFault::IdsSpent));
        }
        let node = kept(StoredNode { id, label, props })?;
        self.written.insert(id, Some(node))?;
        self.next = id + 1;
        Ok(id)
    }

    /// What was written.
    pub(crate) fn into_delta(self, alloc: Global) -> Result<Delta, Memory>
        ensures applied { IfOk result (λ d. applied d self.entry.base ≡ self.entry.graph) }
        ensures over { IfOk result (IsOver self.entry.base) }
        ensures least { IfOk result (IsLeast self.entry.base) }
    {
        let Overlay {
            base,
            next,
            written,
        } = self;
        let below = base.next();
        let mut put = Sequence::new(alloc);
        let mut gone = Sequence::new(alloc);
        for (id, node) in written {
            match node {
                Some(node) => {
                    if !base.has(&node) {
                        put.push(node)?;
                    }
                }
                None => {
                    if id < below {
                        gone.push(id)?;
                    }
                }
            }
        }
        Ok(Delta { next, put, gone })
    }
}
