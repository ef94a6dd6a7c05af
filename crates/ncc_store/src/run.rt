//! Running steps.

ghost use Rattle.std.specs.Prelude.{◌≡◌, ◌∷◌, [], Ok, Some, None, IfOk, OnOk, map};
ghost use Rattle.std.specs.List.{All};
ghost use Rattle.std.specs.Option.{option_copied};
ghost use Rattle.ncc_store.specs.Answers.{Gives};
ghost use Rattle.ncc_store.specs.Bound.{IsRow};
ghost use Rattle.ncc_store.specs.Delta.{IsLeast, IsOver, applied};
ghost use Rattle.ncc_store.specs.Laws.{GoesOn};
ghost use Rattle.ncc_store.specs.Exec.{call_of, node_set, change, deleted, exec, head, nodes_of, pairs, set, set_one, step, wanted, merged};
ghost use Rattle.ncc_store.specs.Pattern.{wanted_of};
ghost use Rattle.ncc_store.specs.Graph.{IsNode, find, without};
ghost use Rattle.ncc_store.specs.Props.{IsKeyed, ArePlain, put};

use crate::fault::{RunError, RunFault};
use crate::node::{StoredNode, kept};
use crate::overlay::Overlay;
use crate::props::{Params, PropertyMap};
use crate::ran::{Delta, Ran};
use crate::rows::returned;
use crate::scalar::Scalar;
use crate::step::{Step, Steps};
use crate::store::Store;
use crate::sum::{Bound, sum};
use ncc_cypher::{Change, Head, Pair, Pairs};
use ncc_pack::{Dict, Memory, Rows, Sequence, Text};
use std::alloc::Global;

/// The properties that pairs give, where no name is bound.
fn pairs(alloc: Global, params: &Params, list: &[Pair]) -> Result<Dict, RunError>
    ensures pairs { Gives (λ ps. ps) result (pairs params.now [] list.now) }
    ensures keyed { IfOk result IsKeyed }
    ensures plain { IfOk result ArePlain }
{
    let mut draft = PropertyMap::new(alloc);
    for pair in list {
        let value = sum(params, &Bound::Free, &pair.value)?;
        draft.put(pair.key.as_str(), value)?;
    }
    Ok(draft.into_dict(alloc)?)
}

/// The properties of a node with one of this key, or with none for null.
fn one_prop(alloc: Global, key: &str, value: Scalar) -> Result<Dict, Memory>
    ensures props { IfOk result (λ ps. ps ≡ put [] key.now value) }
    ensures keyed { IfOk result IsKeyed }
    ensures plain { IfOk result ArePlain }
{
    let mut draft = PropertyMap::new(alloc);
    draft.put(key, value)?;
    draft.into_dict(alloc)
}

/// The value that the pair of a MATCH asks for.
fn wanted<'p>(
    params: &Params,
    pair: &'p Option<Pair>,
) -> Result<Option<(&'p str, Scalar)>, RunError>
    ensures { Gives wanted_of result (wanted params.now pair.now) }
{
    match pair {
        None => Ok(None),
        Some(pair) => {
            let value = sum(params, &Bound::Free, &pair.value)?;
            Ok(Some((pair.key.as_str(), value)))
        }
    }
}

/// The ids of the nodes that a MERGE takes, or the id of the one that it makes.
fn merge(
    alloc: Global,
    overlay: &mut Overlay,
    label: &Text,
    key: &Text,
    value: Scalar,
) -> Result<Vec<i64>, RunError>
    ensures merged { Gives (λ is. (overlay.new.graph, is.items)) result (merged label.now key.now overlay.old.graph value) }
    ensures base { overlay.new.base ≡ overlay.old.base }
{
    if let Scalar::Null = value {
        return Err(RunError::Fault(RunFault::NullMerge));
    }
    let wanted = Some((key.as_str(), value));
    let ids = overlay.matching(alloc, Some(label.as_str()), &wanted)?;
    if !ids.is_empty() {
        return Ok(ids);
    }
    match wanted {
        None => Ok(ids),
        Some((key, value)) => {
            let props = one_prop(alloc, key, value)?;
            let id = overlay.make(label.copy()?, props)?;
            Ok(Vec::from_slice(alloc, &[id])?)
        }
    }
}

/// The head of a statement: the ids of its rows.
fn head(
    alloc: Global,
    overlay: &mut Overlay,
    params: &Params,
    begin: &Head,
) -> Result<Vec<i64>, RunError>
    ensures head { Gives (λ is. (overlay.new.graph, is.items)) result (head params.now overlay.old.graph begin.now) }
    ensures base { overlay.new.base ≡ overlay.old.base }
{
    match begin {
        Head::Alone => Ok(Vec::new(alloc)),
        Head::Create { label, pairs: list } => {
            let props = pairs(alloc, params, list.as_slice())?;
            let id = overlay.make(label.copy()?, props)?;
            Ok(Vec::from_slice(alloc, &[id])?)
        }
        Head::Find { label, pair } => {
            let wanted = wanted(params, pair)?;
            let label = match label {
                None => None,
                Some(label) => Some(label.as_str()),
            };
            Ok(overlay.matching(alloc, label, &wanted)?)
        }
        Head::Merge { label, pair } => {
            let value = sum(params, &Bound::Free, &pair.value)?;
            merge(alloc, overlay, label, &pair.key, value)
        }
    }
}

/// A node after the changes of SET, from left to right.
fn changed(
    alloc: Global,
    params: &Params,
    changes: &[Pair],
    node: &StoredNode,
) -> Result<StoredNode, RunError>
    requires { IsNode node.now }
    ensures changed { Gives (λ n. n) result (node_set params.now changes.now node.now) }
    ensures node { IfOk result IsNode }
    ensures id { IfOk result (λ n. n.id ≡ node.now.id) }
{
    let mut draft = PropertyMap::of(alloc, &node.props)?;
    for change in changes {
        let value = sum(params, &Bound::PropertyMap(&draft), &change.value)?;
        draft.put(change.key.as_str(), value)?;
    }
    let label = node.label.copy()?;
    let props = draft.into_dict(alloc)?;
    Ok(kept(StoredNode {
        id: node.id,
        label,
        props,
    })?)
}

/// SET on one row.
fn set_one(
    alloc: Global,
    overlay: &mut Overlay,
    params: &Params,
    changes: &[Pair],
    id: i64,
) -> Result<(), RunError>
    ensures set { Gives (λ _. overlay.new.graph) result (set_one params.now changes.now overlay.old.graph
        (find id overlay.old.graph.nodes)) }
    ensures base { overlay.new.base ≡ overlay.old.base }
{
    let node = match overlay.node(id) {
        None => return Ok(()),
        Some(node) => changed(alloc, params, changes, node)?,
    };
    overlay.replace(node)?;
    Ok(())
}

/// SET row by row.
fn set(
    alloc: Global,
    overlay: &mut Overlay,
    params: &Params,
    changes: &[Pair],
    ids: &[i64],
) -> Result<(), RunError>
    ensures set { Gives (λ _. overlay.new.graph) result (set params.now changes.now overlay.old.graph ids.now) }
    ensures base { overlay.new.base ≡ overlay.old.base }
{
    for id in ids {
        set_one(alloc, overlay, params, changes, *id)?;
    }
    Ok(())
}

/// DELETE on one row. Where its node is not there, nothing changes.
fn delete_one(overlay: &mut Overlay, id: i64) -> Result<(), Memory>
    ensures deleted { OnOk result (overlay.new.graph ≡ record overlay.old.graph { nodes = without id overlay.old.graph.nodes }) }
    ensures base { overlay.new.base ≡ overlay.old.base }
{
    if overlay.node(id).is_none() {
        return Ok(());
    }
    overlay.remove(id)
}

/// DELETE row by row.
fn delete(overlay: &mut Overlay, ids: &[i64]) -> Result<(), Memory>
    ensures deleted { OnOk result (overlay.new.graph ≡ deleted overlay.old.graph ids.now) }
    ensures base { overlay.new.base ≡ overlay.old.base }
{
    for id in ids {
        delete_one(overlay, *id)?;
    }
    Ok(())
}

/// The change of a statement.
fn change(
    alloc: Global,
    overlay: &mut Overlay,
    params: &Params,
    how: &Change,
    ids: &[i64],
) -> Result<(), RunError>
    ensures change { Gives (λ _. overlay.new.graph) result (change params.now how.now (overlay.old.graph, ids.now)) }
    ensures base { overlay.new.base ≡ overlay.old.base }
{
    match how {
        Change::Keep => Ok(()),
        Change::Set(changes) => set(alloc, overlay, params, changes.as_slice(), ids),
        Change::Delete => Ok(delete(overlay, ids)?),
    }
}

/// The nodes of these ids.
fn nodes_at<'o>(
    alloc: Global,
    overlay: &'o Overlay,
    ids: &[i64],
) -> Result<Vec<Option<&'o StoredNode>>, Memory>
    ensures nodes { IfOk result (λ ns. map option_copied ns.items ≡ map (λ id. find id overlay.now.graph.nodes) ids.now) }
    ensures keyed { IfOk result (λ ns. All (λ n. IsRow (option_copied n)) ns.items) }
{
    let mut nodes = Vec::new(alloc);
    for id in ids {
        nodes.push(overlay.node(*id))?;
    }
    Ok(nodes)
}

/// The nodes of the rows. A RETURN that stands alone has one row without a node.
fn nodes_of<'o>(
    alloc: Global,
    overlay: &'o Overlay,
    begin: &Head,
    ids: &[i64],
) -> Result<Vec<Option<&'o StoredNode>>, Memory>
    ensures nodes { IfOk result (λ ns. map option_copied ns.items ≡ nodes_of begin.now overlay.now.graph ids.now) }
    ensures keyed { IfOk result (λ ns. All (λ n. IsRow (option_copied n)) ns.items) }
{
    if let Head::Alone = begin {
        let mut nodes = Vec::new(alloc);
        nodes.push(None)?;
        return Ok(nodes);
    }
    nodes_at(alloc, overlay, ids)
}

/// One step: its rows.
fn step(alloc: Global, overlay: &mut Overlay, next: &Step) -> Result<Rows, RunError>
    ensures step { Gives (λ rows. (rows, overlay.new.graph)) result (step overlay.old.graph (call_of next.now)) }
    ensures base { overlay.new.base ≡ overlay.old.base }
{
    let params = Params::of(alloc, &next.params)?;
    let statement = &next.statement;
    let ids = head(alloc, overlay, &params, &statement.head)?;
    change(alloc, overlay, &params, &statement.change, ids.as_slice())?;
    let nodes = nodes_of(alloc, overlay, &statement.head, ids.as_slice())?;
    returned(alloc, &params, &statement.tail, nodes.as_slice())
}

/// Runs steps in order over what is seen.
fn run_over(alloc: Global, begin: Overlay, steps: &Steps) -> Result<Ran, RunError>
    ensures exact { Gives (λ r. record { rows = r.rows; graph = applied r.delta begin.entry.base })
        result (exec begin.entry.graph (map call_of steps.now)) }
    ensures over { IfOk result (λ r. IsOver begin.entry.base r.delta) }
    ensures least { IfOk result (λ r. IsLeast begin.entry.base r.delta) }
{
    let mut overlay = begin;
    let mut rows = Sequence::new(alloc);
    for next in steps.as_slice() {
        rows.push(step(alloc, &mut overlay, next)?)?;
    }
    let delta = overlay.into_delta(alloc)?;
    Ok(Ran { rows, delta })
}

impl<'s> Overlay<'s> {
    /// Runs steps in order over a store and their own earlier writes. It gives one list of rows for each step, and what
    /// the steps changed; the store stays as it is. The first fault ends the run: each sum from left to right; in a step
    /// the head's pairs, then `NullMerge`, then `IdsSpent`, then the changes row by row, then the items row by row. A
    /// step that touches so many nodes copies so many.
    pub fn run(alloc: Global, store: &'s Store, steps: &Steps) -> Result<Ran, RunError>
        // The rows and the store after the last step, or the first fault, are those of the calls over the plain list.
        ensures exact { Gives (λ r. record { rows = r.rows; graph = applied r.delta store.now })
            result (exec store.now (map call_of steps.now)) }
        // The delta can be put into an equal store.
        ensures over { IfOk result (λ r. IsOver store.now r.delta) }
        // It is the least: no node in it is as the store has it, and no id that the steps made and removed.
        ensures least { IfOk result (λ r. IsLeast store.now r.delta) }
    {
        run_over(alloc, Overlay::new(alloc, store), steps)
    }

    /// Goes on from an earlier run's delta over an equal store, whose nodes are moved: it runs these steps over the store
    /// and the earlier writes, and does not run the earlier steps again. The rows are those of these steps alone, and the
    /// delta is that of all. An earlier delta of so many nodes takes a time that grows with their number.
    pub fn go_on(
        alloc: Global,
        store: &'s Store,
        earlier: Delta,
        steps: &Steps,
    ) -> Result<Ran, RunError>
        requires over { IsOver store.now earlier }
        // The rows and the store after the last step, or the first fault, are those of the calls over the store that the
        // earlier delta leaves.
        ensures exact { Gives (λ r. record { rows = r.rows; graph = applied r.delta store.now })
            result (exec (applied earlier store.now) (map call_of steps.now)) }
        // The delta, put into an equal store without the earlier one, makes the changes of both.
        ensures over { IfOk result (λ r. IsOver store.now r.delta) }
        // It is the least: no node in it is as the store has it, and no id that the steps made and removed.
        ensures least { IfOk result (λ r. IsLeast store.now r.delta) }
        // It is the run of all: of any calls that leave that store, and then of these.
        ensures all { GoesOn store.now earlier (map call_of steps.now) result }
    {
        let overlay = Overlay::over(alloc, store, earlier)?;
        run_over(alloc, overlay, steps)
    }
}
