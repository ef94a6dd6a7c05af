//! Stores.

ghost use Rattle.std.specs.Prelude.{◌≡◌, ◌≤◌, pos, ◌≤ℤ◌, int_lt, not, length};
ghost use Rattle.std.specs.Prelude.{vec_len, vec_capacity, IfOk, IfSome, IsTrue, OnOk, OnErr, ◌↔◌};
ghost use Rattle.std.specs.Bool.{beq};
ghost use Rattle.std.specs.List.{filter, list_any};
ghost use Rattle.std.specs.List.Sorted.{IsStrictlySortedBy};
ghost use Rattle.std.specs.Ordering.{int_cmp, int_eq};
ghost use Rattle.std.specs.Option.{option_copied};
ghost use Rattle.ncc_store.specs.Graph.{IsGraph, IsNode, empty, find, ids, last_id, replace, replaced};
ghost use Rattle.ncc_store.specs.Delta.{IsOver, applied};

use crate::node::StoredNode;
use crate::ran::Delta;
use ncc_pack::Memory;
use std::alloc::Global;
use std::marker::Model;

/// A store of nodes. A contract sees its next id, and the list of its nodes by ascending id.
#[derive(Debug, Drop)]
pub struct Store {
    next: i64,
    nodes: Vec<StoredNode>,
}

impl Model for Store {
    ghost use Rattle.ncc_store.specs.Graph.{Graph, IsGraph};

    ghost Value = { Graph };

    ghost use Rattle.std.specs.Coded.{codes};
    ghost use Rattle.ncc_pack.specs.contracts.value.Value as e;

    ghost coded = { Prim.hlevel (codes, e.the_row.coded) };

    ghost view = { λ s. record { next = s.next; nodes = s.nodes.items } };

    ghost invariant = { λ s. IsGraph (record { next = s.next; nodes = s.nodes.items }) };
}

impl Store {
    /// A store without a node, whose next id is 0.
    pub fn new(alloc: Global) -> Result<Store, Memory>
        ensures empty { IfOk result (λ s. s ≡ empty (pos 0)) }
    {
        Store::with_next(alloc, 0)
    }

    /// A store without a node, whose next id is `next`, from 0 to 2^62.
    pub fn with_next(alloc: Global, next: i64) -> Result<Store, Memory>
        requires low { pos 0 ≤ℤ next }
        requires high { next ≤ℤ last_id }
        ensures empty { IfOk result (λ s. s ≡ empty next) }
    {
        Ok(Store {
            next,
            nodes: Vec::new(alloc),
        })
    }

    /// How many nodes there are. It takes no memory.
    pub fn len(&self) -> u64
        ensures number { result ≡ length self.now.nodes }
    {
        self.nodes.len() as u64
    }

    /// The id that the next new node gets. It takes no memory.
    pub fn next(&self) -> i64
        ensures next { result ≡ self.now.next }
        // Ids ascend and are below the next one, which is at most 2^62, and each node has its keys in order, and properties
        // that are truth values, integers and texts that fit.
        ensures legal { IsGraph self.now }
    {
        self.next
    }

    /// The node of an id, found in a time that grows with the logarithm of their number. It takes no memory.
    pub fn node(&self, id: i64) -> Option<&StoredNode>
        ensures found { option_copied result ≡ find id self.now.nodes }
        ensures node { IfSome result (λ n. IsNode n.now) }
    {
        match self.nodes.binary_search_by_key(&id, |node| node.id) {
            Ok(place) => Some(&self.nodes[place]),
            Err(_) => None,
        }
    }

    /// Says whether the store has just this node.
    pub(crate) fn has(&self, node: &StoredNode) -> bool
        ensures { IsTrue result ↔ (find node.now.id self.now.nodes ≡ Some node.now) }
    {
        match self.node(node.id) {
            None => false,
            Some(held) => held.equals(node),
        }
    }

    /// The nodes, by ascending id.
    pub(crate) fn nodes(&self) -> &[StoredNode]
        ensures { result.now ≡ self.now.nodes }
    {
        self.nodes.as_slice()
    }

    /// Makes the changes of a delta, which was made over an equal store. It takes a time that grows with the number of
    /// nodes in the delta, times the logarithm of the store's; and with the store, where nodes are removed. An `Err`
    /// leaves the store as it was.
    pub fn put_all(&mut self, delta: &Delta) -> Result<(), Memory>
        requires over { IsOver self.old delta.now }
        ensures ok { OnOk result (self.new ≡ applied delta.now self.old) }
        ensures err { OnErr result (self.new ≡ self.old) }
    {
        let alloc = *self.nodes.allocator();
        let changed = copied(alloc, delta.put.as_slice(), self.next, false)?;
        let mut made = copied(alloc, delta.put.as_slice(), self.next, true)?;
        self.nodes.reserve(made.len())?;
        renew(self.nodes.as_mut_slice(), changed);
        remove_all(&mut self.nodes, delta.gone.as_slice());
        // The room is there, so this does not fail half way.
        self.nodes.append(&mut made)?;
        self.next = delta.next;
        Ok(())
    }

    /// An equal store, on the same allocator.
    pub fn copy(&self) -> Result<Store, Memory>
        ensures same { IfOk result (λ s. s ≡ self.now) }
    {
        let mut nodes = Vec::with_capacity(*self.nodes.allocator(), self.nodes.len())?;
        for node in self.nodes.as_slice() {
            nodes.push(node.copy()?)?;
        }
        Ok(Store {
            next: self.next,
            nodes,
        })
    }
}

/// Copies of the nodes whose ids are below a number, or of those whose ids are not.
fn copied(
    alloc: Global,
    nodes: &[StoredNode],
    next: i64,
    made: bool,
) -> Result<Vec<StoredNode>, Memory>
    ensures { IfOk result (λ v. v.items ≡ filter (λ n. beq made (not (int_lt n.id next))) nodes.now) }
{
    let mut copies = Vec::new(alloc);
    for node in nodes {
        if made == (node.id >= next) {
            copies.push(node.copy()?)?;
        }
    }
    Ok(copies)
}

/// Puts nodes in the places of those that have their ids, one after the other.
fn renew(nodes: &mut [StoredNode], changed: Vec<StoredNode>)
    requires { IsStrictlySortedBy int_cmp (ids nodes.old) }
    ensures { nodes.new ≡ replaced changed.items nodes.old }
{
    for node in changed {
        renew_one(nodes, node);
    }
}

/// Puts a node in the place of the one that has its id, if there is one.
fn renew_one(nodes: &mut [StoredNode], node: StoredNode)
    requires { IsStrictlySortedBy int_cmp (ids nodes.old) }
    ensures { nodes.new ≡ replace node nodes.old }
{
    if let Ok(place) = nodes.binary_search_by_key(&node.id, |other| other.id) {
        nodes[place] = node;
    }
}

/// Removes the nodes of these ids, which ascend.
fn remove_all(nodes: &mut Vec<StoredNode>, gone: &[i64])
    requires { IsStrictlySortedBy int_cmp gone.now }
    ensures items { nodes.new.items ≡ filter (λ n. not (list_any (int_eq n.id) gone.now)) nodes.old.items }
    ensures bound { vec_len nodes.new ≤ vec_len nodes.old }
    ensures capacity { vec_capacity nodes.new ≡ vec_capacity nodes.old }
{
    if !gone.is_empty() {
        nodes.retain(|node| !has_id(gone, node.id));
    }
}

/// Says whether an id is among ids that ascend.
fn has_id(ids: &[i64], id: i64) -> bool
    requires { IsStrictlySortedBy int_cmp ids.now }
    ensures { result ≡ list_any (int_eq id) ids.now }
{
    ids.binary_search(&id).is_ok()
}
