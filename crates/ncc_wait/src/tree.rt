//! Waits by the numbers of their connections, as a tree that halves the numbers.

ghost use Rattle.std.specs.Prelude.{◌≡◌, ◌<◌, ◌≤◌, ◌++◌, ◌∷◌, [], false, length, nat_eq, OnOk, OnErr};
ghost use Rattle.std.specs.List.{AllByRecursion};
ghost use Rattle.ncc_wait.specs.declared.parked.Parked.{Parked};
ghost use Rattle.ncc_wait.specs.declared.tree.Node.TheVariants.{Fork};
ghost use Rattle.ncc_wait.specs.Room.{Ascending, is_parked, next, put, without};
ghost use Rattle.ncc_wait.specs.Tree.{IsLoose, IsLooseAt, IsTree, IsWithin, Outside, WaitFrom, below, ends_of};

use crate::outcome_at::outcome;
use crate::outcomes::Outcome;
use crate::parked::Parked;
use crate::span::{Span, parting};
use std::alloc::{AllocError, Global};
use std::marker::Model;
use std::mem;

/// Those who wait, by ascending number.
#[cycle(tree)]
#[derive(Drop)]
pub(crate) struct Tree {
    node: Node,
}

#[cycle(tree)]
#[derive(Drop)]
enum Node {
    Empty,
    One(Parked),
    Fork(Span, Box<Tree>, Box<Tree>),
}

impl Model for Tree {
    ghost use Rattle.std.specs.Prelude.{List, length};
    ghost use Rattle.ncc_wait.specs.declared.parked.Parked.{Parked};

    ghost Value = { List Parked };

    ghost use Rattle.ncc_wait.specs.Tree.{IsTree, below};

    ghost view = { λ t. below t.node };

    ghost invariant = { λ t. IsTree t.node };

    ghost size = { length };

    ghost use Rattle.ncc_wait.specs.TreeFalls.{sides_fall};

    ghost size_decreases = { λ t h. sides_fall t.node h };
}

impl Tree {
    pub(crate) fn new() -> Tree
        ensures { result ≡ [] }
    {
        Tree { node: Node::Empty }
    }

    fn one(parked: Parked) -> Tree
        ensures { result ≡ parked ∷ [] }
    {
        Tree {
            node: Node::One(parked),
        }
    }

    fn closed(node: Node) -> Tree
        requires { IsTree node }
        ensures { result ≡ below node }
    {
        Tree { node }
    }

    fn open(self) -> Node
        ensures same { below result ≡ self }
        ensures tree { IsTree result }
    {
        self.node
    }

    fn is_empty(&self) -> bool
        ensures { result ≡ nat_eq (length self.now) 0 }
    {
        match &self.node {
            Node::Empty => true,
            Node::One(_) | Node::Fork(_, _, _) => false,
        }
    }

    /// The least place and the least deadline of those who wait.
    fn least(&self) -> (u64, u64)
        ensures { AllByRecursion (WaitFrom result.0 result.1) self.now }
    {
        match &self.node {
            Node::Empty => (u64::MAX, u64::MAX),
            Node::One(parked) => (parked.need, parked.deadline),
            Node::Fork(span, _, _) => (span.need, span.deadline),
        }
    }

    /// Says whether a connection waits.
    pub(crate) fn has(&self, conn: u64) -> bool
        ensures exact { result ≡ is_parked conn self.now }
        ensures ascending { Ascending self.now }
    {
        match &self.node {
            Node::Empty => false,
            Node::One(parked) => parked.conn == conn,
            Node::Fork(span, low, high) => {
                if conn < span.split {
                    low.has(conn)
                } else {
                    high.has(conn)
                }
            }
        }
    }

    /// The first that is ready or late, with its outcome.
    pub(crate) fn next(&self, at: u64, now: u64) -> Option<(u64, Outcome)>
        ensures { result ≡ next at now self.now }
    {
        match &self.node {
            Node::Empty => None,
            Node::One(parked) => judged(parked, at, now),
            Node::Fork(span, low, high) => {
                if at < span.need && now <= span.deadline {
                    return None;
                }
                match low.next(at, now) {
                    None => high.next(at, now),
                    found => found,
                }
            }
        }
    }

    /// Adds one whose number does not wait.
    pub(crate) fn insert(&mut self, alloc: Global, parked: Parked) -> Result<(), AllocError>
        requires apart { is_parked parked.conn self.old ≡ false }
        ensures ok { OnOk result (self.new ≡ put parked self.old) }
        ensures err { OnErr result (self.new ≡ self.old) }
    {
        match &mut self.node {
            Node::Empty => {
                self.node = Node::One(parked);
                return Ok(());
            }
            Node::One(_) => {}
            Node::Fork(span, low, high) => {
                if span.from <= parked.conn && parked.conn <= span.to {
                    if parked.conn < span.split {
                        low.insert(alloc, parked)?;
                    } else {
                        high.insert(alloc, parked)?;
                    }
                    close_up(&mut self.node);
                    return Ok(());
                }
            }
        }
        put_beside(alloc, &mut self.node, parked)
    }

    /// Takes out the one of this number, and says whether it was there.
    pub(crate) fn remove(&mut self, conn: u64) -> bool
        ensures answer { result ≡ is_parked conn self.old }
        ensures rest { self.new ≡ without conn self.old }
    {
        match &mut self.node {
            Node::Empty => false,
            Node::One(parked) => {
                if parked.conn != conn {
                    return false;
                }
                self.node = Node::Empty;
                true
            }
            Node::Fork(span, low, high) => {
                let found = if conn < span.split {
                    low.remove(conn)
                } else {
                    high.remove(conn)
                };
                close_up(&mut self.node);
                found
            }
        }
    }
}

/// One who waits, if it is ready or late.
fn judged(parked: &Parked, at: u64, now: u64) -> Option<(u64, Outcome)>
    ensures { result ≡ next at now (parked.now ∷ []) }
{
    match outcome(at, parked.need, now, parked.deadline) {
        Outcome::NotYet => None,
        found => Some((parked.conn, found)),
    }
}

/// A fork that knows the least of both sides.
fn fork(span: Span, low: Box<Tree>, high: Box<Tree>) -> Node
    requires loose { IsLoose span low.value high.value }
    requires low { 0 < length low.value }
    requires high { 0 < length high.value }
    ensures same { below result ≡ low.value ++ high.value }
    ensures tree { IsTree result }
{
    let (need, deadline) = low.least();
    let (other_need, other_deadline) = high.least();
    Node::Fork(
        Span {
            need: need.min(other_need),
            deadline: deadline.min(other_deadline),
            ..span
        },
        low,
        high,
    )
}

/// A fork, or the other side where one is empty.
fn joined(span: Span, low: Box<Tree>, high: Box<Tree>) -> Node
    requires { IsLoose span low.value high.value }
    ensures same { below result ≡ low.value ++ high.value }
    ensures tree { IsTree result }
{
    if low.is_empty() {
        return Box::into_inner(high).open();
    }
    if high.is_empty() {
        return Box::into_inner(low).open();
    }
    fork(span, low, high)
}

/// Mends a fork whose sides have changed.
fn close_up(node: &mut Node)
    requires { IsLooseAt node.old }
    ensures same { below node.new ≡ below node.old }
    ensures tree { IsTree node.new }
{
    *node = match mem::replace(node, Node::Empty) {
        Node::Fork(span, low, high) => joined(span, low, high),
        other => other,
    };
}

/// The least and the greatest number that may stand in a node.
fn ends(node: &Node) -> (u64, u64)
    ensures { result ≡ ends_of node.now }
{
    match node {
        Node::Empty => (0, u64::MAX),
        Node::One(parked) => (parked.conn, parked.conn),
        Node::Fork(span, _, _) => (span.from, span.to),
    }
}

/// A fork of two trees whose numbers are apart.
fn side_by_side(
    low_ends: (u64, u64),
    low: Box<Tree>,
    high_ends: (u64, u64),
    high: Box<Tree>,
) -> Node
    requires apart { low_ends.1 < high_ends.0 }
    requires low { IsWithin low_ends low.value }
    requires high { IsWithin high_ends high.value }
    ensures same { below result ≡ low.value ++ high.value }
    ensures tree { IsTree result }
{
    let (from, split, to) = parting(low_ends.1, high_ends.0);
    let span = Span {
        from: from.min(low_ends.0),
        split,
        to: to.max(high_ends.1),
        need: 0,
        deadline: 0,
    };
    fork(span, low, high)
}

/// Adds one whose number is below or above all that may stand in a node.
fn put_beside(alloc: Global, node: &mut Node, parked: Parked) -> Result<(), AllocError>
    requires tree { IsTree node.old }
    requires outside { Outside parked.conn node.old }
    ensures ok { OnOk result (IsTree node.new × (below node.new ≡ put parked (below node.old))) }
    ensures err { OnErr result (node.new ≡ node.old) }
{
    let one = Box::new(alloc, Tree::one(parked))?;
    let mut rest = Box::new(alloc, Tree::new())?;
    let at = (parked.conn, parked.conn);
    let ends = ends(node);
    *rest = Tree::closed(mem::replace(node, Node::Empty));
    *node = if parked.conn < ends.0 {
        side_by_side(at, one, ends, rest)
    } else {
        side_by_side(ends, rest, at, one)
    };
    Ok(())
}
