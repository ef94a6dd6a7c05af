//! Nodes as a store keeps them.

ghost use Rattle.std.specs.Prelude.{◌≡◌, ◌&&◌, ◌↔◌, IfOk, IsTrue};
ghost use Rattle.std.specs.List.{All, list_all};
ghost use Rattle.ncc_store.specs.Graph.{IsNode};
ghost use Rattle.ncc_store.specs.Props.{IsKeyed, ArePlain, pair_fits};

use ncc_pack::{Copied, Dict, Memory, Sequence, Text, Value, text_fits};
use std::alloc::AllocError;

/// A node of a store.
#[derive(Debug, Drop)]
pub struct StoredNode {
    /// Its number, from 0 and below 2^62. No other node of the store has or had it.
    pub id: i64,
    /// Its one label.
    pub label: Text,
    /// Its properties, by ascending bytes of their keys: truth values, integers and texts.
    pub props: Dict,
}

/// A list of nodes.
pub type NodeList = Sequence<StoredNode>;

/// A list of node ids.
pub type Ids = Sequence<i64>;

impl StoredNode {
    /// An equal node, on the same allocators.
    pub fn copy(&self) -> Result<StoredNode, Memory>
        ensures same { IfOk result (λ n. n ≡ self.now) }
    {
        let label = self.label.copy()?;
        let props = self.props.copy()?;
        Ok(StoredNode {
            id: self.id,
            label,
            props,
        })
    }

    /// Says whether two nodes are equal.
    pub fn equals(&self, other: &StoredNode) -> bool
        ensures exact { IsTrue result ↔ (self.now ≡ other.now) }
    {
        self.id == other.id && self.label.equals(&other.label) && self.props.equals(&other.props)
    }
}

impl Copied for StoredNode {
    fn copy(&self) -> Result<StoredNode, AllocError> {
        StoredNode::copy(self)
    }
}

/// Equal ids, on the same allocator.
pub(crate) fn copy_ids(ids: &Ids) -> Result<Ids, Memory>
    ensures { IfOk result (λ copy. copy ≡ ids.now) }
{
    let mut copy = Sequence::new(ids.allocator());
    for id in ids.as_slice() {
        copy.push(*id)?;
    }
    Ok(copy)
}

/// Says whether a key and its value each fit.
fn pair_fits(pair: &(Text, Value)) -> bool
    ensures { result ≡ pair_fits pair.now }
{
    text_fits(&pair.0) && pair.1.fits()
}

/// Says whether each key and each value fits.
fn pairs_fit(pairs: &[(Text, Value)]) -> bool
    ensures { result ≡ list_all pair_fits pairs.now }
{
    for pair in pairs {
        let fits = pair_fits(pair);
        if !fits {
            return false;
        }
    }
    true
}

/// A node that a store may keep. A label, a key or a text of more than 16,777,216 bytes, which no message and no entry can
/// carry, is taken as want of memory.
pub(crate) fn kept(node: StoredNode) -> Result<StoredNode, Memory>
    requires keyed { IsKeyed node.props }
    requires plain { ArePlain node.props }
    ensures same { IfOk result (λ n. n ≡ node) }
    ensures is_node { IfOk result IsNode }
{
    if text_fits(&node.label) && pairs_fit(node.props.as_slice()) {
        Ok(node)
    } else {
        Err(Memory)
    }
}
