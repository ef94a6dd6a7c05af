//! The stamps of a history's places.

ghost use Rattle.std.specs.Prelude.{◌≡◌, ◌++◌, ◌∷◌, [], List, IfOk, OnOk, OnErr};
ghost use Rattle.ncc_tx.specs.declared.entry.Item.{Item};
ghost use Rattle.ncc_tx.specs.State.{after, stamp_at, stamps, state};

use crate::entry::Item;
use crate::validity::absorb;
use ncc_pack::Memory;
use ncc_store::Store;
use std::alloc::Global;

/// What is known of a place of a history.
#[derive(Clone, Copy, Debug, PartialEq, Eq)]
pub struct Stamp {
    /// The term of its item.
    pub term: u64,
    /// Whether its entry is valid at the store that the items before it leave.
    pub valid: bool,
}

/// Runs the entry of the next item over a store where it is valid, as `absorb` does, and gives the item's stamp. An `Err`
/// changes nothing.
pub fn stamp_item(alloc: Global, store: &mut Store, item: &Item) -> Result<Stamp, Memory>
    ensures stamp { IfOk result (λ s. s ≡ stamp_at store.old item.now) }
    ensures after { OnOk result (store.new ≡ after store.old item.now.entry) }
    ensures err { OnErr result (store.new ≡ store.old) }
{
    let valid = absorb(alloc, store, &item.entry)?;
    Ok(Stamp {
        term: item.term,
        valid,
    })
}

/// A history that grows by an item has one stamp more: that of the item at the store before it.
pub fn stamps_grow()
    ensures grows { (h : List Item) (i : Item) → stamps (h ++ i ∷ []) ≡ stamps h ++ stamp_at (state h) i ∷ [] }
{}
