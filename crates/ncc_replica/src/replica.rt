//! Replicas.

ghost use Rattle.std.specs.Prelude.{◌≡◌, ◌↔◌, ◌≤◌, ◌<◌, ◌-◌, ◌^◌, ℕ, [], IfNone, IfOk, IfSome, OnErr, OnOk, Err, None, Some, length, slice_get};
ghost use Rattle.ncc_raft.specs.Member.{letter};
ghost use Rattle.ncc_raft.specs.Pulled.{taken, Grown};
ghost use Rattle.ncc_raft.specs.Pulled as pulled;
ghost use Rattle.ncc_raft.specs.declared.message.Body.TheVariants.{Pull};
ghost use Rattle.ncc_replica.specs.declared.replica.TakeError.TheVariants.{Contradicted, Gap, Memory, Stale};
ghost use Rattle.ncc_replica.specs.Told.{told};

use ncc_pack::Memory;
use ncc_raft::{Body, Entries, Envelope, Item, first_conflict};
use ncc_tx::copy_items;
use std::alloc::{AllocError, Global};
use std::marker::Model;
use thiserror::Error;

/// Why items are not taken. Places count from 1.
#[derive(Clone, Copy, Debug, PartialEq, Eq, Error)]
pub enum TakeError {
    /// The items begin past the end.
    #[error("a gap: {have} items, and the next from place {first}")]
    Gap {
        /// How many items it has.
        have: u64,
        /// The place of the first item that came.
        first: u64,
    },
    /// It has all these places.
    #[error("nothing new: {have} items, and the last that came for place {last}")]
    Stale {
        /// How many items it has.
        have: u64,
        /// The place of the last item that came.
        last: u64,
    },
    /// At a place that it has the items have another term.
    #[error("contradicted at place {place}: kept term {kept}, told {told}")]
    Contradicted {
        /// The first such place.
        place: u64,
        /// The term that it has there.
        kept: u64,
        /// The term that came.
        told: u64,
    },
    /// Out of memory.
    #[error("out of memory")]
    Memory,
}

impl From<AllocError> for TakeError {
    ghost from_gives = { λ _ e. e ≡ Memory };

    fn from(_e: AllocError) -> TakeError {
        TakeError::Memory
    }
}

/// A read replica. A contract sees its number and the list of its items.
#[derive(Drop)]
pub struct Replica {
    id: u8,
    items: Vec<Item>,
}

impl Model for Replica {
    ghost use Rattle.ncc_replica.specs.Held.{Held};

    ghost Value = { Held };

    ghost use Rattle.std.specs.Coded.{codes};
    ghost use Rattle.ncc_tx.specs.contracts.entry.Item as e;

    ghost coded = { Prim.hlevel (codes, e.the_row.coded) };

    ghost view = { λ r. record { id = r.id; log = r.items.items } };
}

/// Why items from a place on are not taken, where they are not.
#[tactic(auto, using(crate::proofs::Judged::is_gap, crate::proofs::Judged::is_stale, crate::proofs::Judged::is_clash, crate::proofs::Judged::is_none))]
fn judged(log: &[Item], first: u64, items: &[Item]) -> Option<TakeError>
    requires low { 1 ≤ first }
    requires high { first ≤ 2 ^ 62 }
    requires few { length items.now < 2 ^ 63 }
    ensures told { result ≡ told (taken log.now first items.now) }
{
    let have = log.len() as u64;
    if first > have + 1 {
        return Some(TakeError::Gap { have, first });
    }
    let end = first + items.len() as u64;
    if end <= have + 1 {
        return Some(TakeError::Stale {
            have,
            last: end - 1,
        });
    }
    match first_conflict(log, have, first, items) {
        Some(clash) => Some(TakeError::Contradicted {
            place: clash.place,
            kept: clash.kept,
            told: clash.told,
        }),
        None => None,
    }
}

/// Appends those items that are behind its own, where nothing speaks against it. An `Err` changes nothing.
#[tactic(auto, using(crate::proofs::Judged::begins_within, crate::proofs::Judged::known_within, crate::proofs::Judged::grown_by))]
fn grow(log: &mut Vec<Item>, first: u64, items: &[Item]) -> Result<(), Memory>
    requires taken { None ≡ told (taken log.old.items first items.now) }
    ensures ok { OnOk result (taken log.old.items first items.now ≡ Grown log.new.items) }
    ensures err { OnErr result (log.new.items ≡ log.old.items) }
{
    let known = log.len() + 1 - first as usize;
    let mut more = copy_items(*log.allocator(), &items[known..])?.into_vec();
    log.append(&mut more)
}

impl Replica {
    /// A replica of this number, without an item. It takes no memory.
    pub fn new(alloc: Global, id: u8) -> Result<Replica, Memory>
        ensures empty { IfOk result (λ r. r ≡ record { id = id; log = [] }) }
    {
        Ok(Replica {
            id,
            items: Vec::new(alloc),
        })
    }

    /// How many items it has.
    pub fn at(&self) -> u64
        ensures at { result ≡ length self.now.log }
    {
        self.items.len() as u64
    }

    /// What it asks a core. It takes no memory.
    pub fn ask(&self, core: u8) -> Envelope
        ensures pull { result ≡ letter self.now.id core (Pull (length self.now.log)) }
    {
        Envelope {
            from: self.id,
            to: core,
            body: Body::Pull {
                have: self.items.len() as u64,
            },
        }
    }

    /// The item at a place, from 1.
    pub fn item(&self, place: u64) -> Option<&Item>
        ensures found { IfSome result (λ i. (1 ≤ place) × (Some i.now ≡ slice_get self.now.log (place - 1))) }
        ensures none { IfNone result (1 ≤ place → place ≤ length self.now.log → ⊥) }
    {
        if place == 0 || place > self.items.len() as u64 {
            None
        } else {
            Some(&self.items.as_slice()[place as usize - 1])
        }
    }

    /// Takes items that stand from a place on, which is from 1 to 2^62: those behind its own are appended. Each refusal changes
    /// nothing, and all but `Memory` take no memory.
    pub fn take(&mut self, first: u64, items: &Entries) -> Result<(), TakeError>
        requires low { 1 ≤ first }
        requires high { first ≤ 2 ^ 62 }
        ensures id { self.new.id ≡ self.old.id }
        ensures grown { OnOk result (taken self.old.log first items.now ≡ Grown self.new.log) }
        ensures gap { (have at : ℕ) → (result ≡ Err (Gap have at)) ↔ (taken self.old.log first items.now ≡ pulled.Gap have at) }
        ensures stale { (have last : ℕ) → (result ≡ Err (Stale have last)) ↔ (taken self.old.log first items.now ≡ pulled.Stale have last) }
        ensures contradicted { (place kept told : ℕ) → (result ≡ Err (Contradicted place kept told))
            ↔ (taken self.old.log first items.now ≡ pulled.Contradicted (record { place = place; kept = kept; told = told })) }
        ensures err { OnErr result (self.new ≡ self.old) }
    {
        let items = items.as_slice();
        if let Some(error) = judged(self.items.as_slice(), first, items) {
            return Err(error);
        }
        match grow(&mut self.items, first, items) {
            Ok(()) => {}
            Err(_) => return Err(TakeError::Memory),
        }
        Ok(())
    }
}
