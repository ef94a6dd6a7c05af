//! The plain view: a store, and the stamps of the places so far.

ghost use Rattle.std.specs.Prelude.{◌≡◌, ◌≤◌, ◌↔◌, ◌++◌, ◌∷◌, [], List, length, map, IfOk, IsSome, OnOk, OnErr};
ghost use Rattle.ncc_store.specs.Answers.{Gives};
ghost use Rattle.ncc_store.specs.Delta.{IsLeast, IsOver, applied};
ghost use Rattle.ncc_store.specs.Exec.{call_of, exec};
ghost use Rattle.ncc_store.specs.Laws.{GoesOn};
ghost use Rattle.ncc_tx.specs.declared.entry.Item.{Item};
ghost use Rattle.ncc_tx.specs.State.{stamps, state};
ghost use Rattle.ncc_apply.specs.View.{Alike, stamp_of};
ghost use Rattle.ncc_apply.specs.Shelf.{Stands};
ghost use Rattle.ncc_apply.specs.Meant.{alike};

use crate::runs::{Run, add, last_place, stamp_at};
use crate::view::View;
use ncc_pack::Memory;
use ncc_store::{Delta, Overlay, Ran, RunError, Steps, Store};
use ncc_tx::{Item, Stamp, stamp_item, stamps_grow, state_grows};
use std::alloc::{AllocError, Global};
use std::marker::Model;

/// The store that a list of items leaves, and the stamps of its places. It keeps no item, and one record for places in a row
/// whose stamps are equal.
#[derive(Drop)]
pub struct Shelf {
    store: Store,
    runs: Vec<Run>,
    alloc: Global,
}

impl Model for Shelf {
    ghost use Rattle.ncc_apply.specs.Shelf.{Shown};

    ghost Value = { Shown };

    ghost use Rattle.std.specs.Coded.{codes};
    ghost use Rattle.ncc_pack.specs.contracts.value.Value as e;

    ghost coded = { Prim.hlevel (codes, e.the_row.coded) };

    ghost use Rattle.ncc_apply.specs.Runs.{IsRising, unrolled};

    ghost view = { λ s. record { graph = s.store; stamps = unrolled 0 s.runs.items } };

    ghost invariant = { λ s. IsRising 0 s.runs.items };
}

impl Shelf {
    /// A shelf of no item.
    pub fn new(alloc: Global) -> Result<Shelf, Memory>
        ensures empty { IfOk result (λ s. Stands s []) }
    {
        let store = Store::new(alloc)?;
        Ok(Shelf {
            store,
            runs: Vec::new(alloc),
            alloc,
        })
    }

    /// Adds an item behind those so far: it runs its entry where that is valid. It takes the time of that run, whatever the
    /// number of items. An `Err` changes nothing. There is no limit of places but that their number is a `u64`.
    pub fn push(&mut self, item: &Item) -> Result<(), Memory>
        ensures ok { OnOk result ((h : List Item) → Stands self.old h → Stands self.new (h ++ item.now ∷ [])) }
        ensures err { OnErr result (self.new ≡ self.old) }
    {
        if last_place(self.runs.as_slice()) == u64::MAX {
            return Err(AllocError);
        }
        // With this room nothing fails once the store has changed.
        self.runs.reserve(1)?;
        let stamp = stamp_item(self.alloc, &mut self.store, item)?;
        add(&mut self.runs, stamp);
        state_grows();
        stamps_grow();
        Ok(())
    }

    /// Goes on from what earlier steps would change, which is moved: it runs these steps over the store that the items leave and those
    /// changes, and changes nothing. The rows are those of these steps alone, and the delta is that of all.
    pub fn run_on(&self, alloc: Global, earlier: Delta, steps: &Steps) -> Result<Ran, RunError>
        requires over { (h : List Item) × Stands self.now h × IsOver (state h) earlier }
        // The rows and the store after the last step, or the first fault, are those of the calls over the store that the earlier delta
        // leaves.
        ensures exact { (h : List Item) → Stands self.now h → Gives (λ r. record { rows = r.rows; graph = applied r.delta (state h) })
            result (exec (applied earlier (state h)) (map call_of steps.now)) }
        // What all steps would change can be put into an equal store.
        ensures over { (h : List Item) → Stands self.now h → IfOk result (λ r. IsOver (state h) r.delta) }
        // It is the least: no node in it is as the store has it.
        ensures least { (h : List Item) → Stands self.now h → IfOk result (λ r. IsLeast (state h) r.delta) }
        // It is the run of all: of any calls that leave that store, and then of these.
        ensures all { (h : List Item) → Stands self.now h → GoesOn (state h) earlier (map call_of steps.now) result }
    {
        Overlay::go_on(alloc, &self.store, earlier, steps)
    }
}

impl View for Shelf {
    ghost stands = { Stands };

    fn at(&self) -> u64 {
        last_place(self.runs.as_slice())
    }

    fn stamp(&self, place: u64) -> Option<Stamp> {
        stamp_at(self.runs.as_slice(), place)
    }

    fn run(&self, alloc: Global, steps: &Steps) -> Result<Ran, RunError> {
        Overlay::run(alloc, &self.store, steps)
    }

    ghost alike = { alike };
}
