//! When an entry is valid, and what it does to a store.

ghost use Rattle.std.specs.Prelude.{◌≡◌, ◌↔◌, ◌++◌, ◌∷◌, [], List, IsTrue, map, is_some, IfOk, IfSome, OnOk, OnErr};
ghost use Rattle.ncc_pack.specs.declared.value.Value.{Value};
ghost use Rattle.ncc_store.specs.declared.step.Step.{Step};
ghost use Rattle.ncc_store.specs.Graph.{Graph};
ghost use Rattle.ncc_store.specs.Delta.{IsOver, applied};
ghost use Rattle.ncc_store.specs.Exec.{call_of, exec};
ghost use Rattle.ncc_tx.specs.declared.entry.Entry.TheVariants as entry;
ghost use Rattle.ncc_tx.specs.declared.entry.Item.{Item};
ghost use Rattle.ncc_tx.specs.Equal.{equal_lists};
ghost use Rattle.ncc_tx.specs.State.{RunsTo, after, ended, gives, state, valid};

use crate::entry::Entry;
use ncc_pack::Memory;
use ncc_store::{Delta, Overlay, RowLists, RunError, Steps, Store};
use std::alloc::Global;

/// Says whether two lists of rows are equal, value by value.
fn are_equal(told: &RowLists, rows: &RowLists) -> bool
    ensures { result ≡ equal_lists told.now rows.now }
{
    told.equals(rows)
}

/// What a transaction changes where it is valid.
fn change_of(
    alloc: Global,
    store: &Store,
    steps: &Steps,
    told: &RowLists,
) -> Result<Option<Delta>, Memory>
    ensures none { IfOk result (λ d. is_some d ≡ gives told.now (exec store.now (map call_of steps.now))) }
    ensures some { IfOk result (λ o. IfSome o (λ d. (ended store.now (exec store.now (map call_of steps.now)) ≡ applied d store.now)
        × IsOver store.now d)) }
{
    match Overlay::run(alloc, store, steps) {
        Ok(ran) => {
            if are_equal(told, &ran.rows) {
                Ok(Some(ran.delta))
            } else {
                Ok(None)
            }
        }
        Err(RunError::Fault(_)) => Ok(None),
        Err(RunError::Memory) => Err(Memory),
    }
}

/// Says whether an entry is valid at a store. A Noop is. A transaction is exactly where its steps, run over the store,
/// meet no fault and give the rows that its client was told.
pub fn valid(alloc: Global, store: &Store, entry: &Entry) -> Result<bool, Memory>
    ensures exact { IfOk result (λ b. b ≡ valid store.now entry.now) }
{
    match entry {
        Entry::Noop => Ok(true),
        Entry::Tx { steps, told } => {
            let change = change_of(alloc, store, steps, told)?;
            Ok(change.is_some())
        }
    }
}

/// Runs an entry over a store where it is valid, and says whether it is. An entry that is not valid changes nothing, and
/// nor does an `Err`.
pub fn absorb(alloc: Global, store: &mut Store, entry: &Entry) -> Result<bool, Memory>
    ensures valid { IfOk result (λ b. b ≡ valid store.old entry.now) }
    ensures after { OnOk result (store.new ≡ after store.old entry.now) }
    ensures err { OnErr result (store.new ≡ store.old) }
{
    match entry {
        Entry::Noop => Ok(true),
        Entry::Tx { steps, told } => match change_of(alloc, store, steps, told)? {
            None => Ok(false),
            Some(delta) => {
                store.put_all(&delta)?;
                Ok(true)
            }
        },
    }
}

/// A transaction is valid exactly where running its steps gives the rows that were told, and no fault.
pub fn valid_means()
    ensures means { (g : Graph) (steps : List Step) (told : List (List (List Value))) → IsTrue (valid g (entry.Tx steps told))
        ↔ RunsTo g steps told }
{}

/// A history that grows by an item leaves the store after that item's run, where it is valid at the store before.
pub fn state_grows()
    ensures grows { (h : List Item) (i : Item) → state (h ++ i ∷ []) ≡ after (state h) i.entry }
{}

/// The test of rows is equality.
pub fn equal_is_same()
    ensures same { (a b : List (List (List Value))) → IsTrue (equal_lists a b) ↔ (a ≡ b) }
{}
