//! What holds of every run.

ghost use Rattle.std.specs.Prelude.{◌≡◌};
ghost use Rattle.ncc_store.specs.Exec.{call_of, run, step};
ghost use Rattle.ncc_store.specs.Graph.{Graph};
ghost use Rattle.ncc_store.specs.Laws.{MergesOnce, NextNeverFalls, OneDelta, OneListACall};
ghost use Rattle.ncc_store.specs.Laws.{ReadingChangesNothing, RowsKeep, RunsJoin, StaysPlaced};

use crate::step::Step;

/// Running one list of calls and then another over the store behind it is running both, as one list.
pub fn runs_join()
    ensures joined { RunsJoin }
{}

/// A run has one list of rows for each call.
pub fn one_list_a_call()
    ensures number { OneListACall }
{}

/// The next id never falls. So no id is given twice.
pub fn next_never_falls()
    ensures next { NextNeverFalls }
{}

/// Ids stay in their order, from 0 and below the next one, which is at most 2^62.
pub fn ids_stay_placed()
    ensures placed { StaysPlaced }
{}

/// A statement that does not write leaves the store.
pub fn reading_changes_nothing()
    ensures same { ReadingChangesNothing }
{}

/// A MERGE without SET that ran makes nothing where it is run again: it leaves the store, and gives the same rows.
pub fn merges_once()
    ensures again { MergesOnce }
{}

/// The rows of each call fit, and keep the limits of one step.
pub fn rows_are_kept()
    ensures keep { RowsKeep }
{}

/// A step is its call: the call does what the step's statement does with its parameters.
pub fn step_is_its_call(made: &Step)
    ensures same { (g : Graph) → step g (call_of made.now) ≡ run g made.now.params made.now.statement }
{}

/// Between two stores there is one delta that may be put over the first and is the least: no other leaves the second. So
/// what the steps of a run changed is told in one way.
pub fn one_delta()
    ensures one { OneDelta }
{}
