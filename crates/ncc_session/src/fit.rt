//! Which facts answer which question.

ghost use Rattle.std.specs.Prelude.{◌≡◌, map};
ghost use Rattle.ncc_store.specs.Exec.{call_of};
ghost use Rattle.ncc_session.specs.Core.{question_of, leave_of};
ghost use Rattle.ncc_session.specs.Question.{call_writes, ends_writing, last_writes, some_writes, fits, fits_enter, fits_run, fits_leave, fits_route};

use crate::ask::{Ask, Fact};
use ncc_store::{Step, Steps, rows_keep};
use ncc_tx::Entry;

fn step_writes(step: &Step) -> bool
    ensures { result ≡ call_writes (call_of step.now) }
{
    step.statement.writes()
}

/// Says whether some step writes. It takes no memory.
pub fn some_writes(steps: &[Step]) -> bool
    ensures { result ≡ some_writes (map call_of steps.now) }
{
    for step in steps {
        if step_writes(step) {
            return true;
        }
    }
    false
}

/// Says whether the last step writes.
fn last_writes(steps: &[Step]) -> bool
    ensures { result ≡ last_writes (map call_of steps.now) }
{
    match steps.last() {
        Some(step) => step_writes(step),
        None => false,
    }
}

fn fits_enter(need: u64, fact: &Fact) -> bool
    ensures { result ≡ fits_enter need fact.now }
{
    match fact {
        Fact::Entered { .. } => true,
        Fact::Late { need: late, .. } => need == *late,
        _ => false,
    }
}

fn fits_run(steps: &Steps, fact: &Fact) -> bool
    ensures { result ≡ fits_run (map call_of steps.now) fact.now }
{
    match fact {
        Fact::Rows { rows, .. } => rows_keep(rows),
        Fact::Faulted { .. } => true,
        Fact::Elsewhere => last_writes(steps.as_slice()),
        _ => false,
    }
}

fn fits_leave(writing: bool, fact: &Fact) -> bool
    ensures { result ≡ fits_leave writing fact.now }
{
    match fact {
        Fact::Done { .. } => !writing,
        Fact::Placed { .. } => writing,
        Fact::Stale { .. } => writing,
        Fact::Replaced { .. } => writing,
        Fact::Unsure { .. } => writing,
        Fact::Elsewhere => writing,
        Fact::Full { .. } => writing,
        _ => false,
    }
}

fn fits_entry(entry: &Entry, fact: &Fact) -> bool
    ensures { result ≡ fits (leave_of entry.now) fact.now }
{
    match entry {
        Entry::Noop => fits_leave(false, fact),
        Entry::Tx { steps, .. } => fits_leave(some_writes(steps.as_slice()), fact),
    }
}

fn fits_route(fact: &Fact) -> bool
    ensures { result ≡ fits_route fact.now }
{
    match fact {
        Fact::Routed { .. } => true,
        _ => false,
    }
}

/// Says whether a fact answers a question. It takes no memory.
pub fn fits(ask: &Ask, fact: &Fact) -> bool
    ensures { result ≡ fits (question_of ask.now) fact.now }
{
    match ask {
        Ask::Enter { need } => fits_enter(*need, fact),
        Ask::Run { steps } => fits_run(steps, fact),
        Ask::Leave { entry } => fits_entry(entry, fact),
        Ask::Route => fits_route(fact),
    }
}

fn entry_writes(entry: &Entry) -> bool
    ensures { result ≡ ends_writing (leave_of entry.now) }
{
    match entry {
        Entry::Noop => false,
        Entry::Tx { steps, .. } => some_writes(steps.as_slice()),
    }
}

impl Ask {
    /// Says whether a transaction is to end of which some step writes. It takes no memory.
    pub fn writes(&self) -> bool
        ensures exact { result ≡ ends_writing (question_of self.now) }
    {
        match self {
            Ask::Enter { .. } => false,
            Ask::Run { .. } => false,
            Ask::Leave { entry } => entry_writes(entry),
            Ask::Route => false,
        }
    }
}
