//! How a member answers a question.

ghost use Rattle.std.specs.Prelude.{◌≡◌, ◌≤◌, ◌&&◌, ◌++◌, ◌∷◌, [], not, List, map, length, IfOk};
ghost use Rattle.ncc_wait.specs.Waiting.{outcome_of};
ghost use Rattle.ncc_store.specs.declared.call.Call.{Call as Calls};
ghost use Rattle.ncc_store.specs.Exec.{call_of, exec};
ghost use Rattle.ncc_tx.specs.State.{state};
ghost use Rattle.ncc_tx.specs.declared.entry.Item.{Item as Items};
ghost use Rattle.ncc_apply.specs.Shelf.{Stands as ShelfStands};
ghost use Rattle.ncc_session.specs.Core.{question_of};
ghost use Rattle.ncc_session.specs.Question.{run, call_writes, last_writes};
ghost use Rattle.ncc_clients.specs.Run.{Client, tells, answers, enters, runs, ran, leaves, last_rows, lands, found_at};
ghost use Rattle.ncc_world.specs.Earlier.{IsFrom, Left};
ghost use Rattle.ncc_world.specs.Setting.{Seats, lists_of, cluster_of, list_at};
ghost use Rattle.ncc_world.specs.Happening.{WorldRun};
ghost use Rattle.ncc_world.specs.World.{AreMembers, placing_of};
ghost use Rattle.ncc_world.specs.Parts.{IsAskedOf, KeepsNothing, LeftIn, RunsToLast, members_in, placed_at, reply_in};

use crate::earlier::Earlier;
use crate::members::Members;
use crate::served::ProposedAt;
use crate::setup::Setup;
use ncc_apply::{Shelf, Stamp, View};
use ncc_pack::{Memory, Rows, Sequence};
use ncc_session::{Ask, Fact};
use ncc_store::{Delta, Ran, RowLists, RunError, Step, Steps};
use ncc_wait::{Outcome, outcome};
use std::alloc::{AllocError, Global};

/// What a member does with the question of a connection.
#[derive(Drop)]
pub(crate) enum Reply {
    /// It waits.
    Waits,
    /// It is answered. What the steps left that were run for it is kept.
    Tells(Fact, Option<Earlier>),
    /// Its entry is proposed.
    Proposes,
}

// Whether a transaction may begin.
fn enter(at: u64, need: u64, now: u64, deadline: u64) -> Reply
    ensures exact { reply_in result ≡ enters at need now (outcome_of at need now deadline) }
    ensures nothing { KeepsNothing result }
{
    match outcome(at, need, now, deadline) {
        Outcome::Ready => Reply::Tells(Fact::Entered { at }, None),
        Outcome::NotYet => Reply::Waits,
        Outcome::Late => Reply::Tells(Fact::Late { need, at, now }, None),
    }
}

fn step_writes(step: &Step) -> bool
    ensures { result ≡ call_writes (call_of step.now) }
{
    step.statement.writes()
}

// Says whether the last step writes.
fn is_write(steps: &[Step]) -> bool
    ensures { result ≡ last_writes (map call_of steps.now) }
{
    match steps.last() {
        Some(step) => step_writes(step),
        None => false,
    }
}

// The rows of the last step.
fn last_of(alloc: Global, lists: RowLists) -> Rows
    ensures { result ≡ last_rows lists }
{
    let mut lists = lists.into_vec();
    match lists.pop() {
        Some(rows) => rows,
        None => Sequence::new(alloc),
    }
}

// The last of some steps alone.
fn last_alone(alloc: Global, steps: &[Step]) -> Result<Steps, Memory>
    ensures { IfOk result (λ last. (before : List Calls) (call : Calls) → map call_of steps.now ≡ before ++ call ∷ [] →
        map call_of last ≡ call ∷ []) }
{
    let mut alone = Sequence::new(alloc);
    if let Some(step) = steps.last() {
        alone.push(step.copy()?)?;
    }
    Ok(alone)
}

// Runs the last step behind what those before it left.
fn run_last(alloc: Global, shelf: &Shelf, earlier: Delta, steps: &Steps) -> Result<Ran, RunError>
    requires left { (h : List Items) × ShelfStands shelf.now h × (before : List Calls) × (call : Calls)
        × (map call_of steps.now ≡ before ++ call ∷ []) × Left (state h) before earlier }
    ensures ran { (h : List Items) → ShelfStands shelf.now h → RunsToLast (state h) (map call_of steps.now) result }
{
    let last = last_alone(alloc, steps.as_slice())?;
    shelf.run_on(alloc, earlier, &last)
}

// Runs steps: all, or the last alone where what those before it left is kept of just the entries that the member has applied.
fn run_steps(
    alloc: Global,
    shelf: &Shelf,
    earlier: Option<Earlier>,
    steps: &Steps,
) -> Result<Ran, RunError>
    requires from { (h : List Items) × ShelfStands shelf.now h × IsFrom h (map call_of steps.now) earlier }
    ensures ran { (h : List Items) → ShelfStands shelf.now h → RunsToLast (state h) (map call_of steps.now) result }
{
    match earlier {
        Some(Earlier { at, delta }) if at == shelf.at() => run_last(alloc, shelf, delta, steps),
        _ => shelf.run(alloc, steps),
    }
}

// What steps give over the store of a member.
fn run(
    alloc: Global,
    shelf: &Shelf,
    earlier: Option<Earlier>,
    steps: &Steps,
) -> Result<Reply, Memory>
    requires from { (h : List Items) × ShelfStands shelf.now h × IsFrom h (map call_of steps.now) earlier }
    ensures exact { IfOk result (λ a. (h : List Items) → ShelfStands shelf.now h →
        reply_in a ≡ tells (ran (length h) (exec (state h) (map call_of steps.now)))) }
    ensures left { IfOk result (λ a. (h : List Items) → ShelfStands shelf.now h → LeftIn h (run (map call_of steps.now)) a) }
{
    let at = shelf.at();
    match run_steps(alloc, shelf, earlier, steps) {
        Ok(Ran { rows, delta }) => Ok(Reply::Tells(
            Fact::Rows {
                at,
                rows: last_of(alloc, rows),
            },
            Some(Earlier { at, delta }),
        )),
        Err(RunError::Fault(fault)) => Ok(Reply::Tells(Fact::Faulted { at, fault }, None)),
        Err(RunError::Memory) => Err(AllocError),
    }
}

// Says whether a member leaves the last step to the leader.
fn is_refused(leads: bool, steps: &Steps) -> bool
    ensures { result ≡ (last_writes (map call_of steps.now) && not leads) }
{
    is_write(steps.as_slice()) && !leads
}

// The rows of the last step: a member that does not lead runs none that writes.
fn rows(
    alloc: Global,
    shelf: &Shelf,
    leads: bool,
    earlier: Option<Earlier>,
    steps: &Steps,
) -> Result<Reply, Memory>
    requires from { (h : List Items) × ShelfStands shelf.now h × IsFrom h (map call_of steps.now) earlier }
    ensures exact { IfOk result (λ r. (h : List Items) → ShelfStands shelf.now h →
        reply_in r ≡ runs leads h (map call_of steps.now)) }
    ensures left { IfOk result (λ r. (h : List Items) → ShelfStands shelf.now h → LeftIn h (run (map call_of steps.now)) r) }
{
    if is_refused(leads, steps) {
        return Ok(Reply::Tells(Fact::Elsewhere, None));
    }
    run(alloc, shelf, earlier, steps)
}

// What stands at the place of a proposal.
fn stamped(place: ProposedAt, stamp: Stamp) -> Fact
    ensures { result ≡ found_at (placed_at place) stamp }
{
    if stamp.term != place.term {
        Fact::Replaced {
            place: place.place,
            mine: place.term,
            found: stamp.term,
        }
    } else if stamp.valid {
        Fact::Placed { place: place.place }
    } else {
        Fact::Stale { place: place.place }
    }
}

// Whether an entry that was proposed is applied.
fn land(shelf: &Shelf, place: ProposedAt, now: u64, deadline: u64) -> Reply
    ensures exact { (h : List Items) → ShelfStands shelf.now h →
        reply_in result ≡ lands h now (placed_at place) (outcome_of (length h) place.place now deadline) }
    ensures nothing { KeepsNothing result }
{
    let at = shelf.at();
    match outcome(at, place.place, now, deadline) {
        Outcome::NotYet => Reply::Waits,
        Outcome::Late => Reply::Tells(
            Fact::Unsure {
                place: place.place,
                at,
                now,
            },
            None,
        ),
        Outcome::Ready => match shelf.stamp(place.place) {
            Some(stamp) => Reply::Tells(stamped(place, stamp), None),
            None => Reply::Waits,
        },
    }
}

// Whether a transaction is done.
fn leave(shelf: &Shelf, writes: bool, placing: Option<ProposedAt>, now: u64, deadline: u64) -> Reply
    ensures exact { (h : List Items) → ShelfStands shelf.now h →
        reply_in result ≡ leaves h now deadline writes (placing_of placing) }
    ensures nothing { KeepsNothing result }
{
    if !writes {
        return Reply::Tells(Fact::Done { at: shelf.at() }, None);
    }
    match placing {
        None => Reply::Proposes,
        Some(place) => land(shelf, place, now, deadline),
    }
}

/// What a member, numbered from 1, does with a question at a moment, where it waits until a deadline, and where its entry was proposed.
pub(crate) fn answered(
    alloc: Global,
    setup: &Setup,
    members: &Members,
    member: u8,
    ask: &Ask,
    earlier: Option<Earlier>,
    placing: Option<ProposedAt>,
    now: u64,
    deadline: u64,
) -> Result<Reply, Memory>
    requires from { (seats : Seats) × (h : List Items) × AreMembers setup.now (members_in members.now) seats h
        × ((calls : List Calls) → question_of ask.now ≡ run calls → IsFrom (list_at (lists_of seats) member) calls earlier) }
    requires there { (1 ≤ member) × (member ≤ length members.now.list.shelves.items) }
    ensures exact { IfOk result (λ a. (r : WorldRun) (c : Client) → AreMembers setup.now (members_in members.now) r.members r.history →
        IsAskedOf setup.now now member deadline placing r c →
        reply_in a ≡ answers (cluster_of setup.now) r c (question_of ask.now)) }
    ensures left { IfOk result (λ a. (seats : Seats) (h : List Items) → AreMembers setup.now (members_in members.now) seats h →
        LeftIn (list_at (lists_of seats) member) (question_of ask.now) a) }
{
    let shelf = members.shelf(member as usize - 1);
    match ask {
        Ask::Enter { need } => Ok(enter(shelf.at(), *need, now, deadline)),
        Ask::Run { steps } => rows(alloc, shelf, members.leads(member), earlier, steps),
        Ask::Leave { .. } => Ok(leave(shelf, ask.writes(), placing, now, deadline)),
        Ask::Route => Ok(Reply::Tells(
            Fact::Routed {
                leader: members.leader(setup, member),
            },
            None,
        )),
    }
}
