//! How a leader hands on its log: "AppendEntries RPC" at the leader, and what a replica asks for.

ghost use Rattle.std.specs.Prelude.{◌≡◌, ◌≤◌, ◌<◌, ◌^◌, ◌-◌, ◌++◌, ◌∷◌, ◌&&◌, [], nat_eq, nat_lt, IfOk, OnErr, OnOk, IsTrue, drop};
ghost use Rattle.std.specs.Prelude.{length, slice_index_or};
ghost use Rattle.ncc_raft.specs.declared.message.Body.TheVariants.{Append, Pull};
ghost use Rattle.ncc_tx.specs.Items.{entry_allowed};
ghost use Rattle.ncc_tx.specs.Kept.{term_at};
ghost use Rattle.ncc_raft.specs.Logs.{allowed_front};
ghost use Rattle.ncc_raft.specs.Core.{IsSeat};
ghost use Rattle.ncc_raft.specs.Member.{is_leader};
ghost use Rattle.ncc_raft.specs.State.{IsAdvanced, IsSoundAt, Made, append_reply_of, appends_of, beat_of, body_of, member_of};
ghost use Rattle.ncc_raft.specs.State.{noted_no_of, noted_yes_of};
ghost use Rattle.ncc_raft.specs.State.{propose_of, seat_of};
ghost use Rattle.ncc_raft.specs.Step.{may_add};

use crate::logs::Log;
use crate::message::{Body, Envelope, Envelopes, Note, Step};
use crate::slots::Places;
use crate::stand::{is_leader, one_letter, quiet, stand};
use crate::state::{Seat, Standing, State};
use ncc_pack::{Memory, Sequence};
use ncc_tx::{ChangeSet, Entries, Entry, Item};

/// What a leader says to a core of its log behind a place.
fn append_behind(term: u64, commit: u64, log: &Log, prev: u64) -> Result<Body, Memory>
    ensures body { IfOk result (λ b. b ≡ Append term prev (term_at log.now prev) commit (allowed_front (drop prev log.now))) }
{
    let items = log.front_behind(prev)?;
    Ok(Body::Append {
        term,
        prev,
        prev_term: log.term_at(prev),
        commit,
        items,
    })
}

/// To each other core the part of the log from its next place on.
#[tactic(auto, using(crate::proofs::Appended::appends_none, crate::proofs::Appended::appends_all))]
pub(crate) fn appends(
    seat: Seat,
    term: u64,
    commit: u64,
    log: &Log,
    next: &Places,
) -> Result<Envelopes, Memory>
    requires cores { seat.cores ≤ 7 }
    requires next { length next.now ≡ seat.cores }
    ensures letters { IfOk result (λ es. es ≡ appends_of seat term commit log.now next.now) }
{
    let mut out = Sequence::new(log.allocator());
    for i in 0..seat.cores {
        let core = i + 1;
        if core != seat.id {
            let body = append_behind(term, commit, log, next.of(core).saturating_sub(1))?;
            out.push(Envelope {
                from: seat.id,
                to: core,
                body,
            })?;
        }
    }
    Ok(out)
}

/// Appends an item, and sends to the others. It takes the item back where memory runs out.
#[tactic(auto, using(crate::proofs::Appended::cut_back))]
pub(crate) fn append_one(
    seat: Seat,
    term: u64,
    commit: u64,
    log: &mut Log,
    next: &Places,
    item: Item,
) -> Result<(Entries, Envelopes), Memory>
    requires allowed { IsTrue (entry_allowed item.entry) }
    requires cores { seat.cores ≤ 7 }
    requires next { length next.now ≡ seat.cores }
    ensures log { OnOk result (log.new ≡ log.old ++ item ∷ []) }
    ensures items { IfOk result (λ r. r.0 ≡ item ∷ []) }
    ensures sent { IfOk result (λ r. r.1 ≡ appends_of seat term commit log.new next.now) }
    ensures err { OnErr result (log.new ≡ log.old) }
{
    let keep = log.len();
    let mut items = Sequence::new(log.allocator());
    items.push(item.copy()?)?;
    log.push(item)?;
    match appends(seat, term, commit, log, next) {
        Ok(out) => Ok((items, out)),
        Err(error) => {
            log.cut(keep as usize);
            Err(error)
        }
    }
}

/// A leader sends to each other core.
#[tactic(auto, using(crate::proofs::Bounds::next_in))]
pub(crate) fn on_beat(seat: Seat, state: &mut State) -> Result<Step, Memory>
    requires seat { IsSeat (seat_of seat) }
    requires sound { IsSoundAt seat state.old.standing state.old }
    ensures ok { IfOk result (λ s. Made state.old state.new (beat_of seat state.old) s) }
    ensures err { OnErr result (state.new ≡ state.old) }
{
    let was = state.standing;
    if is_leader(was.role) {
        let out = appends(seat, was.term, state.commit, &state.log, &state.next)?;
        Ok(stand(state, was, out, Note::Nothing))
    } else {
        Ok(quiet(state, was, Note::Nothing))
    }
}

/// A leader whose log has room appends an entry, and sends to each other core.
#[tactic(auto, using(crate::proofs::Appended::propose_made, crate::proofs::Bounds::next_in))]
pub(crate) fn on_propose(seat: Seat, state: &mut State, entry: Entry) -> Result<Step, Memory>
    requires seat { IsSeat (seat_of seat) }
    requires sound { IsSoundAt seat state.old.standing state.old }
    requires room { IsTrue (may_add (seat_of seat) (member_of state.old)) }
    requires allowed { IsTrue (entry_allowed entry) }
    ensures ok { IfOk result (λ s. Made state.old state.new (propose_of seat state.old entry) s) }
    ensures err { OnErr result (state.new ≡ state.old) }
{
    let standing = state.standing;
    let keep = state.log.len();
    let item = Item {
        term: standing.term,
        entry,
    };
    let commit = state.commit;
    let (items, out) = append_one(
        seat,
        standing.term,
        commit,
        &mut state.log,
        &state.next,
        item,
    )?;
    let change = ChangeSet {
        term: standing.term,
        vote: standing.vote,
        keep,
        items,
    };
    Ok(Step {
        change: Some(change),
        out,
        note: Note::Nothing,
    })
}

/// After a yes a core has the log up to the place.
fn note_yes(standing: Standing, state: &mut State, from: u8, place: u64) -> Step
    requires some { 1 ≤ from }
    requires next { from ≤ length state.old.next }
    requires matches { from ≤ length state.old.matches }
    requires known { slice_index_or state.old.matches (from - 1) 0 ≤ length state.old.log }
    requires few { length state.old.log < 2 ^ 62 }
    ensures made { Made state.old state.new (noted_yes_of standing state.old from place) result }
{
    let known = state.matches.of(from);
    let has = known.max(place.min(state.log.len()));
    state.matches.set(from, has);
    state.next.set(from, has + 1);
    quiet(state, standing, Note::Nothing)
}

/// After a no the leader goes back, and sends once more.
fn note_no(
    seat: Seat,
    standing: Standing,
    state: &mut State,
    from: u8,
    place: u64,
) -> Result<Step, Memory>
    requires some { 1 ≤ from }
    requires next { from ≤ length state.old.next }
    requires matches { from ≤ length state.old.matches }
    requires known { slice_index_or state.old.matches (from - 1) 0 ≤ length state.old.log }
    requires few { length state.old.log < 2 ^ 62 }
    ensures ok { IfOk result (λ s. Made state.old state.new (noted_no_of seat standing state.old from place) s) }
    ensures err { OnErr result (state.new ≡ state.old) }
{
    let known = state.matches.of(from);
    let before = state.next.of(from).saturating_sub(1);
    let prev = known.max(before.min(place.min(state.log.len())));
    let body = append_behind(standing.term, state.commit, &state.log, prev)?;
    let out = one_letter(state.log.allocator(), seat.id, from, body)?;
    state.next.set(from, prev + 1);
    Ok(stand(state, standing, out, Note::Nothing))
}

/// Says whether it leads this term.
fn leads_in(standing: Standing, term: u64) -> bool
    ensures exact { result ≡ (is_leader standing.role && nat_eq standing.term term) }
{
    is_leader(standing.role) && standing.term == term
}

/// A leader notes the answer of a core.
#[tactic(auto, using(crate::proofs::Bounds::of_other))]
pub(crate) fn on_append_reply(
    seat: Seat,
    standing: Standing,
    state: &mut State,
    from: u8,
    term: u64,
    yes: bool,
    place: u64,
) -> Result<Step, Memory>
    requires seat { IsSeat (seat_of seat) }
    requires sound { IsSoundAt seat standing state.old }
    requires some { 1 ≤ from }
    requires from { from ≤ seat.cores }
    ensures ok { IfOk result (λ s. Made state.old state.new (append_reply_of seat standing state.old from term yes place) s) }
    ensures err { OnErr result (state.new ≡ state.old) }
{
    if !leads_in(standing, term) {
        return Ok(quiet(state, standing, Note::Nothing));
    }
    if yes {
        Ok(note_yes(standing, state, from, place))
    } else {
        note_no(seat, standing, state, from, place)
    }
}

/// To a member that has so many items, what is applied behind them.
#[tactic(auto, using(crate::proofs::Bounds::commit_at))]
pub(crate) fn on_pull(
    seat: Seat,
    standing: Standing,
    state: &mut State,
    from: u8,
    have: u64,
) -> Result<Step, Memory>
    requires have { have < 2 ^ 62 }
    requires sound { IsSoundAt seat standing state.old }
    ensures ok { IfOk result (λ s. Made state.old state.new (body_of seat standing state.old from (Pull have)) s) }
    ensures err { OnErr result (state.new ≡ state.old) }
{
    let items = state.log.front_between(have, state.commit)?;
    let body = Body::Batch {
        first: have + 1,
        items,
    };
    let out = one_letter(state.log.allocator(), seat.id, from, body)?;
    Ok(stand(state, standing, out, Note::Nothing))
}

/// Says whether a place is behind the commit and its item of the own term.
fn is_own(state: &State, place: u64) -> bool
    ensures exact { result ≡ (nat_lt state.now.commit place && nat_eq (term_at state.now.log place) state.now.standing.term) }
{
    state.commit < place && state.log.term_at(place) == state.standing.term
}

/// The commit of a leader becomes what a majority has, where that is of its own term. Where it is of an older term no place
/// before it counts either, since terms don't fall.
#[tactic(auto, using(crate::proofs::Advancing::advance_takes, crate::proofs::Advancing::advance_keeps, crate::proofs::Bounds::match_few))]
pub(crate) fn advance(seat: Seat, state: &mut State)
    requires seat { IsSeat (seat_of seat) }
    requires sound { IsSoundAt seat state.old.standing state.old }
    requires leads { IsTrue (is_leader state.old.standing.role) }
    ensures advanced { IsAdvanced seat state.old state.new }
{
    let place = state.matches.middle(seat.id, state.log.len());
    if is_own(state, place) {
        state.commit = place;
    }
}
