//! One step: the rules by events and kinds of message.

ghost use Rattle.std.specs.Prelude.{◌≡◌, IfOk, IsTrue, OnErr};
ghost use Rattle.ncc_tx.specs.Items.{entry_allowed};
ghost use Rattle.ncc_raft.specs.Carried.{Carried, IsWithin};
ghost use Rattle.ncc_raft.specs.Core.{IsSeat};
ghost use Rattle.ncc_raft.specs.Member.{Timeout, Beat, Receive, Propose, is_core};
ghost use Rattle.ncc_raft.specs.State.{IsLifted, IsSettled, IsSoundAt, Made, Proposed, body_of, member_of, refusal_of, seat_of, step_of};
ghost use Rattle.ncc_raft.specs.Step.{heard, hears_from, may_add, term_in};

use crate::appending::{advance, on_append_reply, on_beat, on_propose, on_pull};
use crate::election::{on_timeout, on_vote_ask, on_vote_reply};
use crate::follow::{Offer, on_append};
use crate::message::{Body, Envelope, Note, ProposeError, RaftRole, Step};
use crate::stand::{is_leader, quiet};
use crate::state::{Seat, Standing, State};
use ncc_pack::Memory;
use ncc_tx::Entry;

/// The commit advances where the core leads.
#[tactic(auto, using(crate::proofs::Settling::settle_leads, crate::proofs::Settling::settle_not))]
fn settle(seat: Seat, state: &mut State)
    requires seat { IsSeat (seat_of seat) }
    requires sound { IsSoundAt seat state.old.standing state.old }
    ensures settled { IsSettled seat state.old state.new }
{
    if is_leader(state.standing.role) {
        advance(seat, state);
    }
}

pub(crate) fn time_out(seat: Seat, state: &mut State) -> Result<Step, Memory>
    requires seat { IsSeat (seat_of seat) }
    requires sound { IsSoundAt seat state.old.standing state.old }
    ensures ok { IfOk result (λ s. Made state.old state.new (step_of seat state.old Timeout) s) }
    ensures err { OnErr result (state.new ≡ state.old) }
{
    let step = on_timeout(seat, state)?;
    settle(seat, state);
    Ok(step)
}

pub(crate) fn send_beat(seat: Seat, state: &mut State) -> Result<Step, Memory>
    requires seat { IsSeat (seat_of seat) }
    requires sound { IsSoundAt seat state.old.standing state.old }
    ensures ok { IfOk result (λ s. Made state.old state.new (step_of seat state.old Beat) s) }
    ensures err { OnErr result (state.new ≡ state.old) }
{
    let step = on_beat(seat, state)?;
    settle(seat, state);
    Ok(step)
}

fn add(seat: Seat, state: &mut State, entry: Entry) -> Result<Step, Memory>
    requires seat { IsSeat (seat_of seat) }
    requires sound { IsSoundAt seat state.old.standing state.old }
    requires room { IsTrue (may_add (seat_of seat) (member_of state.old)) }
    requires allowed { IsTrue (entry_allowed entry) }
    ensures ok { IfOk result (λ s. Made state.old state.new (step_of seat state.old (Propose entry)) s) }
    ensures err { OnErr result (state.new ≡ state.old) }
{
    let step = on_propose(seat, state, entry)?;
    settle(seat, state);
    Ok(step)
}

/// Why an entry is not appended, where it is not.
#[tactic(auto, unfolding(crate::specs::State::refusal_of))]
fn refusal(seat: Seat, state: &State) -> Option<ProposeError>
    ensures exact { result ≡ refusal_of seat state.now }
{
    if !is_leader(state.standing.role) {
        return Some(ProposeError::Elsewhere);
    }
    if state.log.len() == seat.limit {
        return Some(ProposeError::Full {
            entries: seat.limit,
        });
    }
    None
}

/// A leader whose log has room appends an entry; place and term of it.
#[tactic(auto, using(crate::proofs::Proposing::may_add_since))]
pub(crate) fn propose(
    seat: Seat,
    state: &mut State,
    entry: Entry,
) -> Result<(u64, u64, Step), ProposeError>
    requires seat { IsSeat (seat_of seat) }
    requires sound { IsSoundAt seat state.old.standing state.old }
    requires allowed { IsTrue (entry_allowed entry) }
    ensures proposed { Proposed seat state.old state.new entry result }
{
    match refusal(seat, state) {
        Some(error) => Err(error),
        None => match add(seat, state, entry) {
            Ok(step) => Ok((state.log.len(), state.standing.term, step)),
            Err(_) => Err(ProposeError::Memory),
        },
    }
}

/// The term of the sender, where the message tells it.
fn term_in(body: &Body) -> u64
    ensures term { result ≡ term_in body.now }
{
    match body {
        Body::VoteAsk { term, .. }
        | Body::VoteReply { term, .. }
        | Body::Append { term, .. }
        | Body::AppendReply { term, .. } => *term,
        Body::Pull { .. } | Body::Batch { .. } => 0,
    }
}

/// A later term is taken over.
#[tactic(auto, using(crate::proofs::Rules::lifted_up, crate::proofs::Rules::lifted_not))]
fn lifted(state: &State, body: &Body) -> Standing
    ensures lifted { IsLifted result state.now body.now }
{
    let term = term_in(body);
    if state.standing.term < term {
        Standing {
            term,
            vote: 0,
            role: RaftRole::Follower,
            leader: 0,
        }
    } else {
        state.standing
    }
}

#[tactic(auto, unfolding(crate::specs::Member::is_core))]
fn is_core(cores: u8, member: u8) -> bool
    ensures exact { result ≡ is_core cores member }
{
    0 < member && member <= cores
}

/// From whom a core hears a message.
fn hears_from(seat: Seat, from: u8, body: &Body) -> bool
    ensures exact { result ≡ hears_from (seat_of seat) from body.now }
{
    match body {
        Body::Pull { .. } => from != seat.id,
        Body::VoteReply { .. } => is_core(seat.cores, from),
        Body::VoteAsk { .. }
        | Body::Append { .. }
        | Body::AppendReply { .. }
        | Body::Batch { .. } => is_core(seat.cores, from) && from != seat.id,
    }
}

/// It is for this core, from somebody that it hears.
fn heard(seat: Seat, envelope: &Envelope) -> bool
    ensures exact { result ≡ heard (seat_of seat) envelope.now }
{
    envelope.to == seat.id && hears_from(seat, envelope.from, &envelope.body)
}

/// What comes of a message that is heard, by its kind.
#[tactic(auto, using(crate::proofs::Rules::of_kind))]
fn on_body(
    seat: Seat,
    standing: Standing,
    state: &mut State,
    from: u8,
    body: &Body,
) -> Result<Step, Memory>
    requires seat { IsSeat (seat_of seat) }
    requires sound { IsSoundAt seat standing state.old }
    requires within { IsWithin body.now }
    requires hears { IsTrue (hears_from (seat_of seat) from body.now) }
    ensures ok { IfOk result (λ s. Made state.old state.new (body_of seat standing state.old from body.now) s) }
    ensures err { OnErr result (state.new ≡ state.old) }
{
    match body {
        Body::VoteAsk { term, place, last } => {
            on_vote_ask(seat, standing, state, from, *term, *place, *last)
        }
        Body::VoteReply { term, yes } => on_vote_reply(seat, standing, state, from, *term, *yes),
        Body::Append {
            term,
            prev,
            prev_term,
            commit,
            items,
        } => {
            let offer = Offer {
                prev: *prev,
                prev_term: *prev_term,
                commit: *commit,
                items,
            };
            on_append(seat, standing, state, from, *term, &offer)
        }
        Body::AppendReply { term, yes, place } => {
            on_append_reply(seat, standing, state, from, *term, *yes, *place)
        }
        Body::Pull { have } => on_pull(seat, standing, state, from, *have),
        Body::Batch { .. } => Ok(quiet(state, standing, Note::Nothing)),
    }
}

#[tactic(auto, using(crate::proofs::Rules::lifted_sound, crate::proofs::Rules::heard_within, crate::proofs::Rules::heard_from))]
pub(crate) fn receive(seat: Seat, state: &mut State, envelope: &Envelope) -> Result<Step, Memory>
    requires seat { IsSeat (seat_of seat) }
    requires sound { IsSoundAt seat state.old.standing state.old }
    requires carried { Carried envelope.now }
    ensures ok { IfOk result (λ s. Made state.old state.new (step_of seat state.old (Receive envelope.now)) s) }
    ensures err { OnErr result (state.new ≡ state.old) }
{
    if !heard(seat, envelope) {
        let was = state.standing;
        return Ok(quiet(state, was, Note::Nothing));
    }
    let standing = lifted(state, &envelope.body);
    let step = on_body(seat, standing, state, envelope.from, &envelope.body)?;
    settle(seat, state);
    Ok(step)
}
