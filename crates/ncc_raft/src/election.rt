//! Elections: the rules of candidates and "RequestVote RPC".

ghost use Rattle.std.specs.Prelude.{◌≡◌, ◌≤◌, ◌++◌, ◌&&◌, nat_eq, IfOk, OnErr, OnOk, IsTrue, length};
ghost use Rattle.ncc_tx.specs.Kept.{Leads};
ghost use Rattle.ncc_raft.specs.Elections.{ask_to};
ghost use Rattle.ncc_raft.specs.Member.{is_candidate};
ghost use Rattle.ncc_raft.specs.Core.{IsSeat};
ghost use Rattle.ncc_raft.specs.State.{IsSoundAt, Made, appends_of, asks_of, at, may_vote_of, member_of, noop_for, seat_of, timeout_of};
ghost use Rattle.ncc_raft.specs.State.{vote_ask_of, vote_reply_of, won_of};

use crate::appending::{append_one, appends};
use crate::logs::{Log, up_to_date};
use crate::message::{Body, Envelope, Envelopes, Note, RaftRole, Step};
use crate::slots::{Places, Votes};
use crate::stand::{is_leader, one_letter, quiet, renewed, stand};
use crate::state::{Seat, Standing, State};
use ncc_pack::{Memory, Sequence};
use ncc_tx::{ChangeSet, Entry, Item, TERM_LIMIT, noop_allowed};

/// To a core the question for its vote, to itself its own vote.
fn ask_to(seat: Seat, standing: Standing, state: &State, core: u8) -> Envelope
    ensures letter { result ≡ ask_to (seat_of seat) (at standing (member_of state.now)) core }
{
    let body = if core == seat.id {
        Body::VoteReply {
            term: standing.term,
            yes: true,
        }
    } else {
        Body::VoteAsk {
            term: standing.term,
            place: state.log.len(),
            last: state.log.last_term(),
        }
    };
    Envelope {
        from: seat.id,
        to: core,
        body,
    }
}

#[tactic(auto, using(crate::proofs::Electing::asks_none, crate::proofs::Electing::asks_more, crate::proofs::Electing::asks_all))]
fn asks(seat: Seat, standing: Standing, state: &State) -> Result<Envelopes, Memory>
    requires cores { seat.cores ≤ 7 }
    ensures letters { IfOk result (λ es. es ≡ asks_of seat standing state.now) }
{
    let mut out = Sequence::new(state.log.allocator());
    for i in 0..seat.cores {
        out.push(ask_to(seat, standing, state, i + 1))?;
    }
    Ok(out)
}

/// A core that doesn't lead stands for the next term, where one is left.
#[tactic(auto, using(crate::proofs::Bounds::term_low))]
pub(crate) fn on_timeout(seat: Seat, state: &mut State) -> Result<Step, Memory>
    requires seat { IsSeat (seat_of seat) }
    requires sound { IsSoundAt seat state.old.standing state.old }
    ensures ok { IfOk result (λ s. Made state.old state.new (timeout_of seat state.old) s) }
    ensures err { OnErr result (state.new ≡ state.old) }
{
    let was = state.standing;
    let alloc = state.log.allocator();
    if is_leader(was.role) {
        return Ok(quiet(state, was, Note::Nothing));
    }
    if was.term + 2 > TERM_LIMIT {
        return Ok(quiet(state, was, Note::TermsSpent));
    }
    let standing = Standing {
        term: was.term + 1,
        vote: seat.id,
        role: RaftRole::Candidate,
        leader: 0,
    };
    let votes = Votes::none(alloc, seat.cores)?;
    let out = asks(seat, standing, state)?;
    state.votes = votes;
    Ok(stand(state, standing, out, Note::Nothing))
}

#[tactic(auto, unfolding(crate::specs::State::may_vote_of))]
fn may_vote(standing: Standing, state: &State, from: u8, term: u64, place: u64, last: u64) -> bool
    ensures exact { result ≡ may_vote_of standing state.now from term place last }
{
    standing.term == term
        && (standing.vote == 0 || standing.vote == from)
        && up_to_date(place, last, &state.log)
}

pub(crate) fn on_vote_ask(
    seat: Seat,
    standing: Standing,
    state: &mut State,
    from: u8,
    term: u64,
    place: u64,
    last: u64,
) -> Result<Step, Memory>
    ensures ok { IfOk result (λ s. Made state.old state.new (vote_ask_of seat standing state.old from term place last) s) }
    ensures err { OnErr result (state.new ≡ state.old) }
{
    let yes = may_vote(standing, state, from, term, place, last);
    let body = Body::VoteReply {
        term: standing.term,
        yes,
    };
    let out = one_letter(state.log.allocator(), seat.id, from, body)?;
    if yes {
        let standing = Standing {
            term: standing.term,
            vote: from,
            role: standing.role,
            leader: standing.leader,
        };
        Ok(stand(state, standing, out, Note::Nothing))
    } else {
        Ok(stand(state, standing, out, Note::Nothing))
    }
}

fn is_candidate(role: RaftRole) -> bool
    ensures exact { result ≡ is_candidate role }
{
    match role {
        RaftRole::Candidate => true,
        RaftRole::Leader | RaftRole::Follower => false,
    }
}

/// Says whether a core counts such an answer.
fn counts(standing: Standing, term: u64, yes: bool) -> bool
    ensures exact { result ≡ (is_candidate standing.role && nat_eq standing.term term && yes) }
{
    is_candidate(standing.role) && standing.term == term && yes
}

/// The log and the messages of a new leader: the empty entry, where the log has room for it.
#[tactic(auto, using(crate::proofs::Electing::noop_yes, crate::proofs::Electing::noop_no, crate::proofs::Electing::begun_some))]
fn begin(
    seat: Seat,
    was: Standing,
    standing: Standing,
    commit: u64,
    log: &mut Log,
    next: &Places,
) -> Result<(Option<ChangeSet>, Envelopes), Memory>
    requires cores { seat.cores ≤ 7 }
    requires next { length next.now ≡ seat.cores }
    ensures log { OnOk result (log.new ≡ log.old ++ noop_for seat standing.term log.old) }
    ensures sent { IfOk result (λ r. r.1 ≡ appends_of seat standing.term commit log.new next.now) }
    ensures change { IfOk result (λ r. Leads (record { term = was.term; vote = was.vote; log = log.old })
        (record { term = standing.term; vote = standing.vote; log = log.new }) r.0) }
    ensures err { OnErr result (log.new ≡ log.old) }
{
    let keep = log.len();
    if keep < seat.limit {
        let item = Item {
            term: standing.term,
            entry: Entry::Noop,
        };
        noop_allowed();
        let (items, out) = append_one(seat, standing.term, commit, log, next, item)?;
        let change = ChangeSet {
            term: standing.term,
            vote: standing.vote,
            keep,
            items,
        };
        Ok((Some(change), out))
    } else {
        let out = appends(seat, standing.term, commit, log, next)?;
        Ok((renewed(was, standing, log), out))
    }
}

/// A candidate that a majority voted for leads.
#[tactic(auto, using(crate::proofs::Electing::won_made, crate::proofs::Bounds::votes_in, crate::proofs::Bounds::log_at))]
fn win(seat: Seat, standing: Standing, state: &mut State, from: u8) -> Result<Step, Memory>
    requires seat { IsSeat (seat_of seat) }
    requires sound { IsSoundAt seat standing state.old }
    requires some { 1 ≤ from }
    requires from { from ≤ seat.cores }
    ensures ok { IfOk result (λ s. Made state.old state.new (won_of seat standing state.old from) s) }
    ensures err { OnErr result (state.new ≡ state.old) }
{
    let alloc = state.log.allocator();
    let standing = Standing {
        term: standing.term,
        vote: standing.vote,
        role: RaftRole::Leader,
        leader: seat.id,
    };
    let next = Places::all_at(alloc, seat.cores, state.log.len() + 1)?;
    let matches = Places::all_at(alloc, seat.cores, 0)?;
    let was = state.standing;
    let commit = state.commit;
    let (change, out) = begin(seat, was, standing, commit, &mut state.log, &next)?;
    state.votes.count(from);
    state.standing = standing;
    state.next = next;
    state.matches = matches;
    Ok(Step {
        change,
        out,
        note: Note::Nothing,
    })
}

#[tactic(auto, using(crate::proofs::Bounds::votes_in, crate::proofs::Bounds::votes_few))]
pub(crate) fn on_vote_reply(
    seat: Seat,
    standing: Standing,
    state: &mut State,
    from: u8,
    term: u64,
    yes: bool,
) -> Result<Step, Memory>
    requires seat { IsSeat (seat_of seat) }
    requires sound { IsSoundAt seat standing state.old }
    requires some { 1 ≤ from }
    requires from { from ≤ seat.cores }
    ensures ok { IfOk result (λ s. Made state.old state.new (vote_reply_of seat standing state.old from term yes) s) }
    ensures err { OnErr result (state.new ≡ state.old) }
{
    if !counts(standing, term, yes) {
        return Ok(quiet(state, standing, Note::Nothing));
    }
    if state.votes.elects(from) {
        return win(seat, standing, state, from);
    }
    state.votes.count(from);
    Ok(quiet(state, standing, Note::Nothing))
}
