//! What ends each rule: how the core stands then, and what it hands out.

ghost use Rattle.std.specs.Prelude.{◌≡◌, ◌∷◌, [], IfOk};
ghost use Rattle.ncc_tx.specs.Kept.{Leads};
ghost use Rattle.ncc_raft.specs.Member.{is_leader, letter};
ghost use Rattle.ncc_raft.specs.State.{Stood};

use crate::logs::Log;
use crate::message::{Body, Envelope, Envelopes, Note, RaftRole, Step};
use crate::state::{Standing, State};
use ncc_pack::{Memory, Sequence};
use ncc_tx::ChangeSet;
use std::alloc::Global;

pub(crate) fn is_leader(role: RaftRole) -> bool
    ensures exact { result ≡ is_leader role }
{
    match role {
        RaftRole::Leader => true,
        RaftRole::Candidate | RaftRole::Follower => false,
    }
}

/// The change where the log stays.
#[tactic(auto, using(crate::proofs::Changes::none, crate::proofs::Changes::renewed))]
pub(crate) fn renewed(was: Standing, standing: Standing, log: &Log) -> Option<ChangeSet>
    ensures leads { Leads (record { term = was.term; vote = was.vote; log = log.now })
        (record { term = standing.term; vote = standing.vote; log = log.now }) result }
{
    if was.term == standing.term && was.vote == standing.vote {
        None
    } else {
        Some(ChangeSet {
            term: standing.term,
            vote: standing.vote,
            keep: log.len(),
            items: Sequence::new(log.allocator()),
        })
    }
}

/// Takes a standing, where all else stays.
#[tactic(auto, using(crate::proofs::Stands::stood))]
pub(crate) fn stand(state: &mut State, standing: Standing, out: Envelopes, note: Note) -> Step
    ensures stood { Stood state.old state.new standing out note result }
{
    let change = renewed(state.standing, standing, &state.log);
    state.standing = standing;
    Step { change, out, note }
}

/// The same where nothing is sent.
pub(crate) fn quiet(state: &mut State, standing: Standing, note: Note) -> Step
    ensures stood { Stood state.old state.new standing [] note result }
{
    let out = Sequence::new(state.log.allocator());
    stand(state, standing, out, note)
}

/// One letter alone.
pub(crate) fn one_letter(alloc: Global, from: u8, to: u8, body: Body) -> Result<Envelopes, Memory>
    ensures letter { IfOk result (λ es. es ≡ letter from to body ∷ []) }
{
    let mut out = Sequence::new(alloc);
    out.push(Envelope { from, to, body })?;
    Ok(out)
}
