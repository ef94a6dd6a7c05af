//! What cores and replicas send each other, and what a step hands out.

ghost use Rattle.std.specs.Prelude.{◌≡◌, IfOk};
ghost use Rattle.ncc_raft.specs.declared.message.ProposeError.TheVariants.{Memory};

use ncc_pack::{Copied, Sequence};
use ncc_tx::{ChangeSet, Entries};
use std::alloc::AllocError;
use thiserror::Error;

/// What a member says to another. The terms, votes and places are those of the extended Raft paper, Figure 2.
#[derive(Debug, Drop)]
pub enum Body {
    /// A candidate asks for a vote ("RequestVote RPC").
    VoteAsk {
        /// The candidate's term.
        term: u64,
        /// The length of its log.
        place: u64,
        /// The term of its last item, 0 where it has none.
        last: u64,
    },
    /// The answer to `VoteAsk`.
    VoteReply {
        /// The voter's term.
        term: u64,
        /// Whether the candidate has the vote.
        yes: bool,
    },
    /// A leader hands on a part of its log, which may be empty ("AppendEntries RPC").
    Append {
        /// The leader's term.
        term: u64,
        /// The place before the items.
        prev: u64,
        /// The term of the item there, 0 at place 0.
        prev_term: u64,
        /// The leader's commit.
        commit: u64,
        /// The items.
        items: Entries,
    },
    /// The answer to `Append`.
    AppendReply {
        /// The answering core's term.
        term: u64,
        /// Whether it has the items.
        yes: bool,
        /// With `yes` the place of the last item; else a place up to which it may have the leader's log.
        place: u64,
    },
    /// A replica asks for items.
    Pull {
        /// How many it has.
        have: u64,
    },
    /// The answer to `Pull`.
    Batch {
        /// The place of the first item.
        first: u64,
        /// The items.
        items: Entries,
    },
}

/// What a member says to another. Cores have the numbers from 1 on, and replicas those behind them.
#[derive(Debug, Drop)]
pub struct Envelope {
    /// The member that sends it.
    pub from: u8,
    /// The member that it is for.
    pub to: u8,
    /// What it says.
    pub body: Body,
}

/// A list of envelopes.
pub type Envelopes = Sequence<Envelope>;

/// What a core noticed at an event. In a cluster whose members keep the rules and have one limit, only `Nothing` and
/// `TermsSpent` come.
#[derive(Clone, Copy, Debug, PartialEq, Eq)]
pub enum Note {
    /// Nothing that calls for a note.
    Nothing,
    /// An `Append` has another term than the own log, at or below the commit.
    Contradicted {
        /// The first such place.
        index: u64,
        /// The term of the own item there.
        kept: u64,
        /// The term that was told.
        told: u64,
    },
    /// An `Append` goes past the greatest length of the log.
    Beyond {
        /// Its last place.
        last: u64,
    },
    /// The term can't rise any more.
    TermsSpent,
}

/// What a core hands out at an event.
#[derive(Debug, Drop)]
pub struct Step {
    /// How what it keeps over a crash changed, where it did. It has to be stable before anything of `out` is sent.
    pub change: Option<ChangeSet>,
    /// What it sends, by ascending destination.
    pub out: Envelopes,
    /// What it noticed.
    pub note: Note,
}

/// Why an entry is not proposed.
#[derive(Clone, Copy, Debug, PartialEq, Eq, Error)]
pub enum ProposeError {
    /// The core does not lead.
    #[error("not the leader")]
    Elsewhere,
    /// It leads, and its log has as many items as it may have.
    #[error("the log is full: {entries} entries")]
    Full {
        /// How many.
        entries: u64,
    },
    /// Out of memory.
    #[error("out of memory")]
    Memory,
}

impl From<AllocError> for ProposeError {
    ghost from_gives = { λ _ e. e ≡ Memory };

    fn from(_e: AllocError) -> ProposeError {
        ProposeError::Memory
    }
}

/// What a core is in its term.
#[derive(Clone, Copy, Debug, PartialEq, Eq)]
pub enum RaftRole {
    /// It leads the others.
    Leader,
    /// It asks them to make it leader.
    Candidate,
    /// Neither.
    Follower,
}

impl Body {
    /// An equal body, on the same allocators.
    pub fn copy(&self) -> Result<Body, AllocError>
        ensures equal { IfOk result (λ b. b ≡ self.now) }
    {
        Ok(match self {
            Body::VoteAsk { term, place, last } => Body::VoteAsk {
                term: *term,
                place: *place,
                last: *last,
            },
            Body::VoteReply { term, yes } => Body::VoteReply {
                term: *term,
                yes: *yes,
            },
            Body::Append {
                term,
                prev,
                prev_term,
                commit,
                items,
            } => Body::Append {
                term: *term,
                prev: *prev,
                prev_term: *prev_term,
                commit: *commit,
                items: items.copy()?,
            },
            Body::AppendReply { term, yes, place } => Body::AppendReply {
                term: *term,
                yes: *yes,
                place: *place,
            },
            Body::Pull { have } => Body::Pull { have: *have },
            Body::Batch { first, items } => Body::Batch {
                first: *first,
                items: items.copy()?,
            },
        })
    }
}

impl Envelope {
    /// An equal envelope, on the same allocators.
    pub fn copy(&self) -> Result<Envelope, AllocError>
        ensures equal { IfOk result (λ e. e ≡ self.now) }
    {
        let body = self.body.copy()?;
        Ok(Envelope {
            from: self.from,
            to: self.to,
            body,
        })
    }
}

impl Copied for Envelope {
    fn copy(&self) -> Result<Envelope, AllocError> {
        Envelope::copy(self)
    }
}

fn copy_change(change: &Option<ChangeSet>) -> Result<Option<ChangeSet>, AllocError>
    ensures equal { IfOk result (λ c. c ≡ change.now) }
{
    match change {
        None => Ok(None),
        Some(change) => {
            let change = change.copy()?;
            Ok(Some(change))
        }
    }
}

impl Step {
    /// An equal step, on the same allocators.
    pub fn copy(&self) -> Result<Step, AllocError>
        ensures equal { IfOk result (λ s. s ≡ self.now) }
    {
        let change = copy_change(&self.change)?;
        let out = self.out.copy()?;
        Ok(Step {
            change,
            out,
            note: self.note,
        })
    }
}
