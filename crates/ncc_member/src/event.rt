//! What happens to a node, and what it answers.

ghost use Rattle.std.specs.Prelude.{◌≡◌};
ghost use Rattle.ncc_member.specs.declared.event.Broken.TheVariants.{Memory};

use ncc_raft::{Envelope, Envelopes, Note};
use ncc_tx::Entry;
use std::alloc::AllocError;
use thiserror::Error;

/// What happens to a node.
#[derive(Debug, Drop)]
pub enum NodeEvent {
    /// The time to hear of a leader is over.
    Timeout,
    /// The time for a sign of life.
    Beat,
    /// A message came.
    Receive(Envelope),
    /// A client wants an entry in the history.
    Propose(Entry),
}

/// What a node hands out at an event. What the event changed of the saved part is on the disk by then.
#[derive(Debug, Drop)]
pub struct NodeOut {
    /// What it sends, by ascending destination.
    pub sent: Envelopes,
    /// The place, from 1, and the term of the entry, where the event was a proposal.
    pub placed: Option<(u64, u64)>,
    /// Whether term, vote or log changed, and so were saved.
    pub saved: bool,
    /// What the core noticed.
    pub note: Note,
}

/// Why an event was not answered. The earlier comes first.
#[derive(Clone, Copy, Debug, PartialEq, Eq, Error)]
pub enum NodeError {
    /// The disk failed, at this event or an earlier one: the node answers this from then on, and is to be recovered.
    #[error("down, with {faults} faults of the disk")]
    Down {
        /// How often the disk failed since the node was made.
        faults: u64,
    },
    /// A proposal came to a core that does not lead.
    #[error("not the leader")]
    Elsewhere,
    /// A proposal came to a leader whose log has as many items as it may have.
    #[error("the log is full: {entries} entries")]
    Full {
        /// How many.
        entries: u64,
    },
    /// Out of memory, or the journal would pass 2^62 bytes.
    #[error("out of memory")]
    Memory,
}

/// Why a turn was not made.
#[derive(Clone, Copy, PartialEq, Eq)]
pub(crate) enum Broken {
    /// There was no memory.
    Memory,
    /// The disk failed in a save.
    Fault,
}

impl From<AllocError> for Broken {
    ghost from_gives = { λ _ e. e ≡ Memory };

    fn from(_e: AllocError) -> Broken {
        Broken::Memory
    }
}
