//! What a core keeps in memory.

use crate::logs::Log;
use crate::message::RaftRole;
use crate::slots::{Places, Votes};

/// What of a core never changes.
#[derive(Clone, Copy)]
pub(crate) struct Seat {
    /// Its number.
    pub id: u8,
    /// How many cores there are.
    pub cores: u8,
    /// The greatest length of a log.
    pub limit: u64,
}

/// How a core stands in its term.
#[derive(Clone, Copy)]
pub(crate) struct Standing {
    /// The term.
    pub term: u64,
    /// For whom it voted in it; 0 for nobody.
    pub vote: u8,
    /// What it is in it.
    pub role: RaftRole,
    /// Who leads it; 0 where it knows nobody.
    pub leader: u8,
}

/// All else of a core. The lists at the end have a slot for each core.
#[derive(Drop)]
pub(crate) struct State {
    pub standing: Standing,
    pub log: Log,
    /// So many items are applied.
    pub commit: u64,
    /// Who voted for it, while it is a candidate.
    pub votes: Votes,
    /// The place from which on the next `Append` goes, while it leads.
    pub next: Places,
    /// The place up to which each is known to have its log, while it leads.
    pub matches: Places,
}
