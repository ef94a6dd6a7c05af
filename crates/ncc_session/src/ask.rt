//! What a session asks of its member, and what it is told.

ghost use Rattle.std.specs.Prelude.{◌≡◌, IfOk};

use ncc_pack::{Memory, Rows};
use ncc_store::{RunFault, Steps};
use ncc_tx::Entry;

/// A question that a session asks of its member.
#[derive(Debug, Drop)]
pub enum Ask {
    /// May the transaction begin: is the member as far as the bookmarks say?
    Enter {
        /// The greatest place of the bookmarks, 0 for none.
        need: u64,
    },
    /// What are the rows of the last of these steps?
    Run {
        /// All steps of the transaction so far.
        steps: Steps,
    },
    /// Is the transaction done?
    Leave {
        /// Its steps, and the rows that the client was told.
        entry: Entry,
    },
    /// Who leads?
    Route,
}

/// What a member tells a session.
#[derive(Debug, Drop)]
pub enum Fact {
    /// The transaction may begin.
    Entered {
        /// How many entries the member has applied.
        at: u64,
    },
    /// The member was not as far before the deadline.
    Late {
        /// The place that was asked for.
        need: u64,
        /// How many entries the member has applied.
        at: u64,
        /// The moment, in milliseconds.
        now: u64,
    },
    /// The last step gave these rows.
    Rows {
        /// How many entries the member has applied.
        at: u64,
        /// The rows.
        rows: Rows,
    },
    /// The steps met a fault.
    Faulted {
        /// How many entries the member has applied.
        at: u64,
        /// The first fault.
        fault: RunFault,
    },
    /// The transaction, of which no step writes, is done.
    Done {
        /// How many entries the member has applied.
        at: u64,
    },
    /// The entry stands in the history, and is valid there.
    Placed {
        /// Its place.
        place: u64,
    },
    /// The entry stands in the history, and is not valid there: its rows have changed.
    Stale {
        /// Its place.
        place: u64,
    },
    /// At the entry's place stands another.
    Replaced {
        /// The place.
        place: u64,
        /// The term of the proposal.
        mine: u64,
        /// The term that stands there.
        found: u64,
    },
    /// The place was not applied before the deadline.
    Unsure {
        /// The place.
        place: u64,
        /// How many entries the member has applied.
        at: u64,
        /// The moment, in milliseconds.
        now: u64,
    },
    /// The member does not lead.
    Elsewhere,
    /// The member's log is full.
    Full {
        /// How many entries it has.
        entries: u64,
    },
    /// The member knows this core as leader.
    Routed {
        /// Its number, 0 for nobody.
        leader: u8,
    },
}

impl Ask {
    /// An equal question, on the same allocators.
    pub fn copy(&self) -> Result<Ask, Memory>
        ensures equal { IfOk result (λ copy. copy ≡ self.now) }
    {
        match self {
            Ask::Enter { need } => Ok(Ask::Enter { need: *need }),
            Ask::Run { steps } => Ok(Ask::Run {
                steps: steps.copy()?,
            }),
            Ask::Leave { entry } => Ok(Ask::Leave {
                entry: entry.copy()?,
            }),
            Ask::Route => Ok(Ask::Route),
        }
    }
}

impl Fact {
    /// An equal fact, on the same allocators.
    pub fn copy(&self) -> Result<Fact, Memory>
        ensures equal { IfOk result (λ copy. copy ≡ self.now) }
    {
        match self {
            Fact::Entered { at } => Ok(Fact::Entered { at: *at }),
            Fact::Late { need, at, now } => Ok(Fact::Late {
                need: *need,
                at: *at,
                now: *now,
            }),
            Fact::Rows { at, rows } => Ok(Fact::Rows {
                at: *at,
                rows: rows.copy()?,
            }),
            Fact::Faulted { at, fault } => Ok(Fact::Faulted {
                at: *at,
                fault: *fault,
            }),
            Fact::Done { at } => Ok(Fact::Done { at: *at }),
            Fact::Placed { place } => Ok(Fact::Placed { place: *place }),
            Fact::Stale { place } => Ok(Fact::Stale { place: *place }),
            Fact::Replaced { place, mine, found } => Ok(Fact::Replaced {
                place: *place,
                mine: *mine,
                found: *found,
            }),
            Fact::Unsure { place, at, now } => Ok(Fact::Unsure {
                place: *place,
                at: *at,
                now: *now,
            }),
            Fact::Elsewhere => Ok(Fact::Elsewhere),
            Fact::Full { entries } => Ok(Fact::Full { entries: *entries }),
            Fact::Routed { leader } => Ok(Fact::Routed { leader: *leader }),
        }
    }
}
