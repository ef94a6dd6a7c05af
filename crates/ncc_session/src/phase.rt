//! What a session keeps beside its bytes.

ghost use Rattle.std.specs.Prelude.{IsTrue};
ghost use Rattle.ncc_session.specs.Kept.{all_keep};

use crate::ask::Ask;
use crate::state::ConnState;
use ncc_store::{RowLists, Step, Steps};

/// How far a result was pulled.
#[derive(Clone, Copy)]
pub struct Pulled {
    /// How many of its rows were pulled or discarded.
    pub next: usize,
    /// Whether its end was told.
    pub ended: bool,
}

/// A transaction.
#[derive(Drop)]
pub struct Transaction {
    /// Whether it may write.
    pub write: bool,
    /// Its steps so far. While they are asked they stand in the question, and there are none here.
    pub steps: Steps,
    /// The rows of each step.
    pub told: RowLists,
    /// How far the result of each step was pulled.
    pub results: Vec<Pulled>,
    /// How many results have an end that was not told.
    pub unended: usize,
    /// How many bytes the short spellings of its rows have.
    pub kept: u64,
    // Each row keeps the limits of one.
    ghost keep: { IsTrue (all_keep told) },
}

/// What goes on behind a question.
#[derive(Drop)]
pub enum Behind {
    /// BEGIN waits to enter.
    Begins {
        /// Whether the transaction may write.
        write: bool,
    },
    /// RUN outside of a transaction waits to enter.
    Runs {
        /// Whether the transaction may write.
        write: bool,
        /// Its one step.
        step: Step,
    },
    /// The last step of a transaction waits for its rows.
    Adds(Transaction),
    /// A transaction waits to be done.
    Leaves,
    /// ROUTE waits for the leader.
    Routes,
}

/// What a session does.
#[derive(Drop)]
pub enum Phase {
    /// It waits for a request, and no transaction is open.
    Idle,
    /// It waits for a request in a transaction.
    Opened(Transaction),
    /// It waits for a fact.
    Asks {
        /// The question.
        ask: Ask,
        /// What goes on behind it.
        behind: Behind,
    },
}

/// Where a session stands.
#[derive(Drop)]
pub struct Core {
    /// Where it stands, as others see it.
    pub state: ConnState,
    /// The number of the next message on the connection, from 0. It stays at the greatest number.
    pub number: u64,
    /// What it does.
    pub phase: Phase,
}
