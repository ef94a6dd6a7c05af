//! Where a session stands.

use ncc_pack::{Rows, Text, Values};
use ncc_route::Table;
use rand_pcg::Pcg32;

/// What a link is for.
#[derive(Clone, Copy, Debug, PartialEq, Eq)]
pub enum Leg {
    /// To be told a routing table.
    Routing,
    /// To run the transaction.
    Working,
}

/// The request whose answer is awaited.
#[derive(Clone, Copy, Debug, PartialEq, Eq)]
pub enum Asked {
    /// The handshake.
    Shake(Leg),
    /// HELLO.
    Hello(Leg),
    /// ROUTE.
    Route,
    /// BEGIN.
    Begin,
    /// RUN.
    Run,
    /// PULL.
    Pull,
    /// COMMIT.
    Commit,
}

/// What a session waits for.
#[derive(Clone, Copy, Debug, PartialEq, Eq)]
pub enum Stage {
    /// No work runs.
    Rests,
    /// A work was begun: it waits for the start.
    Begun,
    /// It waits for a link.
    Joins(Leg),
    /// It waits for an answer.
    Awaits(Asked),
    /// It waits until it is woken.
    Sleeps,
}

/// Where a session stands, beside the bytes of its link.
#[derive(Drop)]
pub struct Core {
    /// What it waits for.
    pub stage: Stage,
    /// The bookmarks that are presented.
    pub bookmarks: Values,
    /// The words that are left of its seed's.
    pub words: Pcg32,
    /// The routing table, where there is one that was not dropped.
    pub table: Option<Table>,
    /// The routers of the last table got.
    pub route: Values,
    /// How often it connected to a router; it stays at the greatest number.
    pub connects: u64,
    /// The moment at which the work was begun.
    pub began: u64,
    /// How many attempts of the work there were.
    pub attempts: u64,
    /// The delay before the next retry, in milliseconds, before it is varied.
    pub delay: u64,
    /// The address of the link.
    pub address: Text,
    /// The rows of the last step.
    pub rows: Rows,
}
