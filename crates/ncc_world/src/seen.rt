//! What a world shows of its members and connections.

use ncc_clients::Told;
use ncc_driver::{WorkDone, WorkError};
use ncc_pack::{Bytes, Sequence};

/// What a member shows of itself.
#[derive(Clone, Copy, Debug, PartialEq, Eq)]
pub enum Shown {
    /// A core that leads.
    Leader,
    /// A core that stands for election.
    Candidate,
    /// Any other core.
    Follower,
    /// A read replica.
    Replica,
    /// A core whose disk failed.
    Down,
}

/// A member.
#[derive(Clone, Copy, Debug)]
pub struct MemberSeen {
    /// Its number, from 1: cores first.
    pub id: u8,
    /// What it is.
    pub shown: Shown,
    /// Its term, 0 for a replica.
    pub term: u64,
    /// How many entries it has applied.
    pub at: u64,
}

/// A connection.
#[derive(Debug, Drop)]
pub struct ConnSeen {
    /// Its number, from 1.
    pub conn: u64,
    /// Its member.
    pub member: u8,
    /// Whether it has a question.
    pub waiting: bool,
    /// Whether it has ended: it was closed, or its session has ended.
    pub ended: bool,
    /// Whether an `Open` made it, so that a report prints what it wrote.
    pub printed: bool,
    /// What it wrote.
    pub out: Bytes,
}

/// A work that has ended.
#[derive(Debug, Drop)]
pub struct WorkSeen {
    /// The line of the event in which it ended.
    pub line: u64,
    /// The session, from 1.
    pub session: u64,
    /// What became of it.
    pub result: Result<WorkDone, WorkError>,
}

/// The members, member 1 first.
pub type MemberList = Sequence<MemberSeen>;

/// The connections, connection 1 first.
pub type ConnList = Sequence<ConnSeen>;

/// The facts that were told, the first first.
pub type ToldList = Sequence<Told>;

/// The works that have ended, the first first.
pub type WorkList = Sequence<WorkSeen>;
