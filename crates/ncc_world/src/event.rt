//! What happens in a world.

use ncc_bookmark::Bookmark;
use ncc_pack::{Bytes, Sequence, Text};

/// The bookmarks that a request presents. A contract sees the list of the places that they name.
pub type Bookmarks = Sequence<Bookmark>;

/// A work of a session.
#[derive(Drop)]
pub enum Job {
    /// Adds to a counter.
    Add { key: Text, by: i64 },
    /// Sets the value of a pair.
    Put { key: Text, value: Text },
    /// Reads the value of a pair.
    Get { key: Text },
}

/// One event. Members, connections and sessions are numbered from 1, moments are in milliseconds.
#[derive(Drop)]
pub enum Event {
    /// The clock shows this moment.
    Time {
        to: u64,
    },
    /// A client connects to a member, and gives a key a value in a transaction by itself.
    Put {
        member: u8,
        key: Text,
        value: Text,
        bookmarks: Bookmarks,
    },
    /// A client connects to a member, and asks for the value of a key in a transaction by itself.
    Get {
        member: u8,
        key: Text,
        bookmarks: Bookmarks,
    },
    /// A member that lags applies up to so many further entries. Over one list alone.
    Apply {
        member: u8,
        count: u64,
    },
    /// A core's time runs out. Over Raft alone, as are the next four.
    Timeout {
        member: u8,
    },
    /// A core's beat is due.
    Beat {
        member: u8,
    },
    /// A message that was sent comes to its member, once or again. Messages are numbered from 1, in the order of sending.
    Deliver {
        message: u64,
    },
    /// A replica asks a core for what is behind its list.
    Pull {
        replica: u8,
        core: u8,
    },
    /// A member stops and starts again from what it has saved. Its connections end.
    Crash {
        member: u8,
    },
    /// A client connects to a member.
    Open {
        member: u8,
    },
    /// Bytes of a client come in.
    Bytes {
        conn: u64,
        bytes: Bytes,
    },
    /// A client closes its connection.
    Close {
        conn: u64,
    },
    /// A session of a driver is made, whose routers are all cores. It logs in nowhere, and has no bookmarks.
    Session {
        seed: u64,
    },
    /// A session begins a work.
    Work {
        session: u64,
        job: Job,
    },
    /// At most so many bytes of a session's link go up.
    Up {
        session: u64,
        bytes: u64,
    },
    /// At most so many bytes of a session's link come down.
    Down {
        session: u64,
        bytes: u64,
    },
    /// All bytes of a session's link move, until none is left, or until so many requests have gone up.
    Pump {
        session: u64,
        requests: Option<u64>,
    },
    /// A session's link is lost.
    Cut {
        session: u64,
    },
}
