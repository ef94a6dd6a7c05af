//! What a session is told, what it wants done, and how a work ends.

use ncc_pack::{Bytes, Rows, Text};
use ncc_route::Role;
use thiserror::Error;

/// What a session wants done. Its actions are done in their order.
#[derive(Drop)]
pub enum Action {
    /// Opens a link to this address. `Connected` or `Lost` is told of it.
    Connect {
        /// The address.
        address: Text,
    },
    /// Sends these bytes on the link.
    Send {
        /// The bytes: a handshake, or a message in its chunks.
        bytes: Bytes,
    },
    /// Closes the link.
    Close,
    /// Waits until a moment. `Woken` is told then.
    Sleep {
        /// The moment, in milliseconds.
        until: u64,
    },
    /// Waits for bytes of the link. `Bytes` or `Lost` is told of it.
    Receive,
    /// The work has ended.
    Finish(Result<WorkDone, WorkError>),
}

/// What a session is told.
#[derive(Drop)]
pub enum Input {
    /// A work that was begun may start.
    Start,
    /// The link is open.
    Connected,
    /// These bytes came on the link.
    Bytes(Bytes),
    /// The link was not opened, or has broken.
    Lost,
    /// The moment until which the session sleeps has come.
    Woken,
}

/// A work that was committed.
#[derive(Debug, Drop)]
pub struct WorkDone {
    /// How many attempts there were, from 1.
    pub attempts: u64,
    /// The place of the bookmark, where it is one of this project's.
    pub place: Option<u64>,
    /// The bookmark of the commit.
    pub bookmark: Text,
    /// The rows of the last step; none where there was no step.
    pub rows: Rows,
}

/// Why an attempt failed that may be tried again.
#[derive(Debug, Drop)]
pub enum Last {
    /// A server answered FAILURE with this code.
    Code(Text),
    /// The link was not opened, or broke.
    LinkLost,
    /// The routing table names no server for this role.
    NoServer {
        /// The role.
        role: Role,
    },
}

/// Why a work was not committed, or is not known to be.
#[derive(Debug, Drop, Error)]
pub enum WorkError {
    /// An attempt failed that may be tried again, 30,000 milliseconds or more after the work began.
    #[error("given up after {attempts} attempts")]
    RetriesSpent {
        /// How many attempts there were, from 1.
        attempts: u64,
        /// Why the last one failed.
        last: Last,
    },
    /// A server answered FAILURE with a code that is not tried again.
    #[error("refused in attempt {attempts}")]
    Refused {
        /// How many attempts there were, from 1.
        attempts: u64,
        /// The code.
        code: Text,
    },
    /// A server's message is not of Bolt 4.4, or not an answer of the request.
    #[error("bad reply: message {message}")]
    BadReply {
        /// The number of the message on its connection, from 0.
        message: u64,
    },
}
