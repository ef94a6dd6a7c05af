//! Why an event does not happen.

ghost use Rattle.std.specs.Prelude.{◌≡◌};

use std::alloc::AllocError;
use thiserror::Error;

/// A limit of a script or of its run.
#[derive(Clone, Copy, Debug, PartialEq, Eq, Error)]
pub enum Which {
    /// 1,000,000 events in a script.
    #[error("events")]
    Events,
    /// 4,000,000 messages sent.
    #[error("messages")]
    Messages,
    /// 1,073,741,824 bytes of messages sent.
    #[error("message bytes")]
    MessageBytes,
    /// 2,200,000 bytes in a line.
    #[error("line")]
    Line,
    /// 268,435,456 bytes in a script.
    #[error("script")]
    Script,
}

/// Why an event does not happen.
#[derive(Clone, Copy, Debug, PartialEq, Eq, Error)]
pub enum WorldError {
    /// There is no member with this number.
    #[error("no such member")]
    NoMember,
    /// No `Open` made a connection with this number.
    #[error("no such connection")]
    NoConn,
    /// No message with this number was sent.
    #[error("no such message")]
    NoMessage,
    /// There is no session with this number.
    #[error("no such session")]
    NoSession,
    /// The clock does not go back.
    #[error("time goes back")]
    BackInTime,
    /// The event is none of this kind of world.
    #[error("not in this world")]
    WrongWorld,
    /// The member is of another kind.
    #[error("wrong kind of member")]
    WrongRole,
    /// The session has a work that runs.
    #[error("work is running")]
    Busy,
    /// A limit would be passed. The world answers so from then on.
    #[error("limit: {0}")]
    Limit(Which),
    /// There was no memory. The world answers so from then on.
    #[error("out of memory")]
    Memory,
}

impl From<AllocError> for WorldError {
    ghost use Rattle.ncc_world.specs.declared.error.WorldError.TheVariants.{Memory};

    ghost from_gives = { λ _ e. e ≡ Memory };

    fn from(_error: AllocError) -> WorldError {
        WorldError::Memory
    }
}
