//! Why bytes begin with no frame.

ghost use Rattle.std.specs.Prelude.{◌≡◌};
ghost use Rattle.ncc_wire.specs.declared.error.FrameError.TheVariants.{Memory};

use std::alloc::AllocError;
use thiserror::Error;

/// Why bytes begin with no frame of a cluster. Places count from 0, the first byte of the frame's size.
#[derive(Clone, Copy, Debug, PartialEq, Eq, Error)]
pub enum FrameError {
    /// The frame is not whole yet.
    #[error("the frame is not whole")]
    Short,
    /// Its size is above 2,097,152.
    #[error("a frame of {size} bytes")]
    TooLong {
        /// The size.
        size: u32,
    },
    /// It is a frame of another cluster.
    #[error("a frame of cluster {id}")]
    OtherCluster {
        /// The other cluster.
        id: u64,
    },
    /// There is no such kind of frame.
    #[error("no kind of frame at byte {at}")]
    BadKind {
        /// The place of the kind.
        at: u64,
    },
    /// A field is wrong, or passes the end of the frame.
    #[error("a wrong field at byte {at}")]
    BadField {
        /// The first byte of the first wrong field.
        at: u64,
    },
    /// Bytes stand behind the last field.
    #[error("bytes behind the last field, from byte {at} on")]
    Rest {
        /// The first of them.
        at: u64,
    },
    /// Out of memory.
    #[error("out of memory")]
    Memory,
}

impl From<AllocError> for FrameError {
    ghost from_gives = { λ _ e. e ≡ Memory };

    fn from(_e: AllocError) -> FrameError {
        FrameError::Memory
    }
}
