//! Why bytes are no value.

ghost use Rattle.std.specs.Prelude.{◌≡◌};
ghost use Rattle.ncc_pack.specs.declared.error.PackError.TheVariants.{Memory};

use std::alloc::{AllocError, AllocFailed};

/// Why bytes do not begin with a value. A place counts bytes from 0.
#[derive(Clone, Copy, Debug, PartialEq, Eq, thiserror::Error)]
pub enum PackError {
    /// The bytes end before the value does, and no other fault stands in them.
    #[error("the bytes end before the value does")]
    Short,
    /// The marker of a float.
    #[error("a float at byte {at}")]
    Float {
        /// Its place.
        at: u64,
    },
    /// A byte that is no marker or no tag of a structure, or the marker of another kind than a node wants there.
    #[error("a marker that does not belong at byte {at}")]
    BadMarker {
        /// Its place.
        at: u64,
    },
    /// A text that is no UTF-8.
    #[error("a text that is no UTF-8 at byte {at}")]
    BadUtf8 {
        /// The place of the first byte of the ill-formed sequence.
        at: u64,
    },
    /// A key that its dictionary has twice.
    #[error("a repeated key at byte {at}")]
    RepeatedKey {
        /// The place of the second key's marker.
        at: u64,
    },
    /// A key that is no text.
    #[error("a key that is no text at byte {at}")]
    KeyNotText {
        /// The place of its marker.
        at: u64,
    },
    /// A list, dictionary or node that nests deeper than 32 levels.
    #[error("too deep at byte {at}")]
    TooDeep {
        /// The place of its marker.
        at: u64,
    },
    /// A size of more than 16,777,216.
    #[error("too long at byte {at}")]
    TooLong {
        /// The place of the marker before it.
        at: u64,
    },
    /// Out of memory.
    #[error("out of memory")]
    Memory,
}

impl From<AllocError> for PackError {
    ghost from_gives = { λ _ e. e ≡ Memory };

    fn from(_e: AllocError) -> PackError {
        PackError::Memory
    }
}

impl<T: Drop> From<AllocFailed<T>> for PackError {
    ghost from_gives = { λ _ e. e ≡ Memory };

    fn from(_e: AllocFailed<T>) -> PackError {
        PackError::Memory
    }
}
