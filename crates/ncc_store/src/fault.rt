//! Why steps could not be run.

ghost use Rattle.std.specs.Prelude.{◌≡◌};
ghost use Rattle.ncc_store.specs.declared.fault.RunError.TheVariants.{Memory};

use std::alloc::{AllocError, AllocFailed};
use thiserror::Error;

/// The first fault that steps meet.
#[derive(Clone, Copy, Debug, PartialEq, Eq, Error)]
pub enum RunFault {
    /// A parameter that the step does not have.
    #[error("a parameter is missing")]
    MissingParameter,
    /// A sum of two kinds that do not add, or a parameter that is bytes, a list, a dictionary or a node.
    #[error("wrong kind")]
    WrongKind,
    /// A sum past 64 bits.
    #[error("integer overflow")]
    Overflow,
    /// MERGE on a property that is null.
    #[error("merge on null")]
    NullMerge,
    /// `+` made a text of more than 262,144 bytes, or a row does not fit or has more than 1,048,000 bytes.
    #[error("a text or a row is too long")]
    TooLong,
    /// RETURN gave more than 10,000 rows, or 16,777,216 bytes of them.
    #[error("too many rows")]
    TooManyRows,
    /// A new node would get the id 2^62.
    #[error("ids are spent")]
    IdsSpent,
}

/// Why a run gave no rows.
#[derive(Clone, Copy, Debug, PartialEq, Eq, Error)]
pub enum RunError {
    /// The steps met this fault. Nothing of the run stays.
    #[error("{0}")]
    Fault(RunFault),
    /// Out of memory.
    #[error("out of memory")]
    Memory,
}

impl From<AllocError> for RunError {
    ghost from_gives = { λ _ e. e ≡ Memory };

    fn from(_e: AllocError) -> RunError {
        RunError::Memory
    }
}

impl<T: Drop> From<AllocFailed<T>> for RunError {
    ghost from_gives = { λ _ e. e ≡ Memory };

    fn from(_e: AllocFailed<T>) -> RunError {
        RunError::Memory
    }
}
