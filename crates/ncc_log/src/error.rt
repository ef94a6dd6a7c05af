//! Why a journal could not be opened, or a change not saved.

ghost use Rattle.std.specs.Prelude.{◌≡◌};
ghost use Rattle.ncc_base.specs.declared.disk.DiskError.TheVariants as disk;
ghost use Rattle.ncc_log.specs.declared.error.JournalError.TheVariants.{DiskFault, Memory};

use ncc_base::{DiskError, Failed};
use std::alloc::AllocError;
use thiserror::Error;

/// Why a journal could not be opened, or a change not saved.
#[derive(Clone, Copy, Debug, PartialEq, Eq, Error)]
pub enum JournalError {
    /// The disk failed, now or in an earlier save: the journal is to be recovered.
    #[error("the disk failed")]
    DiskFault,
    /// The bytes are no journal. `at` is the place of the first wrong byte of the header, or of the gate of the first record
    /// that is not whole and right.
    #[error("damaged at {at}")]
    Damaged { at: u64 },
    /// It is the journal of another cluster or member.
    #[error("the journal of member {member} of cluster {cluster}")]
    Foreign { cluster: u64, member: u8 },
    /// The log would have more than 2^24 items.
    #[error("the log is full")]
    Full,
    /// Out of memory, or the file would pass 2^62 bytes.
    #[error("out of memory")]
    Memory,
}

/// A disk that was not opened, and why.
#[derive(Drop)]
pub struct Unopened<D> {
    /// The disk.
    pub disk: D,
    /// Why it was not opened.
    pub error: JournalError,
}

impl From<Failed> for JournalError {
    ghost from_gives = { λ _ e. e ≡ DiskFault };

    fn from(_e: Failed) -> JournalError {
        JournalError::DiskFault
    }
}

impl From<AllocError> for JournalError {
    ghost from_gives = { λ _ e. e ≡ Memory };

    fn from(_e: AllocError) -> JournalError {
        JournalError::Memory
    }
}

impl From<DiskError> for JournalError {
    ghost from_gives = { λ d e. (d ≡ disk.Failed → e ≡ DiskFault) × (d ≡ disk.Memory → e ≡ Memory) };

    fn from(e: DiskError) -> JournalError {
        match e {
            DiskError::Failed => JournalError::DiskFault,
            DiskError::Memory => JournalError::Memory,
        }
    }
}
