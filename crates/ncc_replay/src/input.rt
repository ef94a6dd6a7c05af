//! The whole input of a replay.

ghost use Rattle.std.specs.Prelude.{◌≡◌, ◌≤◌, ◌<◌, length, IfOk, IsErrOf};
ghost use Rattle.ncc_base.specs.Faults.{Rose};
ghost use Rattle.ncc_replay.specs.Replay.{ReadsAll, IsTooLong, most_bytes};

use ncc_base::Source;
use std::alloc::Global;
use thiserror::Error;

/// The most bytes that a script may have.
pub const MOST_BYTES: usize = 268_435_456;

/// Why an input is not read to its end.
#[derive(Clone, Copy, Debug, PartialEq, Eq, Error)]
pub enum ReadError {
    /// The source failed.
    #[error("the source failed")]
    Fault,
    /// The input has more bytes than a script may have.
    #[error("more bytes than a script may have")]
    TooLong,
    /// There was no memory.
    #[error("out of memory")]
    Memory,
}

/// Reads all that a source has left, at most `MOST_BYTES`.
pub fn read_all<S: Source>(alloc: Global, input: &mut S) -> Result<Vec<u8>, ReadError>
    ensures ok { IfOk result (λ v. ReadsAll (S.left input.old) (S.left input.new) v.items) }
    ensures too_long { IsErrOf result ReadError.TooLong → IsTooLong (S.left input.old) }
    ensures fault { IsErrOf result ReadError.Fault → Rose (S.faults input.old) (S.faults input.new) }
    ensures never_falls { S.faults input.old ≤ S.faults input.new }
{
    let mut text = Vec::new(alloc);
    let mut buffer = [0u8; 8192];
    'pieces: while text.len() <= MOST_BYTES {
        let count = match input.read(&mut buffer) {
            Ok(count) => count,
            Err(_) => return Err(ReadError::Fault),
        };
        if count == 0 {
            return Ok(text);
        }
        match text.extend_from_slice(&buffer[..count]) {
            Ok(()) => {}
            Err(_) => return Err(ReadError::Memory),
        }
    }
    Err(ReadError::TooLong)
}
