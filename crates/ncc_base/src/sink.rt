//! Where bytes go.

ghost use Rattle.std.specs.Prelude.{◌≡◌, ℕ, ◌≤◌, take, OnOk, OnErr, IsErrOf, List, Option};
ghost use Rattle.std.specs.Io.KnownBytes.{Appends};
ghost use Rattle.ncc_base.specs.Faults.{Rose};
ghost use Rattle.ncc_base.specs.Flushing.{IsAllFlushed, IsFlushedFromFront, StaysFlushed};

use crate::source::Failed;
use thiserror::Error;

/// What a write says in place of being made.
#[derive(Clone, Copy, Debug, PartialEq, Eq, Error)]
pub enum SinkError {
    /// The object failed, and its count of faults rose.
    #[error("the object failed")]
    Failed,
    /// There was no memory.
    #[error("out of memory")]
    Memory,
}

/// A sink of bytes, such as standard output.
pub trait Sink {
    /// The bytes that it took, where the object tells them.
    ghost held: { Self → Option (List ℕ) };

    /// The bytes of these that were flushed, where the object tells them.
    ghost flushed: { Self → Option (List ℕ) };

    /// How often it has failed.
    ghost faults: { Self → ℕ };

    /// Takes all the bytes. A failed write has taken a prefix of them, and one that had no memory has taken none.
    /// Whatever it answers, what was flushed stays so, and is a beginning of what is held.
    fn write(&mut self, bytes: &[u8]) -> Result<(), SinkError>
        ensures ok { OnOk result (Appends (held self.old) (held self.new) bytes.now) }
        ensures prefix { IsErrOf result SinkError.Failed → (n : ℕ) × Appends (held self.old) (held self.new) (take n bytes.now) }
        ensures memory { IsErrOf result SinkError.Memory → held self.new ≡ held self.old }
        ensures stays_flushed { StaysFlushed (flushed self.old) (flushed self.new) }
        ensures from_front { IsFlushedFromFront (held self.new) (flushed self.new) }
        ensures never_falls { faults self.old ≤ faults self.new }
        ensures failed { IsErrOf result SinkError.Failed → Rose (faults self.old) (faults self.new) };

    /// Hands on what was taken, and takes nothing itself. Where it is `Ok`, all that is held is flushed. A failed flush
    /// may have flushed some of it; what was flushed before stays so.
    fn flush(&mut self) -> Result<(), Failed>
        ensures same { held self.new ≡ held self.old }
        ensures all_flushed { OnOk result (IsAllFlushed (held self.new) (flushed self.new)) }
        ensures stays_flushed { StaysFlushed (flushed self.old) (flushed self.new) }
        ensures from_front { IsFlushedFromFront (held self.new) (flushed self.new) }
        ensures never_falls { faults self.old ≤ faults self.new }
        ensures failed { OnErr result (Rose (faults self.old) (faults self.new)) };
}
