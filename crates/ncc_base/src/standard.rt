//! A source and a sink over std's readers and writers. They tell no content: what a file or a pipe holds
//! is outside of every proof.

ghost use Rattle.std.specs.Prelude.{◌≡◌, None};

use crate::sink::{Sink, SinkError};
use crate::source::{Failed, Source};
use std::io::{Read, Write};
use std::marker::Model;

// How many bytes one read takes at most.
const MOST_AT_ONCE: usize = 8192;

/// A source over a reader, such as standard input. A contract sees the count of its faults.
#[derive(Drop)]
pub struct StdSource<I> {
    inner: I,
    faults: u64,
}

impl<I> Model for StdSource<I> {
    ghost use Rattle.std.specs.Prelude.{ℕ};

    ghost Value = { ℕ };

    ghost view = { λ s. s.faults };
}

impl<I> StdSource<I> {
    /// A source over this reader. Its count of faults is 0.
    pub fn new(inner: I) -> StdSource<I>
        ensures no_faults { result ≡ 0 }
    {
        StdSource { inner, faults: 0 }
    }
}

impl<I: Read> Source for StdSource<I> {
    ghost left = { λ _. None };

    ghost faults = { λ faults. faults };

    // A reader may write into the slice that it is given and fail then, so it is given another one.
    fn read(&mut self, into: &mut [u8]) -> Result<usize, Failed> {
        let mut buffer = [0u8; MOST_AT_ONCE];
        let room = into.len().min(MOST_AT_ONCE);
        match self.inner.read(&mut buffer[..room]) {
            Ok(count) => {
                into[..count].copy_from_slice(&buffer[..count]);
                Ok(count)
            }
            Err(_) => {
                self.faults = self.faults.saturating_add(1);
                Err(Failed)
            }
        }
    }
}

/// A sink over a writer, such as standard output. A contract sees the count of its faults.
#[derive(Drop)]
pub struct StdSink<O> {
    inner: O,
    faults: u64,
}

impl<O> Model for StdSink<O> {
    ghost use Rattle.std.specs.Prelude.{ℕ};

    ghost Value = { ℕ };

    ghost view = { λ s. s.faults };
}

impl<O> StdSink<O> {
    /// A sink over this writer. Its count of faults is 0.
    pub fn new(inner: O) -> StdSink<O>
        ensures no_faults { result ≡ 0 }
    {
        StdSink { inner, faults: 0 }
    }
}

impl<O: Write> Sink for StdSink<O> {
    ghost held = { λ _. None };

    ghost flushed = { λ _. None };

    ghost faults = { λ faults. faults };

    fn write(&mut self, bytes: &[u8]) -> Result<(), SinkError> {
        match self.inner.write_all(bytes) {
            Ok(()) => Ok(()),
            Err(_) => {
                self.faults = self.faults.saturating_add(1);
                Err(SinkError::Failed)
            }
        }
    }

    fn flush(&mut self) -> Result<(), Failed> {
        match self.inner.flush() {
            Ok(()) => Ok(()),
            Err(_) => {
                self.faults = self.faults.saturating_add(1);
                Err(Failed)
            }
        }
    }
}
