//! Connections that are served from bytes to bytes, by a shelf or by what tells facts at once.

ghost use Rattle.std.specs.Prelude.{None};

use crate::sessions::{config_of, ready_fact};
use ncc_base::{Failed, MemClock, MemSink, MemSource, Source};
use ncc_pack::Memory;
use ncc_server::{Backend, BackendError, ConnEnd, ShelfBackend, serve_conn};
use ncc_session::{Ask, Fact};
use std::alloc::Global;

/// How long a question may wait, in milliseconds.
const WAIT: u64 = 30_000;

/// A backend that tells facts at once.
#[derive(Drop)]
struct Ready {
    alloc: Global,
}

impl Backend for Ready {
    ghost told = { λ _. None };

    ghost faults = { λ _. 0 };

    fn answer(&mut self, ask: &Ask, deadline: u64) -> Result<Fact, BackendError> {
        match ready_fact(self.alloc, ask) {
            Ok(fact) => Ok(fact),
            Err(_) => Err(BackendError::Memory),
        }
    }
}

/// A client whose bytes come one by one.
#[derive(Drop)]
struct Single {
    bytes: Vec<u8>,
    at: usize,
}

impl Source for Single {
    ghost left = { λ _. None };

    ghost faults = { λ _. 0 };

    fn read(&mut self, into: &mut [u8]) -> Result<usize, Failed> {
        if into.is_empty() {
            return Ok(0);
        }
        match self.bytes.get(self.at) {
            None => Ok(0),
            Some(byte) => {
                into[0] = *byte;
                self.at = self.at.saturating_add(1);
                Ok(1)
            }
        }
    }
}

/// Serves a client whose bytes come from a source, by a backend. Says whether they were answered up to their end.
fn served<S: Source, B: Backend>(
    alloc: Global,
    input: &mut S,
    backend: &mut B,
) -> Result<bool, Memory> {
    let config = config_of(alloc);
    let moments = [0u64];
    if !config.is_allowed() || !MemClock::may_tell(&moments) {
        return Ok(false);
    }
    let mut output = MemSink::new(alloc, &[])?;
    let mut clock = MemClock::new(alloc, &moments)?;
    let end = serve_conn(alloc, config, WAIT, input, &mut output, backend, &mut clock);
    Ok(matches!(end, ConnEnd::Closed))
}

/// The number of the passes in which a client was served by a shelf of its own.
pub(crate) fn serve_often(alloc: Global, bytes: &[u8], times: u32) -> Result<u64, Memory> {
    let mut sum = 0u64;
    for _ in 0..times {
        let mut backend = ShelfBackend::new(alloc, 1)?;
        let mut input = MemSource::new(alloc, bytes, &[])?;
        if served(alloc, &mut input, &mut backend)? {
            sum = sum.saturating_add(1);
        }
    }
    Ok(sum)
}

/// The number of the passes in which a client was served by what tells facts at once.
pub(crate) fn ready_often(alloc: Global, bytes: &[u8], times: u32) -> Result<u64, Memory> {
    let mut sum = 0u64;
    for _ in 0..times {
        let mut backend = Ready { alloc };
        let mut input = MemSource::new(alloc, bytes, &[])?;
        if served(alloc, &mut input, &mut backend)? {
            sum = sum.saturating_add(1);
        }
    }
    Ok(sum)
}

/// The same, where the client's bytes come one by one.
pub(crate) fn single_often(alloc: Global, bytes: &[u8], times: u32) -> Result<u64, Memory> {
    let mut sum = 0u64;
    for _ in 0..times {
        let mut backend = Ready { alloc };
        let mut input = Single {
            bytes: Vec::from_slice(alloc, bytes)?,
            at: 0,
        };
        if served(alloc, &mut input, &mut backend)? {
            sum = sum.saturating_add(1);
        }
    }
    Ok(sum)
}
