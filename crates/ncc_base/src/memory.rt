//! A source and a sink in memory, which fail at the calls that their maker names.

ghost use Rattle.std.specs.Prelude.{◌≡◌, ℕ, ◌<◌, ◌≤◌, ◌↔◌, ◌⊎◌, ◌++◌, [], length, take, Contains, IfOk, OnOk, OnErr, IsErr};
ghost use Rattle.std.specs.Prelude.{IsErrOf, IsTrue, Some, if◌then◌else◌};
ghost use Rattle.std.specs.Io.KnownBytes.{Appends, Consumes, IsAtEnd};
ghost use Rattle.ncc_base.specs.Faults.{Rose, one_more};
ghost use Rattle.ncc_base.specs.Flushing.{IsAllFlushed, IsFlushedFromFront, StaysFlushed};

use crate::sink::{Sink, SinkError};
use crate::source::{Failed, Source};
use std::alloc::{AllocError, Global};
use std::marker::Model;

// Copies as many bytes as there are and as there is room for, and says how many.
fn copy_front(from: &[u8], into: &mut [u8]) -> usize
    ensures count { (result ≤ length from.now) × (result ≤ length into.new) }
    ensures copied { take result into.new ≡ take result from.now }
    ensures most { result ≡ 0 → 0 < length into.new → from.now ≡ [] }
{
    let count = into.len().min(from.len());
    let (front, _) = from.split_at(count);
    into[..count].copy_from_slice(front);
    count
}

/// Bytes in memory to read from. The calls whose numbers are listed fail.
#[derive(Drop)]
pub struct MemSource {
    bytes: Vec<u8>,
    at: usize,
    failing: Vec<u64>,
    calls: u64,
    faults: u64,
}

impl Model for MemSource {
    ghost use Rattle.std.specs.Prelude.{◌≤◌, drop, length};
    ghost use Rattle.ncc_base.specs.Memory.{Supply};

    ghost Value = { Supply };

    ghost view = { λ s. record { left = drop s.at s.bytes.items; failing = s.failing.items; calls = s.calls; faults = s.faults } };

    ghost invariant = { λ s. s.at ≤ length s.bytes.items };
}

impl MemSource {
    /// A source of these bytes, whose calls with the listed numbers, from 1, fail. Its count of faults is 0.
    pub fn new(alloc: Global, bytes: &[u8], failing: &[u64]) -> Result<MemSource, AllocError>
        ensures made { IfOk result (λ s. s ≡ record { left = bytes.now; failing = failing.now; calls = 0; faults = 0 }) }
    {
        let bytes = Vec::from_slice(alloc, bytes)?;
        let failing = Vec::from_slice(alloc, failing)?;
        Ok(MemSource {
            bytes,
            at: 0,
            failing,
            calls: 0,
            faults: 0,
        })
    }
}

impl Source for MemSource {
    ghost left = { λ s. Some s.left };

    ghost faults = { λ s. s.faults };

    fn read(&mut self, into: &mut [u8]) -> Result<usize, Failed>
        ensures count { IfOk result (λ n. n ≤ length into.new) }
        ensures ok { IfOk result (λ n. Consumes (Some self.old.left) (Some self.new.left) (take n into.new)) }
        ensures end { IfOk result (λ n. n ≡ 0 → 0 < length into.new → IsAtEnd (Some self.new.left)) }
        ensures err { OnErr result (Some self.new.left ≡ Some self.old.left) }
        ensures slice { OnErr result (into.new ≡ into.old) }
        ensures never_falls { self.old.faults ≤ self.new.faults }
        ensures failed { OnErr result (Rose self.old.faults self.new.faults) }
        // It fails at the calls that are listed, and at no other.
        ensures listed { IsErr result ↔ Contains self.old.failing self.new.calls }
        ensures calls { self.new.calls ≡ one_more self.old.calls }
        ensures list { self.new.failing ≡ self.old.failing }
        ensures no_fault { OnOk result (self.new.faults ≡ self.old.faults) }
    {
        self.calls = self.calls.saturating_add(1);
        if self.failing.contains(&self.calls) {
            self.faults = self.faults.saturating_add(1);
            return Err(Failed);
        }
        let count = copy_front(&self.bytes[self.at..], into);
        self.at += count;
        Ok(count)
    }
}

/// A sink that keeps its bytes in memory. The calls whose numbers are listed fail, and take nothing.
#[derive(Drop)]
pub struct MemSink {
    bytes: Vec<u8>,
    flushed: usize,
    failing: Vec<u64>,
    calls: u64,
    faults: u64,
}

impl Model for MemSink {
    ghost use Rattle.std.specs.Prelude.{◌≤◌, take, length};
    ghost use Rattle.ncc_base.specs.Memory.{Received};

    ghost Value = { Received };

    ghost view = { λ s. record {
      held = s.bytes.items;
      flushed = take s.flushed s.bytes.items;
      failing = s.failing.items;
      calls = s.calls;
      faults = s.faults;
    } };

    ghost invariant = { λ s. s.flushed ≤ length s.bytes.items };
}

impl MemSink {
    /// An empty sink, whose calls with the listed numbers, from 1, fail; writes and flushes are counted
    /// together. Its count of faults is 0.
    pub fn new(alloc: Global, failing: &[u64]) -> Result<MemSink, AllocError>
        ensures made { IfOk result (λ s. s ≡ record { held = []; flushed = []; failing = failing.now; calls = 0; faults = 0 }) }
    {
        let failing = Vec::from_slice(alloc, failing)?;
        Ok(MemSink {
            bytes: Vec::new(alloc),
            flushed: 0,
            failing,
            calls: 0,
            faults: 0,
        })
    }

    /// The bytes that it took.
    pub fn held(&self) -> &[u8]
        ensures bytes { result.now ≡ self.now.held }
    {
        self.bytes.as_slice()
    }

    /// Those of the bytes that were flushed.
    pub fn flushed(&self) -> &[u8]
        ensures bytes { result.now ≡ self.now.flushed }
    {
        &self.bytes[..self.flushed]
    }

    // One more call: true where it is to fail.
    fn fails(&mut self) -> bool
        ensures listed { IsTrue result ↔ Contains self.old.failing self.new.calls }
        ensures calls { self.new.calls ≡ one_more self.old.calls }
        ensures list { self.new.failing ≡ self.old.failing }
        ensures held { self.new.held ≡ self.old.held }
        ensures flushed { self.new.flushed ≡ self.old.flushed }
        ensures from_front { IsFlushedFromFront (Some self.new.held) (Some self.new.flushed) }
        ensures faults { self.new.faults ≡ (if result then one_more self.old.faults else self.old.faults) }
    {
        self.calls = self.calls.saturating_add(1);
        let failing = self.failing.contains(&self.calls);
        if failing {
            self.faults = self.faults.saturating_add(1);
        }
        failing
    }
}

impl Sink for MemSink {
    ghost held = { λ s. Some s.held };

    ghost flushed = { λ s. Some s.flushed };

    ghost faults = { λ s. s.faults };

    fn write(&mut self, bytes: &[u8]) -> Result<(), SinkError>
        ensures ok { OnOk result (Appends (Some self.old.held) (Some self.new.held) bytes.now) }
        ensures prefix { IsErrOf result SinkError.Failed → (n : ℕ) × Appends (Some self.old.held) (Some self.new.held) (take n bytes.now) }
        ensures memory { IsErrOf result SinkError.Memory → Some self.new.held ≡ Some self.old.held }
        ensures stays_flushed { StaysFlushed (Some self.old.flushed) (Some self.new.flushed) }
        ensures from_front { IsFlushedFromFront (Some self.new.held) (Some self.new.flushed) }
        ensures never_falls { self.old.faults ≤ self.new.faults }
        ensures failed { IsErrOf result SinkError.Failed → Rose self.old.faults self.new.faults }
        // It fails at the calls that are listed, and at no other, and takes nothing then.
        ensures listed { IsErrOf result SinkError.Failed ↔ Contains self.old.failing self.new.calls }
        ensures takes_nothing { OnErr result (self.new.held ≡ self.old.held) }
        ensures flushes_nothing { self.new.flushed ≡ self.old.flushed }
        ensures no_fault { IsErrOf result SinkError.Failed ⊎ (self.new.faults ≡ self.old.faults) }
        ensures calls { self.new.calls ≡ one_more self.old.calls }
        ensures list { self.new.failing ≡ self.old.failing }
    {
        if self.fails() {
            return Err(SinkError::Failed);
        }
        match self.bytes.extend_from_slice(bytes) {
            Ok(()) => Ok(()),
            Err(_) => Err(SinkError::Memory),
        }
    }

    fn flush(&mut self) -> Result<(), Failed>
        ensures same { Some self.new.held ≡ Some self.old.held }
        ensures all_flushed { OnOk result (IsAllFlushed (Some self.new.held) (Some self.new.flushed)) }
        ensures stays_flushed { StaysFlushed (Some self.old.flushed) (Some self.new.flushed) }
        ensures from_front { IsFlushedFromFront (Some self.new.held) (Some self.new.flushed) }
        ensures never_falls { self.old.faults ≤ self.new.faults }
        ensures failed { OnErr result (Rose self.old.faults self.new.faults) }
        ensures listed { IsErr result ↔ Contains self.old.failing self.new.calls }
        ensures flushes_nothing { OnErr result (self.new.flushed ≡ self.old.flushed) }
        ensures no_fault { OnOk result (self.new.faults ≡ self.old.faults) }
        ensures calls { self.new.calls ≡ one_more self.old.calls }
        ensures list { self.new.failing ≡ self.old.failing }
    {
        if self.fails() {
            return Err(Failed);
        }
        self.flushed = self.bytes.len();
        Ok(())
    }
}
