//! What the programs read from and write to, with what each object means for the contracts above it.
#![tactic(auto)]

mod bytes;
mod clock;
mod disk;
mod file_disk;
mod mem_clock;
mod mem_disk;
mod memory;
mod sink;
mod source;
mod standard;
mod std_clock;
#[cfg(test)]
mod tests;

pub use bytes::Bytes;
pub use clock::{Clock, tellings_join};
pub use disk::{Armed, Disk, DiskError};
pub use file_disk::FileDisk;
pub use mem_clock::MemClock;
pub use mem_disk::MemDisk;
pub use memory::{MemSink, MemSource};
pub use sink::{Sink, SinkError};
pub use source::{Failed, Source};
pub use standard::{StdSink, StdSource};
pub use std::alloc::AllocError as Memory;
pub use std_clock::StdClock;
