//! A part of the file that is held in memory while it is read.

ghost use Rattle.std.specs.Prelude.{◌≡◌, ◌↔◌, ◌≤◌, ◌+◌, ◌-◌, [], IsTrue, Err, OnOk, length, take, drop};
ghost use Rattle.ncc_base.specs.Faults.{Rose};
ghost use Rattle.ncc_base.specs.declared.disk.DiskError.TheVariants.{Failed};
ghost use Rattle.ncc_log.specs.Calls.{Looks};
ghost use Rattle.ncc_log.specs.Reading.{IsPart};

use ncc_base::{Bytes, Disk, DiskError};
use std::alloc::Global;

/// How many bytes are read at once, unless more have to be seen together.
const WINDOW: usize = 1_048_576;

/// The bytes of a file from a place on, as many as are held.
#[derive(Drop)]
pub(crate) struct Window {
    pub(crate) from: u64,
    pub(crate) held: Bytes,
}

impl Window {
    /// No bytes.
    pub(crate) fn new(alloc: Global) -> Window
        ensures from { result.from ≡ 0 }
        ensures held { result.held ≡ [] }
    {
        Window {
            from: 0,
            held: Bytes::from_vec(Vec::new(alloc)),
        }
    }

    /// Says whether so many bytes from a place on are held.
    fn has(&self, at: u64, count: usize) -> bool
        ensures { IsTrue result ↔ ((self.now.from ≤ at) × ((at - self.now.from) + count ≤ length self.now.held)) }
    {
        if at < self.from || at - self.from > self.held.len() as u64 {
            return false;
        }
        self.held.len() - (at - self.from) as usize >= count
    }

    /// The bytes from a place on, as many as asked for or as are held.
    pub(crate) fn part(&self, at: u64, count: usize) -> &[u8]
        requires { self.now.from ≤ at }
        ensures { result.now ≡ take count (drop (at - self.now.from) self.now.held) }
    {
        let held = self.held.as_slice();
        let start = held.len().min((at - self.from) as usize);
        let rest = &held[start..];
        &rest[..count.min(rest.len())]
    }
}

/// Sees to it that the bytes from a place on are held, as many as asked for or as the file has.
pub(crate) fn look<D: Disk>(
    alloc: Global,
    disk: &mut D,
    window: &mut Window,
    at: u64,
    count: usize,
) -> Result<(), DiskError>
    requires { D.told → IsPart (D.seen disk.old) window.old.from window.old.held }
    ensures part { D.told → IsPart (D.seen disk.old) window.new.from window.new.held }
    ensures from { OnOk result (window.new.from ≤ at) }
    ensures there { OnOk result (D.told →
        take count (drop (at - window.new.from) window.new.held) ≡ take count (drop at (D.seen disk.old))) }
    ensures looks { Looks D.Disk disk.old disk.new }
    ensures failed { result ≡ Err Failed → Rose (D.fault_count disk.old) (D.fault_count disk.new) }
    ensures calm { D.calm disk.old → result ≡ Err Failed → ⊥ }
{
    if window.has(at, count) {
        return Ok(());
    }
    *window = Window::new(alloc);
    let held = disk.read(alloc, at, count.max(WINDOW))?;
    *window = Window { from: at, held };
    Ok(())
}
