//! A disk over a file of the system. It tells no content: what a file holds is outside of every proof.

ghost use Rattle.std.specs.Prelude.{◌≡◌, ◌≤◌, IfOk, length};
ghost use Rattle.ncc_base.specs.Faults.{Rose};

use crate::bytes::Bytes;
use crate::disk::{Disk, DiskError};
use crate::source::Failed;
use std::alloc::{AllocError, Global};
use std::fs::File;
use std::io::{Read, Seek, SeekFrom, Write};
use std::marker::Model;

/// A disk over an open file. A contract sees the count of its faults. Who makes the file syncs its folder, and locks it.
#[derive(Drop)]
pub struct FileDisk {
    file: File,
    faults: u64,
    // A sync failed: the system may have dropped what was written, and would call the next sync a success.
    broken: bool,
}

impl Model for FileDisk {
    ghost use Rattle.std.specs.Prelude.{ℕ};

    ghost Value = { ℕ };

    ghost view = { λ s. s.faults };
}

impl FileDisk {
    /// A disk over this file, which is open for reading and writing. Its count of faults is 0.
    pub fn new(file: File) -> FileDisk
        ensures faults { result ≡ 0 }
    {
        FileDisk {
            file,
            faults: 0,
            broken: false,
        }
    }

    // One more fault.
    fn failed(&mut self) -> Failed
        ensures rose { Rose self.old self.new }
        ensures never_falls { self.old ≤ self.new }
    {
        self.faults = self.faults.saturating_add(1);
        Failed
    }
}

// As many bytes as there are from a place on, at most `count`; none where memory ran out.
fn bytes_at(
    file: &mut File,
    alloc: Global,
    at: u64,
    count: usize,
) -> std::io::Result<Result<Vec<u8>, AllocError>>
    ensures { IfOk result (λ answer. IfOk answer (λ v. length v.items ≤ count)) }
{
    let size = file.seek(SeekFrom::End(0))?;
    let there = size.saturating_sub(at).min(count as u64);
    let Ok(mut bytes) = Vec::from_elem(alloc, 0, there as usize) else {
        return Ok(Err(AllocError));
    };
    file.seek(SeekFrom::Start(at))?;
    file.read_exact(bytes.as_mut_slice())?;
    Ok(Ok(bytes))
}

// Writes from a place on.
fn put_at(file: &mut File, at: u64, bytes: &[u8]) -> std::io::Result<()> {
    file.seek(SeekFrom::Start(at))?;
    file.write_all(bytes)
}

impl Disk for FileDisk {
    ghost use Rattle.std.specs.Prelude.{[], ◌^◌};
    ghost use Rattle.std.proofs.Common.{refl};

    ghost told = { ⊥ };

    ghost seen = { λ _. [] };

    ghost may_leave = { λ _ _. Unit {0} };

    ghost moment = { λ _. 0 };

    ghost left_since = { λ _ _ _. Unit {0} };

    ghost asked_since = { λ _ _ _. Unit {0} };

    ghost went = { λ _ _ _. Unit {0} };

    ghost calm = { λ _. ⊥ };

    ghost fault_count = { λ faults. faults };

    ghost room_calls = { λ _. 2 ^ 64 };

    ghost room_bytes = { λ _. 2 ^ 64 };

    fn size(&mut self) -> Result<u64, Failed> {
        match self.file.seek(SeekFrom::End(0)) {
            Ok(size) => Ok(size),
            Err(_) => Err(self.failed()),
        }
    }

    fn read(&mut self, alloc: Global, at: u64, count: usize) -> Result<Bytes, DiskError> {
        match bytes_at(&mut self.file, alloc, at, count) {
            Ok(Ok(bytes)) => Ok(Bytes::from_vec(bytes)),
            Ok(Err(_)) => Err(DiskError::Memory),
            Err(_) => {
                self.failed();
                Err(DiskError::Failed)
            }
        }
    }

    fn reserve(&mut self, _calls: u64, _bytes: u64) -> Result<(), AllocError> {
        Ok(())
    }

    fn write(&mut self, at: u64, bytes: &[u8]) -> Result<(), Failed> {
        if self.broken || put_at(&mut self.file, at, bytes).is_err() {
            return Err(self.failed());
        }
        Ok(())
    }

    fn sync(&mut self) -> Result<(), Failed> {
        if self.broken || self.file.sync_data().is_err() {
            self.broken = true;
            return Err(self.failed());
        }
        Ok(())
    }

    fn faults(&self) -> u64 {
        self.faults
    }

    ghost seen_may_be_left = { λ _ _. tt };

    ghost counts_now = { λ _ _ _ told _ _. absurd told };

    ghost only_now = { λ _ _ told _. absurd told };

    ghost asked_nothing_now = { λ _. tt };

    ghost asked_once = { λ _ _ _ _ told _ _. absurd told };

    ghost went_none = { λ _. tt };

    ghost went_on = { λ _ _ _ _ _ _ _. tt };
}
