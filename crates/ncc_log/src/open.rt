//! How the bytes of a disk are read as a journal.

ghost use Rattle.std.specs.Prelude.{◌≡◌, ◌⊎◌, ◌≤◌, ◌<◌, ◌+◌, ◌∷◌, ◌++◌, ℕ, List, [], true, Err, IsOk, IfOk, IfErr, OnOk, OnErr};
ghost use Rattle.std.specs.Prelude.{MatchOption, length, slice_index, take, drop};
ghost use Rattle.std.specs.Int.{w32, from_be_bytes};
ghost use Rattle.ncc_base.specs.Faults.{Rose};
ghost use Rattle.ncc_base.specs.Disk.{LeavesOnly, Only, Sync};
ghost use Rattle.ncc_tx.specs.declared.entry.Saved.{Saved};
ghost use Rattle.ncc_tx.specs.Kept.{payload};
ghost use Rattle.ncc_log.specs.declared.error.JournalError.{JournalError};
ghost use Rattle.ncc_log.specs.Calls.{Asks, AsksOneSync, Looks};
ghost use Rattle.ncc_log.specs.Opening.{IsGate, Reached, StandsAt};
ghost use Rattle.ncc_log.specs.Reading.{IsPart};
ghost use Rattle.ncc_log.specs.Records.{Breaks};
ghost use Rattle.ncc_log.specs.Saves.{IsRefusal, Saves, nothing};
ghost use Rattle.ncc_log.specs.Shown.{Ready};

use crate::error::JournalError;
use crate::header::{WITH_GATE, header_fault};
use crate::records::{applied, read_change};
use crate::window::{Window, look};
use ncc_base::{Disk, Failed};
use ncc_tx::{ChangeSet, Entries, Saved};
use std::alloc::Global;

/// How many bytes a gate and the size behind it have.
const HEAD: usize = 5;

/// What stands at a gate.
#[derive(Clone, Copy, Debug, PartialEq, Eq)]
pub(crate) enum Gate {
    Closed,
    /// It is open, and behind it stands the size of a payload.
    Open(u32),
    /// It is open and no size stands behind it, or the bytes end.
    Broken,
}

/// The size behind a gate.
fn read_size(bytes: &[u8]) -> u32
    requires { 5 ≤ length bytes.now }
    ensures { result ≡ from_be_bytes w32 (take 4 (drop 1 bytes.now)) }
{
    u32::from_be_bytes([bytes[1], bytes[2], bytes[3], bytes[4]])
}

/// An open gate with the size behind it.
fn open_gate(bytes: &[u8]) -> Gate
    requires long { 5 ≤ length bytes.now }
    requires first { slice_index bytes.now 0 ≡ 0 → ⊥ }
    ensures { IsGate bytes.now result }
{
    let size = read_size(bytes);
    Gate::Open(size)
}

fn read_gate(bytes: &[u8]) -> Gate
    ensures { IsGate bytes.now result }
{
    if bytes.is_empty() {
        return Gate::Broken;
    }
    if bytes[0] == 0 {
        return Gate::Closed;
    }
    if bytes.len() < HEAD {
        return Gate::Broken;
    }
    open_gate(bytes)
}

/// The change whose record stands behind the gate, with the length of its payload, or none where the gate is closed. The
/// gate is at fault where it is open, and no record of a change that may follow stands behind it, with a gate.
fn next_record<D: Disk>(
    alloc: Global,
    disk: &mut D,
    window: &mut Window,
    file: u64,
    gate: u64,
    part: &Saved,
) -> Result<Option<(ChangeSet, u64)>, JournalError>
    requires inside { gate < file }
    requires file { D.told → file ≡ length (D.seen disk.old) }
    requires part { D.told → IsPart (D.seen disk.old) window.old.from window.old.held }
    ensures part { D.told → IsPart (D.seen disk.old) window.new.from window.new.held }
    ensures there { IfOk result (λ o. D.told → StandsAt part.now (drop gate (D.seen disk.old)) o) }
    ensures fits { IfOk result (λ o. MatchOption o (Unit {0}) (λ p. (gate + (5 + p.1) < file) × (p.0.keep ≤ length part.now.log))) }
    ensures broken { (at : ℕ) → result ≡ Err (JournalError.Damaged at) →
        (at ≡ gate) × (D.told → Breaks part.now gate (drop gate (D.seen disk.old)) gate) }
    ensures which { (e : JournalError) → result ≡ Err e →
        (e ≡ JournalError.DiskFault) ⊎ (e ≡ JournalError.Memory) ⊎ (e ≡ JournalError.Damaged gate) }
    ensures looks { Looks D.Disk disk.old disk.new }
    ensures failed { result ≡ Err JournalError.DiskFault → Rose (D.fault_count disk.old) (D.fault_count disk.new) }
    ensures calm { D.calm disk.old → result ≡ Err JournalError.DiskFault → ⊥ }
{
    let damaged = JournalError::Damaged { at: gate };
    look(alloc, disk, window, gate, HEAD)?;
    let size = match read_gate(window.part(gate, HEAD)) {
        Gate::Closed => return Ok(None),
        Gate::Broken => return Err(damaged),
        Gate::Open(size) => size as usize,
    };
    if file - gate <= (HEAD + size) as u64 {
        return Err(damaged);
    }
    look(alloc, disk, window, gate, HEAD + size)?;
    let bytes = window.part(gate, HEAD + size);
    if bytes.len() < HEAD + size {
        return Err(damaged);
    }
    match read_change(alloc, &bytes[HEAD..], part)? {
        Some(change) => Ok(Some((change, size as u64))),
        None => Err(damaged),
    }
}

/// The part to which the records lead, and the place of the closed gate behind them.
fn read_records<D: Disk>(
    alloc: Global,
    disk: &mut D,
    window: &mut Window,
    file: u64,
) -> Result<(Saved, u64), JournalError>
    requires inside { 14 < file }
    requires file { D.told → file ≡ length (D.seen disk.old) }
    requires part { D.told → IsPart (D.seen disk.old) window.old.from window.old.held }
    ensures ok { IfOk result (λ p. D.told → Reached (D.seen disk.old) p.1 p.0) }
    ensures closed { IfOk result (λ p. D.told → (rest : List ℕ) × (drop p.1 (D.seen disk.old) ≡ 0 ∷ rest)) }
    ensures broken { (at : ℕ) → result ≡ Err (JournalError.Damaged at) → D.told →
        Breaks nothing 14 (drop 14 (D.seen disk.old)) at }
    ensures which { (e : JournalError) → result ≡ Err e →
        (e ≡ JournalError.DiskFault) ⊎ (e ≡ JournalError.Memory) ⊎ ((at : ℕ) × (e ≡ JournalError.Damaged at)) }
    ensures looks { Looks D.Disk disk.old disk.new }
    ensures failed { result ≡ Err JournalError.DiskFault → Rose (D.fault_count disk.old) (D.fault_count disk.new) }
    ensures calm { D.calm disk.old → result ≡ Err JournalError.DiskFault → ⊥ }
{
    let mut part = Saved {
        term: 0,
        vote: 0,
        log: Entries::new(alloc),
    };
    let mut gate = 14;
    loop {
        match next_record(alloc, disk, window, file, gate, &part)? {
            None => return Ok((part, gate)),
            Some((change, size)) => {
                part = applied(part, change)?;
                gate += 5 + size;
            }
        }
    }
}

/// The length of the file.
fn length_of<D: Disk>(disk: &mut D) -> Result<u64, Failed>
    ensures length { IfOk result (λ n. D.told → n ≡ length (D.seen disk.old)) }
    ensures looks { Looks D.Disk disk.old disk.new }
    ensures failed { OnErr result (Rose (D.fault_count disk.old) (D.fault_count disk.new)) }
    ensures calm { D.calm disk.old → IsOk result }
{
    disk.size()
}

/// Reads the bytes of a disk as a journal.
fn read_journal<D: Disk>(
    alloc: Global,
    disk: &mut D,
    cluster: u64,
    member: u8,
) -> Result<(Saved, u64), JournalError>
    ensures ok { IfOk result (λ p. D.told → Saves cluster member (D.seen disk.old) p.0) }
    ensures ready { IfOk result (λ p. D.told → Only (D.seen disk.old) (D.may_leave disk.old) →
        Ready cluster member p.1 (D.seen disk.new) (D.may_leave disk.new)) }
    ensures refused { IfErr result (λ e. D.told → IsRefusal cluster member (D.seen disk.old) e) }
    ensures not_full { result ≡ Err JournalError.Full → ⊥ }
    ensures looks { Looks D.Disk disk.old disk.new }
    ensures failed { result ≡ Err JournalError.DiskFault → Rose (D.fault_count disk.old) (D.fault_count disk.new) }
    ensures calm { D.calm disk.old → result ≡ Err JournalError.DiskFault → ⊥ }
{
    let file = length_of(disk)?;
    let mut window = Window::new(alloc);
    look(alloc, disk, &mut window, 0, WITH_GATE)?;
    if let Some(error) = header_fault(window.part(0, WITH_GATE), cluster, member) {
        return Err(error);
    }
    if file < WITH_GATE as u64 {
        return Err(JournalError::Damaged { at: file });
    }
    read_records(alloc, disk, &mut window, file)
}

/// Syncs, and then reads. It never writes.
pub(crate) fn load<D: Disk>(
    alloc: Global,
    disk: &mut D,
    cluster: u64,
    member: u8,
) -> Result<(Saved, u64), JournalError>
    ensures saved { IfOk result (λ p. D.told → Saves cluster member (D.seen disk.old) p.0) }
    ensures ready { IfOk result (λ p. D.told → Ready cluster member p.1 (D.seen disk.new) (D.may_leave disk.new)) }
    ensures refused { IfErr result (λ e. D.told → IsRefusal cluster member (D.seen disk.old) e) }
    ensures not_full { result ≡ Err JournalError.Full → ⊥ }
    ensures seen { D.told → D.seen disk.new ≡ D.seen disk.old }
    ensures only { OnOk result (D.told → Only (D.seen disk.old) (D.may_leave disk.new)) }
    ensures any_moment { D.told → LeavesOnly D.moment D.left_since disk.old disk.new (D.may_leave disk.old) }
    ensures asked { OnOk result (D.told → Asks D.Disk disk.old disk.new (Sync true ∷ [])) }
    ensures asked_err { OnErr result (D.told → AsksOneSync D.Disk disk.old disk.new) }
    ensures failed { result ≡ Err JournalError.DiskFault → Rose (D.fault_count disk.old) (D.fault_count disk.new) }
    ensures never_falls { D.fault_count disk.old ≤ D.fault_count disk.new }
    ensures calm { D.calm disk.old → D.calm disk.new }
    ensures calm_ok { D.calm disk.old → result ≡ Err JournalError.DiskFault → ⊥ }
{
    disk.reserve(1, 0)?;
    disk.sync()?;
    read_journal(alloc, disk, cluster, member)
}
