//! The journal of a member.

ghost use Rattle.std.specs.Prelude.{◌≡◌, ◌⊎◌, ◌↔◌, ◌≤◌, ◌<◌, ◌+◌, ◌∷◌, ◌++◌, [], true, false, Err, IsOk, IsErr, IfOk, IfErr, OnOk, OnErr};
ghost use Rattle.std.specs.Prelude.{MatchResult, length};
ghost use Rattle.ncc_base.specs.Faults.{Rose};
ghost use Rattle.ncc_base.specs.Disk.{LeavesOnly, Only, Sync, Write};
ghost use Rattle.ncc_tx.specs.declared.entry.Saved.{Saved};
ghost use Rattle.ncc_tx.specs.Kept.{MayFollow, MayStand, max_items, part_after, payload};
ghost use Rattle.ncc_log.specs.declared.error.JournalError.{JournalError};
ghost use Rattle.ncc_log.specs.Calls.{Arms, Asks, AsksOneSync, AsksUntilFailed, MakesRoom, gated};
ghost use Rattle.ncc_log.specs.Header.{header};
ghost use Rattle.ncc_log.specs.Records.{recorded};
ghost use Rattle.ncc_log.specs.Saves.{BeforeOrAfter, IsFree, IsOrFree, IsRefusal, Refuses, Saves, nothing};
ghost use Rattle.ncc_log.specs.Shown.{IsSame, Ready, disk_of, max_length};

use crate::error::{JournalError, Unopened};
use crate::header::{WITH_GATE, empty_journal};
use crate::open::load;
use crate::payload::fill;
use crate::steps::{put_body, write_synced};
use ncc_base::{Armed, Disk};
use ncc_tx::{ChangeSet, MAX_ITEMS, Saved, payload_len};
use std::alloc::{AllocError, Global};
use std::marker::Model;

/// The greatest length of a journal in bytes: 2^62.
const MAX_LENGTH: u64 = 0x4000_0000_0000_0000;

/// A journal on a disk. A contract sees the disk, whose journal it is, the place of its closed gate, the room that was made
/// and whether a save failed. While none did, the disk holds whole records and a closed gate, and a crash leaves just that.
#[derive(Drop)]
pub struct Journal<D: Disk> {
    disk: D,
    cluster: u64,
    member: u8,
    gate: u64,
    body: Vec<u8>,
    room: u64,
    failed: bool,
}

impl<D: Disk> Model for Journal<D> {
    ghost use Rattle.std.specs.Prelude.{vec_capacity};
    ghost use Rattle.ncc_log.specs.Shown.{IsUsable, Shown, shown_code};

    ghost Value = { Shown D };

    ghost coded = { shown_code D.code };

    ghost view = { λ j. record {
      disk = j.disk;
      cluster = j.cluster;
      member = j.member;
      gate = j.gate;
      room = j.room;
      failed = j.failed;
    } };

    ghost invariant = { λ j. IsUsable D.Disk (record {
      disk = j.disk;
      cluster = j.cluster;
      member = j.member;
      gate = j.gate;
      room = j.room;
      failed = j.failed;
    }) (vec_capacity j.body) };
}

/// Makes an empty disk a journal in which nothing was saved.
fn begin<D: Disk>(alloc: Global, disk: &mut D, cluster: u64, member: u8) -> Result<(), JournalError>
    requires empty { D.told → D.seen disk.old ≡ [] }
    ensures made { OnOk result (D.told → D.seen disk.new ≡ header cluster member ++ 0 ∷ []) }
    ensures only { OnOk result (D.told → Only (D.seen disk.new) (D.may_leave disk.new)) }
    ensures short { D.told → Only [] (D.may_leave disk.old) →
        LeavesOnly D.moment D.left_since disk.old disk.new (λ c. length c ≤ 15) }
    ensures asked { OnOk result (D.told →
        Asks D.Disk disk.old disk.new (Write 0 (header cluster member ++ 0 ∷ []) true ∷ Sync true ∷ [])) }
    ensures which { IfErr result (λ e. (e ≡ JournalError.DiskFault) ⊎ (e ≡ JournalError.Memory)) }
    ensures failed { result ≡ Err JournalError.DiskFault → Rose (D.fault_count disk.old) (D.fault_count disk.new) }
    ensures never_falls { D.fault_count disk.old ≤ D.fault_count disk.new }
    ensures calm { D.calm disk.old → D.calm disk.new }
    ensures calm_ok { D.calm disk.old → result ≡ Err JournalError.DiskFault → ⊥ }
{
    let bytes = empty_journal(alloc, cluster, member)?;
    disk.reserve(2, WITH_GATE as u64)?;
    disk.write(0, bytes.as_slice())?;
    disk.sync()?;
    Ok(())
}

impl<D: Disk> Journal<D> {
    /// Makes an empty disk a journal in which nothing was saved. A refusal hands the disk back: `DiskFault` or `Memory`.
    pub fn create(
        alloc: Global,
        mut disk: D,
        cluster: u64,
        member: u8,
    ) -> Result<Journal<D>, Unopened<D>>
        requires empty { D.told → D.seen disk ≡ [] }
        ensures owner { IfOk result (λ j. (j.cluster ≡ cluster) × (j.member ≡ member)) }
        ensures begins { IfOk result (λ j. (j.gate ≡ 14) × (j.room ≡ 0) × (j.failed ≡ false)) }

        // The disk holds the header and a closed gate. That stands for nothing saved, and no crash leaves anything else.
        ensures made { IfOk result (λ j. D.told → D.seen j.disk ≡ header cluster member ++ 0 ∷ []) }
        ensures saves { IfOk result (λ j. D.told → Saves cluster member (D.seen j.disk) nothing) }
        ensures only { IfOk result (λ j. D.told → Only (D.seen j.disk) (D.may_leave j.disk)) }
        ensures asked { IfOk result (λ j. D.told →
            Asks D.Disk disk j.disk (Write 0 (header cluster member ++ 0 ∷ []) true ∷ Sync true ∷ [])) }

        // From a disk on which nothing is pending, a crash at any moment leaves no more bytes than these.
        ensures short { D.told → Only [] (D.may_leave disk) →
            LeavesOnly D.moment D.left_since disk (disk_of (λ j. j.disk) result) (λ c. length c ≤ 15) }

        ensures which { IfErr result (λ u. (u.error ≡ JournalError.DiskFault) ⊎ (u.error ≡ JournalError.Memory)) }
        ensures failed { IfErr result (λ u. u.error ≡ JournalError.DiskFault → Rose (D.fault_count disk) (D.fault_count u.disk)) }
        ensures never_falls { D.fault_count disk ≤ D.fault_count (disk_of (λ j. j.disk) result) }
        ensures calm { D.calm disk → D.calm (disk_of (λ j. j.disk) result) }
        ensures calm_ok { IfErr result (λ u. D.calm disk → u.error ≡ JournalError.DiskFault → ⊥) }
    {
        match begin(alloc, &mut disk, cluster, member) {
            Err(error) => Err(Unopened { disk, error }),
            Ok(()) => Ok(Journal {
                disk,
                cluster,
                member,
                gate: 14,
                body: Vec::new(alloc),
                room: 0,
                failed: false,
            }),
        }
    }

    /// Opens the journal that a disk holds.
    pub fn recover(
        alloc: Global,
        mut disk: D,
        cluster: u64,
        member: u8,
    ) -> Result<(Journal<D>, Saved), Unopened<D>>
        ensures owner { IfOk result (λ p. (p.0.cluster ≡ cluster) × (p.0.member ≡ member)) }
        ensures begins { IfOk result (λ p. (p.0.room ≡ 0) × (p.0.failed ≡ false)) }

        // What is recovered is the part that the bytes stand for. A refusal is theirs, but for faults and want of memory.
        ensures saved { IfOk result (λ p. D.told → Saves cluster member (D.seen disk) p.1) }
        ensures refused { IfErr result (λ u. D.told → IsRefusal cluster member (D.seen disk) u.error) }
        // Where the bytes stand for a part, it is recovered; where they call for a refusal, it is given.
        ensures opens { D.told → (s : Saved) → Saves cluster member (D.seen disk) s →
            MatchResult result (λ p. p.1 ≡ s) (λ u. IsFree u.error) }
        ensures exact { D.told → (e : JournalError) → Refuses cluster member (D.seen disk) e →
            MatchResult result (λ _. ⊥) (λ u. IsOrFree e u.error) }
        ensures not_full { IfErr result (λ u. u.error ≡ JournalError.Full → ⊥) }

        // It syncs once and writes nothing. What a read gives stays, and then a crash leaves nothing else. At any moment a
        // crash leaves what it might have left before.
        ensures seen { D.told → D.seen (disk_of (λ p. p.0.disk) result) ≡ D.seen disk }
        ensures only { IfOk result (λ p. D.told → Only (D.seen disk) (D.may_leave p.0.disk)) }
        ensures any_moment { D.told →
            LeavesOnly D.moment D.left_since disk (disk_of (λ p. p.0.disk) result) (D.may_leave disk) }
        ensures asked { IfOk result (λ p. D.told → Asks D.Disk disk p.0.disk (Sync true ∷ [])) }
        ensures asked_err { IfErr result (λ u. D.told → AsksOneSync D.Disk disk u.disk) }

        ensures failed { IfErr result (λ u. u.error ≡ JournalError.DiskFault → Rose (D.fault_count disk) (D.fault_count u.disk)) }
        ensures never_falls { D.fault_count disk ≤ D.fault_count (disk_of (λ p. p.0.disk) result) }
        ensures calm { D.calm disk → D.calm (disk_of (λ p. p.0.disk) result) }
        ensures calm_ok { IfErr result (λ u. D.calm disk → u.error ≡ JournalError.DiskFault → ⊥) }
    {
        match load(alloc, &mut disk, cluster, member) {
            Err(error) => Err(Unopened { disk, error }),
            Ok((saved, gate)) => {
                let journal = Journal {
                    disk,
                    cluster,
                    member,
                    gate,
                    body: Vec::new(alloc),
                    room: 0,
                    failed: false,
                };
                Ok((journal, saved))
            }
        }
    }

    /// Makes room for a payload of so many bytes: the next save of one as long does not answer `Memory`.
    /// There is none where the record's end would pass 2^62 bytes. It is no call of the device.
    pub fn reserve(&mut self, bytes: u64) -> Result<(), AllocError>
        ensures room { OnOk result (bytes ≤ self.new.room) }
        ensures kept { bytes ≤ self.old.room → IsOk result }
        ensures far { 0 < bytes → max_length < self.old.gate + (bytes + 6) → IsErr result }
        ensures same { IsSame self.old self.new }
        ensures disk { MakesRoom D.Disk self.old.disk self.new.disk }
    {
        if bytes <= self.room {
            return Ok(());
        }
        if self.gate > MAX_LENGTH - 6 || bytes > MAX_LENGTH - 6 - self.gate {
            return Err(AllocError);
        }
        self.room = 0;
        self.body.clear();
        self.body.reserve(bytes as usize + 5)?;
        self.disk.reserve(4, bytes + 6)?;
        self.room = bytes;
        Ok(())
    }

    /// Saves a change.
    pub fn save(&mut self, change: &ChangeSet) -> Result<(), JournalError>
        requires stands { MayStand change.now }
        requires follows { self.old.failed ≡ false → D.told →
            (s : Saved) × Saves self.old.cluster self.old.member (D.seen self.old.disk) s × MayFollow s change.now }

        // After Ok the disk stands for the part after the change, and every crash leaves that.
        ensures done { OnOk result (D.told → (s : Saved) → Saves self.old.cluster self.old.member (D.seen self.old.disk) s →
            Saves self.old.cluster self.old.member (D.seen self.new.disk) (part_after s change.now)) }
        ensures only { OnOk result (D.told → Only (D.seen self.new.disk) (D.may_leave self.new.disk)) }
        ensures goes_on { OnOk result ((self.old.failed ≡ false) × (self.new.failed ≡ false)
            × (self.new.gate ≡ self.old.gate + (length (payload change.now) + 5))) }
        ensures owner { (self.new.cluster ≡ self.old.cluster) × (self.new.member ≡ self.old.member) }

        // A crash at any moment of it, and a read after any answer, stands for the part before or the part after.
        ensures any_moment { self.old.failed ≡ false → D.told → (s : Saved) →
            Saves self.old.cluster self.old.member (D.seen self.old.disk) s →
            LeavesOnly D.moment D.left_since self.old.disk self.new.disk
            (BeforeOrAfter self.old.cluster self.old.member s (part_after s change.now)) }
        ensures read { self.old.failed ≡ false → D.told → (s : Saved) →
            Saves self.old.cluster self.old.member (D.seen self.old.disk) s →
            BeforeOrAfter self.old.cluster self.old.member s (part_after s change.now) (D.seen self.new.disk) }

        // Four calls: the record with a closed gate, a sync, the gate, a sync. One that fails is the last.
        ensures asked { OnOk result (D.told →
            Asks D.Disk self.old.disk self.new.disk (gated self.old.gate (recorded change.now ++ 0 ∷ []))) }
        ensures stopped { self.old.failed ≡ false → result ≡ Err JournalError.DiskFault → D.told →
            AsksUntilFailed D.Disk self.old.disk self.new.disk (gated self.old.gate (recorded change.now ++ 0 ∷ [])) }

        // A fault is the disk's, or an earlier save's; after it each save answers it and leaves all as it was.
        ensures fault { result ≡ Err JournalError.DiskFault → (self.new.failed ≡ true)
            × ((self.old.failed ≡ true) ⊎ Rose (D.fault_count self.old.disk) (D.fault_count self.new.disk)) }
        ensures failed { self.old.failed ≡ true → result ≡ Err JournalError.DiskFault }
        ensures failed_same { self.old.failed ≡ true → self.new ≡ self.old }

        // Full and Memory come before the first call.
        ensures full { (result ≡ Err JournalError.Full) ↔
            ((self.old.failed ≡ false) × (max_items < change.now.keep + length change.now.items)) }
        ensures full_same { result ≡ Err JournalError.Full → self.new ≡ self.old }
        ensures memory { result ≡ Err JournalError.Memory → self.old.room < length (payload change.now) }
        ensures memory_same { result ≡ Err JournalError.Memory → IsSame self.old self.new
            × MakesRoom D.Disk self.old.disk self.new.disk }
        ensures far { self.old.failed ≡ false → change.now.keep + length change.now.items ≤ max_items →
            max_length < self.old.gate + (length (payload change.now) + 6) → result ≡ Err JournalError.Memory }
        ensures which { IfErr result (λ e. (e ≡ JournalError.DiskFault) ⊎ (e ≡ JournalError.Full) ⊎ (e ≡ JournalError.Memory)) }

        ensures never_falls { D.fault_count self.old.disk ≤ D.fault_count self.new.disk }
        ensures calm { D.calm self.old.disk → D.calm self.new.disk }
        ensures calm_ok { D.calm self.old.disk → self.old.failed ≡ false → result ≡ Err JournalError.DiskFault → ⊥ }
    {
        if self.failed {
            return Err(JournalError::DiskFault);
        }
        let count = change.items.len() as u64;
        if change.keep > MAX_ITEMS || count > MAX_ITEMS - change.keep {
            return Err(JournalError::Full);
        }
        let size = payload_len(change);
        self.reserve(size)?;
        fill(&mut self.body, change, size as u32)?;
        self.room = 0;
        self.failed = true;
        put_body(&mut self.disk, self.gate, self.body.as_slice())?;
        self.failed = false;
        self.gate += size + 5;
        Ok(())
    }

    /// The disk's count of faults.
    pub fn faults(&self) -> u64
        ensures value { result ≡ D.fault_count self.now.disk }
    {
        self.disk.faults()
    }

    /// The disk, as the last call left it.
    pub fn into_disk(self) -> D
        ensures same { result ≡ self.disk }
    {
        let Journal {
            disk,
            cluster: _,
            member: _,
            gate: _,
            body: _,
            room: _,
            failed: _,
        } = self;
        disk
    }
}

impl<D: Armed> Journal<D> {
    /// Gives the setting to the disk.
    pub fn fail_at(&mut self, call: u64)
        ensures same { IsSame self.old self.new }
        ensures room { self.new.room ≡ self.old.room }
        ensures disk { Arms D.Disk self.old.disk self.new.disk }
        ensures exact { D.set_to_fail self.old.disk call self.new.disk }
    {
        self.disk.fail_at(call);
    }

    /// Gives the setting to the disk. Here a caller learns that the journal is ready, as the law of stopped saves wants it.
    pub fn stop_at(&mut self, call: u64)
        ensures same { IsSame self.old self.new }
        ensures room { self.new.room ≡ self.old.room }
        ensures disk { Arms D.Disk self.old.disk self.new.disk }
        ensures exact { D.set_to_stop self.old.disk call self.new.disk }
        ensures ready { self.new.failed ≡ false → D.told →
            Ready self.new.cluster self.new.member self.new.gate (D.seen self.new.disk) (D.may_leave self.new.disk) }
    {
        self.disk.stop_at(call);
    }
}
