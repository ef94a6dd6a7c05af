//! Disks: what a file gives, and what a crash may leave of it.

ghost use Rattle.std.specs.Prelude.{◌≡◌, ◌≤◌, ◌+◌, ◌-◌, ℕ, List, [], ◌∷◌, ◌++◌, true, false, length, take, drop, IsOk, IfOk, OnOk, OnErr, IsErrOf};
ghost use Rattle.ncc_base.specs.Faults.{Rose};
ghost use Rattle.ncc_base.specs.Disk.{Asked, Write, Sync, AsksNothing, AsksOneMore, Elapses, Follows, Holds, Only, Stays, Torn};
ghost use Rattle.ncc_base.specs.declared.disk.DiskError.TheVariants.{Memory};

use crate::bytes::Bytes;
use crate::source::Failed;
use std::alloc::{AllocError, Global};
use thiserror::Error;

/// Why a read of a disk gave no bytes.
#[derive(Clone, Copy, Debug, PartialEq, Eq, Error)]
pub enum DiskError {
    /// The disk failed, and its count of faults rose.
    #[error("the disk failed")]
    Failed,
    /// There was no memory for the bytes.
    #[error("out of memory")]
    Memory,
}

impl From<AllocError> for DiskError {
    ghost from_gives = { λ _ e. e ≡ Memory };

    fn from(_e: AllocError) -> DiskError {
        DiskError::Memory
    }
}

/// A file on a disk. What is written may be lost or torn by a crash until a sync succeeds.
///
/// Between two syncs each range that was written, also by a write that failed, and all past the old end may hold any bytes
/// after a crash, at any length from the old one to the greatest since. Other bytes stay. After a write that failed a read
/// may give any bytes in its range, at any length from the old one to the one that the write would have given.
pub trait Disk {
    /// Whether this type tells what it holds: disks in memory do, real files don't.
    ghost told: { Type 0 };

    /// What a read gives.
    ghost seen: { Self → List ℕ };

    /// What a crash at this moment may leave.
    ghost may_leave: { Self → List ℕ → Type 0 };

    /// The moment, as a number that no call lowers.
    ghost moment: { Self → ℕ };

    /// What a crash at some moment from that one on might have left.
    ghost left_since: { Self → ℕ → List ℕ → Type 0 };

    /// Which writes and syncs were asked since that moment, in order.
    ghost asked_since: { Self → ℕ → List Asked → Type 0 };

    /// These writes and syncs, in this order and with these outcomes, and nothing else lead from that disk to this one. The
    /// room is no part of it.
    ghost went: { Self → List Asked → Self → Type 0 };

    /// No call can fail now.
    ghost calm: { Self → Type 0 };

    /// How often it has failed.
    ghost fault_count: { Self → ℕ };

    /// The room: so many writes and syncs.
    ghost room_calls: { Self → ℕ };

    /// The room: so many bytes in all of them.
    ghost room_bytes: { Self → ℕ };

    /// The length in bytes.
    fn size(&mut self) -> Result<u64, Failed>
        ensures size { IfOk result (λ n. told → n ≡ length (seen self.old)) }
        ensures stays { told → Stays (seen self.old) (seen self.new) (may_leave self.old) (may_leave self.new) }
        ensures time { told → Elapses (moment self.old) (moment self.new) (left_since self.old) (left_since self.new) (may_leave self.new) }
        ensures asked { AsksNothing (moment self.old) (asked_since self.old) (asked_since self.new) }
        ensures went { went self.old [] self.new }
        ensures calm { calm self.old → calm self.new }
        ensures calm_ok { calm self.old → IsOk result }
        ensures never_falls { fault_count self.old ≤ fault_count self.new }
        ensures failed { OnErr result (Rose (fault_count self.old) (fault_count self.new)) }
        ensures room_calls { room_calls self.old ≤ room_calls self.new }
        ensures room_bytes { room_bytes self.old ≤ room_bytes self.new };

    /// The `count` bytes from a place on, or those up to the end where the file has fewer.
    fn read(&mut self, alloc: Global, at: u64, count: usize) -> Result<Bytes, DiskError>
        ensures bytes { IfOk result (λ b. told → b ≡ take count (drop at (seen self.old))) }
        ensures most { IfOk result (λ b. length b ≤ count) }
        ensures stays { told → Stays (seen self.old) (seen self.new) (may_leave self.old) (may_leave self.new) }
        ensures time { told → Elapses (moment self.old) (moment self.new) (left_since self.old) (left_since self.new) (may_leave self.new) }
        ensures asked { AsksNothing (moment self.old) (asked_since self.old) (asked_since self.new) }
        ensures went { went self.old [] self.new }
        ensures calm { calm self.old → calm self.new }
        ensures calm_ok { calm self.old → IsErrOf result DiskError.Failed → ⊥ }
        ensures never_falls { fault_count self.old ≤ fault_count self.new }
        ensures failed { IsErrOf result DiskError.Failed → Rose (fault_count self.old) (fault_count self.new) }
        ensures room_calls { room_calls self.old ≤ room_calls self.new }
        ensures room_bytes { room_bytes self.old ≤ room_bytes self.new };

    /// Makes room for so many further writes and syncs, with so many bytes in all. It is no call of the device, and
    /// changes nothing else. Where the room is there already, it is not refused.
    fn reserve(&mut self, calls: u64, bytes: u64) -> Result<(), AllocError>
        ensures calls { OnOk result (calls ≤ room_calls self.new) }
        ensures bytes { OnOk result (bytes ≤ room_bytes self.new) }
        ensures enough { calls ≤ room_calls self.old → bytes ≤ room_bytes self.old → IsOk result }
        ensures stays { told → Stays (seen self.old) (seen self.new) (may_leave self.old) (may_leave self.new) }
        ensures time { told → Elapses (moment self.old) (moment self.new) (left_since self.old) (left_since self.new) (may_leave self.new) }
        ensures asked { AsksNothing (moment self.old) (asked_since self.old) (asked_since self.new) }
        ensures went { went self.old [] self.new }
        ensures calm { calm self.old → calm self.new }
        ensures faults { fault_count self.new ≡ fault_count self.old }
        ensures room_calls { room_calls self.old ≤ room_calls self.new }
        ensures room_bytes { room_bytes self.old ≤ room_bytes self.new };

    /// Writes over what is there, and past the end. It may start at most at the end, and there has to be room, so that it
    /// takes no memory.
    fn write(&mut self, at: u64, bytes: &[u8]) -> Result<(), Failed>
        requires start { told → at ≤ length (seen self.old) }
        requires call { 1 ≤ room_calls self.old }
        requires room { length bytes.now ≤ room_bytes self.old }
        ensures written { OnOk result (told → Holds (seen self.old) at bytes.now (seen self.new)) }
        ensures torn { told → Torn at (length bytes.now) (seen self.old) (seen self.new) }
        ensures crash { told → Follows (Torn at (length bytes.now)) (may_leave self.old) (may_leave self.new) }
        ensures time { told → Elapses (moment self.old) (moment self.new) (left_since self.old) (left_since self.new) (may_leave self.new) }
        ensures asked { OnOk result (AsksOneMore (moment self.old) (Write at bytes.now true) (asked_since self.old)
            (asked_since self.new)) }
        ensures asked_failed { OnErr result (AsksOneMore (moment self.old) (Write at bytes.now false) (asked_since self.old)
            (asked_since self.new)) }
        ensures went { OnOk result (went self.old (Write at bytes.now true ∷ []) self.new) }
        ensures went_failed { OnErr result (went self.old (Write at bytes.now false ∷ []) self.new) }
        ensures calm { calm self.old → calm self.new }
        ensures calm_ok { calm self.old → IsOk result }
        ensures never_falls { fault_count self.old ≤ fault_count self.new }
        ensures failed { OnErr result (Rose (fault_count self.old) (fault_count self.new)) }
        ensures room_calls { room_calls self.old ≤ room_calls self.new + 1 }
        ensures room_bytes { room_bytes self.old ≤ room_bytes self.new + length bytes.now };

    /// Makes what a read gives last: after a sync that succeeds, a crash leaves that. One that fails changes nothing.
    fn sync(&mut self) -> Result<(), Failed>
        requires call { 1 ≤ room_calls self.old }
        ensures durable { OnOk result (told → Only (seen self.old) (may_leave self.new)) }
        ensures seen { told → seen self.new ≡ seen self.old }
        ensures no_more { told → (c : List ℕ) → may_leave self.new c → may_leave self.old c }
        ensures same { OnErr result (told → Stays (seen self.old) (seen self.new) (may_leave self.old) (may_leave self.new)) }
        ensures time { told → Elapses (moment self.old) (moment self.new) (left_since self.old) (left_since self.new) (may_leave self.new) }
        ensures asked { OnOk result (AsksOneMore (moment self.old) (Sync true) (asked_since self.old) (asked_since self.new)) }
        ensures asked_failed { OnErr result (AsksOneMore (moment self.old) (Sync false) (asked_since self.old) (asked_since self.new)) }
        ensures went { OnOk result (went self.old (Sync true ∷ []) self.new) }
        ensures went_failed { OnErr result (went self.old (Sync false ∷ []) self.new) }
        ensures calm { calm self.old → calm self.new }
        ensures calm_ok { calm self.old → IsOk result }
        ensures never_falls { fault_count self.old ≤ fault_count self.new }
        ensures failed { OnErr result (Rose (fault_count self.old) (fault_count self.new)) }
        ensures room_calls { room_calls self.old ≤ room_calls self.new + 1 }
        ensures room_bytes { room_bytes self.old ≤ room_bytes self.new };

    /// The count of its faults, which stays at the greatest `u64`. It takes no memory.
    fn faults(&self) -> u64
        ensures value { result ≡ fault_count self.now };

    /// What a read gives is one of the contents that a crash may leave.
    ghost seen_may_be_left: { (disk : Self) → told → may_leave disk (seen disk) };

    /// This moment is one of those since an earlier one.
    ghost counts_now: { (disk : Self) (t : ℕ) (c : List ℕ) → told → t ≤ moment disk → may_leave disk c → left_since disk t c };

    /// Since this moment there is no other.
    ghost only_now: { (disk : Self) (c : List ℕ) → told → left_since disk (moment disk) c → may_leave disk c };

    /// Nothing was asked since this moment.
    ghost asked_nothing_now: { (disk : Self) → asked_since disk (moment disk) [] };

    /// There is one list of what was asked.
    ghost asked_once: { (disk : Self) (t : ℕ) (a b : List Asked) → told → asked_since disk t a → asked_since disk t b → a ≡ b };

    /// No call leads from a disk to itself.
    ghost went_none: { (disk : Self) → went disk [] disk };

    /// Calls lead on from where earlier ones led.
    ghost went_on: { (a b c : Self) (xs ys : List Asked) → went a xs b → went b ys c → went a (xs ++ ys) c };
}

/// A disk that fails or stops where it is told to. A setting takes the place of an earlier one and changes nothing that a
/// `Disk` tells. Writes and syncs alone are counted; the number 0 names no call.
pub trait Armed: Disk {
    /// The setting to fail at the call of this number, and nothing else, leads from that disk to this one.
    ghost set_to_fail: { Self → ℕ → Self → Type 0 };

    /// The same of the setting to stop.
    ghost set_to_stop: { Self → ℕ → Self → Type 0 };

    /// The `call`-th write or sync from now fails without effect.
    fn fail_at(&mut self, call: u64)
        ensures exact { set_to_fail self.old call self.new }
        ensures stays { Self.told → Stays (Self.seen self.old) (Self.seen self.new) (Self.may_leave self.old) (Self.may_leave self.new) }
        ensures moment { Self.moment self.new ≡ Self.moment self.old }
        ensures left { Self.told → (t : ℕ) (c : List ℕ) → Self.left_since self.new t c → Self.left_since self.old t c }
        ensures asked { AsksNothing (Self.moment self.old) (Self.asked_since self.old) (Self.asked_since self.new) }
        ensures faults { Self.fault_count self.new ≡ Self.fault_count self.old }
        ensures room_calls { Self.room_calls self.new ≡ Self.room_calls self.old }
        ensures room_bytes { Self.room_bytes self.new ≡ Self.room_bytes self.old };

    /// The `call`-th write or sync from now begins and fails, and so does every later one.
    fn stop_at(&mut self, call: u64)
        ensures exact { set_to_stop self.old call self.new }
        ensures stays { Self.told → Stays (Self.seen self.old) (Self.seen self.new) (Self.may_leave self.old) (Self.may_leave self.new) }
        ensures moment { Self.moment self.new ≡ Self.moment self.old }
        ensures left { Self.told → (t : ℕ) (c : List ℕ) → Self.left_since self.new t c → Self.left_since self.old t c }
        ensures asked { AsksNothing (Self.moment self.old) (Self.asked_since self.old) (Self.asked_since self.new) }
        ensures faults { Self.fault_count self.new ≡ Self.fault_count self.old }
        ensures room_calls { Self.room_calls self.new ≡ Self.room_calls self.old }
        ensures room_bytes { Self.room_bytes self.new ≡ Self.room_bytes self.old };
}
