//! How a record reaches the disk: its body behind a closed gate, and then the gate.

ghost use Rattle.std.specs.Prelude.{◌≡◌, ◌≤◌, ◌<◌, ◌+◌, ◌∷◌, [], true, length, take, IsOk, OnOk, OnErr};
ghost use Rattle.ncc_base.specs.Faults.{Rose};
ghost use Rattle.ncc_base.specs.Disk.{Holds, LeavesOnly, Only, Sync, Torn, Write};
ghost use Rattle.ncc_log.specs.Calls.{Asks, AsksUntilFailed, gated};
ghost use Rattle.ncc_log.specs.Gated.{IsGated, IsOpen};
ghost use Rattle.ncc_log.specs.Shown.{ClosedAt, max_length};

use ncc_base::{Disk, Failed};

/// A write and a sync. A crash at any moment of it leaves what was there, torn in the range alone.
pub(crate) fn write_synced<D: Disk>(disk: &mut D, at: u64, bytes: &[u8]) -> Result<(), Failed>
    requires start { D.told → at ≤ length (D.seen disk.old) }
    requires only { D.told → Only (D.seen disk.old) (D.may_leave disk.old) }
    requires calls { 2 ≤ D.room_calls disk.old }
    requires bytes { length bytes.now ≤ D.room_bytes disk.old }
    ensures done { OnOk result (D.told → Holds (D.seen disk.old) at bytes.now (D.seen disk.new)) }
    ensures kept { OnOk result (D.told → Only (D.seen disk.new) (D.may_leave disk.new)) }
    ensures any_moment { D.told → LeavesOnly D.moment D.left_since disk.old disk.new (Torn at (length bytes.now) (D.seen disk.old)) }
    ensures asked { OnOk result (D.told → Asks D.Disk disk.old disk.new (Write at bytes.now true ∷ Sync true ∷ [])) }
    ensures stopped { OnErr result (D.told → AsksUntilFailed D.Disk disk.old disk.new (Write at bytes.now true ∷ Sync true ∷ [])) }
    ensures calm { D.calm disk.old → D.calm disk.new }
    ensures calm_ok { D.calm disk.old → IsOk result }
    ensures never_falls { D.fault_count disk.old ≤ D.fault_count disk.new }
    ensures failed { OnErr result (Rose (D.fault_count disk.old) (D.fault_count disk.new)) }
    ensures room_calls { D.room_calls disk.old ≤ D.room_calls disk.new + 2 }
    ensures room_bytes { D.room_bytes disk.old ≤ D.room_bytes disk.new + length bytes.now }
{
    disk.write(at, bytes)?;
    disk.sync()?;
    Ok(())
}

/// Puts a body behind a closed gate, and then opens the gate. A crash at any moment leaves the gate closed, or the body whole
/// behind it.
pub(crate) fn put_body<D: Disk>(disk: &mut D, gate: u64, body: &[u8]) -> Result<(), Failed>
    requires place { gate < max_length }
    requires closed { D.told → ClosedAt gate (D.seen disk.old) }
    requires only { D.told → Only (D.seen disk.old) (D.may_leave disk.old) }
    requires calls { 4 ≤ D.room_calls disk.old }
    requires bytes { length body.now + 1 ≤ D.room_bytes disk.old }
    ensures done { OnOk result (D.told → IsOpen (take gate (D.seen disk.old)) body.now (D.seen disk.new)) }
    ensures kept { OnOk result (D.told → Only (D.seen disk.new) (D.may_leave disk.new)) }
    ensures any_moment { D.told →
        LeavesOnly D.moment D.left_since disk.old disk.new (IsGated (take gate (D.seen disk.old)) body.now) }
    ensures asked { OnOk result (D.told → Asks D.Disk disk.old disk.new (gated gate body.now)) }
    ensures stopped { OnErr result (D.told → AsksUntilFailed D.Disk disk.old disk.new (gated gate body.now)) }
    ensures calm { D.calm disk.old → D.calm disk.new }
    ensures calm_ok { D.calm disk.old → IsOk result }
    ensures never_falls { D.fault_count disk.old ≤ D.fault_count disk.new }
    ensures failed { OnErr result (Rose (D.fault_count disk.old) (D.fault_count disk.new)) }
{
    write_synced(disk, gate + 1, body)?;
    write_synced(disk, gate, &[1])?;
    Ok(())
}
