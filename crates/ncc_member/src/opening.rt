//! A core from what its journal holds.

ghost use Rattle.std.specs.Prelude.{◌≡◌, ◌↔◌, ◌≤◌, ◌<◌, Err, IfErr, IfOk, OnOk, length};
ghost use Rattle.ncc_tx.specs.Kept.{MayKeep};
ghost use Rattle.ncc_log.specs.declared.error.JournalError.{JournalError};
ghost use Rattle.ncc_raft.specs.Core.{IsSeat, seated};
ghost use Rattle.ncc_member.specs.Opening.{NoStart};

use ncc_log::JournalError;
use ncc_raft::Core;
use ncc_tx::Saved;
use std::alloc::Global;

/// Where a journal's first gate stands.
const FIRST_GATE: u64 = 14;

/// The core that starts from a part. `Full` comes where the part's log is longer than the limit.
pub(crate) fn start(
    alloc: Global,
    id: u8,
    cores: u8,
    limit: u64,
    saved: Saved,
) -> Result<Core, JournalError>
    requires seat { IsSeat (record { id = id; cores = cores; limit = limit }) }
    ensures started { IfOk result (λ c. c ≡ seated id cores limit saved) }
    ensures kept { OnOk result (MayKeep saved × (length saved.log ≤ limit)) }
    ensures full { (result ≡ Err JournalError.Full) ↔ (limit < length saved.log) }
    ensures refused { IfErr result (λ e. NoStart limit saved e) }
{
    if saved.log.len() as u64 > limit {
        return Err(JournalError::Full);
    }
    // A journal gives none but parts that may be kept. Of a file, which tells nothing, no contract says so.
    if !saved.may_be_kept() {
        return Err(JournalError::Damaged { at: FIRST_GATE });
    }
    match Core::new(alloc, id, cores, limit, saved) {
        Ok(core) => Ok(core),
        Err(_) => Err(JournalError::Memory),
    }
}
