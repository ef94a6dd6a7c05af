//! The record of a change, as it is written.

ghost use Rattle.std.specs.Prelude.{◌≡◌, ◌≤◌, ◌<◌, ◌+◌, ◌++◌, ◌∷◌, [], OnOk, OnErr, length, vec_capacity, vec_len};
ghost use Rattle.ncc_tx.specs.Items.{counted};
ghost use Rattle.ncc_tx.specs.Kept.{MayStand, payload};
ghost use Rattle.ncc_log.specs.Records.{recorded};

use ncc_tx::{ChangeSet, items_within};
use std::alloc::AllocError;

/// Appends the items of a change behind their number.
fn put_items(body: &mut Vec<u8>, change: &ChangeSet) -> Result<(), AllocError>
    requires { MayStand change.now }
    ensures ok { OnOk result (body.new.items ≡ body.old.items ++ counted change.now.items) }
    ensures grows { vec_capacity body.old ≤ vec_capacity body.new }
    ensures full { OnErr result (vec_capacity body.old < vec_len body.old + length (counted change.now.items)) }
{
    items_within(change.items.as_slice(), body)
}

/// Appends the payload of a change.
#[tactic(auto, using(crate::proofs::PayloadBytes::payload_long, crate::proofs::PayloadBytes::payload_put))]
fn put_payload(body: &mut Vec<u8>, change: &ChangeSet) -> Result<(), AllocError>
    requires { MayStand change.now }
    ensures ok { OnOk result (body.new.items ≡ body.old.items ++ payload change.now) }
    ensures grows { vec_capacity body.old ≤ vec_capacity body.new }
    ensures full { OnErr result (vec_capacity body.old < vec_len body.old + length (payload change.now)) }
{
    body.extend_from_slice(&change.term.to_be_bytes())?;
    body.push(change.vote)?;
    body.extend_from_slice(&change.keep.to_be_bytes())?;
    put_items(body, change)
}

/// Makes the record of a change and a closed gate behind it. It takes no memory where the room is large enough.
#[tactic(auto, using(crate::proofs::PayloadBytes::record_put))]
pub(crate) fn fill(body: &mut Vec<u8>, change: &ChangeSet, size: u32) -> Result<(), AllocError>
    requires stands { MayStand change.now }
    requires size { size ≡ length (payload change.now) }
    ensures ok { OnOk result (body.new.items ≡ recorded change.now ++ 0 ∷ []) }
    ensures grows { vec_capacity body.old ≤ vec_capacity body.new }
    ensures full { OnErr result (vec_capacity body.old < length (payload change.now) + 5) }
{
    body.clear();
    body.extend_from_slice(&size.to_be_bytes())?;
    put_payload(body, change)?;
    body.push(0)?;
    Ok(())
}
