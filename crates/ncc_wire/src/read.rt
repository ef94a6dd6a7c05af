//! Reading a frame.

ghost use Rattle.std.specs.Prelude.{◌≡◌, ◌∷◌, [], length, IfOk, IfErr, MatchResult, Ok, Err};
ghost use Rattle.ncc_raft.specs.declared.message.Envelope.{Envelope};
ghost use Rattle.ncc_wire.specs.declared.error.FrameError.{FrameError};
ghost use Rattle.ncc_wire.specs.Frames.{frame_bytes};
ghost use Rattle.ncc_wire.specs.Judged.{BeginsWith, FrameOrMemory, IsCaused, Judges};
ghost use Rattle.ncc_wire.specs.Reading.{Refuses, fields_at};
ghost use Rattle.ncc_wire.specs.Kinds.{members};

use crate::body::body_at;
use crate::error::FrameError;
use crate::field::member_at;
use crate::head::{kind_at, whole};
use ncc_raft::Envelope;
use std::alloc::Global;

/// Sender and receiver.
fn members_at(frame: &[u8]) -> Result<(u8, u8), FrameError>
    ensures { MatchResult result (λ m. fields_at members 13 frame.now ≡ Ok (m.0 ∷ m.1 ∷ [])) (λ e. fields_at members 13 frame.now ≡ Err e) }
{
    let from = member_at(frame, 13)?;
    let to = member_at(frame, 14)?;
    Ok((from, to))
}

/// What bytes begin with, and how many bytes of them it takes.
fn judged(alloc: Global, cluster: u64, bytes: &[u8]) -> Result<(Envelope, usize), FrameError>
    ensures { Judges cluster bytes.now result }
{
    let frame = whole(bytes)?;
    let kind = kind_at(cluster, frame)?;
    let (from, to) = members_at(frame)?;
    let (body, end) = body_at(alloc, kind, frame)?;
    if end < frame.len() {
        return Err(FrameError::Rest { at: end as u64 });
    }
    Ok((Envelope { from, to, body }, frame.len()))
}

/// The envelope whose frame in this cluster the bytes begin with, and how many bytes that frame takes (`docs/FRAMES.md`).
/// Whatever follows is not looked at. A refusal is the first, in this order: `TooLong` once the four bytes of the size have
/// come; `Short`; `BadField` at 4 where the size has no room for the cluster; `OtherCluster`; `BadField` at 12 where it has none
/// for the kind; `BadKind`; `BadField` at the first wrong field from 13 on; `Rest`. Of a frame that is not whole the size alone
/// is looked at.
pub fn read_frame(
    alloc: Global,
    cluster: u64,
    bytes: &[u8],
) -> Result<(Envelope, usize), FrameError>
    // What is read has its frame there.
    ensures found { IfOk result (λ r. BeginsWith cluster bytes.now r.0) }
    // The length is the frame's.
    ensures length { IfOk result (λ r. r.1 ≡ length (frame_bytes cluster r.0)) }
    // A frame that stands there is read, unless memory runs out.
    ensures only { (e : Envelope) → BeginsWith cluster bytes.now e → FrameOrMemory result (Ok (e, length (frame_bytes cluster e))) }
    // A refusal has its cause in the bytes.
    ensures refused { IfErr result (IsCaused cluster bytes.now) }
    // Where there is a cause it is told, unless memory runs out.
    ensures exact { (f : FrameError) → Refuses cluster bytes.now f → FrameOrMemory result (Err f) }
{
    judged(alloc, cluster, bytes)
}
