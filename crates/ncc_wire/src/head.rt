//! What stands in a frame before its sender.

ghost use Rattle.std.specs.Prelude.{◌≡◌, Ok, Err, MatchResult};
ghost use Rattle.ncc_wire.specs.Reading.{kind_at, whole_at};

use crate::error::FrameError;
use crate::kind::Kind;

/// How many bytes the size takes.
const SIZE: usize = 4;

/// The greatest size of what stands behind the size.
const MAX_FRAME: u32 = 2_097_152;

/// The frame at the front, with its size. Nothing behind the size is looked at.
#[tactic(auto, unfolding(crate::specs::Reading::whole_at))]
pub(crate) fn whole(bytes: &[u8]) -> Result<&[u8], FrameError>
    ensures { MatchResult result (λ frame. whole_at bytes.now ≡ Ok frame.now) (λ e. whole_at bytes.now ≡ Err e) }
{
    let [a, b, c, d, ..] = bytes else {
        return Err(FrameError::Short);
    };
    let size = u32::from_be_bytes([*a, *b, *c, *d]);
    if size > MAX_FRAME {
        return Err(FrameError::TooLong { size });
    }
    let end = SIZE + size as usize;
    if bytes.len() < end {
        return Err(FrameError::Short);
    }
    Ok(&bytes[..end])
}

/// The kind of a frame of this cluster.
#[tactic(auto, unfolding(crate::specs::Reading::kind_at))]
pub(crate) fn kind_at(cluster: u64, frame: &[u8]) -> Result<Kind, FrameError>
    ensures { result ≡ kind_at cluster frame.now }
{
    if frame.len() < 12 {
        return Err(FrameError::BadField { at: 4 });
    }
    let id = u64::from_be_bytes([
        frame[4], frame[5], frame[6], frame[7], frame[8], frame[9], frame[10], frame[11],
    ]);
    if id != cluster {
        return Err(FrameError::OtherCluster { id });
    }
    if frame.len() < 13 {
        return Err(FrameError::BadField { at: 12 });
    }
    match Kind::with(frame[12]) {
        Some(kind) => Ok(kind),
        None => Err(FrameError::BadKind { at: 12 }),
    }
}
