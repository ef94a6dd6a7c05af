//! The fields of a frame, each at its place and within its limits.

ghost use Rattle.std.specs.Prelude.{◌≡◌, ◌+◌, ◌≤◌, ◌^◌, Ok, Err, IfOk, MatchResult, OnOk, length};
ghost use Rattle.ncc_wire.specs.Frames.{flag_of};
ghost use Rattle.ncc_wire.specs.Kinds.{any_number, behind_place, first_place, flag, in_eight, in_one, item_count, member, term};
ghost use Rattle.ncc_wire.specs.Reading.{field_at};

use crate::error::FrameError;
use ncc_tx::TERM_LIMIT;

/// The greatest number of a member.
const MAX_MEMBERS: u8 = 23;

/// A place to go on from is below this one, and a first place may be it.
const PLACE_LIMIT: u64 = 0x4000_0000_0000_0000;

/// How many items one message may have.
const MAX_SENT: u32 = 64;

/// The byte at a place.
#[tactic(auto, unfolding(crate::specs::Reading::field_at))]
fn byte_at(frame: &[u8], at: usize, least: u8, greatest: u8) -> Result<u8, FrameError>
    ensures exact { result ≡ field_at (record { wide = in_one; least = least; greatest = greatest }) at frame.now }
    ensures within { IfOk result (λ n. n ≤ greatest) }
{
    if at >= frame.len() {
        return Err(FrameError::BadField { at: at as u64 });
    }
    let byte = frame[at];
    if least <= byte && byte <= greatest {
        Ok(byte)
    } else {
        Err(FrameError::BadField { at: at as u64 })
    }
}

/// The number in the eight bytes from a place on.
#[tactic(auto, unfolding(crate::specs::Reading::field_at))]
fn number_at(frame: &[u8], at: usize, least: u64, greatest: u64) -> Result<u64, FrameError>
    ensures { result ≡ field_at (record { wide = in_eight; least = least; greatest = greatest }) at frame.now }
{
    if at > frame.len() {
        return Err(FrameError::BadField { at: at as u64 });
    }
    let [a, b, c, d, e, f, g, h, ..] = &frame[at..] else {
        return Err(FrameError::BadField { at: at as u64 });
    };
    let number = u64::from_be_bytes([*a, *b, *c, *d, *e, *f, *g, *h]);
    if least <= number && number <= greatest {
        Ok(number)
    } else {
        Err(FrameError::BadField { at: at as u64 })
    }
}

/// How many items there are, in the four bytes from a place on.
#[tactic(auto, unfolding(crate::specs::Reading::field_at))]
pub(crate) fn count_at(frame: &[u8], at: usize) -> Result<u32, FrameError>
    ensures exact { result ≡ field_at item_count at frame.now }
    ensures inside { OnOk result (at + 4 ≤ length frame.now) }
{
    if at > frame.len() {
        return Err(FrameError::BadField { at: at as u64 });
    }
    let [a, b, c, d, ..] = &frame[at..] else {
        return Err(FrameError::BadField { at: at as u64 });
    };
    let count = u32::from_be_bytes([*a, *b, *c, *d]);
    if count <= MAX_SENT {
        Ok(count)
    } else {
        Err(FrameError::BadField { at: at as u64 })
    }
}

pub(crate) fn member_at(frame: &[u8], at: usize) -> Result<u8, FrameError>
    ensures { result ≡ field_at member at frame.now }
{
    byte_at(frame, at, 1, MAX_MEMBERS)
}

#[tactic(auto, using(crate::proofs::Fields::flag_is))]
pub(crate) fn flag_at(frame: &[u8], at: usize) -> Result<bool, FrameError>
    ensures { MatchResult result (λ b. field_at flag at frame.now ≡ Ok (flag_of b)) (λ e. field_at flag at frame.now ≡ Err e) }
{
    let byte = byte_at(frame, at, 0, 1)?;
    Ok(byte == 1)
}

pub(crate) fn term_at(frame: &[u8], at: usize) -> Result<u64, FrameError>
    ensures { result ≡ field_at term at frame.now }
{
    number_at(frame, at, 0, TERM_LIMIT - 1)
}

/// A place to go on from.
pub(crate) fn place_at(frame: &[u8], at: usize) -> Result<u64, FrameError>
    ensures { result ≡ field_at behind_place at frame.now }
{
    number_at(frame, at, 0, PLACE_LIMIT - 1)
}

/// The place of a first item.
pub(crate) fn first_at(frame: &[u8], at: usize) -> Result<u64, FrameError>
    ensures { result ≡ field_at first_place at frame.now }
{
    number_at(frame, at, 1, PLACE_LIMIT)
}

/// Any number.
pub(crate) fn any_at(frame: &[u8], at: usize) -> Result<u64, FrameError>
    ensures { result ≡ field_at any_number at frame.now }
{
    number_at(frame, at, 0, u64::MAX)
}
