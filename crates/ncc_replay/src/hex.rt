//! Bytes as text, two digits each.

ghost use Rattle.std.specs.Prelude.{◌≡◌, ◌<◌, ◌++◌, OnOk};
ghost use Rattle.ncc_replay.specs.Line.{hex, hex_digit};

use ncc_pack::Bytes;
use std::alloc::AllocError;

// The digit of a number below 16, in lower case.
fn digit_of(d: u8) -> u8
    requires { d < 16 }
    ensures { result ≡ hex_digit d }
{
    if d < 10 { b'0' + d } else { 87 + d }
}

/// Appends bytes, two digits each, in lower case.
#[tactic(auto, using(std::proofs::lemmas::List::append_assoc), unfolding(crate::specs::Line::hex))]
pub(crate) fn append_hex(bytes: &[u8], into: &mut Bytes) -> Result<(), AllocError>
    ensures { OnOk result (into.new ≡ into.old ++ hex bytes.now) }
{
    for byte in bytes {
        into.push(digit_of(*byte / 16))?;
        into.push(digit_of(*byte % 16))?;
    }
    Ok(())
}
