//! Numbers as text.
#![tactic(auto, using(std::proofs::lemmas::List::append_assoc))]

ghost use Rattle.std.specs.Prelude.{◌≡◌, ◌++◌, OnOk};
ghost use Rattle.ncc_replay.specs.Report.{spaced};

use itoa::Buffer;
use ncc_pack::Bytes;
use std::alloc::AllocError;

// A space and the number.
pub(crate) fn append_number(n: u64, into: &mut Bytes) -> Result<(), AllocError>
    ensures { OnOk result (into.new ≡ into.old ++ spaced n) }
{
    let mut buffer = Buffer::new();
    into.extend(b" ")?;
    into.extend(buffer.format(n).as_bytes())
}
