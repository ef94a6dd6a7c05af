//! The chunks that go out, as the Bolt Protocol message specification says in its section on chunking.

ghost use Rattle.std.specs.Prelude.{◌≡◌, ◌++◌, ◌<◌, ◌≤◌, length, OnOk, OnErr};
ghost use Rattle.ncc_pack.specs.Writing.{Begins};
ghost use Rattle.ncc_chunk.specs.Chunked.{chunked, chunk_of};

use ncc_pack::{Bytes, Memory};

// How many bytes a chunk has at most.
const MOST: usize = 65_535;

// The bytes behind the last chunk of a message.
const END: [u8; 2] = [0, 0];

/// Appends a message in its chunks: of 65,535 bytes while more than that is left, then the rest, then 00 00.
/// The message is not empty. An `Err` leaves `into` as it was.
pub fn chunk(message: &[u8], into: &mut Bytes) -> Result<(), Memory>
    requires not_empty { 0 < length message.now }
    ensures ok { OnOk result (into.new ≡ into.old ++ chunked message.now) }
    ensures err { OnErr result (into.new ≡ into.old) }
{
    let held = into.len();
    match append(message, into) {
        Ok(()) => Ok(()),
        Err(error) => {
            into.truncate(held);
            Err(error)
        }
    }
}

// Appends the message in its chunks. An `Err` may leave some of them.
fn append(message: &[u8], into: &mut Bytes) -> Result<(), Memory>
    requires { 0 < length message.now }
    ensures ok { OnOk result (into.new ≡ into.old ++ chunked message.now) }
    ensures err { OnErr result (Begins into.old into.new) }
{
    let mut left = message;
    while left.len() > MOST {
        let (body, rest) = left.split_at(MOST);
        append_chunk(body, into)?;
        left = rest;
    }
    append_chunk(left, into)?;
    into.extend(&END)
}

// Appends one chunk. An `Err` may leave its head.
fn append_chunk(body: &[u8], into: &mut Bytes) -> Result<(), Memory>
    requires some { 0 < length body.now }
    requires fits { length body.now ≤ 65535 }
    ensures ok { OnOk result (into.new ≡ into.old ++ chunk_of body.now) }
    ensures err { OnErr result (Begins into.old into.new) }
{
    let size = body.len();
    into.push((size / 256) as u8)?;
    into.push((size % 256) as u8)?;
    into.extend(body)
}
