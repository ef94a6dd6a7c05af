//! The handshake, as the Bolt Protocol handshake specification says.

ghost use Rattle.std.specs.Prelude.{◌≡◌, ◌≢◌, ◌↔◌, ℕ, List, [], ◌∷◌, ◌++◌, ◌<◌, ◌≤◌, length, take, IsTrue};
ghost use Rattle.std.specs.List.{list_any};
ghost use Rattle.ncc_chunk.specs.Handshake.{covers, proposals, answer_to, answer_to_proposals, handshake_of};

use std::marker::Model;

// What a handshake begins with.
const MAGIC: [u8; 4] = [0x60, 0x60, 0xb0, 0x17];

// The version that is spoken here.
const MAJOR: u8 = 4;

const MINOR: u8 = 4;

/// What a handshake has come to. The Bolt Protocol handshake specification, the section on the negotiation of a version.
#[derive(Clone, Copy, Debug, PartialEq, Eq)]
pub enum Shake {
    /// More bytes have to come.
    More,
    /// A proposal covers version 4.4.
    Chosen,
    /// The first four bytes are not the magic.
    BadMagic,
    /// No proposal covers version 4.4.
    NoVersion,
}

/// A handshake, fed in any pieces: the magic `60 60 B0 17` and four proposals of four bytes, a reserved byte that is not
/// looked at, a range, a minor and a major version. A contract sees the bytes that it took, at most 20.
#[derive(Drop)]
pub struct Handshake {
    bytes: [u8; 20],
    count: usize,
}

impl Model for Handshake {
    ghost use Rattle.std.specs.Prelude.{List, ℕ, ◌≤◌, take};

    ghost Value = { List ℕ };

    ghost view = { λ h. take h.count h.bytes };

    ghost invariant = { λ h. h.count ≤ 20 };
}

impl Handshake {
    /// A handshake of which nothing has come. It takes no memory.
    pub fn new() -> Handshake
        ensures made { result ≡ [] }
    {
        Handshake {
            bytes: [0; 20],
            count: 0,
        }
    }

    /// Takes bytes from the front of the piece, and says how many, and what the handshake has come to. It takes no
    /// more than the handshake has, and none once that is settled. It takes no memory.
    pub fn feed(&mut self, piece: &[u8]) -> (usize, Shake)
        ensures within { result.0 ≤ length piece.now }
        ensures taken { self.new ≡ self.old ++ take result.0 piece.now }
        ensures answer { result.1 ≡ answer_to self.new }
        // However the stream was cut into pieces, what was taken of it is its handshake.
        ensures handshake { (stream : List ℕ) → self.old ≡ handshake_of stream → self.new ≡ handshake_of (stream ++ piece.now) }
        ensures all { result.1 ≡ Shake.More → result.0 ≡ length piece.now }
        ensures settled { answer_to self.old ≢ Shake.More → (result.0 ≡ 0) × (self.new ≡ self.old) }
    {
        for (i, byte) in piece.iter().enumerate() {
            match self.answer() {
                Shake::More => self.push(*byte),
                shake => return (i, shake),
            }
        }
        (piece.len(), self.answer())
    }

    /// Says whether nothing has come. It takes no memory.
    pub fn is_empty(&self) -> bool
        ensures empty { IsTrue result ↔ (self.now ≡ []) }
    {
        self.count == 0
    }

    fn answer(&self) -> Shake
        ensures { result ≡ answer_to self.now }
    {
        answer_of(&self.bytes[..self.count])
    }

    fn push(&mut self, byte: u8)
        requires { length self.old < 20 }
        ensures { self.new ≡ self.old ++ byte ∷ [] }
    {
        self.bytes[self.count] = byte;
        self.count += 1;
    }
}

// Whether a proposal covers version 4.4.
fn covers_it(proposal: &[u8]) -> bool
    ensures { result ≡ covers proposal.now }
{
    match proposal {
        [_, range, minor, major] => {
            *major == MAJOR && *minor >= MINOR && minor.saturating_sub(*range) <= MINOR
        }
        _ => false,
    }
}

// Whether one of the four proposals does.
fn any_covers(bytes: &[u8]) -> bool
    requires { length bytes.now ≡ 20 }
    ensures { result ≡ list_any covers (proposals bytes.now) }
{
    covers_it(&bytes[4..8])
        || covers_it(&bytes[8..12])
        || covers_it(&bytes[12..16])
        || covers_it(&bytes[16..20])
}

// What comes of a handshake that began with the magic.
fn proposed(bytes: &[u8]) -> Shake
    requires { length bytes.now ≤ 20 }
    ensures { result ≡ answer_to_proposals bytes.now }
{
    if bytes.len() < 20 {
        Shake::More
    } else if any_covers(bytes) {
        Shake::Chosen
    } else {
        Shake::NoVersion
    }
}

fn answer_of(bytes: &[u8]) -> Shake
    requires { length bytes.now ≤ 20 }
    ensures { result ≡ answer_to bytes.now }
{
    if bytes.len() < 4 {
        return Shake::More;
    }
    let (magic, _) = bytes.split_at(4);
    if magic == MAGIC.as_slice() {
        proposed(bytes)
    } else {
        Shake::BadMagic
    }
}
