//! What comes on a link: four bytes, then messages.

ghost use Rattle.std.specs.Prelude.{◌≡◌, ◌-◌, ◌<◌, [], OnOk, IfOk};
ghost use Rattle.ncc_driver.specs.Talk.{Keeps};
ghost use Rattle.ncc_driver.specs.Hearing.{FeedsLine, HandsItem, TakesItem, shake_item};

use ncc_chunk::{Dechunk, Dechunker};
use ncc_pack::{Bytes, Memory};
use std::alloc::{AllocError, Global};
use std::marker::Model;

/// What came on a link and was not yet taken.
#[derive(Drop)]
pub struct Link {
    // The first bytes, at most four.
    shake: Bytes,
    dechunker: Dechunker,
    // How many items were taken; it stays at the greatest number.
    taken: u64,
}

impl Model for Link {
    ghost use Rattle.ncc_driver.specs.Line.{Line};

    ghost Value = { Line };

    ghost view = { λ l. record { shake = l.shake; inflow = l.dechunker; taken = l.taken } };
}

/// What comes on a link.
#[derive(Drop)]
pub enum Item {
    /// The answer of the handshake.
    Shaken(Bytes),
    /// A message.
    Message(Bytes),
    /// A message that is too long, behind which nothing is read.
    TooLong,
}

// The length of the handshake's answer.
const SHAKE: usize = 4;

impl Link {
    /// A link on which nothing has come.
    pub fn new(alloc: Global) -> Result<Link, Memory>
        ensures made { IfOk result (λ link. Keeps link [] 0) }
    {
        let dechunker = Dechunker::new(alloc)?;
        Ok(Link {
            shake: Bytes::new(alloc),
            dechunker,
            taken: 0,
        })
    }

    /// Takes bytes that came.
    pub fn feed(&mut self, piece: &[u8]) -> Result<(), Memory>
        ensures ok { OnOk result (FeedsLine self.old piece.now self.new) }
    {
        let want = SHAKE.saturating_sub(self.shake.len());
        let (front, rest) = piece.split_at(want.min(piece.len()));
        self.shake.extend(front)?;
        self.dechunker.feed(rest)
    }

    /// The number of the next message, from 0. The answer of the handshake counts as message 0.
    pub fn number(&self) -> u64
        ensures exact { result ≡ self.now.taken - 1 }
    {
        self.taken.saturating_sub(1)
    }

    /// Takes the next item that is whole.
    pub fn take(&mut self) -> Result<Option<Item>, Memory>
        ensures ok { IfOk result (λ item. TakesItem self.old item self.new) }
    {
        match next_item(&self.shake, &mut self.dechunker, self.taken)? {
            Some(item) => {
                self.taken = self.taken.saturating_add(1);
                Ok(Some(item))
            }
            None => Ok(None),
        }
    }
}

/// The item behind so many that were taken.
fn next_item(shake: &Bytes, dechunker: &mut Dechunker, taken: u64) -> Result<Option<Item>, Memory>
    ensures first { taken ≡ 0 → IfOk result (λ item. (item ≡ shake_item shake.now) × (dechunker.new ≡ dechunker.old)) }
    ensures later { 0 < taken → IfOk result (λ item. HandsItem dechunker.old item dechunker.new) }
{
    if taken == 0 {
        shaken(shake)
    } else {
        next_message(dechunker)
    }
}

fn shaken(shake: &Bytes) -> Result<Option<Item>, Memory>
    ensures { IfOk result (λ item. item ≡ shake_item shake.now) }
{
    if shake.len() < SHAKE {
        return Ok(None);
    }
    Ok(Some(Item::Shaken(shake.copy()?)))
}

fn next_message(dechunker: &mut Dechunker) -> Result<Option<Item>, Memory>
    ensures { IfOk result (λ item. HandsItem dechunker.old item dechunker.new) }
{
    match dechunker.next_message() {
        Ok(message) => Ok(Some(Item::Message(message))),
        Err(Dechunk::Again) => Ok(None),
        Err(Dechunk::TooLong) => Ok(Some(Item::TooLong)),
        Err(Dechunk::Memory) => Err(AllocError),
    }
}
