//! The chunks that come in, as the Bolt Protocol message specification says in its section on chunking.

ghost use Rattle.std.specs.Prelude.{◌≡◌, ◌++◌, ◌∷◌, [], ◌<◌, ◌≤◌, ◌+◌, ◌-◌, ◌⊎◌, ◌↔◌, ℕ, List, length, take, drop, min, map, IfOk};
ghost use Rattle.std.specs.Prelude.{IfNone, IfSome, OnOk, OnErr, Ok, IsErrOf, IsTrue};
ghost use Rattle.ncc_chunk.specs.Chunks.{EndsAfter, IsTooLongAfter, IsNextAfter, IsBetweenMessages, limit};
ghost use Rattle.ncc_chunk.specs.Inflow.{Inflow, Stands, Feeds, HandsOut, ExactlyAt, IsPastLimit};
ghost use Rattle.ncc_chunk.specs.Keeping.{Took, Begins, IsWithin, place_by, grown, ended, missing_at, first_of, without_first};

use ncc_pack::{Bytes, Memory};
use std::alloc::{AllocError, Global};
use std::collections::VecDeque;
use std::marker::Model;
use thiserror::Error;

// How many bytes a message has at most.
const LIMIT: usize = 1_048_576;

/// Where in the next message the stream stands.
#[derive(Clone, Copy, Debug, PartialEq, Eq)]
pub enum Position {
    /// Behind a whole chunk, or before the first.
    Between,
    /// Behind the first byte of a chunk's head.
    InHead { first: u8 },
    /// In a chunk's body, of which so many bytes are still to come.
    InBody { left: usize },
    /// Behind a head that made the message too long.
    Stopped,
}

/// Why there is no message.
#[derive(Clone, Copy, Debug, PartialEq, Eq, Error)]
pub enum Dechunk {
    /// More bytes have to come.
    #[error("more bytes have to come")]
    Again,
    /// The next message is longer than 1,048,576 bytes. There will be no more.
    #[error("a message of more than 1048576 bytes")]
    TooLong,
    /// There was no memory.
    #[error("out of memory")]
    Memory,
}

/// The reader of a stream of messages in chunks, fed in any pieces. A chunk is a size of two bytes, the greater first, which
/// is not 0, and so many bytes; `00 00` ends a message, and is a no-op between messages. Of a message that is not whole
/// at most 1,048,576 bytes are held, and once one is too long, nothing more of the stream.
#[derive(Drop)]
pub struct Dechunker {
    ready: VecDeque<Vec<u8>>,
    body: Vec<u8>,
    place: Position,
    alloc: Global,
}

impl Model for Dechunker {
    ghost use Rattle.std.specs.Prelude.{map};
    ghost use Rattle.ncc_chunk.specs.Inflow.{Inflow};
    ghost use Rattle.std.specs.Prelude.{length};
    ghost use Rattle.ncc_chunk.specs.Keeping.{IsWithin};

    ghost Value = { Inflow };

    ghost view = { λ d. record { ready = map (λ v. v.items) d.ready.items; body = d.body.items; place = d.place } };

    ghost invariant = { λ d. IsWithin d.place (length d.body.items) };
}

impl Dechunker {
    /// A dechunker that was fed nothing.
    pub fn new(alloc: Global) -> Result<Dechunker, Memory>
        ensures made { IfOk result (λ d. Stands d [] []) }
    {
        Ok(Dechunker {
            ready: VecDeque::new(alloc),
            body: Vec::new(alloc),
            place: Position::Between,
            alloc,
        })
    }

    /// Takes the next piece of the stream, of any length. An `Err` changes nothing. Once a message is too long, nothing of
    /// what comes is kept.
    pub fn feed(&mut self, piece: &[u8]) -> Result<(), Memory>
        ensures ok { OnOk result (Feeds self.old piece.now self.new) }
        ensures err { OnErr result (self.new ≡ self.old) }
        ensures bounded { length self.new.body ≤ limit }
        ensures past_limit { IsPastLimit self.old → self.new ≡ self.old }
    {
        let (ready, body, place) = self.mark();
        match self.take_all(piece) {
            Ok(()) => Ok(()),
            Err(error) => {
                self.restore(ready, body, place);
                Err(error)
            }
        }
    }

    /// Hands out the next message, which is moved and not copied. `Again` says that it is not whole yet, and `TooLong`
    /// that the sizes of its chunks pass 1,048,576, which stays so. An `Err` changes nothing. It takes no memory, and so
    /// never answers `Memory`.
    pub fn next_message(&mut self) -> Result<Bytes, Dechunk>
        ensures ok { IfOk result (λ m. HandsOut self.old m self.new) }
        ensures err { OnErr result (self.new ≡ self.old) }
        ensures again { ExactlyAt (λ stream handed. EndsAfter stream handed) self.old (IsErrOf result Dechunk.Again) }
        ensures too_long { ExactlyAt (λ stream handed. IsTooLongAfter stream handed) self.old (IsErrOf result Dechunk.TooLong) }
        // It is the first of those that are ready, and the others stay.
        ensures first { IfOk result (λ m. self.old.ready ≡ m ∷ self.new.ready) }
        ensures whole { (message : List ℕ) → ExactlyAt (λ stream handed. IsNextAfter stream handed message) self.old (result ≡ Ok message) }
    {
        match self.take_first() {
            Some(message) => Ok(message),
            None => Err(self.missing()),
        }
    }

    /// Says whether no byte of an unfinished message or of a chunk's head is held. Whole messages that are not yet
    /// handed out don't count. After `TooLong` it is false.
    pub fn idle(&self) -> bool
        ensures between { ExactlyAt (λ stream handed. IsBetweenMessages stream) self.now (IsTrue result) }
    {
        match self.place {
            Position::Between => self.body.is_empty(),
            _ => false,
        }
    }

    // Takes the first ready message out.
    fn take_first(&mut self) -> Option<Bytes>
        ensures first { result ≡ first_of self.old.ready }
        ensures others { self.new ≡ without_first self.old }
    {
        match self.ready.pop_front() {
            Some(message) => Some(Bytes::from_vec(message)),
            None => None,
        }
    }

    // Why no message is ready.
    fn missing(&self) -> Dechunk
        ensures { result ≡ missing_at self.now.place }
    {
        match self.place {
            Position::Stopped => Dechunk::TooLong,
            _ => Dechunk::Again,
        }
    }

    // How many messages are ready, how long the body is, and the place.
    fn mark(&self) -> (usize, usize, Position)
        ensures ready { result.0 ≡ length self.now.ready }
        ensures body { result.1 ≡ length self.now.body }
        ensures place { result.2 ≡ self.now.place }
        ensures within { IsWithin result.2 result.1 }
    {
        (self.ready.len(), self.body.len(), self.place)
    }

    // Takes all of the piece. An `Err` may leave a part taken.
    fn take_all(&mut self, piece: &[u8]) -> Result<(), AllocError>
        ensures ok { OnOk result (Took self.old piece.now self.new) }
        ensures err { OnErr result (Begins self.old.ready self.old.body (self.new.ready ++ self.new.body ∷ [])) }
        ensures bounded { length self.old.body ≤ limit → length self.new.body ≤ limit }
        ensures stopped { self.old.place ≡ Position.Stopped → self.new ≡ self.old }
    {
        let mut at = 0;
        while at < piece.len() {
            at += self.take_some(&piece[at..])?;
        }
        Ok(())
    }

    // Takes bytes from the front of what has come, and says how many. An `Err` changes nothing.
    fn take_some(&mut self, piece: &[u8]) -> Result<usize, AllocError>
        requires { 0 < length piece.now }
        ensures within { IfOk result (λ n. (0 < n) × (n ≤ length piece.now)) }
        ensures ok { IfOk result (λ n. Took self.old (take n piece.now) self.new) }
        ensures err { OnErr result (self.new ≡ self.old) }
        ensures bounded { length self.new.body ≤ limit }
        ensures stopped { self.old.place ≡ Position.Stopped → self.new ≡ self.old }
    {
        match self.place {
            Position::Between => {
                self.place = Position::InHead { first: piece[0] };
                Ok(1)
            }
            Position::InHead { first } => {
                self.take_head(first, piece[0])?;
                Ok(1)
            }
            Position::InBody { left } => self.take_body(left, piece),
            Position::Stopped => Ok(piece.len()),
        }
    }

    // Takes the second byte of a chunk's head. An `Err` changes nothing.
    fn take_head(&mut self, first: u8, second: u8) -> Result<(), AllocError>
        requires { self.old.place ≡ Position.InHead first }
        ensures ok { OnOk result (Took self.old (second ∷ []) self.new) }
        ensures err { OnErr result (self.new ≡ self.old) }
        ensures bounded { length self.new.body ≤ limit }
    {
        let size = usize::from(first) * 256 + usize::from(second);
        if size == 0 {
            return self.end_message();
        }
        self.place = place_after(size, self.body.len());
        Ok(())
    }

    // Ends the message at hand, if there is one. An `Err` changes nothing.
    fn end_message(&mut self) -> Result<(), AllocError>
        ensures ok { OnOk result (self.new ≡ ended self.old) }
        ensures err { OnErr result (self.new ≡ self.old) }
        ensures bounded { length self.new.body ≤ limit }
    {
        if !self.body.is_empty() {
            self.ready.reserve(1)?;
            let message = std::mem::replace(&mut self.body, Vec::new(self.alloc));
            self.ready.push_back_reserved(message);
        }
        self.place = Position::Between;
        Ok(())
    }

    // Takes a part of a chunk's body, and says how much. An `Err` changes nothing.
    fn take_body(&mut self, left: usize, piece: &[u8]) -> Result<usize, AllocError>
        requires place { self.old.place ≡ Position.InBody left }
        requires some { 0 < left }
        requires some_piece { 0 < length piece.now }
        ensures within { IfOk result (λ n. (0 < n) × (n ≤ length piece.now)) }
        ensures ok { IfOk result (λ n. (n ≤ left) × (self.new ≡ grown self.old left (take n piece.now))) }
        ensures err { OnErr result (self.new ≡ self.old) }
        ensures bounded { length self.new.body ≤ limit }
    {
        let count = left.min(piece.len());
        let (part, _) = piece.split_at(count);
        self.body.extend_from_slice(part)?;
        self.place = behind(left - count);
        Ok(count)
    }

    // Puts back what was kept before: so many messages, so long a body, and the place.
    fn restore(&mut self, ready: usize, body: usize, place: Position)
        requires place { IsWithin place body }
        ensures { (rs : List (List ℕ)) (b : List ℕ) → ready ≡ length rs → body ≡ length b
            → Begins rs b (self.old.ready ++ self.old.body ∷ []) → self.new ≡ record { ready = rs; body = b; place = place } }
    {
        if let Some(message) = cut_back(&mut self.ready, ready) {
            self.body = message;
        }
        self.body.truncate(body);
        self.place = place;
    }
}

// Lets go all but so many messages, and hands out the first that goes.
fn cut_back(ready: &mut VecDeque<Vec<u8>>, count: usize) -> Option<Vec<u8>>
    ensures none { IfNone result ((map (λ m. m.items) ready.new.items ≡ map (λ m. m.items) ready.old.items)
        × (length (map (λ m. m.items) ready.old.items) ≤ count)) }
    ensures some { IfSome result (λ first. (take (count + 1) (map (λ m. m.items) ready.old.items) ≡
        map (λ m. m.items) ready.new.items ++ first.items ∷ []) × (count < length (map (λ m. m.items) ready.old.items))) }
{
    if ready.len() <= count {
        return None;
    }
    ready.truncate(count + 1);
    ready.pop_back()
}

// Where a head leads whose chunk has so many bytes, in a message of which so many are held.
fn place_after(size: usize, held: usize) -> Position
    requires { 0 < size }
    ensures stopped { limit < held + size → result ≡ Position.Stopped }
    ensures body { held + size ≤ limit → result ≡ Position.InBody size }
{
    if size > LIMIT.saturating_sub(held) {
        Position::Stopped
    } else {
        Position::InBody { left: size }
    }
}

// Where a body stands of which so many bytes are still to come.
fn behind(left: usize) -> Position
    ensures { result ≡ place_by left }
{
    if left == 0 {
        Position::Between
    } else {
        Position::InBody { left }
    }
}
