//! Pieces of the client's bytes, and facts, one after another.

ghost use Rattle.std.specs.Prelude.{◌≡◌, ◌≤◌, ◌<◌, [], OnOk, OnErr, IfOk, IsTrue, length, take, true, false};
ghost use Rattle.ncc_chunk.specs.Handshake.{answer_to};
ghost use Rattle.ncc_session.specs.Config.{config_allowed};
ghost use Rattle.ncc_session.specs.Core.{place_of};
ghost use Rattle.ncc_session.specs.Session.{asked_at, is_ended};
ghost use Rattle.ncc_session.specs.Talk.{Feeds, FeedBreaks, Tells, TellBreaks, fits_at, talk_of, facts_left};
ghost use Rattle.ncc_session.specs.Steps.{Settles, SettleBreaks, Nexts, may_read};

use crate::ask::Fact;
use crate::config::ConnConfig;
use crate::facts::hear;
use crate::messages::{take_message, take_shake};
use crate::phase::{Core, Phase};
use crate::state::{ConnState, ConnStop};
use ncc_chunk::{Dechunk, Dechunker, Handshake, Shake};
use ncc_pack::{Bytes, Memory};
use std::alloc::{AllocError, Global};

/// Says whether the connection has ended.
pub fn has_ended(core: &Core) -> bool
    ensures { result ≡ is_ended core.now.state }
{
    match core.state {
        ConnState::Ended(_) => true,
        _ => false,
    }
}

/// Says whether a message may be handled: the connection has not ended, and no question waits.
fn may_read(core: &Core) -> bool
    ensures { result ≡ may_read (place_of core.now) }
{
    match core.phase {
        Phase::Asks { .. } => false,
        _ => !has_ended(core),
    }
}

/// Handles the next message, and says whether there was one.
fn take_next(
    alloc: Global,
    config: &ConnConfig,
    core: &mut Core,
    dechunker: &mut Dechunker,
    out: &mut Bytes,
) -> Result<bool, Memory>
    requires { IsTrue (may_read (place_of core.old)) }
    ensures ok { IfOk result (λ more. Nexts config.now (place_of core.old) dechunker.old out.old
        (place_of core.new) dechunker.new out.new more) }
    ensures lowers { IfOk result (λ more. facts_left (place_of core.new) dechunker.new ≤ facts_left (place_of core.old) dechunker.old) }
    ensures err { OnErr result (out.new ≡ out.old) }
{
    match dechunker.next_message() {
        Ok(message) => {
            take_message(alloc, config, core, message.as_slice(), out)?;
            Ok(true)
        }
        Err(Dechunk::Again) => Ok(false),
        Err(Dechunk::TooLong) => {
            let message = core.number;
            core.state = ConnState::Ended(ConnStop::MessageTooLong { message });
            core.phase = Phase::Idle;
            Ok(false)
        }
        Err(Dechunk::Memory) => Err(AllocError),
    }
}

/// Handles whole messages in order until one needs an answer, or none is left. It gives up after 2^64 messages, which no memory
/// holds.
fn settle(
    alloc: Global,
    config: &ConnConfig,
    core: &mut Core,
    dechunker: &mut Dechunker,
    out: &mut Bytes,
) -> Result<(), Memory>
    ensures ok { OnOk result (Settles config.now (place_of core.old) dechunker.old out.old (place_of core.new) dechunker.new out.new) }
    ensures lowers { OnOk result (facts_left (place_of core.new) dechunker.new ≤ facts_left (place_of core.old) dechunker.old) }
    ensures err { OnErr result (SettleBreaks config.now (place_of core.old) dechunker.old out.old out.new) }
{
    'messages: for _ in 0..u64::MAX {
        if !may_read(core) {
            return Ok(());
        }
        let more = take_next(alloc, config, core, dechunker, out)?;
        if !more {
            return Ok(());
        }
    }
    Err(AllocError)
}

/// Takes what the piece has of the handshake, and says how much.
fn take_handshake(
    config: &ConnConfig,
    core: &mut Core,
    shake: &mut Handshake,
    dechunker: &Dechunker,
    piece: &[u8],
    out: &mut Bytes,
) -> Result<usize, Memory>
    requires { answer_to shake.old ≡ Shake.More }
    ensures within { IfOk result (λ n. n ≤ length piece.now) }
    ensures all { IfOk result (λ n. answer_to shake.new ≡ Shake.More → n ≡ length piece.now) }
    ensures ok { IfOk result (λ n. Feeds (talk_of false config.now (place_of core.old) shake.old dechunker.now out.old) (take n piece.now)
        (talk_of false config.now (place_of core.new) shake.new dechunker.now out.new)) }
    ensures err { OnErr result (FeedBreaks (talk_of false config.now (place_of core.old) shake.old dechunker.now out.old) piece.now
        (talk_of true config.now (place_of core.new) shake.new dechunker.now out.new)) }
{
    let (taken, answer) = shake.feed(piece);
    take_shake(core, answer, out)?;
    Ok(taken)
}

/// Takes a piece of the stream of messages behind the handshake.
fn take_stream(
    alloc: Global,
    config: &ConnConfig,
    core: &mut Core,
    shake: &Handshake,
    dechunker: &mut Dechunker,
    piece: &[u8],
    out: &mut Bytes,
) -> Result<(), Memory>
    requires { answer_to shake.now ≡ Shake.Chosen }
    ensures ok { OnOk result (Feeds (talk_of false config.now (place_of core.old) shake.now dechunker.old out.old) piece.now
        (talk_of false config.now (place_of core.new) shake.now dechunker.new out.new)) }
    ensures err { OnErr result (FeedBreaks (talk_of false config.now (place_of core.old) shake.now dechunker.old out.old) piece.now
        (talk_of true config.now (place_of core.new) shake.now dechunker.new out.new)) }
{
    if has_ended(core) {
        return Ok(());
    }
    dechunker.feed(piece)?;
    settle(alloc, config, core, dechunker, out)
}

/// What the handshake has come to.
fn shaken(shake: &mut Handshake) -> Shake
    ensures same { shake.new ≡ shake.old }
    ensures answer { result ≡ answer_to shake.old }
{
    let (_, answer) = shake.feed(&[]);
    answer
}

/// Takes what the piece has of the handshake, if that isn't settled, and says how much.
fn take_front(
    config: &ConnConfig,
    core: &mut Core,
    shake: &mut Handshake,
    dechunker: &Dechunker,
    piece: &[u8],
    out: &mut Bytes,
) -> Result<usize, Memory>
    ensures within { IfOk result (λ n. n ≤ length piece.now) }
    ensures all { IfOk result (λ n. answer_to shake.new ≡ Shake.More → n ≡ length piece.now) }
    ensures ok { IfOk result (λ n. Feeds (talk_of false config.now (place_of core.old) shake.old dechunker.now out.old) (take n piece.now)
        (talk_of false config.now (place_of core.new) shake.new dechunker.now out.new)) }
    ensures err { OnErr result (FeedBreaks (talk_of false config.now (place_of core.old) shake.old dechunker.now out.old) piece.now
        (talk_of true config.now (place_of core.new) shake.new dechunker.now out.new)) }
{
    match shaken(shake) {
        Shake::More => take_handshake(config, core, shake, dechunker, piece, out),
        _ => Ok(0),
    }
}

/// Takes what a piece has behind the handshake.
fn take_behind(
    alloc: Global,
    config: &ConnConfig,
    core: &mut Core,
    shake: &mut Handshake,
    dechunker: &mut Dechunker,
    piece: &[u8],
    out: &mut Bytes,
) -> Result<(), Memory>
    requires { answer_to shake.old ≡ Shake.More → piece.now ≡ [] }
    ensures ok { OnOk result (Feeds (talk_of false config.now (place_of core.old) shake.old dechunker.old out.old) piece.now
        (talk_of false config.now (place_of core.new) shake.new dechunker.new out.new)) }
    ensures err { OnErr result (FeedBreaks (talk_of false config.now (place_of core.old) shake.old dechunker.old out.old) piece.now
        (talk_of true config.now (place_of core.new) shake.new dechunker.new out.new)) }
{
    match shaken(shake) {
        Shake::More => Ok(()),
        Shake::Chosen => take_stream(alloc, config, core, shake, dechunker, piece, out),
        _ => Ok(()),
    }
}

/// Takes a piece of the client's bytes.
pub fn take_piece(
    alloc: Global,
    config: &ConnConfig,
    core: &mut Core,
    shake: &mut Handshake,
    dechunker: &mut Dechunker,
    piece: &[u8],
    out: &mut Bytes,
) -> Result<(), Memory>
    ensures ok { OnOk result (Feeds (talk_of false config.now (place_of core.old) shake.old dechunker.old out.old) piece.now
        (talk_of false config.now (place_of core.new) shake.new dechunker.new out.new)) }
    ensures err { OnErr result (FeedBreaks (talk_of false config.now (place_of core.old) shake.old dechunker.old out.old) piece.now
        (talk_of true config.now (place_of core.new) shake.new dechunker.new out.new)) }
{
    let taken = take_front(config, core, shake, dechunker, piece, out)?;
    let (_, rest) = piece.split_at(taken);
    take_behind(alloc, config, core, shake, dechunker, rest, out)
}

/// Takes a fact that answers the question that waits.
pub fn take_fact(
    alloc: Global,
    config: &ConnConfig,
    core: &mut Core,
    shake: &Handshake,
    dechunker: &mut Dechunker,
    fact: Fact,
    out: &mut Bytes,
) -> Result<(), Memory>
    requires config { IsTrue (config_allowed config.now) }
    requires fits { IsTrue (fits_at (asked_at (place_of core.old)) fact) }
    ensures ok { OnOk result (Tells (talk_of false config.now (place_of core.old) shake.now dechunker.old out.old) fact
        (talk_of false config.now (place_of core.new) shake.now dechunker.new out.new)) }
    ensures lowers { OnOk result (facts_left (place_of core.new) dechunker.new < facts_left (place_of core.old) dechunker.old) }
    ensures err { OnErr result (TellBreaks (talk_of false config.now (place_of core.old) shake.now dechunker.old out.old) fact
        (talk_of true config.now (place_of core.new) shake.now dechunker.new out.new)) }
{
    match std::mem::replace(&mut core.phase, Phase::Idle) {
        Phase::Asks { ask, behind } => hear(alloc, config, core, ask, behind, fact, out)?,
        _ => unreachable!(),
    }
    settle(alloc, config, core, dechunker, out)
}
