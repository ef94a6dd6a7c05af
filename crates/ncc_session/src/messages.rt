//! What comes in: a handshake, messages, and a message that is too long.

ghost use Rattle.std.specs.Prelude.{◌≡◌, OnOk, OnErr, IfOk, IsTrue};
ghost use Rattle.ncc_bolt.specs.Reading.{Gives, request_at};
ghost use Rattle.ncc_bolt.specs.Writing.{fits_request};
ghost use Rattle.ncc_session.specs.Core.{place_of};
ghost use Rattle.ncc_session.specs.Session.{fault_at, on_message, on_shake};
ghost use Rattle.ncc_session.specs.Took.{Took};

use crate::config::ConnConfig;
use crate::phase::{Core, Phase};
use crate::requests::answer;
use crate::state::{ConnState, ConnStop};
use crate::table::turn_for;
use ncc_bolt::{MessageError, Request, read_request};
use ncc_chunk::Shake;
use ncc_pack::{Bytes, Memory, PackError, spelled_fits};
use std::alloc::{AllocError, Global};

const CHOSEN: [u8; 4] = [0, 0, 4, 4];

const NONE_CHOSEN: [u8; 4] = [0, 0, 0, 0];

/// The place of a fault in a message of so many bytes.
fn fault_place(len: usize, error: MessageError) -> u64
    ensures { result ≡ fault_at len error }
{
    match error {
        MessageError::Pack(fault) => pack_place(len, fault),
        MessageError::UnknownTag { .. } => 1,
        MessageError::WrongFields { .. } => 0,
        MessageError::WrongKind { at, .. } => at,
        MessageError::Rest { at } => at,
        MessageError::Memory => 0,
    }
}

fn pack_place(len: usize, fault: PackError) -> u64
    ensures { result ≡ fault_at len (MessageError.Pack fault) }
{
    match fault {
        PackError::Float { at } => at,
        PackError::BadMarker { at } => at,
        PackError::BadUtf8 { at } => at,
        PackError::RepeatedKey { at } => at,
        PackError::KeyNotText { at } => at,
        PackError::TooDeep { at } => at,
        PackError::TooLong { at } => at,
        PackError::Short => len as u64,
        PackError::Memory => len as u64,
    }
}

/// Reads a request, whose values fit.
fn read(alloc: Global, bytes: &[u8]) -> Result<Request, MessageError>
    ensures exact { Gives (λ x. x) result (request_at bytes.now) }
    ensures fits { IfOk result (λ request. IsTrue (fits_request request)) }
{
    spelled_fits();
    read_request(alloc, bytes)
}

/// Does what a message asks.
pub fn take_message(
    alloc: Global,
    config: &ConnConfig,
    core: &mut Core,
    bytes: &[u8],
    out: &mut Bytes,
) -> Result<(), Memory>
    ensures ok { OnOk result (Took (on_message config.now (place_of core.old) bytes.now) out.old (place_of core.new) out.new) }
    ensures err { OnErr result (out.new ≡ out.old) }
{
    let message = core.number;
    match read(alloc, bytes) {
        Ok(request) => {
            core.number = message.saturating_add(1);
            let turn = turn_for(core.state, request);
            answer(alloc, config, core, turn, out)
        }
        Err(MessageError::Memory) => Err(AllocError),
        Err(cause) => {
            let at = fault_place(bytes.len(), cause);
            core.state = ConnState::Ended(ConnStop::Malformed { message, at, cause });
            core.phase = Phase::Idle;
            Ok(())
        }
    }
}

/// Does what a handshake that is settled asks.
pub fn take_shake(core: &mut Core, shake: Shake, out: &mut Bytes) -> Result<(), Memory>
    ensures ok { OnOk result (Took (on_shake (place_of core.old) shake) out.old (place_of core.new) out.new) }
    ensures err { OnErr result (out.new ≡ out.old) }
{
    match shake {
        Shake::More => Ok(()),
        Shake::Chosen => {
            out.extend(&CHOSEN)?;
            core.state = ConnState::Connected;
            core.phase = Phase::Idle;
            Ok(())
        }
        Shake::BadMagic => {
            core.state = ConnState::Ended(ConnStop::BadMagic);
            core.phase = Phase::Idle;
            Ok(())
        }
        Shake::NoVersion => {
            out.extend(&NONE_CHOSEN)?;
            core.state = ConnState::Ended(ConnStop::NoVersion);
            core.phase = Phase::Idle;
            Ok(())
        }
    }
}
