//! Writing a frame.

ghost use Rattle.std.specs.Prelude.{◌≡◌, ◌≤◌, ◌++◌, ◌∷◌, [], ℕ, length, OnOk, OnErr};
ghost use Rattle.std.specs.Int.{w64, to_be_bytes};
ghost use Rattle.ncc_tx.specs.Items.{Begins, counted};
ghost use Rattle.ncc_tx.specs.Kept.{AllAllowed};
ghost use Rattle.ncc_raft.specs.Carried.{Carried, IsWithin};
ghost use Rattle.ncc_wire.specs.Frames.{body_bytes, flag_of, frame_bytes};

use crate::kind::Kind;
use ncc_pack::{Bytes, Memory};
use ncc_raft::{Body, Envelope};
use ncc_tx::{Entries, items_len, items_within};

/// How many bytes the size takes.
const SIZE: u64 = 4;

/// How many bytes cluster, kind, sender and receiver take.
const HEAD: u64 = 11;

/// The length of items behind their number.
#[tactic(auto, using(crate::proofs::Sizes::all_fit))]
fn counted_len(items: &Entries) -> u64
    requires allowed { AllAllowed items.now }
    requires short { length (counted items.now) ≤ 2_097_152 }
    ensures { result ≡ length (counted items.now) }
{
    items_len(items.as_slice())
}

fn body_len(body: &Body) -> u64
    requires { IsWithin body.now }
    ensures exact { result ≡ length (body_bytes body.now) }
    ensures short { result ≤ 2_097_141 }
{
    match body {
        Body::VoteAsk { .. } => 24,
        Body::VoteReply { .. } => 9,
        Body::Append { items, .. } => 32 + counted_len(items),
        Body::AppendReply { .. } => 17,
        Body::Pull { .. } => 8,
        Body::Batch { items, .. } => 8 + counted_len(items),
    }
}

/// The length in bytes of the frame of an envelope, with its size, in any cluster: at most 2,097,156. The envelope has to be one
/// that a frame can carry, which `Envelope::carried` says. It takes no memory.
pub fn frame_len(envelope: &Envelope) -> u64
    requires carried { Carried envelope.now }
    ensures length { (cluster : ℕ) → result ≡ length (frame_bytes cluster envelope.now) }
    ensures short { result ≤ 2_097_156 }
{
    SIZE + HEAD + body_len(&envelope.body)
}

fn put_number(number: u64, into: &mut Vec<u8>) -> Result<(), Memory>
    ensures ok { OnOk result (into.new.items ≡ into.old.items ++ to_be_bytes w64 number) }
    ensures err { OnErr result (Begins into.old.items into.new.items) }
{
    into.extend_from_slice(&number.to_be_bytes())
}

fn put_flag(flag: bool, into: &mut Vec<u8>) -> Result<(), Memory>
    ensures ok { OnOk result (into.new.items ≡ into.old.items ++ flag_of flag ∷ []) }
    ensures err { OnErr result (Begins into.old.items into.new.items) }
{
    into.extend_from_slice(&[u8::from(flag)])
}

fn put_items(items: &Entries, into: &mut Vec<u8>) -> Result<(), Memory>
    requires allowed { AllAllowed items.now }
    requires few { length items.now ≤ 64 }
    ensures ok { OnOk result (into.new.items ≡ into.old.items ++ counted items.now) }
    ensures err { OnErr result (Begins into.old.items into.new.items) }
{
    items_within(items.as_slice(), into)
}

fn put_body(body: &Body, into: &mut Vec<u8>) -> Result<(), Memory>
    requires { IsWithin body.now }
    ensures ok { OnOk result (into.new.items ≡ into.old.items ++ body_bytes body.now) }
    ensures err { OnErr result (Begins into.old.items into.new.items) }
{
    match body {
        Body::VoteAsk { term, place, last } => {
            put_number(*term, into)?;
            put_number(*place, into)?;
            put_number(*last, into)
        }
        Body::VoteReply { term, yes } => {
            put_number(*term, into)?;
            put_flag(*yes, into)
        }
        Body::Append {
            term,
            prev,
            prev_term,
            commit,
            items,
        } => {
            put_number(*term, into)?;
            put_number(*prev, into)?;
            put_number(*prev_term, into)?;
            put_number(*commit, into)?;
            put_items(items, into)
        }
        Body::AppendReply { term, yes, place } => {
            put_number(*term, into)?;
            put_flag(*yes, into)?;
            put_number(*place, into)
        }
        Body::Pull { have } => put_number(*have, into),
        Body::Batch { first, items } => {
            put_number(*first, into)?;
            put_items(items, into)
        }
    }
}

fn put_frame(cluster: u64, envelope: &Envelope, into: &mut Vec<u8>) -> Result<(), Memory>
    requires { Carried envelope.now }
    ensures ok { OnOk result (into.new.items ≡ into.old.items ++ frame_bytes cluster envelope.now) }
    ensures err { OnErr result (Begins into.old.items into.new.items) }
{
    let size = (HEAD + body_len(&envelope.body)) as u32;
    into.extend_from_slice(&size.to_be_bytes())?;
    put_number(cluster, into)?;
    let kind = Kind::of(&envelope.body).byte();
    into.extend_from_slice(&[kind, envelope.from, envelope.to])?;
    put_body(&envelope.body, into)
}

/// Appends the frame of an envelope in a cluster (`docs/FRAMES.md`). The envelope has to be one that a frame can carry, which
/// `Envelope::carried` says. An `Err` leaves the bytes as they were.
pub fn write_frame(cluster: u64, envelope: &Envelope, into: &mut Bytes) -> Result<(), Memory>
    requires carried { Carried envelope.now }
    ensures ok { OnOk result (into.new ≡ into.old ++ frame_bytes cluster envelope.now) }
    ensures err { OnErr result (into.new ≡ into.old) }
{
    let mut bytes = into.take();
    let before = bytes.len();
    let result = put_frame(cluster, envelope, &mut bytes);
    if result.is_err() {
        bytes.truncate(before);
    }
    *into = Bytes::from_vec(bytes);
    result
}
