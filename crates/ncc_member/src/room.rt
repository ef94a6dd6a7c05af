//! How much room the largest change of an event takes.

ghost use Rattle.std.specs.Prelude.{◌≡◌, ◌+◌, max, length};
ghost use Rattle.ncc_tx.specs.Items.{counted};
ghost use Rattle.ncc_raft.specs.Carried.{IsWithin};
ghost use Rattle.ncc_raft.specs.Laws.{MayCome, items_in};
ghost use Rattle.ncc_member.specs.Event.{meant};
ghost use Rattle.ncc_member.specs.Room.{Suffices};

use crate::event::NodeEvent;
use ncc_raft::Body;
use ncc_tx::{entry_len, items_len};

/// The bytes of a payload before its items: term, vote and keep.
const HEAD: u64 = 17;

/// A payload without items has their number behind its head.
const NO_ITEMS: u64 = HEAD + 4;

/// One item takes these bytes with the number of the items, and those of its entry.
const ONE_ITEM: u64 = 4 + 12;

/// The empty entry of a new leader takes one byte.
const NOOP: u64 = ONE_ITEM + 1;

/// The items of the message, or the empty entry of a new leader.
fn most_of(body: &Body) -> u64
    requires within { IsWithin body.now }
    ensures most { result ≡ 17 + max 17 (length (counted (items_in body.now))) }
{
    match body {
        Body::Append { items, .. } => HEAD + items_len(items.as_slice()).max(NOOP),
        Body::VoteAsk { .. }
        | Body::VoteReply { .. }
        | Body::AppendReply { .. }
        | Body::Pull { .. }
        | Body::Batch { .. } => HEAD + NOOP,
    }
}

/// The greatest length in bytes of the payload of a change that the event can make; a sign of life makes none.
pub(crate) fn most_payload(event: &NodeEvent) -> u64
    requires comes { MayCome (meant event.now) }
    ensures most { Suffices (meant event.now) result }
{
    match event {
        NodeEvent::Beat => 0,
        NodeEvent::Timeout => NO_ITEMS,
        NodeEvent::Receive(envelope) => most_of(&envelope.body),
        NodeEvent::Propose(entry) => HEAD + ONE_ITEM + entry_len(entry),
    }
}
