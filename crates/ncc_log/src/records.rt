//! The record of a change, as it is read.

ghost use Rattle.std.specs.Prelude.{◌≡◌, ◌↔◌, ◌≤◌, ◌<◌, ◌+◌, ◌^◌, ◌++◌, List, IsTrue, IfOk, IfSome, IfNone, length, drop};
ghost use Rattle.ncc_tx.specs.declared.entry.ChangeSet.{ChangeSet};
ghost use Rattle.ncc_tx.specs.declared.entry.Item.{Item};
ghost use Rattle.ncc_tx.specs.Kept.{part_after, payload, term_at};
ghost use Rattle.ncc_log.specs.Fronts.{FrontMayStand, front_at};
ghost use Rattle.ncc_log.specs.Reading.{AreItemsFrom};
ghost use Rattle.ncc_log.specs.Records.{MayStandBehind};

use ncc_tx::{
    ChangeSet, Entries, ItemError, MAX_ITEMS, MAX_VOTE, Saved, TERM_LIMIT, read_item, term_at,
};
use std::alloc::{AllocError, Global};

/// How many bytes of a payload stand before its items.
const FRONT: usize = 21;

/// What stands in a payload before its items.
#[derive(Clone, Copy, Debug, PartialEq, Eq)]
pub(crate) struct Front {
    pub(crate) term: u64,
    pub(crate) vote: u8,
    pub(crate) keep: u64,
    pub(crate) count: u32,
}

fn read_front(payload: &[u8]) -> Option<Front>
    ensures some { IfSome result (λ f. (f ≡ front_at payload.now) × (21 ≤ length payload.now)) }
    ensures none { IfNone result (length payload.now < 21) }
{
    if payload.len() < FRONT {
        return None;
    }
    let p = payload;
    Some(Front {
        term: u64::from_be_bytes([p[0], p[1], p[2], p[3], p[4], p[5], p[6], p[7]]),
        vote: p[8],
        keep: u64::from_be_bytes([p[9], p[10], p[11], p[12], p[13], p[14], p[15], p[16]]),
        count: u32::from_be_bytes([p[17], p[18], p[19], p[20]]),
    })
}

impl Front {
    fn may_stand(&self, part: &Saved) -> bool
        ensures { IsTrue result ↔ FrontMayStand part.now self.now }
    {
        part.term <= self.term
            && self.term < TERM_LIMIT
            && self.vote <= MAX_VOTE
            && self.keep <= part.log.len() as u64
            && self.keep <= MAX_ITEMS
            && self.count as u64 <= MAX_ITEMS - self.keep
    }
}

/// So many items, which are all that stands behind the front of a payload.
fn read_items(
    alloc: Global,
    payload: &[u8],
    count: u32,
    least: u64,
    greatest: u64,
) -> Result<Option<Entries>, AllocError>
    requires { 21 ≤ length payload.now }
    ensures some { IfOk result (λ o. IfSome o (AreItemsFrom payload.now 21 count least greatest)) }
    ensures none { IfOk result (λ o. IfNone o ((items : List Item) → AreItemsFrom payload.now 21 count least greatest items → ⊥)) }
{
    let mut items = Entries::new(alloc);
    let mut at = FRONT;
    let mut last = least;
    for _ in 0..count {
        match read_item(alloc, payload, at, last, greatest) {
            Ok((item, behind)) => {
                last = item.term;
                at = behind;
                items.push(item)?;
            }
            Err(ItemError::Wrong(_)) => return Ok(None),
            Err(ItemError::Memory) => return Err(AllocError),
        }
    }
    if at == payload.len() {
        Ok(Some(items))
    } else {
        Ok(None)
    }
}

/// The change of which this is the payload, where its record may stand behind that of this part.
pub(crate) fn read_change(
    alloc: Global,
    bytes: &[u8],
    part: &Saved,
) -> Result<Option<ChangeSet>, AllocError>
    requires { length bytes.now < 2 ^ 32 }
    ensures some { IfOk result (λ o. IfSome o (λ c. MayStandBehind part.now c × (bytes.now ≡ payload c))) }
    ensures none { IfOk result (λ o. IfNone o ((c : ChangeSet) → MayStandBehind part.now c → bytes.now ≡ payload c → ⊥)) }
{
    let Some(front) = read_front(bytes) else {
        return Ok(None);
    };
    if !front.may_stand(part) {
        return Ok(None);
    }
    let least = term_at(part.log.as_slice(), front.keep);
    match read_items(alloc, bytes, front.count, least, front.term)? {
        None => Ok(None),
        Some(items) => Ok(Some(ChangeSet {
            term: front.term,
            vote: front.vote,
            keep: front.keep,
            items,
        })),
    }
}

/// The part after a change.
pub(crate) fn applied(part: Saved, change: ChangeSet) -> Result<Saved, AllocError>
    requires { change.keep ≤ length part.log }
    ensures { IfOk result (λ s. s ≡ part_after part change) }
{
    let Saved {
        term: _,
        vote: _,
        log,
    } = part;
    let ChangeSet {
        term,
        vote,
        keep,
        items,
    } = change;
    let mut log = log.into_vec();
    log.truncate(keep as usize);
    let mut items = items.into_vec();
    log.append(&mut items)?;
    Ok(Saved {
        term,
        vote,
        log: Entries::from_vec(log),
    })
}
