//! What a member may keep, and which changes may follow.

ghost use Rattle.std.specs.Prelude.{◌≡◌, ◌↔◌, ◌≤◌, ◌<◌, ◌^◌, IsTrue, List, Option, drop, length};
ghost use Rattle.ncc_tx.specs.declared.entry.ChangeSet.{ChangeSet};
ghost use Rattle.ncc_tx.specs.declared.entry.Item.{Item};
ghost use Rattle.ncc_tx.specs.declared.entry.Saved.{Saved};
ghost use Rattle.ncc_tx.specs.Kept.{AllAllowed, IsChange, Leads, MayFollow, MayKeep, MayStand, NeverFalls, Parted, SameTerms};
ghost use Rattle.ncc_tx.specs.Kept.{TermsParted, max_items, part_after, payload, term_at};

use crate::entry::{ChangeSet, Item, Saved};
use crate::items::payload_len;
use crate::write::entry_allowed;

/// No member has a term from here on: 2^62.
pub const TERM_LIMIT: u64 = 0x4000_0000_0000_0000;

/// The greatest number of a core, and so of a vote.
pub const MAX_VOTE: u8 = 7;

/// The greatest length of a log: 2^24 items.
pub const MAX_ITEMS: u64 = 16_777_216;

const PAYLOAD_LIMIT: u64 = 0x1_0000_0000;

/// Says whether no term falls, from a least one on, and none is above a greatest one.
fn never_falls(least: u64, greatest: u64, items: &[Item]) -> bool
    ensures { IsTrue result ↔ NeverFalls least greatest items.now }
{
    let mut last = least;
    for item in items {
        if item.term < last || item.term > greatest {
            return false;
        }
        last = item.term;
    }
    true
}

#[tactic(auto, using(crate::proofs::Terms::fails, crate::proofs::Terms::allowed_more))]
fn all_allowed(items: &[Item]) -> bool
    ensures { IsTrue result ↔ AllAllowed items.now }
{
    for item in items {
        if !entry_allowed(&item.entry) {
            return false;
        }
    }
    true
}

/// The term of the item at a place, from 1; 0 at place 0 and past the end.
pub fn term_at(log: &[Item], place: u64) -> u64
    ensures term { result ≡ term_at log.now place }
{
    if place == 0 || place > log.len() as u64 {
        0
    } else {
        log[place as usize - 1].term
    }
}

impl Saved {
    /// Says whether a member may keep this: a term below 2^62, a vote of at most 7, at most 2^24 items whose entries are
    /// allowed, and terms that don't fall and are at most the term. As `entry_fits` it answers the same without memory.
    pub fn may_be_kept(&self) -> bool
        ensures exact { IsTrue result ↔ MayKeep self.now }
    {
        self.term < TERM_LIMIT
            && self.vote <= MAX_VOTE
            && self.log.len() as u64 <= MAX_ITEMS
            && never_falls(0, self.term, self.log.as_slice())
            && all_allowed(self.log.as_slice())
    }
}

/// Says whether the entries of a change are allowed and its payload is short enough for a record.
#[tactic(auto, using(crate::proofs::ItemBytes::all_fit))]
fn is_recorded(change: &ChangeSet) -> bool
    ensures { IsTrue result ↔ (AllAllowed change.now.items × (length (payload change.now) < 2 ^ 32)) }
{
    all_allowed(change.items.as_slice()) && payload_len(change) < PAYLOAD_LIMIT
}

impl ChangeSet {
    /// Says whether this may stand in a record, whatever it follows: a term below 2^62, a vote of at most 7, terms of items
    /// that don't fall and are at most its term, allowed entries, and a payload of fewer than 2^32 bytes. As `entry_fits` it
    /// answers the same without memory.
    pub fn may_stand(&self) -> bool
        ensures exact { IsTrue result ↔ MayStand self.now }
    {
        self.term < TERM_LIMIT
            && self.vote <= MAX_VOTE
            && never_falls(0, self.term, self.items.as_slice())
            && is_recorded(self)
    }

    /// Says whether this may change what a member keeps: it may stand in a record, its term is at least the kept one, it
    /// keeps no more items than there are, and from the last of them on the terms don't fall. As `may_stand` it answers the same
    /// without memory.
    pub fn may_follow(&self, saved: &Saved) -> bool
        ensures exact { IsTrue result ↔ MayFollow saved.now self.now }
    {
        let last = term_at(saved.log.as_slice(), self.keep);
        self.may_stand()
            && saved.term <= self.term
            && self.keep <= saved.log.len() as u64
            && never_falls(last, self.term, self.items.as_slice())
    }
}

/// How many items at the front of two logs have the same terms: the greatest such number. Where the logs are of one
/// cluster these items are the same.
#[tactic(auto, using(crate::proofs::Terms::parts))]
pub fn same_terms(items: &[Item], others: &[Item]) -> usize
    ensures most { SameTerms items.now others.now result }
{
    for (i, item) in items.iter().enumerate() {
        if i >= others.len() || item.term != others[i].term {
            return i;
        }
    }
    items.len()
}

/// Items of different terms are different.
pub fn terms_part()
    ensures parted { (xs ys : List Item) → TermsParted xs ys → Parted xs ys }
{}

/// One change at most leads from a part to another.
pub fn one_change()
    ensures one { (old new : Saved) (a b : Option ChangeSet) → Leads old new a → Leads old new b → a ≡ b }
{}

/// Where a change leads from a part to another, the part after it is that other.
pub fn change_leads()
    ensures after { (old new : Saved) (c : ChangeSet) → IsChange old new c → part_after old c ≡ new }
{}

/// A change leads to the part after it where that is another part, no more is kept than is there, and the first item behind
/// is a new one.
pub fn leads_on()
    ensures leads { (old : Saved) (c : ChangeSet) → c.keep ≤ length old.log → Parted (drop c.keep old.log) c.items →
        (old ≡ part_after old c → ⊥) → IsChange old (part_after old c) c }
{}

/// What may be kept may be kept after a change that may follow it, where the log is not too long.
pub fn kept_on()
    ensures kept { (old : Saved) (c : ChangeSet) → MayKeep old → MayFollow old c → length (part_after old c).log ≤ max_items →
        MayKeep (part_after old c) }
{}
