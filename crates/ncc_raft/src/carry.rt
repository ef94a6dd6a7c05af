//! What a frame between members can carry.

ghost use Rattle.std.specs.Prelude.{◌≡◌, ◌↔◌, ◌≤◌, ◌<◌, ◌^◌, IsTrue};
ghost use Rattle.std.specs.List.{All};
ghost use Rattle.ncc_tx.specs.Kept.{AllAllowed, NeverFalls};
ghost use Rattle.ncc_raft.specs.Carried.{Carried, FitBehind, IsNumber, IsWithin};

use crate::message::{Body, Envelope};
use ncc_tx::{Item, TERM_LIMIT, entry_allowed, items_len};

const MAX_MEMBERS: u8 = 23;

const PLACE_LIMIT: u64 = 0x4000_0000_0000_0000;

const MAX_SENT: usize = 64;

const MAX_FRAME: u64 = 2_097_152;

const APPEND_HEAD: u64 = 43;

const BATCH_HEAD: u64 = 19;

fn is_number(member: u8) -> bool
    ensures exact { IsTrue result ↔ IsNumber member }
{
    1 <= member && member <= MAX_MEMBERS
}

/// Says whether no term falls, from a least one on, and none is above a greatest one.
fn never_falls(least: u64, greatest: u64, items: &[Item]) -> bool
    ensures exact { IsTrue result ↔ NeverFalls least greatest items.now }
{
    let mut last = least;
    for item in items {
        if item.term < last || item.term > greatest {
            return false;
        }
        last = item.term;
    }
    true
}

#[tactic(auto, using(crate::proofs::Frames::fails, crate::proofs::Frames::allowed_more))]
fn all_allowed(items: &[Item]) -> bool
    ensures exact { IsTrue result ↔ AllAllowed items.now }
{
    for item in items {
        if !entry_allowed(&item.entry) {
            return false;
        }
    }
    true
}

fn all_below(items: &[Item]) -> bool
    ensures exact { IsTrue result ↔ All (λ i. i.term < 2 ^ 62) items.now }
{
    items.iter().all(|item| item.term < TERM_LIMIT)
}

#[tactic(auto, using(crate::proofs::Frames::all_fit))]
fn fit_behind(head: u64, items: &[Item]) -> bool
    requires head { head ≤ 43 }
    ensures exact { IsTrue result ↔ FitBehind head items.now }
{
    items.len() <= MAX_SENT && all_allowed(items) && items_len(items) <= MAX_FRAME - head
}

fn append_within(term: u64, prev: u64, prev_term: u64, items: &[Item]) -> bool
    ensures exact { IsTrue result ↔ (term < 2 ^ 62) × (prev < 2 ^ 62) × (prev_term < 2 ^ 62) × NeverFalls prev_term term items.now × FitBehind 43 items.now }
{
    term < TERM_LIMIT
        && prev < PLACE_LIMIT
        && prev_term < TERM_LIMIT
        && never_falls(prev_term, term, items)
        && fit_behind(APPEND_HEAD, items)
}

fn batch_within(first: u64, items: &[Item]) -> bool
    ensures exact { IsTrue result ↔ (1 ≤ first) × (first ≤ 2 ^ 62) × All (λ i. i.term < 2 ^ 62) items.now × FitBehind 19 items.now }
{
    1 <= first && first <= PLACE_LIMIT && all_below(items) && fit_behind(BATCH_HEAD, items)
}

#[tactic(auto, using(crate::proofs::Frames::asks_exact, crate::proofs::Frames::append_exact, crate::proofs::Frames::answers_exact, crate::proofs::Frames::votes_exact))]
fn is_within(body: &Body) -> bool
    ensures exact { IsTrue result ↔ IsWithin body.now }
{
    match body {
        Body::VoteAsk { term, place, last } => {
            let _any = *place;
            *term < TERM_LIMIT && *last < TERM_LIMIT
        }
        Body::VoteReply { term, .. } => *term < TERM_LIMIT,
        Body::Append {
            term,
            prev,
            prev_term,
            commit,
            items,
        } => {
            let _any = *commit;
            append_within(*term, *prev, *prev_term, items.as_slice())
        }
        Body::AppendReply { term, place, .. } => {
            let _any = *place;
            *term < TERM_LIMIT
        }
        Body::Pull { have } => *have < PLACE_LIMIT,
        Body::Batch { first, items } => batch_within(*first, items.as_slice()),
    }
}

impl Envelope {
    /// Says whether a frame between members can carry this: members from 1 to 23, terms, and places that are asked from,
    /// below 2^62, at most 64 items with allowed entries, in an `Append` with terms that don't fall from the one before them
    /// on and are at most the message's, and at most 2,097,152 bytes behind the frame's size. It takes no memory.
    pub fn carried(&self) -> bool
        ensures exact { IsTrue result ↔ Carried self.now }
    {
        is_number(self.from) && is_number(self.to) && is_within(&self.body)
    }
}
