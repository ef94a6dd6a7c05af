//! Lists with a slot for each core. The slot of core 1 is the first.

ghost use Rattle.std.specs.Prelude.{◌≡◌, ◌≤◌, ◌<◌, ◌+◌, ◌-◌, true, false, length, nat_eq, nat_le, replicate, IfOk};
ghost use Rattle.std.specs.Prelude.{slice_index_or, slice_set, if◌then◌else◌};
ghost use Rattle.ncc_raft.specs.Member.{majority};
ghost use Rattle.ncc_raft.specs.Fronts.{Middle, elects_of};

use ncc_pack::Memory;
use std::alloc::Global;
use std::marker::Model;

/// Who voted for a core.
#[derive(Drop)]
pub(crate) struct Votes {
    inner: Vec<bool>,
}

impl Model for Votes {
    ghost use Rattle.std.specs.Prelude.{Bool, List};

    ghost Value = { List Bool };

    ghost view = { λ v. v.inner.items };
}

impl Votes {
    /// Nobody's vote.
    pub fn none(alloc: Global, cores: u8) -> Result<Votes, Memory>
        ensures none { IfOk result (λ v. v ≡ replicate cores false) }
    {
        let inner = vec![in alloc; false; cores as usize]?;
        Ok(Votes { inner })
    }

    /// Says whether a majority voted for it, where one core more does.
    pub fn elects(&self, from: u8) -> bool
        requires few { length self.now ≤ 7 }
        requires some { 1 ≤ from }
        requires core { from ≤ length self.now }
        ensures exact { result ≡ elects_of self.now from }
    {
        elects(self.inner.as_slice(), from)
    }

    /// Adds the vote of a core.
    pub fn count(&mut self, core: u8)
        requires some { 1 ≤ core }
        requires core { core ≤ length self.old }
        ensures counted { self.new ≡ slice_set self.old (core - 1) true }
    {
        self.inner[core as usize - 1] = true;
    }
}

/// A place for each core.
#[derive(Drop)]
pub(crate) struct Places {
    inner: Vec<u64>,
}

impl Model for Places {
    ghost use Rattle.std.specs.Prelude.{List, ℕ};

    ghost Value = { List ℕ };

    ghost view = { λ p. p.inner.items };
}

impl Places {
    /// The same place for each core.
    pub fn all_at(alloc: Global, cores: u8, place: u64) -> Result<Places, Memory>
        ensures same { IfOk result (λ p. p ≡ replicate cores place) }
    {
        let inner = vec![in alloc; place; cores as usize]?;
        Ok(Places { inner })
    }

    /// The greatest place up to which a majority has the leader's log; 0 where there is none. `own` is the length of its own.
    pub fn middle(&self, id: u8, own: u64) -> u64
        requires few { length self.now ≤ 7 }
        ensures most { Middle self.now id own result }
    {
        middle(self.inner.as_slice(), id, own)
    }

    /// The place of a core.
    pub fn of(&self, core: u8) -> u64
        requires some { 1 ≤ core }
        requires core { core ≤ length self.now }
        ensures place { result ≡ slice_index_or self.now (core - 1) 0 }
    {
        self.inner[core as usize - 1]
    }

    /// Sets the place of a core.
    pub fn set(&mut self, core: u8, place: u64)
        requires some { 1 ≤ core }
        requires core { core ≤ length self.old }
        ensures set { self.new ≡ slice_set self.old (core - 1) place }
    {
        self.inner[core as usize - 1] = place;
    }
}

/// Says whether a majority voted for it, where one core more does.
#[tactic(auto, using(crate::proofs::Tallies::counted_none, crate::proofs::Tallies::counted_all))]
fn elects(votes: &[bool], from: u8) -> bool
    requires few { length votes.now ≤ 7 }
    requires some { 1 ≤ from }
    requires core { from ≤ length votes.now }
    ensures exact { result ≡ elects_of votes.now from }
{
    let mut count: usize = 0;
    for (i, vote) in votes.iter().enumerate() {
        if *vote || i + 1 == from as usize {
            count += 1;
        }
    }
    votes.len() < 2 * count
}

/// Up to which place a core has the leader's log, as the leader knows; `own` is the length of its own.
fn known(matches: &[u64], id: u8, own: u64, i: usize) -> u64
    requires core { i < length matches.now }
    ensures known { result ≡ (if nat_eq (i + 1) id then own else slice_index_or matches.now i 0) }
{
    if i + 1 == id as usize {
        own
    } else {
        matches[i]
    }
}

/// Says whether a majority has the leader's log up to a place.
#[tactic(auto, using(crate::proofs::Tallies::having_none))]
fn majority_has(matches: &[u64], id: u8, own: u64, place: u64) -> bool
    requires few { length matches.now ≤ 7 }
    ensures exact { result ≡ majority (length matches.now)
        (λ core. nat_le place (if nat_eq core id then own else slice_index_or matches.now (core - 1) 0)) }
{
    let mut count: usize = 0;
    for i in 0..matches.len() {
        if place <= known(matches, id, own, i) {
            count += 1;
        }
    }
    matches.len() < 2 * count
}

/// The greatest place up to which a majority has the leader's log; 0 where there is none.
#[tactic(auto, using(crate::proofs::Tallies::of_best))]
fn middle(matches: &[u64], id: u8, own: u64) -> u64
    requires few { length matches.now ≤ 7 }
    ensures most { Middle matches.now id own result }
{
    let mut best: u64 = 0;
    for i in 0..matches.len() {
        let place = known(matches, id, own, i);
        if best < place && majority_has(matches, id, own, place) {
            best = place;
        }
    }
    best
}
