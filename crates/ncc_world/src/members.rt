//! The members of a world.

ghost use Rattle.std.specs.Prelude.{◌≡◌, ◌<◌, ◌≤◌, List, [], length, slice_index_or, IfOk, OnOk, IsTrue};
ghost use Rattle.ncc_tx.specs.declared.entry.Item.{Item as Items};
ghost use Rattle.ncc_tx.specs.Items.{entry_allowed};
ghost use Rattle.ncc_tx.specs.State.{stamps};
ghost use Rattle.ncc_apply.specs.View.{stamp_of};
ghost use Rattle.ncc_apply.specs.Shelf.{Stands as ShelfStands};
ghost use Rattle.ncc_clients.specs.Members.{Cluster};
ghost use Rattle.ncc_world.specs.Setting.{IsSetup, Seats, cluster_of, lists_of, seats_of};
ghost use Rattle.ncc_world.specs.Happening.{lagged};
ghost use Rattle.ncc_world.specs.Showing.{seats_seen};
ghost use Rattle.ncc_world.specs.Spellable.{AllAllowed};
ghost use Rattle.ncc_world.specs.World.{AreMembers};
ghost use Rattle.ncc_world.specs.Parts.{BecomeMembers, HasSeats, IsProposed, members_in};
ghost use Rattle.ncc_world.specs.declared.setup.Setup.{Setup as Setups};

use crate::one_list::{OneList, leader, leads};
use crate::proposal::Proposal;
use crate::seen::MemberList;
use crate::setup::Setup;
use ncc_apply::{Shelf, Stamp};
use ncc_pack::Memory;
use ncc_tx::{Entries, Entry};
use std::alloc::Global;

/// The members of a world, however they agree: what each has applied, whether it leads, whom it knows as leader, and what proposing does.
#[derive(Drop)]
pub(crate) struct Members {
    pub(crate) list: OneList,
}

impl Members {
    /// The members of a cluster. Nobody has applied anything.
    pub(crate) fn new(alloc: Global, setup: &Setup) -> Result<Members, Memory>
        requires allowed { IsSetup setup.now }
        ensures new { IfOk result (λ m. AreMembers setup.now (members_in m) (seats_of setup.now) []) }
    {
        Ok(Members {
            list: OneList::new(alloc, setup)?,
        })
    }

    /// How many there are.
    pub(crate) fn count(&self) -> usize
        ensures shelves { result ≡ length self.now.list.shelves.items }
        ensures count { (s : Setups) (seats : Seats) (h : List Items) → AreMembers s (members_in self.now) seats h → result ≡ length (lists_of seats) }
    {
        self.list.count()
    }

    /// What the member at an index, from 0, shows of what it has applied.
    pub(crate) fn shelf(&self, index: usize) -> &Shelf
        requires there { index < length self.now.list.shelves.items }
        ensures stands { (s : Setups) (seats : Seats) (h : List Items) → AreMembers s (members_in self.now) seats h →
            ShelfStands result.now (slice_index_or (lists_of seats) index []) }
    {
        self.list.shelf(index)
    }

    /// How many entries the member at an index, from 0, has applied.
    pub(crate) fn at(&self, index: usize) -> u64
        requires there { index < length self.now.list.shelves.items }
        ensures at { (s : Setups) (seats : Seats) (h : List Items) → AreMembers s (members_in self.now) seats h →
            result ≡ length (slice_index_or (lists_of seats) index []) }
    {
        self.list.at(index)
    }

    /// Whether a member, numbered from 1, leads.
    pub(crate) fn leads(&self, member: u8) -> bool
        ensures leads { (s : Setups) (seats : Seats) (h : List Items) → AreMembers s (members_in self.now) seats h → result ≡ (cluster_of s).leads seats member }
    {
        leads(member)
    }

    /// Which core a member, numbered from 1, knows as leader, 0 for nobody.
    pub(crate) fn leader(&self, setup: &Setup, member: u8) -> u8
        ensures leader { (seats : Seats) (h : List Items) → AreMembers setup.now (members_in self.now) seats h →
            result ≡ (cluster_of setup.now).leader seats member }
    {
        leader(setup, member)
    }

    /// What becomes of an entry that is proposed at a member, numbered from 1.
    pub(crate) fn propose(
        &mut self,
        setup: &Setup,
        member: u8,
        entry: &Entry,
    ) -> Result<Proposal, Memory>
        requires allowed { IsTrue (entry_allowed entry.now) }
        requires seats { HasSeats setup.now self.old }
        ensures ok { IfOk result (λ p. (seats : Seats) (h : List Items) → AreMembers setup.now (members_in self.old) seats h →
            IsProposed setup.now seats h ((cluster_of setup.now).propose seats member entry.now) p (members_in self.new)) }
    {
        self.list.propose(setup, member, entry)
    }

    /// A member, numbered from 1, applies up to so many further entries of the list.
    pub(crate) fn apply(&mut self, member: u8, count: u64) -> Result<(), Memory>
        requires there { (1 < member) × (member ≤ length self.old.list.shelves.items) }
        requires seats { (s : Setups) × HasSeats s self.old }
        ensures ok { OnOk result ((s : Setups) (seats : Seats) (h : List Items) → AreMembers s (members_in self.old) seats h →
            BecomeMembers s (members_in self.new) seats h (lagged seats member count)) }
    {
        self.list.apply(member, count)
    }

    /// What each shows, member 1 first.
    pub(crate) fn seen(&self) -> &MemberList
        ensures seen { (s : Setups) (seats : Seats) (h : List Items) → AreMembers s (members_in self.now) seats h → result.now ≡ seats_seen s seats }
    {
        &self.list.seen
    }

    /// The longest list that a member has applied.
    pub(crate) fn history(&self) -> &Entries
        ensures history { (s : Setups) (seats : Seats) (h : List Items) → AreMembers s (members_in self.now) seats h → result.now ≡ h }
        ensures allowed { AllAllowed result.now }
    {
        self.list.items.entries()
    }

    /// The stamp of a place of the history. None at 0 and past the end.
    pub(crate) fn stamp(&self, place: u64) -> Option<Stamp>
        ensures stamp { (s : Setups) (seats : Seats) (h : List Items) → AreMembers s (members_in self.now) seats h →
            result ≡ stamp_of place (stamps h) }
    {
        self.list.stamp(place)
    }
}
