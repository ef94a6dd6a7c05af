//! Members over one list.

ghost use Rattle.std.specs.Prelude.{◌≡◌, ◌+◌, ◌-◌, ◌<◌, ◌≤◌, ◌++◌, ◌∷◌, [], List, length, take, slice_index_or, slice_set, IfOk, OnOk, IsTrue};
ghost use Rattle.ncc_tx.specs.declared.entry.Item.{Item as Items};
ghost use Rattle.ncc_tx.specs.Items.{entry_allowed};
ghost use Rattle.ncc_tx.specs.State.{stamps};
ghost use Rattle.ncc_apply.specs.View.{stamp_of};
ghost use Rattle.ncc_apply.specs.Shelf.{Stands as ShelfStands};
ghost use Rattle.ncc_clients.specs.Members.{Cluster};
ghost use Rattle.ncc_clients.specs.Four.{Begins};
ghost use Rattle.ncc_world.specs.Showing.{member_seen};
ghost use Rattle.ncc_world.specs.Setting.{IsSetup, Lists, over_list, cluster_of, list_at, nobody, lagging};
ghost use Rattle.ncc_world.specs.World.{AreOneList};
ghost use Rattle.ncc_world.specs.Parts.{HasList, IsOffered, list_in};
ghost use Rattle.ncc_world.specs.declared.setup.Setup.{Setup as Setups};

use crate::log::Log;
use crate::proposal::Proposal;
use crate::seen::{MemberList, MemberSeen, Shown};
use crate::served::ProposedAt;
use crate::setup::Setup;
use crate::taken::taken;
use ncc_apply::{Shelf, Stamp, View};
use ncc_pack::{Memory, Sequence};
use ncc_tx::{Entry, Item};
use std::alloc::Global;

/// The one list, what each member has applied of it, and what each member shows.
#[derive(Drop)]
pub(crate) struct OneList {
    pub(crate) items: Log,
    pub(crate) shelves: Vec<Shelf>,
    pub(crate) seen: MemberList,
}

/// Whether a member, numbered from 1, leads.
pub(crate) fn leads(member: u8) -> bool
    ensures leads { (s : Setups) (lists : Lists) → result ≡ (cluster_of s).leads (over_list lists) member }
{
    member == 1
}

/// Which core a member, numbered from 1, knows as leader, 0 for nobody.
pub(crate) fn leader(setup: &Setup, member: u8) -> u8
    ensures leader { (lists : Lists) → result ≡ (cluster_of setup.now).leader (over_list lists) member }
{
    if member <= setup.cores { 1 } else { 0 }
}

// What a member that has applied nothing shows.
fn seen_new(setup: &Setup, id: u8) -> MemberSeen
    ensures { result ≡ member_seen setup.now id [] }
{
    if id == 1 {
        MemberSeen {
            id,
            shown: Shown::Leader,
            term: 1,
            at: 0,
        }
    } else if id <= setup.cores {
        MemberSeen {
            id,
            shown: Shown::Follower,
            term: 1,
            at: 0,
        }
    } else {
        MemberSeen {
            id,
            shown: Shown::Replica,
            term: 0,
            at: 0,
        }
    }
}

// A member applies one more item.
fn apply_one(shelf: &mut Shelf, seen: &mut MemberSeen, item: &Item) -> Result<(), Memory>
    ensures shelf { OnOk result ((h : List Items) → ShelfStands shelf.old h → ShelfStands shelf.new (h ++ item.now ∷ [])) }
    ensures seen { OnOk result ((h : List Items) → ShelfStands shelf.old h → seen.new ≡ record seen.old { at = length h + 1 }) }
{
    shelf.push(item)?;
    seen.at = shelf.at();
    Ok(())
}

// A member applies the items of a list from one place to another.
fn apply_to(
    shelf: &mut Shelf,
    seen: &mut MemberSeen,
    items: &[Item],
    from: u64,
    goal: u64,
) -> Result<(), Memory>
    requires goal { goal ≤ length items.now }
    requires from { from ≤ goal }
    ensures shelf { OnOk result (ShelfStands shelf.old (take from items.now) → ShelfStands shelf.new (take goal items.now)) }
    ensures seen { OnOk result (ShelfStands shelf.old (take from items.now) → seen.old.at ≡ from → seen.new ≡ record seen.old { at = goal }) }
{
    for place in from..goal {
        apply_one(shelf, seen, &items[place as usize])?;
    }
    Ok(())
}

impl OneList {
    /// The members of a cluster. Nobody has applied anything.
    pub(crate) fn new(alloc: Global, setup: &Setup) -> Result<OneList, Memory>
        requires allowed { IsSetup setup.now }
        ensures new { IfOk result (λ m. AreOneList setup.now (list_in m) (nobody setup.now)) }
    {
        let mut members = OneList {
            items: Log::new(alloc),
            shelves: Vec::new(alloc),
            seen: Sequence::new(alloc),
        };
        for index in 0..setup.cores + setup.replicas {
            members.shelves.push(Shelf::new(alloc)?)?;
            members.seen.push(seen_new(setup, index + 1))?;
        }
        Ok(members)
    }

    /// How many there are.
    pub(crate) fn count(&self) -> usize
        ensures shelves { result ≡ length self.now.shelves.items }
        ensures count { (s : Setups) (lists : Lists) → AreOneList s (list_in self.now) lists → result ≡ length lists }
    {
        self.shelves.len()
    }

    /// What the member at an index, from 0, shows of what it has applied.
    pub(crate) fn shelf(&self, index: usize) -> &Shelf
        requires there { index < length self.now.shelves.items }
        ensures stands { (s : Setups) (lists : Lists) → AreOneList s (list_in self.now) lists →
            ShelfStands result.now (slice_index_or lists index []) }
    {
        &self.shelves[index]
    }

    /// How many entries the member at an index, from 0, has applied.
    pub(crate) fn at(&self, index: usize) -> u64
        requires there { index < length self.now.shelves.items }
        ensures at { (s : Setups) (lists : Lists) → AreOneList s (list_in self.now) lists →
            result ≡ length (slice_index_or lists index []) }
    {
        self.shelf(index).at()
    }

    /// The stamp of a place of the list, which member 1 has applied. None at 0 and past the end.
    pub(crate) fn stamp(&self, place: u64) -> Option<Stamp>
        ensures stamp { (s : Setups) (lists : Lists) → AreOneList s (list_in self.now) lists → result ≡ stamp_of place (stamps self.now.items) }
    {
        if self.count() == 0 {
            return None;
        }
        self.shelf(0).stamp(place)
    }

    // Member 1 appends an item, and applies it.
    fn append(&mut self, item: Item) -> Result<(), Memory>
        requires allowed { IsTrue (entry_allowed item.entry) }
        requires lists { (s : Setups) × HasList s self.old }
        ensures ok { OnOk result ((s : Setups) (lists : Lists) → AreOneList s (list_in self.old) lists →
            AreOneList s (list_in self.new) (slice_set lists 0 (list_at lists 1 ++ (item ∷ [])))) }
    {
        let mut seen = taken(&mut self.seen);
        let applied = apply_one(&mut self.shelves[0], &mut seen[0], &item);
        self.seen = Sequence::from_vec(seen);
        applied?;
        self.items.push(item)?;
        Ok(())
    }

    /// What becomes of an entry that is proposed at a member, numbered from 1.
    pub(crate) fn propose(
        &mut self,
        setup: &Setup,
        member: u8,
        entry: &Entry,
    ) -> Result<Proposal, Memory>
        requires allowed { IsTrue (entry_allowed entry.now) }
        requires lists { HasList setup.now self.old }
        ensures ok { IfOk result (λ p. (lists : Lists) → AreOneList setup.now (list_in self.old) lists →
            IsOffered setup.now lists ((cluster_of setup.now).propose (over_list lists) member entry.now) p (list_in self.new)) }
        ensures only_grows { IfOk result (λ p. Begins self.old.items self.new.items) }
    {
        if !leads(member) {
            return Ok(Proposal::Elsewhere);
        }
        let entries = self.items.len() as u64;
        if setup.limit <= entries {
            return Ok(Proposal::Full(entries));
        }
        self.append(Item {
            term: 1,
            entry: entry.copy()?,
        })?;
        Ok(Proposal::Placed(ProposedAt {
            place: entries + 1,
            term: 1,
        }))
    }

    /// A member, numbered from 1, applies up to so many further entries of the list.
    pub(crate) fn apply(&mut self, member: u8, count: u64) -> Result<(), Memory>
        requires there { (1 ≤ member) × (member ≤ length self.old.shelves.items) }
        requires lists { (s : Setups) × HasList s self.old }
        ensures ok { OnOk result ((s : Setups) (lists : Lists) → AreOneList s (list_in self.old) lists → 1 < member →
            AreOneList s (list_in self.new) (lagging lists member count)) }
        ensures same { OnOk result (self.new.items ≡ self.old.items) }
    {
        let index = member as usize - 1;
        let from = self.at(index);
        let goal = from.saturating_add(count).min(self.items.len() as u64);
        let mut seen = taken(&mut self.seen);
        let applied = apply_to(
            &mut self.shelves[index],
            &mut seen[index],
            self.items.entries().as_slice(),
            from,
            goal,
        );
        self.seen = Sequence::from_vec(seen);
        applied?;
        Ok(())
    }
}
