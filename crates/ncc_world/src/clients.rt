//! The connections of a world.

ghost use Rattle.std.specs.Prelude.{◌≡◌, ◌+◌, ◌-◌, ◌^◌, ◌<◌, ◌≤◌, ℕ, [], List, Some, min, nat_eq, replicate, length, slice_get, slice_set, slice_index_or, IfOk, OnOk};
ghost use Rattle.std.specs.List.{list_any};
ghost use Rattle.indexmap.specs.IndexMap.{values};
ghost use Rattle.ncc_session.specs.Core.{question_of};
ghost use Rattle.ncc_clients.specs.Run.{Client, opened};
ghost use Rattle.ncc_world.specs.Setting.{IsSetup, lists_of};
ghost use Rattle.ncc_world.specs.Happening.{WorldRun};
ghost use Rattle.ncc_world.specs.World.{AreServed, IsClient, asked_by, need_for, parked_by, place_for, placing_of};
ghost use Rattle.ncc_world.specs.Parts.{HasClients, Lowers, MayChange, changed, clients_in, left_at, left_in, marked, numbers_in, parked_anew};
ghost use Rattle.ncc_world.specs.declared.setup.Setup.{Setup as Setups};
ghost use Rattle.ncc_world.specs.declared.served.Served.{Served as Serveds};

use crate::config::config;
use crate::seen::{ConnList, ConnSeen};
use crate::served::{Change, ProposedAt, Served, alter, question, show};
use crate::setup::Setup;
use crate::taken::taken;
use indexmap::{IndexMap, IndexSet};
use ncc_pack::{Bytes, Memory, Sequence};
use ncc_session::{Ask, Conn};
use ncc_wait::Room;
use std::alloc::Global;

/// What is kept of each connection, by its number, what each shows, and for each member who waits and who has not ended. They are numbered
/// as they are opened and none is taken out, so the one of index 0 has the number 1.
#[derive(Drop)]
pub(crate) struct Clients {
    pub(crate) table: IndexMap<u64, Served>,
    pub(crate) seen: ConnList,
    pub(crate) rooms: Vec<Room>,
    /// The numbers of the connections of each member that have not ended.
    pub(crate) live: Vec<IndexSet<u64>>,
}

// The place of a proposal, 0 where there is none.
fn place_for(placing: Option<ProposedAt>) -> u64
    ensures { result ≡ place_for (placing_of placing) }
{
    match placing {
        Some(place) => place.place,
        None => 0,
    }
}

// The place that a question waits for, 0 for one that can be answered at once.
fn need(ask: &Ask, placing: Option<ProposedAt>) -> u64
    ensures { result ≡ need_for (question_of ask.now) (placing_of placing) }
{
    match ask {
        Ask::Enter { need } => *need,
        Ask::Run { .. } => 0,
        Ask::Leave { .. } => { if ask.writes() { place_for(placing) } else { 0 } }
        Ask::Route => 0,
    }
}

// A connection waits at its member by the question that it has now.
fn park(room: &mut Room, number: u64, served: &Served, wait: u64) -> Result<(), Memory>
    ensures ok { OnOk result (room.new ≡ parked_anew number
        (parked_by number (min (served.now.since + wait) (2 ^ 64 - 1)) (placing_of served.now.placing) (asked_by served.now)) room.old) }
{
    room.leave(number);
    match question(served) {
        Some(ask) => room.park(
            number,
            need(ask, served.placing),
            served.since.saturating_add(wait),
        ),
        None => Ok(()),
    }
}

// As many rooms, in which nobody waits.
fn rooms(alloc: Global, count: usize) -> Result<Vec<Room>, Memory>
    ensures empty { IfOk result (λ v. v.items ≡ replicate count []) }
{
    let mut rooms = Vec::new(alloc);
    for index in 0..count {
        let _room = index;
        rooms.push(Room::new(alloc)?)?;
    }
    Ok(rooms)
}

// As many sets without a number.
fn no_numbers(alloc: Global, count: usize) -> Result<Vec<IndexSet<u64>>, Memory>
    ensures empty { IfOk result (λ v. numbers_in v.items ≡ replicate count []) }
{
    let mut sets = Vec::new(alloc);
    for index in 0..count {
        let _set = index;
        sets.push(IndexSet::new(alloc))?;
    }
    Ok(sets)
}

// The numbers have one that has not ended, and not one that has.
fn mark(live: &mut IndexSet<u64>, number: u64, ended: bool) -> Result<(), Memory>
    ensures ok { OnOk result ((n : ℕ) → list_any (nat_eq n) live.new.keys ≡ marked number ended n (list_any (nat_eq n) live.old.keys)) }
{
    if ended {
        live.swap_remove(&number);
    } else {
        live.insert(number)?;
    }
    Ok(())
}

impl Clients {
    /// No connections, at so many members.
    pub(crate) fn new(alloc: Global, count: usize) -> Result<Clients, Memory>
        ensures none { IfOk result (λ k. (s : Setups) → AreServed s count (clients_in k) []) }
    {
        let rooms = rooms(alloc, count)?;
        let live = no_numbers(alloc, count)?;
        Ok(Clients {
            table: IndexMap::new(alloc),
            seen: Sequence::new(alloc),
            rooms,
            live,
        })
    }

    /// What is kept of the connection at an index, from 0.
    pub(crate) fn served(&self, index: usize) -> &Served
        requires there { index < length (values self.now.table) }
        ensures is { result.now ≡ slice_index_or (values self.now.table) index result.now }
    {
        &self.table[index]
    }

    /// What the connection at an index, from 0, shows.
    pub(crate) fn shown(&self, index: usize) -> &ConnSeen
        requires there { index < length self.now.seen }
        ensures shown { result.now ≡ slice_index_or self.now.seen index result.now }
    {
        &self.seen.as_slice()[index]
    }

    /// Something happens to the connection at an index, from 0.
    pub(crate) fn change(
        &mut self,
        wait: u64,
        index: usize,
        what: Change,
        now: u64,
    ) -> Result<(), Memory>
        requires there { index < length (values self.old.table) }
        requires served { HasClients self.old }
        requires may { (v : Serveds) → slice_get (values self.old.table) index ≡ Some v → MayChange what v.conn }
        ensures ok { OnOk result ((s : Setups) (count : ℕ) (clients : List Client) (c : Client) → AreServed s count (clients_in self.old) clients →
            slice_get clients index ≡ Some c → s.wait ≡ wait →
            AreServed s count (clients_in self.new) (slice_set clients index (changed s now c what))) }
        ensures lowers { OnOk result ((v : Serveds) → slice_get (values self.old.table) index ≡ Some v →
            Lowers what v.placing (left_in self.old) (left_in self.new)) }
    {
        let mut list = taken(&mut self.seen);
        let changed = change_one(&mut self.table[index], &mut list[index], what, now);
        let number = list[index].conn;
        let member = list[index].member;
        let ended = list[index].ended;
        self.seen = Sequence::from_vec(list);
        changed?;
        let seat = member as usize - 1;
        let live = &mut self.live[seat];
        mark(live, number, ended)?;
        let room = &mut self.rooms[seat];
        park(room, number, &self.table[index], wait)?;
        Ok(())
    }

    /// A client connects to a member, at a moment in milliseconds.
    pub(crate) fn open(
        &mut self,
        alloc: Global,
        setup: &Setup,
        member: u8,
        printed: bool,
        now: u64,
    ) -> Result<(), Memory>
        requires allowed { IsSetup setup.now }
        requires served { HasClients self.old }
        requires there { (1 ≤ member) × (member ≤ length self.old.live.items) }
        ensures more { OnOk result (length (values self.new.table) ≡ length (values self.old.table) + 1) }
        ensures ok { OnOk result ((r : WorldRun) → AreServed setup.now (length (lists_of r.members)) (clients_in self.old) r.clients →
            now ≡ r.now → (1 ≤ member) × (member ≤ length (lists_of r.members)) →
            AreServed setup.now (length (lists_of r.members)) (clients_in self.new) (opened r member printed).clients) }
    {
        let number = self.table.len() as u64 + 1;
        let conn = Conn::new(alloc, config(alloc, setup, number)?)?;
        let served = Served {
            conn,
            since: now,
            placing: None,
            closed: false,
        };
        self.table.insert(number, served)?;
        let live = &mut self.live[member as usize - 1];
        mark(live, number, false)?;
        self.seen.push(ConnSeen {
            conn: number,
            member,
            waiting: false,
            ended: false,
            printed,
            out: Bytes::new(alloc),
        })
    }
}

// A connection changes, and shows it.
fn change_one(
    served: &mut Served,
    seen: &mut ConnSeen,
    what: Change,
    now: u64,
) -> Result<(), Memory>
    requires may { MayChange what served.old.conn }
    ensures ok { OnOk result ((s : Setups) (c : Client) → IsClient s served.old seen.old c →
        IsClient s served.new seen.new (changed s now c what)) }
    ensures lowers { OnOk result (Lowers what served.old.placing (left_at served.old) (left_at served.new)) }
    ensures conn { seen.new.conn ≡ seen.old.conn }
    ensures member { seen.new.member ≡ seen.old.member }
{
    alter(served, what, now)?;
    show(served, seen)?;
    Ok(())
}
