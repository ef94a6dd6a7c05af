//! The sessions of drivers of a world.

ghost use Rattle.std.specs.Prelude.{◌≡◌, ◌+◌, ◌-◌, ◌<◌, ◌≤◌, ℕ, ◌∷◌, [], List, Some, None, length, nat_eq, slice_get, IfOk, OnOk, IsTrue};
ghost use Rattle.std.specs.List.{list_any};
ghost use Rattle.indexmap.specs.IndexSet.{keys};
ghost use Rattle.ncc_driver.specs.declared.action.Action.{Action as OneAction};
ghost use Rattle.ncc_driver.specs.Fitting.{end_fits};
ghost use Rattle.ncc_clients.specs.Links.{Driver as OneDriver, Driving, nobody_drives};
ghost use Rattle.ncc_clients.specs.Drives.{is_named, named_from};
ghost use Rattle.ncc_world.specs.Setting.{IsSetup};
ghost use Rattle.ncc_world.specs.Happening.{config_of};
ghost use Rattle.ncc_world.specs.Drivers.{AreAtWork, IsAwake, due_from, ended_as, has_session, joined_as, refuses_work};
ghost use Rattle.ncc_world.specs.Drivers.{with_one, with_session};
ghost use Rattle.ncc_world.specs.Parts.{drivers_in};
ghost use Rattle.ncc_world.specs.Spellable.{WorksFit};
ghost use Rattle.ncc_world.specs.declared.setup.Setup.{Setup as Setups};

use crate::config::addresses;
use crate::ended::Ended;
use crate::error::WorldError;
use crate::seen::{WorkList, WorkSeen};
use crate::setup::Setup;
use indexmap::IndexSet;
use ncc_clients::Driver;
use ncc_driver::{Auth, SessionConfig, WorkDone, WorkError};
use ncc_pack::{Memory, Sequence, Text, Value, Values};
use ncc_wait::Room;
use std::alloc::Global;

/// The sessions, and what is kept of them beside. No call but `make` walks them all.
#[derive(Drop)]
pub(crate) struct Drivers {
    pub(crate) list: Vec<Driver>,
    // The address of each member, member 1 first.
    names: Values,
    // The sessions that sleep, by number: each waits for what never comes, and is late from its moment on.
    sleepers: Room,
    // The numbers of the connections that sessions made.
    linked: IndexSet<u64>,
    works: Ended,
}

// Nobody reaches this place, so who waits for it is only ever late.
const NEVER: u64 = 1;

fn is_named(value: &Value, address: &Text) -> bool
    ensures exact { result ≡ is_named value.now address.now }
{
    match value {
        Value::Text(text) => text.equals(address),
        _ => false,
    }
}

impl Drivers {
    /// No sessions.
    pub(crate) fn new(alloc: Global, setup: &Setup) -> Result<Drivers, Memory>
        requires allowed { IsSetup setup.now }
        ensures none { IfOk result (λ d. AreAtWork setup.now 0 [] [] (drivers_in d) 0 nobody_drives) }
    {
        Ok(Drivers {
            list: Vec::new(alloc),
            names: addresses(alloc, setup.cores + setup.replicas, 1)?,
            sleepers: Room::new(alloc)?,
            linked: IndexSet::new(alloc),
            works: Ended::new(alloc),
        })
    }

    /// Says whether there is a session of this number, from 1.
    pub(crate) fn has(&self, session: u64) -> bool
        ensures exact { result ≡ has_session (length self.now.list.items) session }
    {
        1 <= session && session <= self.list.len() as u64
    }

    /// Why a session may not begin a work, if it may not.
    pub(crate) fn refuses_work(&self, session: u64) -> Option<WorldError>
        ensures exact { (s : Setups) (now : ℕ) (driving : Driving) → AreAtWork s 0 [] [] (drivers_in self.now) now driving →
            result ≡ refuses_work driving session }
    {
        if !self.has(session) {
            return Some(WorldError::NoSession);
        }
        if self.list[session as usize - 1].is_busy() {
            return Some(WorldError::Busy);
        }
        None
    }

    /// Says whether a session made this connection.
    pub(crate) fn is_linked(&self, conn: u64) -> bool
        ensures exact { result ≡ list_any (nat_eq conn) (keys self.now.linked) }
    {
        self.linked.contains(&conn)
    }

    /// One session more.
    pub(crate) fn make(&mut self, alloc: Global, setup: &Setup, seed: u64) -> Result<(), Memory>
        requires allowed { IsSetup setup.now }
        ensures ok { OnOk result ((now : ℕ) (driving : Driving) → AreAtWork setup.now 0 [] [] (drivers_in self.old) now driving →
            AreAtWork setup.now 0 [] [] (drivers_in self.new) now (with_session (config_of setup.now seed) driving)) }
    {
        let config = SessionConfig {
            routers: addresses(alloc, setup.cores, 1)?,
            auth: Auth::Nobody,
            seed,
            bookmarks: Sequence::new(alloc),
        };
        self.list.push(Driver::new(alloc, config)?)?;
        Ok(())
    }

    /// The member that an address names.
    pub(crate) fn named(&self, address: &Text) -> Option<u8>
        requires few { length self.now.names ≤ 254 }
        ensures exact { result ≡ named_from 1 self.now.names address.now }
    {
        for (index, name) in self.names.as_slice().iter().enumerate() {
            if is_named(name, address) {
                return Some(index as u8 + 1);
            }
        }
        None
    }

    /// The session at an index, from 0, has a link that is this connection.
    pub(crate) fn join(&mut self, index: usize, conn: u64) -> Result<(), Memory>
        requires there { index < length self.old.list.items }
        ensures ok { OnOk result ((s : Setups) (now : ℕ) (driving : Driving) (d : OneDriver) (left : List OneAction) (pending : List ℕ) →
            slice_get driving.drivers index ≡ Some d → AreAtWork s index left pending (drivers_in self.old) now driving →
            AreAtWork s index left pending (drivers_in self.new) now (joined_as index conn d driving)) }
        ensures count { length self.new.list.items ≡ length self.old.list.items }
    {
        self.list[index].join(conn);
        self.linked.insert(conn)?;
        Ok(())
    }

    /// The session at an index, from 0, which is not still to be woken, sleeps until a moment.
    pub(crate) fn sleep(&mut self, index: usize, until: u64) -> Result<(), Memory>
        requires there { index < length self.old.list.items }
        ensures ok { OnOk result ((s : Setups) (now : ℕ) (driving : Driving) (d : OneDriver) (left : List OneAction) (pending : List ℕ) →
            slice_get driving.drivers index ≡ Some d → IsAwake (index + 1) pending →
            AreAtWork s index left pending (drivers_in self.old) now driving →
            AreAtWork s index left pending (drivers_in self.new) now (with_one index (record d { wakes = Some until }) driving)) }
        ensures count { length self.new.list.items ≡ length self.old.list.items }
    {
        self.list[index].sleep(until);
        let number = index as u64 + 1;
        self.sleepers.leave(number);
        if until == 0 {
            self.sleepers.park(number, 0, 0)
        } else {
            self.sleepers.park(number, NEVER, until - 1)
        }
    }

    /// The sessions whose sleep ends, by ascending number. They are to be woken, one after the other, and are not among those that sleep.
    pub(crate) fn due(&mut self, alloc: Global, now: u64) -> Result<Vec<u64>, Memory>
        ensures due { IfOk result (λ due. (s : Setups) (driving : Driving) → AreAtWork s 0 [] [] (drivers_in self.old) now driving →
            (due.items ≡ due_from now 1 driving.drivers) × AreAtWork s 0 [] due.items (drivers_in self.new) now driving) }
        ensures list { self.new.list.items ≡ self.old.list.items }
    {
        let mut due = Vec::new(alloc);
        while let Some((number, _)) = self.sleepers.due(0, now) {
            due.push(number)?;
        }
        Ok(due)
    }

    /// The session of this number, the first of those still to be woken, does not sleep any more.
    pub(crate) fn wake(&mut self, number: u64)
        requires there { (0 < number) × (number ≤ length self.old.list.items) }
        ensures ok { (s : Setups) (now : ℕ) (driving : Driving) (d : OneDriver) (pending : List ℕ) →
            slice_get driving.drivers (number - 1) ≡ Some d →
            AreAtWork s (number - 1) [] (number ∷ pending) (drivers_in self.old) now driving →
            AreAtWork s (number - 1) [] pending (drivers_in self.new) now (with_one (number - 1) (record d { wakes = None }) driving) }
        ensures count { length self.new.list.items ≡ length self.old.list.items }
    {
        self.list[number as usize - 1].wake();
    }

    /// A work of the session at an index, from 0, has ended.
    pub(crate) fn end(
        &mut self,
        line: u64,
        index: usize,
        ended: Result<WorkDone, WorkError>,
    ) -> Result<(), Memory>
        requires there { index < length self.old.list.items }
        requires fits { IsTrue (end_fits ended) }
        ensures ok { OnOk result ((s : Setups) (now : ℕ) (driving : Driving) (d : OneDriver) (left : List OneAction) (pending : List ℕ) →
            AreAtWork s index left pending (drivers_in self.old) now driving →
            AreAtWork s index left pending (drivers_in self.new) now (ended_as line index d ended driving)) }
        ensures count { length self.new.list.items ≡ length self.old.list.items }
    {
        self.works.push(WorkSeen {
            line,
            session: index as u64 + 1,
            result: ended,
        })
    }

    /// The works that have ended, the first first.
    pub(crate) fn works(&self) -> &WorkList
        ensures exact { result.now ≡ self.now.works }
        ensures fit { WorksFit result.now }
    {
        self.works.works()
    }
}
