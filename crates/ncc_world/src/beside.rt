//! What happens to members and connections leaves the sessions of drivers as they are.

ghost use Rattle.std.specs.Prelude.{◌≡◌, ◌-◌, ◌<◌, ◌≤◌, length, true, OnOk};
ghost use Rattle.ncc_clients.specs.Run.{opened};
ghost use Rattle.ncc_clients.specs.Drives.{feeds, closes};
ghost use Rattle.ncc_world.specs.Setting.{IsSetup, cluster_of};
ghost use Rattle.ncc_world.specs.Parts.{GoesOn, HasRun, SameCount, SettlesOn};

use crate::running::Running;
use crate::setup::Setup;
use ncc_pack::{Bytes, Memory};
use std::alloc::Global;

impl Running {
    /// Bytes come in on the connection of a number, if there is one.
    pub(crate) fn feed_on(&mut self, setup: &Setup, conn: u64, bytes: Bytes) -> Result<(), Memory>
        requires live { HasRun setup.now self.old }
        ensures ok { OnOk result (GoesOn setup.now self.old self.new (λ r. feeds (cluster_of setup.now) r (conn - 1) bytes)) }
        ensures count { SameCount self.old self.new }
    {
        let at = (conn as usize).saturating_sub(1);
        if self.clients.table.len() <= at {
            return Ok(());
        }
        self.feed(setup, at, bytes)
    }

    /// The connection of a number is closed, if there is one.
    pub(crate) fn close_on(&mut self, setup: &Setup, conn: u64) -> Result<(), Memory>
        requires live { HasRun setup.now self.old }
        ensures ok { OnOk result (GoesOn setup.now self.old self.new (λ r. closes r (conn - 1))) }
        ensures count { SameCount self.old self.new }
    {
        let at = (conn as usize).saturating_sub(1);
        if self.clients.table.len() <= at {
            return Ok(());
        }
        self.close(setup, at)
    }

    /// A client connects to a member, of which the connection shows.
    pub(crate) fn open_to(&mut self, alloc: Global, setup: &Setup, member: u8) -> Result<(), Memory>
        requires allowed { IsSetup setup.now }
        requires live { HasRun setup.now self.old }
        requires there { (0 < member) × (member ≤ length self.old.members.list.shelves.items) }
        ensures ok { OnOk result (GoesOn setup.now self.old self.new (λ r. opened r member true)) }
        ensures count { SameCount self.old self.new }
    {
        self.open(alloc, setup, member, true)
    }

    /// Turn after turn, until nobody can be answered.
    pub(crate) fn settle_all(
        &mut self,
        alloc: Global,
        setup: &Setup,
        line: u64,
    ) -> Result<(), Memory>
        requires live { HasRun setup.now self.old }
        ensures ok { OnOk result (SettlesOn setup.now line self.old self.new) }
        ensures count { SameCount self.old self.new }
    {
        self.settle(alloc, setup, line)
    }
}
