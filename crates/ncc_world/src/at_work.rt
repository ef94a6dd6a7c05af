//! What one session of a world does and hears. Of all that the sessions keep, what becomes of the others does not change.

ghost use Rattle.std.specs.Prelude.{◌≡◌, ◌+◌, ◌<◌, ◌≤◌, ◌^◌, ◌++◌, ◌∷◌, [], ℕ, List, Some, None, false, length, slice_get, IfOk, IfSome, IfNone, OnOk, IsTrue};
ghost use Rattle.ncc_driver.specs.declared.action.Action.{Action as OneAction};
ghost use Rattle.ncc_driver.specs.Talk.{begun};
ghost use Rattle.ncc_clients.specs.Links.{Driver as OneDriver, Driving, Link as OneLink, lift_bytes};
ghost use Rattle.ncc_clients.specs.Drives.{is_busy, knows, lift_to, more, with_input};
ghost use Rattle.ncc_clients.specs.Task.{job_of};
ghost use Rattle.ncc_clients.specs.Held.{conn_in, effect_fits, effect_of, fallen, lifted, own, with_up};
ghost use Rattle.ncc_world.specs.Drivers.{AreAtWork, Becomes, DoesFirst, with_one};
ghost use Rattle.ncc_world.specs.Parts.{drivers_in};
ghost use Rattle.ncc_world.specs.declared.setup.Setup.{Setup as Setups};

use crate::drivers::Drivers;
use ncc_clients::{Effect, Task};
use ncc_driver::Input;
use ncc_pack::{Bytes, Memory};

impl Drivers {
    /// Does the next action of the session at an index at its own link, and says what is left to do of it; none exactly where all is done.
    pub(crate) fn next(&mut self, index: usize) -> Result<Option<Effect>, Memory>
        requires there { index < length self.old.list.items }
        ensures some { IfOk result (λ o. IfSome o (λ effect. (s : Setups) (d : OneDriver) (left : List OneAction) →
            DoesFirst s index (drivers_in self.old) (drivers_in self.new) d left effect)) }
        ensures none { IfOk result (λ o. IfNone o ((s : Setups) (now : ℕ) (driving : Driving) (left : List OneAction) (pending : List ℕ) →
            AreAtWork s index left pending (drivers_in self.old) now driving → left ≡ [])) }
        ensures same { IfOk result (λ o. IfNone o (self.new ≡ self.old)) }
        ensures fits { IfOk result (λ o. IfSome o (λ effect. IsTrue (effect_fits effect))) }
        ensures count { length self.new.list.items ≡ length self.old.list.items }
    {
        self.list[index].next()
    }

    /// The session at an index is told something, at a moment in milliseconds.
    pub(crate) fn hear(&mut self, index: usize, input: Input, now: u64) -> Result<(), Memory>
        requires there { index < length self.old.list.items }
        requires lives { (s : Setups) × (driving : Driving) × (pending : List ℕ) × AreAtWork s index [] pending (drivers_in self.old) now driving }
        ensures ok { OnOk result ((s : Setups) (d : OneDriver) →
            Becomes s index (drivers_in self.old) (drivers_in self.new) d [] (knows d (with_input d.works (input, now)))
            (more d (with_input d.works (input, now)))) }
        ensures count { length self.new.list.items ≡ length self.old.list.items }
    {
        self.list[index].hear(input, now)
    }

    /// The session at an index begins a work, at a moment in milliseconds.
    pub(crate) fn begin(&mut self, index: usize, task: Task, now: u64) -> Result<(), Memory>
        requires there { index < length self.old.list.items }
        requires rests { (s : Setups) × (driving : Driving) × (pending : List ℕ) × (d : OneDriver) × (slice_get driving.drivers index ≡ Some d)
            × (is_busy d ≡ false) × AreAtWork s index [] pending (drivers_in self.old) now driving }
        ensures ok { OnOk result ((s : Setups) (driving : Driving) (pending : List ℕ) (d : OneDriver) → slice_get driving.drivers index ≡ Some d →
            AreAtWork s index [] pending (drivers_in self.old) now driving →
            AreAtWork s index [] pending (drivers_in self.new) now (with_one index (knows d (d.works ++ begun (job_of task) now ∷ [])) driving)) }
        ensures count { length self.new.list.items ≡ length self.old.list.items }
    {
        self.list[index].begin(task, now)
    }

    /// What goes up of the session at an index where at most so many bytes do.
    pub(crate) fn lift_bytes(&mut self, index: usize, count: u64) -> Result<Bytes, Memory>
        requires there { index < length self.old.list.items }
        ensures ok { IfOk result (λ bytes. (s : Setups) (d : OneDriver) (now : ℕ) (driving : Driving) (pending : List ℕ) →
            slice_get driving.drivers index ≡ Some d → AreAtWork s index [] pending (drivers_in self.old) now driving →
            (bytes ≡ (lifted (lift_bytes count) d.link).moved) × AreAtWork s index [] pending (drivers_in self.new) now
            (with_one index (record d { link = with_up (lifted (lift_bytes count) d.link).left d.link }) driving)) }
        ensures count { length self.new.list.items ≡ length self.old.list.items }
    {
        self.list[index].lift_bytes(count)
    }

    /// What goes up of the session at an index up to the end of so many requests; all where no number is given, or fewer wait.
    pub(crate) fn lift_to(&mut self, index: usize, limit: Option<u64>) -> Result<Bytes, Memory>
        requires there { index < length self.old.list.items }
        ensures ok { IfOk result (λ bytes. (s : Setups) (d : OneDriver) (now : ℕ) (driving : Driving) (pending : List ℕ) →
            slice_get driving.drivers index ≡ Some d → AreAtWork s index [] pending (drivers_in self.old) now driving →
            (bytes ≡ (lifted (lift_to limit) d.link).moved) × AreAtWork s index [] pending (drivers_in self.new) now
            (with_one index (record d { link = with_up (lifted (lift_to limit) d.link).left d.link }) driving)) }
        ensures count { length self.new.list.items ≡ length self.old.list.items }
    {
        self.list[index].lift_to(limit)
    }

    /// So many bytes come down on the link of the session at an index.
    pub(crate) fn fall(&mut self, index: usize, count: u64)
        requires there { index < length self.old.list.items }
        requires within { (s : Setups) (now : ℕ) (driving : Driving) (pending : List ℕ) (d : OneDriver) (link : OneLink) →
            slice_get driving.drivers index ≡ Some d → AreAtWork s index [] pending (drivers_in self.old) now driving →
            d.link ≡ Some link → link.down + count < 2 ^ 64 }
        requires lives { (s : Setups) × (now : ℕ) × (driving : Driving) × (pending : List ℕ)
            × AreAtWork s index [] pending (drivers_in self.old) now driving }
        ensures ok { (s : Setups) (d : OneDriver) →
            Becomes s index (drivers_in self.old) (drivers_in self.new) d [] (record d { link = fallen count d.link }) [] }
        ensures count { length self.new.list.items ≡ length self.old.list.items }
    {
        self.list[index].fall(count);
    }

    /// The session at an index has no link any more, if it had one: the number of its connection. What waited to go up is dropped.
    pub(crate) fn cut(&mut self, index: usize) -> Option<u64>
        requires there { index < length self.old.list.items }
        ensures conn { (s : Setups) (now : ℕ) (driving : Driving) (pending : List ℕ) (d : OneDriver) → slice_get driving.drivers index ≡ Some d →
            AreAtWork s index [] pending (drivers_in self.old) now driving → result ≡ conn_in d.link }
        ensures ok { (s : Setups) (d : OneDriver) →
            Becomes s index (drivers_in self.old) (drivers_in self.new) d [] (record d { link = None }) [] }
        ensures count { length self.new.list.items ≡ length self.old.list.items }
    {
        self.list[index].cut()
    }
}
