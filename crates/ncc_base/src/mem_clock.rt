//! A clock in memory, which tells the moments that its maker lists.

ghost use Rattle.std.specs.Prelude.{◌≡◌, ◌↔◌, ◌<◌, ◌≤◌, ◌^◌, ◌-◌, ◌∷◌, [], min, length, slice_index, IfOk, IsTrue};
ghost use Rattle.std.specs.List.{All};
ghost use Rattle.std.specs.List.Sorted.{IsNonDecreasing};
ghost use Rattle.ncc_base.specs.Clock.{MayTell, Tells};
ghost use Rattle.ncc_base.specs.ClockLaws.{told_last};
ghost use Rattle.ncc_base.specs.MemClock.{all_told, handed_on, last_told};

use crate::clock::Clock;
use std::alloc::{AllocError, Global};
use std::marker::Model;

// No clock tells this moment or a later one: 2^63.
const END: u64 = 0x8000_0000_0000_0000;

/// A clock that tells the listed moments, and then the last of them again.
#[derive(Drop)]
pub struct MemClock {
    moments: Vec<u64>,
    given: usize,
    again: u64,
}

impl Model for MemClock {
    ghost use Rattle.ncc_base.specs.MemClock.{Handed, IsHanded};

    ghost Value = { Handed };

    ghost view = { λ c. record { moments = c.moments.items; given = c.given; again = c.again } };

    ghost invariant = { λ c. IsHanded c.moments.items c.given c.again };
}

fn do_not_fall(moments: &[u64]) -> bool
    ensures { IsTrue result ↔ IsNonDecreasing moments.now }
{
    moments.is_sorted()
}

fn are_below_the_end(moments: &[u64]) -> bool
    ensures { IsTrue result ↔ All (λ m. m < 2 ^ 63) moments.now }
{
    moments.iter().all(|moment| *moment < END)
}

impl MemClock {
    /// Says whether a clock may tell these moments: there is one, they do not fall, and they are below 2^63.
    pub fn may_tell(moments: &[u64]) -> bool
        ensures exact { IsTrue result ↔ MayTell moments.now }
    {
        !moments.is_empty() && do_not_fall(moments) && are_below_the_end(moments)
    }

    /// A clock that tells these moments. `may_tell` says whether one may.
    pub fn new(alloc: Global, moments: &[u64]) -> Result<MemClock, AllocError>
        requires moments { MayTell moments.now }
        ensures made { IfOk result (λ c. c ≡ record { moments = moments.now; given = 0; again = 0 }) }
    {
        let moments = Vec::from_slice(alloc, moments)?;
        Ok(MemClock {
            moments,
            given: 0,
            again: 0,
        })
    }
}

impl Clock for MemClock {
    ghost last = { last_told };

    // After 2^64 - 2 tellings of the last moment again it tells no more how many there were.
    ghost told = { all_told };

    fn now(&mut self) -> u64
        ensures last { last_told self.new ≡ result }
        ensures no_less { last_told self.old ≤ result }
        ensures below { result < 2 ^ 63 }
        ensures told { Tells (all_told self.old) (all_told self.new) (result ∷ []) }
        // The next of the list, or its last.
        ensures exact { result ≡ slice_index self.old.moments (min self.old.given (length self.old.moments - 1)) }
        ensures after { self.new ≡ handed_on self.old }
    {
        let count = self.moments.len();
        if self.given == count {
            self.again = self.again.saturating_add(1);
            return self.moments[count - 1];
        }
        let moment = self.moments[self.given];
        self.given += 1;
        moment
    }

    ghost last_is_last = { told_last };
}
