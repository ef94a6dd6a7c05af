//! What tells the time.

ghost use Rattle.std.specs.Prelude.{◌≡◌, ℕ, ◌<◌, ◌≤◌, ◌^◌, ◌∷◌, [], ◌++◌, List, Option, Some};
ghost use Rattle.ncc_base.specs.Clock.{Tells, last_of};

/// A clock, whose moments are milliseconds from a start of its own. It has no faults.
pub trait Clock {
    /// The moment that it told last; 0 before the first.
    ghost last: { Self → ℕ };

    /// All moments that it told, in order, where the object tells that.
    ghost told: { Self → Option (List ℕ) };

    /// The moment, which is never less than the one before, and below 2^63. It takes no memory.
    fn now(&mut self) -> u64
        ensures last { last self.new ≡ result }
        ensures no_less { last self.old ≤ result }
        ensures below { result < 2 ^ 63 }
        ensures told { Tells (told self.old) (told self.new) (result ∷ []) };

    /// Where all are told, the last is the last of them.
    ghost last_is_last: { (clock : Self) (all : List ℕ) → told clock ≡ Some all → last clock ≡ last_of 0 all };
}

/// What clocks tell, call after call: nothing in no call, and in some calls and then others the moments of both. A clock that
/// tells all in the end told all from the start.
pub fn tellings_join()
    ensures none { (a : Option (List ℕ)) → Tells a a [] }
    ensures both { (a b c : Option (List ℕ)) (ms ns : List ℕ) → Tells a b ms → Tells b c ns → Tells a c (ms ++ ns) }
{}
