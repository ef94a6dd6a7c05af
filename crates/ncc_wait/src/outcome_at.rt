//! The judgement of a wait.

ghost use Rattle.std.specs.Prelude.{◌≡◌, ◌<◌, ◌≤◌, ◌↔◌};
ghost use Rattle.ncc_wait.specs.Waiting.{outcome_of};

use crate::outcomes::Outcome;

/// Judges a wait for the place `need` at a member that has applied `at` places, at the moment `now`, with a
/// `deadline`; both are in milliseconds. A place that is reached is never late, and a deadline has not passed
/// at its own moment. It takes no memory.
pub fn outcome(at: u64, need: u64, now: u64, deadline: u64) -> Outcome
    ensures ready { (result ≡ Outcome.Ready) ↔ (need ≤ at) }
    ensures late { (result ≡ Outcome.Late) ↔ ((at < need) × (deadline < now)) }
    ensures not_yet { (result ≡ Outcome.NotYet) ↔ ((at < need) × (now ≤ deadline)) }
    ensures value { result ≡ outcome_of at need now deadline }
{
    if at >= need {
        Outcome::Ready
    } else if now > deadline {
        Outcome::Late
    } else {
        Outcome::NotYet
    }
}
