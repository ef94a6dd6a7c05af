//! The system's clock, which no contract can see into.

ghost use Rattle.std.specs.Prelude.{◌≡◌, ◌<◌, ◌≤◌, ◌^◌, None};

use crate::clock::Clock;
use std::marker::Model;
use std::time::{Clock as SystemClock, Duration, Instant};

// The last moment that a clock may tell: 2^63 - 1.
const LAST: u128 = 0x7fff_ffff_ffff_ffff;

/// The system's monotonic clock, in milliseconds since this was made. Where it can't be read, or goes back, the moment told last is
/// told again. A contract sees that moment.
#[derive(Drop)]
pub struct StdClock<C> {
    inner: C,
    start: Option<Instant>,
    last: u64,
}

impl<C> Model for StdClock<C> {
    ghost use Rattle.std.specs.Prelude.{ℕ, ◌<◌, ◌^◌};

    ghost Value = { ℕ };

    ghost view = { λ c. c.last };

    ghost invariant = { λ c. c.last < 2 ^ 63 };
}

/// The moment so long after the start, or the one told last.
fn later(last: u64, since: Duration) -> u64
    requires { last < 2 ^ 63 }
    ensures no_less { last ≤ result }
    ensures below { result < 2 ^ 63 }
{
    let moment = since.as_millis().min(LAST) as u64;
    last.max(moment)
}

impl<C: SystemClock> StdClock<C> {
    /// A clock that begins now. It reads the given one of std, as the runtime is. Where that can't be read, it begins at the first reading.
    pub fn new(inner: C) -> StdClock<C>
        ensures begins { result ≡ 0 }
    {
        let start = match Instant::now(&inner) {
            Ok(start) => Some(start),
            Err(_) => None,
        };
        StdClock {
            inner,
            start,
            last: 0,
        }
    }
}

impl<C: SystemClock> Clock for StdClock<C> {
    ghost last = { λ last. last };

    ghost told = { λ _. None };

    fn now(&mut self) -> u64 {
        match (self.start, Instant::now(&self.inner)) {
            (Some(start), Ok(reading)) => {
                self.last = later(self.last, reading.duration_since(start));
            }
            (None, Ok(reading)) => self.start = Some(reading),
            (_, Err(_)) => {}
        }
        self.last
    }

    ghost last_is_last = { λ _ _ e. absurd (Prim.cc) };
}
