//! What a fork of the tree knows of the connections below it.

ghost use Rattle.std.specs.Prelude.{◌<◌, ◌≤◌};

/// The numbers and waits below a fork.
#[derive(Clone, Copy, Debug)]
pub(crate) struct Span {
    /// No number is below this one.
    pub(crate) from: u64,
    /// The numbers of the low side are below this one, those of the high side are not.
    pub(crate) split: u64,
    /// No number is above this one.
    pub(crate) to: u64,
    /// Nobody waits for a place before this one.
    pub(crate) need: u64,
    /// Nobody has a deadline before this one.
    pub(crate) deadline: u64,
}

/// The least range of numbers, of those that halving all numbers gives, where two different ones stand on different sides.
/// No fork is deeper than 64 levels where each splits its range so.
pub(crate) fn parting(low: u64, high: u64) -> (u64, u64, u64)
    requires { low < high }
    ensures from { result.0 ≤ low }
    ensures low { low < result.1 }
    ensures high { result.1 ≤ high }
    ensures to { high ≤ result.2 }
{
    let mut from = 0;
    let mut to = u64::MAX;
    let mut split = to / 2 + 1;
    while high < split || split <= low {
        if high < split {
            to = split - 1;
        } else {
            from = split;
        }
        split = from + (to - from) / 2 + 1;
    }
    (from, split, to)
}
