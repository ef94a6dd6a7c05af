//! Stamps of places, as runs of equal ones.

ghost use Rattle.std.specs.Prelude.{◌≡◌, ◌+◌, ◌-◌, ◌<◌, ◌≤◌, ◌^◌, ◌++◌, ◌∷◌, [], vec_len, vec_capacity};
ghost use Rattle.ncc_apply.specs.Runs.{IsRising, end_of, unrolled};
ghost use Rattle.ncc_apply.specs.View.{stamp_of};

use ncc_tx::Stamp;

/// Places with one stamp: those behind the run before, up to this one.
#[derive(Clone, Copy, Debug)]
pub(crate) struct Run {
    pub(crate) term: u64,
    pub(crate) valid: bool,
    pub(crate) until: u64,
}

/// How many places there are.
pub(crate) fn last_place(runs: &[Run]) -> u64
    ensures { result ≡ end_of 0 runs.now }
{
    match runs.last() {
        None => 0,
        Some(run) => run.until,
    }
}

/// The stamp of a place, from 1 on.
pub(crate) fn stamp_at(runs: &[Run], place: u64) -> Option<Stamp>
    requires { IsRising 0 runs.now }
    ensures { result ≡ stamp_of place (unrolled 0 runs.now) }
{
    if place == 0 {
        return None;
    }
    let index = runs.partition_point(|run| run.until < place);
    if index == runs.len() {
        return None;
    }
    let run = runs[index];
    Some(Stamp {
        term: run.term,
        valid: run.valid,
    })
}

/// Adds the stamp of the next place. There is room for a run, and the number of the place fits.
pub(crate) fn add(runs: &mut Vec<Run>, stamp: Stamp)
    requires rising { IsRising 0 runs.old.items }
    requires room { vec_len runs.old + 1 ≤ vec_capacity runs.old }
    requires fits { end_of 0 runs.old.items < 2 ^ 64 - 1 }
    ensures stamps { unrolled 0 runs.new.items ≡ unrolled 0 runs.old.items ++ stamp ∷ [] }
    ensures rising { IsRising 0 runs.new.items }
{
    let until = last_place(runs.as_slice()) + 1;
    let count = runs.len();
    if count > 0 {
        let last = runs[count - 1];
        if last.term == stamp.term && last.valid == stamp.valid {
            runs[count - 1].until = until;
            return;
        }
    }
    runs.push_reserved(Run {
        term: stamp.term,
        valid: stamp.valid,
        until,
    });
}
