//! The laws of an input that comes in any pieces, for each machine that reads one. A machine has a core of a type `C`, takes
//! items of a type `E` and facts of a type `F`, and writes outputs of a type `W`.
#![tactic(auto)]

ghost use Rattle.ncc_stream.specs.Laws.{CutsDontMatter, WaitsWithoutMove, GoesByMoves, ComesToRest, NeverRises};

/// However the input is cut: what a lawful machine makes of it is what it makes of the front, and then of what it left of the
/// front with the rest behind.
pub fn goes_on<C, E, F, W>()
    ensures cuts_dont_matter { CutsDontMatter C E F W }
{}

/// A lawful machine goes on by its next move, as long as it has one, and in the end it has none.
pub fn one_move<C, E, F, W>()
    ensures waits { WaitsWithoutMove C E F W }
    ensures moves { GoesByMoves C E F W }
    ensures rests { ComesToRest C E F W }
{}

/// What falls with each move of a lawful machine is no more in the end.
pub fn never_rises<C, E, F, W>()
    ensures never_rises { NeverRises C E F W }
{}
