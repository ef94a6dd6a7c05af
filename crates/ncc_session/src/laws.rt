//! What holds of any calls.

ghost use Rattle.ncc_session.specs.Asking.{AsksOnBytes, AsksOnFacts, MayAskEach, NeverForMemory};
ghost use Rattle.ncc_session.specs.Laws.{StandsForAll, CutsDontMatter, ShakesUntilWhole};

/// After any list of calls a connection stands for all that was fed, told and handed out, and it doesn't matter how the
/// bytes were cut.
pub fn any_calls()
    ensures all { StandsForAll }
    ensures cuts { CutsDontMatter }
{}

/// A session is shaking exactly as long as its handshake is not whole.
pub fn shakes_until_whole()
    ensures whole { ShakesUntilWhole }
{}

/// A session asks one question at a time, and the next only behind the fact that answers the one before. Each is one that may be asked.
pub fn asks_in_turn()
    ensures bytes { AsksOnBytes }
    ensures facts { AsksOnFacts }
    ensures may { MayAskEach }
{}

/// The cause of a malformed message is never want of memory.
pub fn never_for_memory()
    ensures never { NeverForMemory }
{}
