//! Laws of every step of a core.

ghost use Rattle.ncc_raft.specs.Laws.{MayBeSaved, NeverGoesBack, NotesAlone, SendsCarried, StaysSound};

/// A core stays sound: what it keeps may be kept over a crash, its commit lies within its log and that within its limit, and a
/// leader knows of no core to have more than it sends next.
pub fn stays_sound()
    ensures sound { StaysSound }
{}

/// Nothing goes back: neither the term, nor a vote within it, nor the commit and what is committed, nor a leader's log.
pub fn never_goes_back()
    ensures never { NeverGoesBack }
{}

/// What is sent can be carried by a frame, and goes by ascending destination, at most one envelope to each.
pub fn sends_carried()
    ensures carried { SendsCarried }
{}

/// A change may follow what was kept, and its items are the last of those that the event brings.
pub fn may_be_saved()
    ensures saved { MayBeSaved }
{}

/// Where something is noted nothing is sent, log and commit stay, and with a spent term all does.
pub fn notes_alone()
    ensures noted { NotesAlone }
{}
