//! The laws of one cluster, over every list of events: a term has one owner, logs match, what a majority took stays, and all
//! that any member ever applied is of one line. They are laws over the definitions of `ncc_raft`; nothing here runs.
#![tactic(auto)]

ghost use Rattle.ncc_safety.specs.Laws.{Always, OverTime};
ghost use Rattle.ncc_safety.specs.Laws.{Elected, LeaderGrows, OneLeader};
ghost use Rattle.ncc_safety.specs.Laws.{AppendsCut, LogsMatch, Matched};
ghost use Rattle.ncc_safety.specs.Laws.{ChosenStays, RecordsBeside};
ghost use Rattle.ncc_safety.specs.Laws.{AllOneLine, Applied, HistoryGrows, InHistory, NeverNoted, NeverRefused};
ghost use Rattle.ncc_safety.specs.Nine.{Stays};
ghost use Rattle.ncc_safety.specs.FleetLaws.{CanBeCarried, CoresAreSound, OnlyAllowed};
ghost use Rattle.ncc_safety.specs.FleetLaws.{FullAtLimit, HistoryGoesOn, ListsBegin, MovesKeep};
ghost use Rattle.ncc_safety.specs.FleetLaws.{PlacedApart, PlacedBehind, PlacedStays, PlacedWithin};
ghost use Rattle.ncc_safety.specs.FleetLaws.{KeepsShape, NeverContradicts, NeverNotes, ProposalsKeep, RefusesElsewhere, RestartsKeep};
ghost use Rattle.ncc_safety.specs.FleetLaws.{StaysWithin};

/// A term has one leader, whatever happens, and its log only grows in its term.
pub fn one_owner()
    ensures leads { OverTime OneLeader }
    ensures grows { OverTime LeaderGrows }
    ensures votes { Always Elected }
{}

/// Two logs with items of one term at one place are equal up to it, and each `Append` is a cut of its leader's log.
pub fn logs_match()
    ensures logs { OverTime LogsMatch }
    ensures cuts { OverTime AppendsCut }
    ensures records { Always Matched }
{}

/// What a majority took of a term's leader stands in the log of each later leader.
pub fn chosen_stays()
    ensures told { OverTime ChosenStays }
    ensures records { Always Stays }
{}

/// All that any member ever applied is of one line, the history. No message contradicts it, and none goes past the limit.
pub fn one_history()
    ensures one_line { OverTime AllOneLine }
    ensures in_history { OverTime InHistory }
    ensures grows { OverTime HistoryGrows }
    ensures never_noted { Always NeverNoted }
    ensures never_refused { Always NeverRefused }
    ensures records { Always Applied }
{}

/// The records stand beside a run: members, messages and history never hang on them.
pub fn records_beside()
    ensures beside { RecordsBeside }
{}

/// Of a cluster as a world keeps it: every applied list begins the history, which only grows; a list shrinks only where its member
/// starts again; an entry that got a place and a term keeps them, and no other gets both.
pub fn fleet_agrees()
    ensures begins { ListsBegin }
    ensures grows { HistoryGoesOn }
    ensures moves { MovesKeep }
    ensures proposals { ProposalsKeep }
    ensures restarts { RestartsKeep }
    ensures stays { PlacedStays }
    ensures behind { PlacedBehind }
    ensures within { PlacedWithin }
    ensures apart { PlacedApart }
    ensures elsewhere { RefusesElsewhere }
    ensures full { FullAtLimit }
{}

/// No message contradicts a member of it or goes past the limit; logs and lists stay within it, with entries that a log may have. With
/// as few members as frames are made for, a frame can carry each message.
pub fn fleet_holds()
    ensures shape { KeepsShape }
    ensures notes { NeverNotes }
    ensures batches { NeverContradicts }
    ensures limits { StaysWithin }
    ensures allowed { OnlyAllowed }
    ensures carried { CanBeCarried }
    ensures cores { CoresAreSound }
{}
