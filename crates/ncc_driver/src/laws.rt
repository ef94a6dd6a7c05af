//! What holds of every session, whatever it is told.

ghost use Rattle.ncc_driver.specs.Laws.{CutsChangeOnlyReceives, PiecesMayBeCut, EmptyPiecesMayCome, AlikeActAlike};
ghost use Rattle.ncc_driver.specs.Laws.{PresentsLast, KeepsLast, OthersChangeNothing, LostWhileLinked};
ghost use Rattle.ncc_driver.specs.LawsAnswers.{BadOutsideGrammar, FailedByCode, CommittedByBookmark};
ghost use Rattle.ncc_driver.specs.LawsEnds.{ActsByMoments, EndsExactly};
ghost use Rattle.ncc_driver.specs.LawsFits.{SendsWhatFits, SendsWhatFitsToBytes};
ghost use Rattle.ncc_driver.specs.LawsJoins.{ConnectsLast, JoinsBehindConnect, SucceedsOnBytes};
ghost use Rattle.ncc_driver.specs.LawsLast.{WaitsByLast, GoesOnBehindAwaited};
ghost use Rattle.ncc_driver.specs.LawsLeft.{SendsLower, LeftAtMost, BeginsSilent, AttemptSendsAtMost, AddHasTwo, PutHasOne, GetHasOne};
ghost use Rattle.ncc_driver.specs.LawsLegs.{SendsByLegs, SendsOnLinks, SendsByLegsSince, EndsLast, CommitsByAnswer};
ghost use Rattle.ncc_driver.specs.Worked.{DelaysDouble, SpentAtThirtySeconds, NextWorkBeginsAnew, RoutersTakeTurns};
ghost use Rattle.ncc_driver.specs.Worked.{OthersArePassedOver, HandshakeInPieces, AnotherVersion};
ghost use Rattle.ncc_driver.specs.Worked.{TransientKeepsTable, NoLeaderDropsTable, OtherCodesEnd, IgnoredIsBad};
ghost use Rattle.ncc_driver.specs.WorkedLegs.{BrokenLinkSent, PutSent, RouterSent};
ghost use Rattle.ncc_driver.specs.Worked.{NextWorkPresents, TableEnds, NoTimeServesOnce, BrokenCommit};

/// How the bytes of answers were cut changes nothing but Receives.
pub fn cuts_change_only_receives()
    ensures cuts { CutsChangeOnlyReceives }
    ensures pieces { PiecesMayBeCut }
    ensures empty { EmptyPiecesMayCome }
    ensures alike { AlikeActAlike }
{}

/// Each attempt that presents bookmarks presents exactly that of the session's last success, or before that the given ones.
pub fn presents_last()
    ensures presents { PresentsLast }
    ensures keeps { KeepsLast }
{}

/// A work ends exactly where there is a cause: COMMIT was answered, an attempt failed that may be tried again and too long has passed,
/// a code is not tried again, or a message is no answer.
pub fn ends_exactly()
    ensures acts { ActsByMoments }
    ensures ends { EndsExactly }
{}

/// What an answer tells, by the grammar of answers: it is bad exactly where it is no answer of the request.
pub fn tells_by_grammar()
    ensures bad { BadOutsideGrammar }
    ensures failed { FailedByCode }
    ensures committed { CommittedByBookmark }
{}

/// An input that is not waited for changes nothing, and Lost is waited for exactly while a link is there.
pub fn waits_exactly()
    ensures others { OthersChangeNothing }
    ensures lost { LostWhileLinked }
{}

/// What a session sends on a link: the handshake and a part of what a router is asked, or of a transaction of the work that presents the
/// bookmark of the last success before it.
pub fn sends_by_legs()
    ensures legs { SendsByLegs }
    ensures links { SendsOnLinks }
    ensures since { SendsByLegsSince }
    ensures fit { SendsWhatFits }
    ensures fit_to_bytes { SendsWhatFitsToBytes }
    ensures last { EndsLast }
{}

/// What a success rests on: its whole transaction was sent on its last link, and a message of that link is a SUCCESS with its bookmark.
pub fn commits_by_answer()
    ensures commits { CommitsByAnswer }
{}

/// A Connect is the last thing that is wanted behind an input, and success comes only of bytes that were awaited.
pub fn connects_last()
    ensures last { ConnectsLast }
    ensures waits { JoinsBehindConnect }
    ensures succeeds { SucceedsOnBytes }
{}

/// How much an attempt sends at most: each thing that is sent lowers what is left, and with two steps no more than eleven are sent.
pub fn attempts_send_so_much()
    ensures lower { SendsLower }
    ensures most { LeftAtMost }
    ensures silent { BeginsSilent }
    ensures attempt { AttemptSendsAtMost }
    ensures add { AddHasTwo }
    ensures put { PutHasOne }
    ensures get { GetHasOne }
{}

/// What a session waits for is told by the last thing that it wants done: behind a Connect the link, behind a Receive an answer, behind a
/// Sleep its end, and behind a Finish nothing. At each input that it waits for it wants something more done.
pub fn waits_by_last()
    ensures last { WaitsByLast }
    ensures goes_on { GoesOnBehindAwaited }
{}

/// Worked runs that come to no transaction: delays, the end of trying again, the next work, routers in turn, inputs that are passed over,
/// and handshakes.
pub fn worked_runs()
    ensures delays { DelaysDouble }
    ensures spent { SpentAtThirtySeconds }
    ensures anew { NextWorkBeginsAnew }
    ensures turns { RoutersTakeTurns }
    ensures others { OthersArePassedOver }
    ensures pieces { HandshakeInPieces }
    ensures version { AnotherVersion }
{}

/// Worked runs of transactions: what follows three codes and an answer of nothing, whom the work behind a commit goes to and what it
/// presents, and a link that breaks during COMMIT.
pub fn worked_works()
    ensures transient { TransientKeepsTable }
    ensures leaderless { NoLeaderDropsTable }
    ensures refused { OtherCodesEnd }
    ensures ignored { IgnoredIsBad }
    ensures presents { NextWorkPresents }
    ensures ended { TableEnds }
    ensures once { NoTimeServesOnce }
    ensures broken { BrokenCommit }
{}

/// What links of these runs were sent.
pub fn worked_legs()
    ensures broken { BrokenLinkSent }
    ensures put { PutSent }
    ensures router { RouterSent }
{}
