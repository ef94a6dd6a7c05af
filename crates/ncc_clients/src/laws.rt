//! What holds of every run, of whatever cluster the four facts hold.

ghost use Rattle.ncc_clients.specs.Laws.{AllIsKept, OfEach, OneWay, RestForgetsNobody, TurnsAreSmall};
ghost use Rattle.ncc_clients.specs.Transacting.{EntersOnce, RoutesAlone, TellsItsBookmark};
ghost use Rattle.ncc_clients.specs.Worked.{RequestsCount, BytesMove, RequestsMove, AddressesName, WorkJoins, NobodyIsThere, CutsDrop};
ghost use Rattle.ncc_clients.specs.Worked.{SleepersWake, StaleIsRefuted};
ghost use Rattle.ncc_clients.specs.Course.{SessionsAreServed, LiftsSplit, FrontsAreTaken, TurnsAreCourses, WakesAreCourses};
ghost use Rattle.ncc_clients.specs.Course.{PumpsAreCourses, EndsAreCourses, ClosesEitherWay, CoursesArePaths};

use crate::members::Members;

/// Where the four facts hold of a cluster, its clients are served as promised, in every run: each applied list begins the
/// history, each fact is lawful where it is told, no two writes are told one place, each connection's session has taken
/// exactly the facts that were told to it, and no connection vanishes.
pub fn all_is_kept<M: Members>()
    ensures kept { OfEach AllIsKept
        (record { lists = M.lists; leads = M.leads; leader = M.leader; propose = M.propose; Moves = M.moves; Restarts = M.restarts }) }
{}

/// Where nobody can be answered, each question that is left waits to enter or for its entry's place, and is not late.
pub fn rest_forgets_nobody<M: Members>()
    ensures waits { OfEach RestForgetsNobody
        (record { lists = M.lists; leads = M.leads; leader = M.leader; propose = M.propose; Moves = M.moves; Restarts = M.restarts }) }
{}

/// Turns are made of small things, and there is one way to go on.
pub fn one_way<M: Members>()
    ensures small { OfEach TurnsAreSmall
        (record { lists = M.lists; leads = M.leads; leader = M.leader; propose = M.propose; Moves = M.moves; Restarts = M.restarts }) }
    ensures same { OfEach OneWay
        (record { lists = M.lists; leads = M.leads; leader = M.leader; propose = M.propose; Moves = M.moves; Restarts = M.restarts }) }
{}

/// The session of a client that opens at most one transaction asks to enter at most once, for the greatest place that BEGIN presents. A
/// bookmark that a session tells has the place at which it was told that a transaction is done. A client that asks for a routing table
/// at most is told none.
pub fn one_transaction()
    ensures enters { EntersOnce }
    ensures tells { TellsItsBookmark }
    ensures routes { RoutesAlone }
{}

/// Worked rows of the links of sessions: what counts and what moves, whom an address names, what becomes of a link, and what a later work
/// may not be told.
pub fn worked_links()
    ensures count { RequestsCount }
    ensures bytes { BytesMove }
    ensures requests { RequestsMove }
    ensures names { AddressesName }
    ensures joins { WorkJoins }
    ensures nobody { NobodyIsThere }
    ensures cuts { CutsDrop }
    ensures wakes { SleepersWake }
    ensures stale { StaleIsRefuted }
{}

/// Where the five rules hold of a cluster, and its numbers have 64 bits, sessions of drivers read their writes, in every run with sessions:
/// where a work ended in success at a place, each transaction of a later work of its session enters and reads at that place or behind it.
pub fn sessions_read_their_writes<M: Members>()
    ensures read { OfEach SessionsAreServed
        (record { lists = M.lists; leads = M.leads; leader = M.leader; propose = M.propose; Moves = M.moves; Restarts = M.restarts }) }
{}

/// Whatever is told to move on a link, nothing of what waits is lost: what moves and what stays are together what waited.
pub fn moves_lose_nothing()
    ensures lifts { LiftsSplit }
    ensures fronts { FrontsAreTaken }
{}

/// What an event makes of sessions is a course, deed by deed: turns are, the waking of all who sleep until now, all that moves on a link
/// at once, where what comes down are bytes, and that a member ends and starts again, in either order. A course is made of small things.
pub fn events_are_courses<M: Members>()
    ensures turns { OfEach TurnsAreCourses
        (record { lists = M.lists; leads = M.leads; leader = M.leader; propose = M.propose; Moves = M.moves; Restarts = M.restarts }) }
    ensures wakes { OfEach WakesAreCourses
        (record { lists = M.lists; leads = M.leads; leader = M.leader; propose = M.propose; Moves = M.moves; Restarts = M.restarts }) }
    ensures pumps { OfEach PumpsAreCourses
        (record { lists = M.lists; leads = M.leads; leader = M.leader; propose = M.propose; Moves = M.moves; Restarts = M.restarts }) }
    ensures ends { OfEach EndsAreCourses
        (record { lists = M.lists; leads = M.leads; leader = M.leader; propose = M.propose; Moves = M.moves; Restarts = M.restarts }) }
    ensures either_way { OfEach ClosesEitherWay
        (record { lists = M.lists; leads = M.leads; leader = M.leader; propose = M.propose; Moves = M.moves; Restarts = M.restarts }) }
    ensures paths { OfEach CoursesArePaths
        (record { lists = M.lists; leads = M.leads; leader = M.leader; propose = M.propose; Moves = M.moves; Restarts = M.restarts }) }
{}
