//! What holds of every run.

ghost use Rattle.ncc_world.specs.Headline.{EveryRunKeeps, ListKeepsFour, OneRun, RaftKeepsFour};
ghost use Rattle.std.specs.Prelude.{◌≡◌, ℕ, ◌+◌, ◌-◌, ◌<◌, ◌≤◌, true, List, [], ◌∷◌, ◌++◌, length, slice_get, Some, None, IsTrue};
ghost use Rattle.ncc_tx.specs.declared.entry.Entry.{Entry};
ghost use Rattle.ncc_tx.specs.declared.entry.Item.{Item};
ghost use Rattle.ncc_bookmark.specs.Point.{Point};
ghost use Rattle.ncc_safety.specs.Fleet.{Fleet};
ghost use Rattle.ncc_bolt.specs.Writing.{fits_request};
ghost use Rattle.ncc_bolt.specs.declared.message.Request.{Request};
ghost use Rattle.ncc_bolt.specs.declared.message.Request.TheVariants as request;
ghost use Rattle.ncc_session.specs.Question.{enter};
ghost use Rattle.ncc_session.specs.declared.ask.Fact.TheVariants as fact;
ghost use Rattle.ncc_clients.specs.Members.{elsewhere, full, placed, at_of};
ghost use Rattle.ncc_clients.specs.Run.{Client, question_of, deadline_of, reply, waits, tells};
ghost use Rattle.ncc_world.specs.declared.setup.Setup.{Setup};
ghost use Rattle.ncc_world.specs.declared.event.Event.TheVariants as event;
ghost use Rattle.ncc_world.specs.declared.error.WorldError.TheVariants as error;
ghost use Rattle.ncc_world.specs.Setting.{IsSetup, Lists, over_list, over_raft, lists_of, cluster_of, nobody, list_at, appended, lagging};
ghost use Rattle.ncc_world.specs.Events.{AreFew, is_word};
ghost use Rattle.ncc_world.specs.Requests.{get_request, pull, put_request};
ghost use Rattle.ncc_world.specs.Happening.{WorldRun, Steps, refusal, own, asks, config_of};
ghost use Rattle.ncc_clients.specs.Links.{Linked, Driver};
ghost use Rattle.ncc_clients.specs.Drives.{driver_at, is_busy, new_driver};
ghost use Rattle.ncc_world.specs.declared.event.Job.{Job};
ghost use Rattle.std.specs.List.{Contains};

/// Members over one list keep what their clients rest on, and so do members over Raft.
pub fn each_kind_keeps_four()
    ensures list { ListKeepsFour }
    ensures raft { RaftKeepsFour }
{}

/// Every run of events keeps the promise, and some events have one run.
pub fn every_run_keeps()
    ensures headline { EveryRunKeeps }
    ensures one { OneRun }
{}

/// What `put` and `get` send has a spelling: their words are short, and their bookmarks are few.
pub fn requests_fit()
    ensures put { (key value : List ℕ) (bookmarks : List Point) → is_word key ≡ true → is_word value ≡ true → AreFew bookmarks
        → IsTrue (fits_request (put_request key value bookmarks)) }
    ensures get { (key : List ℕ) (bookmarks : List Point) → is_word key ≡ true → AreFew bookmarks
        → IsTrue (fits_request (get_request key bookmarks)) }
    ensures hello { IsTrue (fits_request (request.Hello [])) }
    ensures pull { IsTrue (fits_request pull) }
    ensures goodbye { IsTrue (fits_request request.Goodbye) }
{}

/// Worked cases of members over one list: the first entry stands at place 1 in term 1; a member that does not lead takes
/// none, and a full log takes none; a member applies one entry of two, and not past the end.
pub fn worked_members()
    ensures first { (s : Setup) (entry : Entry) → IsSetup s
        → (cluster_of s).propose (over_list (nobody s)) 1 entry ≡ placed 1 1 (over_list (appended (nobody s) entry)) }
    ensures follower { (s : Setup) (lists : Lists) (entry : Entry) → (cluster_of s).propose (over_list lists) 2 entry ≡ elsewhere }
    ensures full { (s : Setup) (lists : Lists) (entry : Entry) → length (list_at lists 1) ≡ s.limit
        → (cluster_of s).propose (over_list lists) 1 entry ≡ full s.limit }
    ensures one_of_two { (x y : Item) → lagging ((x ∷ y ∷ []) ∷ [] ∷ []) 2 1 ≡ (x ∷ y ∷ []) ∷ (x ∷ []) ∷ [] }
    ensures to_the_end { (x y : Item) → lagging ((x ∷ y ∷ []) ∷ (x ∷ []) ∷ []) 2 7 ≡ (x ∷ y ∷ []) ∷ (x ∷ y ∷ []) ∷ [] }
{}

/// Worked cases of events: the clock may stand still and does not go back; over one list the leader applies by no event, and member 0 is
/// none; over Raft nobody applies by an event; nobody sends bytes on the connection of a `put` or `get`; bytes do nothing on a connection that is closed.
pub fn worked_events()
    ensures stands { (s : Setup) (r : WorldRun) → refusal s r (event.Time r.now) ≡ None }
    ensures back { (s : Setup) (r : WorldRun) (to : ℕ) → to < r.now → refusal s r (event.Time to) ≡ Some error.BackInTime }
    ensures leader { (s : Setup) (r : WorldRun) (lists : Lists) (count : ℕ) → r.members ≡ over_list lists → 1 ≤ length lists
        → refusal s r (event.Apply 1 count) ≡ Some error.WrongRole }
    ensures nobody { (s : Setup) (r : WorldRun) (lists : Lists) (count : ℕ) → r.members ≡ over_list lists
        → refusal s r (event.Apply 0 count) ≡ Some error.NoMember }
    ensures raft { (s : Setup) (r : WorldRun) (fleet : Fleet) (member count : ℕ) → r.members ≡ over_raft fleet
        → refusal s r (event.Apply member count) ≡ Some error.WrongWorld }
    ensures unnamed { (s : Setup) (r : WorldRun) (member : ℕ) (request : Request) (bytes : List ℕ)
        → refusal s (asks s r member request) (event.Bytes (length r.clients + 1) bytes) ≡ Some error.NoConn }
    ensures closed { (s : Setup) (line : ℕ) (r : WorldRun) (conn : ℕ) (c : Client) (bytes : List ℕ) → slice_get r.clients (conn - 1) ≡ Some c
        → c.closed ≡ true → own s line (event.Bytes conn bytes) r ≡ r }
{}

/// Worked cases of events of members over Raft: over one list there are none; member 0 is none; a replica has no time that runs out; and
/// messages are numbered from 1.
pub fn worked_raft()
    ensures list { (s : Setup) (r : WorldRun) (lists : Lists) (member : ℕ) → r.members ≡ over_list lists
        → refusal s r (event.Timeout member) ≡ Some error.WrongWorld }
    ensures nobody { (s : Setup) (r : WorldRun) (fleet : Fleet) → r.members ≡ over_raft fleet
        → refusal s r (event.Timeout 0) ≡ Some error.NoMember }
    ensures replica { (s : Setup) (r : WorldRun) (fleet : Fleet) → r.members ≡ over_raft fleet → 1 ≤ s.replicas
        → refusal s r (event.Timeout (s.cores + 1)) ≡ Some error.WrongRole }
    ensures message { (s : Setup) (r : WorldRun) (fleet : Fleet) → r.members ≡ over_raft fleet
        → refusal s r (event.Deliver 0) ≡ Some error.NoMessage }
{}

/// Worked cases of sessions: there is none past the last; one in which a work runs begins none; nobody else sends on its link's
/// connection; without a link nothing moves and nothing is lost; and a pump counts one request at least, or none.
pub fn worked_sessions()
    ensures made { (s : Setup) (line seed : ℕ) (r : WorldRun)
        → (own s line (event.Session seed) r).driving.drivers ≡ r.driving.drivers ++ new_driver (config_of s seed) ∷ [] }
    ensures past { (s : Setup) (r : WorldRun) → refusal s r (event.Cut (length r.driving.drivers + 1)) ≡ Some error.NoSession }
    ensures busy { (s : Setup) (r : WorldRun) (session : ℕ) (d : Driver) (job : Job) → 1 ≤ session → driver_at r (session - 1) ≡ Some d
        → is_busy d ≡ true → refusal s r (event.Work session job) ≡ Some error.Busy }
    ensures apart { (s : Setup) (r : WorldRun) (l : Linked) (bytes : List ℕ) → Contains r.driving.linked l
        → refusal s r (event.Bytes l.conn bytes) ≡ Some error.NoConn }
    ensures up { (s : Setup) (line : ℕ) (r : WorldRun) (session : ℕ) (d : Driver) → driver_at r (session - 1) ≡ Some d → d.link ≡ None
        → (count : ℕ) → own s line (event.Up session count) r ≡ r }
    ensures down { (s : Setup) (line : ℕ) (r : WorldRun) (session : ℕ) (d : Driver) → driver_at r (session - 1) ≡ Some d → d.link ≡ None
        → (count : ℕ) → own s line (event.Down session count) r ≡ r }
    ensures cut { (s : Setup) (line : ℕ) (r : WorldRun) (session : ℕ) (d : Driver) → driver_at r (session - 1) ≡ Some d → d.link ≡ None
        → own s line (event.Cut session) r ≡ r }
    ensures pump { (s : Setup) (line : ℕ) (r : WorldRun) (session : ℕ) (d : Driver) → driver_at r (session - 1) ≡ Some d → d.link ≡ None
        → Steps s line (event.Pump session None) r r }
    ensures counts { (s : Setup) (line session : ℕ) (r t : WorldRun) → Steps s line (event.Pump session (Some 0)) r t → ⊥ }
{}

/// Worked cases of a question to enter: it waits at its deadline, is late one millisecond past it, and is answered as soon
/// as its place is reached.
pub fn worked_waits()
    ensures at_deadline { (s : Setup) (r : WorldRun) (c : Client) (need : ℕ) → question_of (cluster_of s) c ≡ Some (enter need)
        → at_of (cluster_of s) r.members c.member < need → r.now ≡ deadline_of (cluster_of s) c
        → reply (cluster_of s) r c ≡ waits }
    ensures past { (s : Setup) (r : WorldRun) (c : Client) (need : ℕ) → question_of (cluster_of s) c ≡ Some (enter need)
        → at_of (cluster_of s) r.members c.member < need → r.now ≡ deadline_of (cluster_of s) c + 1
        → reply (cluster_of s) r c ≡ tells (fact.Late need (at_of (cluster_of s) r.members c.member) r.now) }
    ensures reached { (s : Setup) (r : WorldRun) (c : Client) (need : ℕ) → question_of (cluster_of s) c ≡ Some (enter need)
        → need ≤ at_of (cluster_of s) r.members c.member
        → reply (cluster_of s) r c ≡ tells (fact.Entered (at_of (cluster_of s) r.members c.member)) }
{}
