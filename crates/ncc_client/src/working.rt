//! One work of a client, over links.

ghost use Rattle.std.specs.Prelude.{◌≡◌, ◌⊎◌, ◌≤◌, ◌≢◌, List, [], ◌∷◌, ◌++◌, IfOk, IfErr, OnOk, OnErr, IsTrue, Ok};
ghost use Rattle.std.specs.Io.KnownBytes.{Appends};
ghost use Rattle.ncc_base.specs.Clock.{Tells};
ghost use Rattle.ncc_base.specs.Faults.{Rose};
ghost use Rattle.ncc_base.specs.Flushing.{IsAllFlushed};
ghost use Rattle.ncc_driver.specs.Config.{config_fits};
ghost use Rattle.ncc_driver.specs.declared.config.SessionConfig.{SessionConfig};
ghost use Rattle.ncc_driver.specs.Work.{Job, job_by, rows_fit};
ghost use Rattle.ncc_driver.specs.Talk.{StandsAt};
ghost use Rattle.ncc_client.specs.Calls.{Call, MakesMore};
ghost use Rattle.ncc_client.specs.Words.{Asks, AsksSome, TaskFits, job_of};
ghost use Rattle.ncc_client.specs.Working.{WorkedBy, SaysBy};
ghost use Rattle.ncc_client.specs.Turning.{MakesBy, IsAt, Goes, Stops, StopFits, Worked, Unbegun};

use crate::line::done_line;
use crate::links::Links;
use crate::status::ClientStatus;
use crate::words::{Order, Task, WordsError, order_in};
use ncc_base::{Clock, Sink, SinkError};
use ncc_driver::{Action, Add, Get, Input, Put, Session, SessionConfig, Work, WorkDone, WorkError};
use ncc_pack::{Bytes, Memory, Words};
use std::alloc::Global;

// How many bytes are received at once.
const PIECE: usize = 8192;

/// What came of an action.
#[derive(Drop)]
pub enum Made {
    /// Nothing that the session is told.
    Nothing,
    /// This is told to the session.
    Given(Input),
    /// It was the end of the work.
    Ended(Result<WorkDone, WorkError>),
}

/// Why a work goes on no more.
#[derive(Drop)]
pub enum Stop {
    /// It has ended.
    Ended(Result<WorkDone, WorkError>),
    /// There was no memory.
    Memory,
}

// ---- one action

// Receives into a piece of its own. The room is made before the call.
fn receive<L: Links>(alloc: Global, links: &mut L) -> Result<Made, Memory>
    ensures ok { IfOk result (λ made. MakesBy (λ calls. MakesMore (L.calls links.old) (L.calls links.new) calls)
        (Rose (L.losses links.old) (L.losses links.new)) (links.new ≡ links.old) Action.Receive made) }
    ensures never_falls { L.losses links.old ≤ L.losses links.new }
    ensures err { OnErr result (links.new ≡ links.old) }
{
    let mut piece = vec![in alloc; 0u8; PIECE]?;
    match links.receive(piece.as_mut_slice()) {
        Ok(0) => Ok(Made::Given(Input::Lost)),
        Ok(count) => {
            piece.truncate(count);
            Ok(Made::Given(Input::Bytes(Bytes::from_vec(piece))))
        }
        Err(_) => Ok(Made::Given(Input::Lost)),
    }
}

// Does an action. Where there is no memory, no call was made.
fn make<L: Links>(alloc: Global, action: Action, links: &mut L) -> Result<Made, Memory>
    ensures ok { IfOk result (λ made. MakesBy (λ calls. MakesMore (L.calls links.old) (L.calls links.new) calls)
        (Rose (L.losses links.old) (L.losses links.new)) (links.new ≡ links.old) action made) }
    ensures never_falls { L.losses links.old ≤ L.losses links.new }
    ensures err { OnErr result (links.new ≡ links.old) }
{
    match action {
        Action::Connect { address } => match links.connect(address.as_str()) {
            Ok(()) => Ok(Made::Given(Input::Connected)),
            Err(_) => Ok(Made::Given(Input::Lost)),
        },
        Action::Send { bytes } => match links.send(bytes.as_slice()) {
            Ok(()) => Ok(Made::Nothing),
            Err(_) => Ok(Made::Given(Input::Lost)),
        },
        Action::Close => {
            links.close();
            Ok(Made::Nothing)
        }
        Action::Sleep { until } => {
            links.pause(until);
            Ok(Made::Given(Input::Woken))
        }
        Action::Receive => receive(alloc, links),
        Action::Finish(end) => Ok(Made::Ended(end)),
    }
}

// ---- the actions of a work

// Does the next action, and tells the session what it gave, at one reading of the clock.
fn turn<W: Work, L: Links, C: Clock>(
    alloc: Global,
    session: &mut Session,
    work: &mut W,
    links: &mut L,
    clock: &mut C,
) -> Result<(), Stop>
    requires at { IsAt (job_by (W.writing work.old) (W.steps work.old)) (W.stands work.old) (C.last clock.old) session.old }
    requires stands { StandsAt session.old.core.stage (W.stands work.old) }
    requires more { session.old.queue ≢ [] }
    ensures ok { OnOk result (Goes (job_by (W.writing work.old) (W.steps work.old)) (W.stands work.old) (W.stands work.new)
        (λ calls. MakesMore (L.calls links.old) (L.calls links.new) calls)
        (λ moments. Tells (C.told clock.old) (C.told clock.new) moments) (Rose (L.losses links.old) (L.losses links.new))
        session.old session.new) }
    ensures stands { OnOk result (StandsAt session.new.core.stage (W.stands work.new)) }
    ensures more { OnOk result (session.new.queue ≢ []) }
    ensures err { IfErr result (λ why. Stops (job_by (W.writing work.old) (W.steps work.old)) (W.stands work.old)
        (λ calls. MakesMore (L.calls links.old) (L.calls links.new) calls)
        (λ moments. Tells (C.told clock.old) (C.told clock.new) moments) (Rose (L.losses links.old) (L.losses links.new))
        session.old why) }
    ensures fits { IfErr result StopFits }
    ensures writing { W.writing work.new ≡ W.writing work.old }
    ensures steps { W.steps work.new ≡ W.steps work.old }
    ensures losses { L.losses links.old ≤ L.losses links.new }
    ensures later { C.last clock.old ≤ C.last clock.new }
{
    let action = match session.next() {
        Some(action) => action,
        // Until its end a work that was told to start has something left to do.
        None => unreachable!(),
    };
    match make(alloc, action, links) {
        Ok(Made::Nothing) => Ok(()),
        Ok(Made::Given(input)) => {
            let now = clock.now();
            match session.on(work, input, now) {
                Ok(()) => Ok(()),
                Err(_) => Err(Stop::Memory),
            }
        }
        Ok(Made::Ended(end)) => Err(Stop::Ended(end)),
        Err(_) => Err(Stop::Memory),
    }
}

// Does the actions of a work that was started, until it stops.
fn drive<W: Work, L: Links, C: Clock>(
    alloc: Global,
    session: &mut Session,
    work: &mut W,
    links: &mut L,
    clock: &mut C,
) -> Stop
    requires at { IsAt (job_by (W.writing work.old) (W.steps work.old)) (W.stands work.old) (C.last clock.old) session.old }
    requires stands { StandsAt session.old.core.stage (W.stands work.old) }
    requires more { session.old.queue ≢ [] }
    ensures fits { StopFits result }
    ensures stops { Stops (job_by (W.writing work.old) (W.steps work.old)) (W.stands work.old)
        (λ calls. MakesMore (L.calls links.old) (L.calls links.new) calls)
        (λ moments. Tells (C.told clock.old) (C.told clock.new) moments) (Rose (L.losses links.old) (L.losses links.new))
        session.old result }
{
    'turns: for _ in 0..u64::MAX {
        match turn(alloc, session, work, links, clock) {
            Ok(()) => {}
            Err(why) => return why,
        }
    }
    Stop::Memory
}

// Begins a work in a session of its own, starts it, and does its actions.
fn run<W: Work, L: Links, C: Clock>(
    alloc: Global,
    config: SessionConfig,
    work: &mut W,
    links: &mut L,
    clock: &mut C,
) -> Stop
    requires config { IsTrue (config_fits config) }
    ensures fits { StopFits result }
    ensures worked { Unbegun (λ calls. MakesMore (L.calls links.old) (L.calls links.new) calls)
        (λ moments. Tells (C.told clock.old) (C.told clock.new) moments) result
        ⊎ Worked config (job_by (W.writing work.old) (W.steps work.old))
        (λ calls. MakesMore (L.calls links.old) (L.calls links.new) calls)
        (λ moments. Tells (C.told clock.old) (C.told clock.new) moments) (Rose (L.losses links.old) (L.losses links.new)) result }
{
    let mut session = match Session::new(alloc, config) {
        Ok(session) => session,
        Err(_) => return Stop::Memory,
    };
    let now = clock.now();
    match session.begin_work(work, now) {
        Ok(()) => {}
        Err(_) => return Stop::Memory,
    }
    match session.on(work, Input::Start, now) {
        Ok(()) => drive(alloc, &mut session, work, links, clock),
        Err(_) => Stop::Memory,
    }
}

// The same of the work that a task is.
fn run_task<L: Links, C: Clock>(alloc: Global, order: Order, links: &mut L, clock: &mut C) -> Stop
    requires config { IsTrue (config_fits order.config) }
    requires task { TaskFits order.task }
    ensures fits { StopFits result }
    ensures worked { Unbegun (λ calls. MakesMore (L.calls links.old) (L.calls links.new) calls)
        (λ moments. Tells (C.told clock.old) (C.told clock.new) moments) result
        ⊎ Worked order.config (job_of order.task) (λ calls. MakesMore (L.calls links.old) (L.calls links.new) calls)
        (λ moments. Tells (C.told clock.old) (C.told clock.new) moments) (Rose (L.losses links.old) (L.losses links.new)) result }
{
    let Order { config, task } = order;
    match task {
        Task::Add { key, by } => {
            let mut work = Add::new(alloc, key, by);
            run(alloc, config, &mut work, links, clock)
        }
        Task::Put { key, value } => {
            let mut work = Put::new(alloc, key, value);
            run(alloc, config, &mut work, links, clock)
        }
        Task::Get { key } => {
            let mut work = Get::new(alloc, key);
            run(alloc, config, &mut work, links, clock)
        }
    }
}

// ---- the line

// Writes the line of a work that was committed, and flushes it.
fn tell<K: Sink>(alloc: Global, done: &WorkDone, output: &mut K) -> ClientStatus
    requires fits { IsTrue (rows_fit done.now.rows) }
    ensures says { SaysBy (λ bytes. Appends (K.held output.old) (K.held output.new) bytes) (Ok done.now) result }
    ensures flushed { result ≡ ClientStatus.Done → IsAllFlushed (K.held output.new) (K.flushed output.new) }
    ensures failed { result ≡ ClientStatus.WriteFault → Rose (K.faults output.old) (K.faults output.new) }
{
    let line = match done_line(alloc, done) {
        Ok(line) => line,
        Err(_) => return ClientStatus::Memory,
    };
    match output.write(line.as_str().as_bytes()) {
        Ok(()) => {}
        Err(SinkError::Failed) => return ClientStatus::WriteFault,
        Err(SinkError::Memory) => return ClientStatus::Memory,
    }
    match output.flush() {
        Ok(()) => ClientStatus::Done,
        Err(_) => ClientStatus::WriteFault,
    }
}

/// Runs one work of a client: in a session of its own, which its words make, over these links, with one reading of the clock for its
/// start and one for each thing that a link gives. The words are user, password, bookmark and seed, of which `-` stands for none; a
/// router; and `add KEY N`, `put KEY VALUE` or `get KEY`. Where the work was committed, `ok ATTEMPTS BOOKMARK ROWS` and LF are written
/// and flushed. A link call that fails, and a receive of no byte, is a lost link.
pub fn work<L: Links, K: Sink, C: Clock>(
    alloc: Global,
    words: &Words,
    links: &mut L,
    output: &mut K,
    clock: &mut C,
) -> ClientStatus
    // The words are bad exactly where they ask for no work.
    ensures bad_words { result ≡ ClientStatus.BadWords → (config : SessionConfig) (job : Job) → Asks words.now config job → ⊥ }
    ensures good_words { result ≢ ClientStatus.BadWords → AsksSome words.now }
    // Then no object is touched.
    ensures untouched { result ≡ ClientStatus.BadWords
        → (links.new ≡ links.old) × (output.new ≡ output.old) × (clock.new ≡ clock.old) }
    ensures worked { result ≢ ClientStatus.BadWords → WorkedBy words.now
        (λ calls. MakesMore (L.calls links.old) (L.calls links.new) calls)
        (λ moments. Tells (C.told clock.old) (C.told clock.new) moments)
        (λ bytes. Appends (K.held output.old) (K.held output.new) bytes) (Rose (L.losses links.old) (L.losses links.new)) result }
    ensures flushed { result ≡ ClientStatus.Done → IsAllFlushed (K.held output.new) (K.flushed output.new) }
    ensures write_fault { result ≡ ClientStatus.WriteFault → Rose (K.faults output.old) (K.faults output.new) }
{
    let order = match order_in(alloc, words) {
        Ok(order) => order,
        Err(WordsError::Bad) => return ClientStatus::BadWords,
        Err(WordsError::Memory) => return ClientStatus::Memory,
    };
    match run_task(alloc, order, links, clock) {
        Stop::Ended(Ok(done)) => tell(alloc, &done, output),
        Stop::Ended(Err(error)) => ClientStatus::Failed(error),
        Stop::Memory => ClientStatus::Memory,
    }
}
