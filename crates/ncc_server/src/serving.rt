//! One connection, from bytes to bytes.

ghost use Rattle.std.specs.Prelude.{◌≡◌, ◌≢◌, ℕ, ◌+◌, ◌^◌, ◌<◌, ◌≤◌, ◌⊎◌, List, [], ◌∷◌, ◌++◌, length, take, Some, None, IfOk, OnOk, IfErr};
ghost use Rattle.std.specs.Prelude.{IsErrOf, IsTrue, IfSome, IfNone, false};
ghost use Rattle.std.specs.Io.KnownBytes.{Appends, Consumes, IsAtEnd};
ghost use Rattle.ncc_base.specs.Clock.{Tells};
ghost use Rattle.ncc_base.specs.Faults.{Rose};
ghost use Rattle.ncc_base.specs.Flushing.{IsAllFlushed};
ghost use Rattle.ncc_session.specs.Config.{config_allowed};
ghost use Rattle.ncc_session.specs.Session.{is_ended};
ghost use Rattle.ncc_server.specs.Answered.{TellsMore};
ghost use Rattle.ncc_server.specs.Serving.{IsOwnEnd, Served, worn};
ghost use Rattle.ncc_session.specs.declared.config.ConnConfig.{ConnConfig};
ghost use Rattle.ncc_session.specs.Talk.{Stands, asked};
ghost use Rattle.ncc_server.specs.Live.{IsEndOf, IsFresh, IsOver, OverAs, IsLive, Handed, HandedSome, Next, NoAnswer, NotTaken};
ghost use Rattle.ncc_server.specs.Live.{Settled, Unsettled, EndsTurn, GoesTurn, end_of};

use crate::backend::{Backend, BackendError};
use crate::end::ConnEnd;
use ncc_base::{Clock, Sink, SinkError, Source};
use ncc_session::{Conn, ConnConfig, ConnState, ConnStop};
use std::alloc::Global;

// How many bytes are read at once.
const PIECE: usize = 8192;

// A connection that took more bytes is worn.
const WORN: u64 = 1 << 40;

/// Why a connection is given up.
#[derive(Clone, Copy, PartialEq, Eq)]
pub enum Broken {
    /// A write or a flush failed.
    Write,
    /// The backend failed.
    Backend,
    /// There was no memory.
    Memory,
}

// How a connection ends that is given up.
fn end_by(broken: Broken) -> ConnEnd
    ensures { result ≡ end_of broken }
{
    match broken {
        Broken::Write => ConnEnd::WriteFault,
        Broken::Backend => ConnEnd::BackendFault,
        Broken::Memory => ConnEnd::Memory,
    }
}

// Writes bytes, and flushes them. Where there are none, it leaves the sink alone.
fn put<K: Sink>(bytes: &[u8], output: &mut K) -> Result<(), Broken>
    ensures ok { OnOk result (Appends (K.held output.old) (K.held output.new) bytes.now) }
    ensures flushed { OnOk result (((bytes.now ≡ []) × (output.new ≡ output.old))
        ⊎ IsAllFlushed (K.held output.new) (K.flushed output.new)) }
    ensures err { IfErr result (λ b. (count : ℕ) × Appends (K.held output.old) (K.held output.new) (take count bytes.now)) }
    ensures written { IfErr result (λ b. b ≢ Broken.Backend) }
    ensures never_falls { K.faults output.old ≤ K.faults output.new }
    ensures failed { IsErrOf result Broken.Write → Rose (K.faults output.old) (K.faults output.new) }
{
    if bytes.is_empty() {
        return Ok(());
    }
    match output.write(bytes) {
        Ok(()) => {}
        Err(SinkError::Failed) => return Err(Broken::Write),
        Err(SinkError::Memory) => return Err(Broken::Memory),
    }
    match output.flush() {
        Ok(()) => Ok(()),
        Err(_) => Err(Broken::Write),
    }
}

// Writes what the session wrote since the last time, and flushes it.
fn put_out<K: Sink>(conn: &mut Conn, output: &mut K) -> Result<(), Broken>
    ensures ok { OnOk result (Handed (λ bytes. Appends (K.held output.old) (K.held output.new) bytes)
        (output.new ≡ output.old) (IsAllFlushed (K.held output.new) (K.flushed output.new)) conn.old conn.new) }
    ensures err { IfErr result (λ b. HandedSome (λ bytes. Appends (K.held output.old) (K.held output.new) bytes) conn.old b) }
    ensures never_falls { K.faults output.old ≤ K.faults output.new }
    ensures failed { IsErrOf result Broken.Write → Rose (K.faults output.old) (K.faults output.new) }
{
    put(conn.out(), output)?;
    conn.clear_out();
    Ok(())
}

// Answers the question that waits: one reading of the clock, one answer. Says whether one waited.
fn answer_next<B: Backend, C: Clock>(
    conn: &mut Conn,
    wait: u64,
    backend: &mut B,
    clock: &mut C,
) -> Result<bool, Broken>
    requires live { IsLive conn.old }
    requires wait { wait ≤ 86_400_000 }
    ensures ok { IfOk result (λ more. Next wait (λ answers. TellsMore (B.told backend.old) (B.told backend.new) answers)
        (λ moments. Tells (C.told clock.old) (C.told clock.new) moments) conn.old conn.new more) }
    ensures err { IfErr result (λ b. NoAnswer (λ answers. TellsMore (B.told backend.old) (B.told backend.new) answers)
        (λ moments. Tells (C.told clock.old) (C.told clock.new) moments) conn.old b
        ⊎ NotTaken wait (λ answers. TellsMore (B.told backend.old) (B.told backend.new) answers)
        (λ moments. Tells (C.told clock.old) (C.told clock.new) moments) conn.old conn.new b) }
    ensures never_falls { B.faults backend.old ≤ B.faults backend.new }
    ensures failed { IsErrOf result Broken.Backend → Rose (B.faults backend.old) (B.faults backend.new) }
{
    let fact = match conn.ask() {
        None => return Ok(false),
        Some(ask) => {
            let deadline = clock.now() + wait;
            match backend.answer(ask, deadline) {
                Ok(fact) => fact,
                Err(BackendError::Failed) => return Err(Broken::Backend),
                Err(BackendError::Memory) => return Err(Broken::Memory),
            }
        }
    };
    match conn.tell(fact) {
        Ok(()) => Ok(true),
        Err(_) => Err(Broken::Memory),
    }
}

// Writes what there is, and answers each question behind what was written before it, until none waits.
fn settle<K: Sink, B: Backend, C: Clock>(
    conn: &mut Conn,
    wait: u64,
    output: &mut K,
    backend: &mut B,
    clock: &mut C,
) -> Result<(), Broken>
    requires live { IsLive conn.old }
    requires wait { wait ≤ 86_400_000 }
    ensures ok { OnOk result (Settled wait (λ bytes. Appends (K.held output.old) (K.held output.new) bytes)
        (λ answers. TellsMore (B.told backend.old) (B.told backend.new) answers)
        (λ moments. Tells (C.told clock.old) (C.told clock.new) moments)
        (output.new ≡ output.old) (IsAllFlushed (K.held output.new) (K.flushed output.new)) [] conn.old conn.new) }
    ensures err { IfErr result (λ b. Unsettled wait (λ bytes. Appends (K.held output.old) (K.held output.new) bytes)
        (λ answers. TellsMore (B.told backend.old) (B.told backend.new) answers)
        (λ moments. Tells (C.told clock.old) (C.told clock.new) moments)
        (output.new ≡ output.old) (IsAllFlushed (K.held output.new) (K.flushed output.new)) [] conn.old b) }
    ensures sink_never_falls { K.faults output.old ≤ K.faults output.new }
    ensures write_failed { IsErrOf result Broken.Write → Rose (K.faults output.old) (K.faults output.new) }
    ensures backend_never_falls { B.faults backend.old ≤ B.faults backend.new }
    ensures answer_failed { IsErrOf result Broken.Backend → Rose (B.faults backend.old) (B.faults backend.new) }
{
    'questions: for _ in 0..u64::MAX {
        match put_out(conn, output) {
            Ok(()) => {}
            Err(broken) => return Err(broken),
        }
        match answer_next(conn, wait, backend, clock) {
            Ok(true) => {}
            Ok(false) => return Ok(()),
            Err(broken) => return Err(broken),
        }
    }
    Err(Broken::Memory)
}

// Handles one piece of the client's bytes.
fn take_piece<K: Sink, B: Backend, C: Clock>(
    conn: &mut Conn,
    piece: &[u8],
    wait: u64,
    output: &mut K,
    backend: &mut B,
    clock: &mut C,
) -> Result<(), Broken>
    requires live { IsLive conn.old }
    requires none { asked conn.old ≡ None }
    requires wait { wait ≤ 86_400_000 }
    ensures ok { OnOk result (Settled wait (λ bytes. Appends (K.held output.old) (K.held output.new) bytes)
        (λ answers. TellsMore (B.told backend.old) (B.told backend.new) answers)
        (λ moments. Tells (C.told clock.old) (C.told clock.new) moments)
        (output.new ≡ output.old) (IsAllFlushed (K.held output.new) (K.flushed output.new)) piece.now conn.old conn.new) }
    ensures err { IfErr result (λ b. Unsettled wait (λ bytes. Appends (K.held output.old) (K.held output.new) bytes)
        (λ answers. TellsMore (B.told backend.old) (B.told backend.new) answers)
        (λ moments. Tells (C.told clock.old) (C.told clock.new) moments)
        (output.new ≡ output.old) (IsAllFlushed (K.held output.new) (K.flushed output.new)) piece.now conn.old b) }
    ensures sink_never_falls { K.faults output.old ≤ K.faults output.new }
    ensures write_failed { IsErrOf result Broken.Write → Rose (K.faults output.old) (K.faults output.new) }
    ensures backend_never_falls { B.faults backend.old ≤ B.faults backend.new }
    ensures answer_failed { IsErrOf result Broken.Backend → Rose (B.faults backend.old) (B.faults backend.new) }
{
    match conn.feed(piece) {
        Ok(()) => settle(conn, wait, output, backend, clock),
        Err(_) => Err(Broken::Memory),
    }
}

// How the connection ended, where the session has.
fn ended(state: &ConnState) -> Option<ConnEnd>
    ensures some { IfSome result (λ end. IsEndOf state.now end) }
    ensures none { IfNone result (is_ended state.now ≡ false) }
{
    match *state {
        ConnState::Ended(ConnStop::Goodbye) => Some(ConnEnd::Closed),
        ConnState::Ended(ConnStop::Refused) => Some(ConnEnd::Refused),
        ConnState::Ended(ConnStop::BadMagic) => Some(ConnEnd::BadMagic),
        ConnState::Ended(ConnStop::NoVersion) => Some(ConnEnd::NoVersion),
        ConnState::Ended(ConnStop::Malformed { message, at, cause }) => {
            Some(ConnEnd::Malformed { message, at, cause })
        }
        ConnState::Ended(ConnStop::MessageTooLong { message }) => {
            Some(ConnEnd::MessageTooLong { message })
        }
        _ => None,
    }
}

// How the connection ended, where its bytes have: between messages, or elsewhere.
fn over(conn: &Conn) -> ConnEnd
    requires live { is_ended conn.now.place.state ≡ false }
    requires none { asked conn.now ≡ None }
    ensures so { OverAs conn.now result }
    ensures over { IsOver result }
{
    match conn.state() {
        ConnState::Shaking => ConnEnd::Truncated,
        _ => {
            if conn.idle() {
                ConnEnd::Closed
            } else {
                ConnEnd::Truncated
            }
        }
    }
}

// One read, and what comes of it: how many bytes there were, or how the connection ended.
fn turn<S: Source, K: Sink, B: Backend, C: Clock>(
    conn: &mut Conn,
    buffer: &mut [u8],
    wait: u64,
    input: &mut S,
    output: &mut K,
    backend: &mut B,
    clock: &mut C,
) -> Result<usize, ConnEnd>
    requires live { IsLive conn.old }
    requires none { asked conn.old ≡ None }
    requires goes { is_ended conn.old.place.state ≡ false }
    requires room { 0 < length buffer.old }
    requires wait { wait ≤ 86_400_000 }
    ensures room { length buffer.new ≡ length buffer.old }
    ensures bound { IfOk result (λ count. count ≤ length buffer.old) }
    ensures ok { IfOk result (λ count. GoesTurn wait (λ bytes. Consumes (S.left input.old) (S.left input.new) bytes)
        (λ bytes. Appends (K.held output.old) (K.held output.new) bytes)
        (λ answers. TellsMore (B.told backend.old) (B.told backend.new) answers)
        (λ moments. Tells (C.told clock.old) (C.told clock.new) moments)
        (output.new ≡ output.old) (IsAllFlushed (K.held output.new) (K.flushed output.new)) count conn.old conn.new) }
    ensures err { IfErr result (λ end. EndsTurn wait (λ bytes. Consumes (S.left input.old) (S.left input.new) bytes)
        (λ bytes. Appends (K.held output.old) (K.held output.new) bytes)
        (λ answers. TellsMore (B.told backend.old) (B.told backend.new) answers)
        (λ moments. Tells (C.told clock.old) (C.told clock.new) moments)
        (IsAtEnd (S.left input.new)) (output.new ≡ output.old) (IsAllFlushed (K.held output.new) (K.flushed output.new)) conn.old end) }
    ensures source_never_falls { S.faults input.old ≤ S.faults input.new }
    ensures read_failed { IsErrOf result ConnEnd.ReadFault → Rose (S.faults input.old) (S.faults input.new) }
    ensures sink_never_falls { K.faults output.old ≤ K.faults output.new }
    ensures write_failed { IsErrOf result ConnEnd.WriteFault → Rose (K.faults output.old) (K.faults output.new) }
    ensures backend_never_falls { B.faults backend.old ≤ B.faults backend.new }
    ensures answer_failed { IsErrOf result ConnEnd.BackendFault → Rose (B.faults backend.old) (B.faults backend.new) }
{
    let count = match input.read(buffer) {
        Ok(count) => count,
        Err(_) => return Err(ConnEnd::ReadFault),
    };
    if count == 0 {
        return Err(over(conn));
    }
    match take_piece(conn, &buffer[..count], wait, output, backend, clock) {
        Ok(()) => Ok(count),
        Err(broken) => Err(end_by(broken)),
    }
}

// Serves a new connection, turn after turn.
fn serve<S: Source, K: Sink, B: Backend, C: Clock>(
    conn: &mut Conn,
    wait: u64,
    input: &mut S,
    output: &mut K,
    backend: &mut B,
    clock: &mut C,
) -> ConnEnd
    requires fresh { IsFresh conn.old }
    requires wait { wait ≤ 86_400_000 }
    ensures served { (config : ConnConfig) → Stands conn.old config [] [] [] → Served config wait
        (λ bytes. Consumes (S.left input.old) (S.left input.new) bytes)
        (λ bytes. Appends (K.held output.old) (K.held output.new) bytes)
        (λ answers. TellsMore (B.told backend.old) (B.told backend.new) answers)
        (λ moments. Tells (C.told clock.old) (C.told clock.new) moments)
        (IsAtEnd (S.left input.new)) (IsAllFlushed (K.held output.new) (K.flushed output.new)) result }
    ensures read_fault { result ≡ ConnEnd.ReadFault → Rose (S.faults input.old) (S.faults input.new) }
    ensures write_fault { result ≡ ConnEnd.WriteFault → Rose (K.faults output.old) (K.faults output.new) }
    ensures backend_fault { result ≡ ConnEnd.BackendFault → Rose (B.faults backend.old) (B.faults backend.new) }
{
    let mut buffer = [0u8; PIECE];
    let mut taken: u64 = 0;
    'turns: for _ in 0..WORN + 1 {
        match turn(conn, &mut buffer, wait, input, output, backend, clock) {
            Ok(count) => taken += count as u64,
            Err(end) => return end,
        }
        if let Some(end) = ended(conn.state()) {
            return end;
        }
        if taken > WORN {
            return ConnEnd::Worn;
        }
    }
    ConnEnd::Worn
}

/// Serves one connection: reads the client's bytes, writes what its session answers, and asks the backend what the session asks,
/// until the session or the bytes end. What the session wrote is written and flushed before each question and before each read.
/// The deadline of a question is the clock's moment and `wait`, in milliseconds; `wait` is at most 86,400,000. A failed object ends
/// it, and so does want of memory. It returns where each call on the four objects does.
pub fn serve_conn<S: Source, K: Sink, B: Backend, C: Clock>(
    alloc: Global,
    config: ConnConfig,
    wait: u64,
    input: &mut S,
    output: &mut K,
    backend: &mut B,
    clock: &mut C,
) -> ConnEnd
    requires config { IsTrue (config_allowed config) }
    requires wait { wait ≤ 86_400_000 }
    ensures served { Served config wait (λ bytes. Consumes (S.left input.old) (S.left input.new) bytes)
        (λ bytes. Appends (K.held output.old) (K.held output.new) bytes)
        (λ answers. TellsMore (B.told backend.old) (B.told backend.new) answers)
        (λ moments. Tells (C.told clock.old) (C.told clock.new) moments)
        (IsAtEnd (S.left input.new)) (IsAllFlushed (K.held output.new) (K.flushed output.new)) result }
    ensures read_fault { result ≡ ConnEnd.ReadFault → Rose (S.faults input.old) (S.faults input.new) }
    ensures write_fault { result ≡ ConnEnd.WriteFault → Rose (K.faults output.old) (K.faults output.new) }
    ensures backend_fault { result ≡ ConnEnd.BackendFault → Rose (B.faults backend.old) (B.faults backend.new) }
    // Where the source tells that it has at most 2^40 bytes and no object fails, the connection comes to an end of its own.
    ensures completes { (all : List ℕ) → S.left input.old ≡ Some all → length all ≤ worn
        → (Rose (S.faults input.old) (S.faults input.new) → ⊥) → (Rose (K.faults output.old) (K.faults output.new) → ⊥)
        → (Rose (B.faults backend.old) (B.faults backend.new) → ⊥) → IsOwnEnd result }
{
    let mut conn = match Conn::new(alloc, config) {
        Ok(conn) => conn,
        Err(_) => return ConnEnd::Memory,
    };
    serve(&mut conn, wait, input, output, backend, clock)
}
