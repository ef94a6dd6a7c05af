//! Sessions of clients, whose questions are answered at once.

ghost use Rattle.std.specs.Prelude.{◌<◌, ℕ, IfOk, IsTrue};
ghost use Rattle.ncc_session.specs.Core.{question_of};
ghost use Rattle.ncc_session.specs.Question.{fits};
ghost use Rattle.ncc_server.specs.Answered.{IsPast};
ghost use Rattle.ncc_store.specs.Rows.{rows_keep};

use ncc_pack::{Memory, Rows, Sequence, Value};
use ncc_route::{Auth, Members};
use ncc_session::{Ask, Conn, ConnConfig, ConnState, Fact};
use ncc_store::rows_keep;
use ncc_tx::Entry;
use std::alloc::{AllocError, Global};

/// What a connection is told when it opens.
pub(crate) fn config_of(alloc: Global) -> ConnConfig {
    ConnConfig {
        conn: 1,
        auth: Auth::Nobody,
        members: Members {
            cluster: 1,
            cores: Sequence::new(alloc),
            replicas: Sequence::new(alloc),
        },
        ttl: 300,
    }
}

/// One row with the number 1.
fn one_row(alloc: Global) -> Result<Rows, Memory> {
    let mut row = Sequence::new(alloc);
    row.push(Value::Int(1))?;
    let mut rows = Sequence::new(alloc);
    rows.push(row)?;
    Ok(rows)
}

/// Rows of a step, told at once.
fn ready_rows(alloc: Global) -> Result<Rows, Memory>
    ensures keep { IfOk result (λ rows. IsTrue (rows_keep rows)) }
{
    let rows = one_row(alloc)?;
    if !rows_keep(&rows) {
        return Err(AllocError);
    }
    Ok(rows)
}

/// A fact that is told at once.
pub(crate) fn ready_fact(alloc: Global, ask: &Ask) -> Result<Fact, Memory>
    ensures fits { IfOk result (λ fact. IsTrue (fits (question_of ask.now) fact)) }
    ensures past { IfOk result (λ fact. (deadline : ℕ) → IsPast deadline fact) }
{
    let writes = ask.writes();
    match ask {
        Ask::Enter { .. } => Ok(Fact::Entered { at: 0 }),
        Ask::Run { .. } => Ok(Fact::Rows {
            at: 0,
            rows: ready_rows(alloc)?,
        }),
        Ask::Leave { entry } => match entry {
            Entry::Noop => Ok(Fact::Done { at: 0 }),
            Entry::Tx { .. } => {
                if writes {
                    Ok(Fact::Placed { place: 1 })
                } else {
                    Ok(Fact::Done { at: 0 })
                }
            }
        },
        Ask::Route => Ok(Fact::Routed { leader: 1 }),
    }
}

/// Answers each question until none waits.
fn answer_all(alloc: Global, conn: &mut Conn) -> Result<(), Memory> {
    for _ in 0..u64::MAX {
        let fact = match conn.ask() {
            None => return Ok(()),
            Some(ask) => ready_fact(alloc, ask)?,
        };
        conn.tell(fact)?;
    }
    Err(AllocError)
}

/// Feeds a piece, answers what is asked, and takes what was written. How many bytes that is.
fn feed_one(alloc: Global, conn: &mut Conn, piece: &[u8]) -> Result<u64, Memory> {
    conn.feed(piece)?;
    answer_all(alloc, conn)?;
    let count = conn.out().len() as u64;
    conn.clear_out();
    Ok(count)
}

/// A connection of a client that has logged in.
fn logged_in(alloc: Global, login: &[u8]) -> Result<Conn, Memory> {
    let config = config_of(alloc);
    if !config.is_allowed() {
        return Err(AllocError);
    }
    let mut conn = Conn::new(alloc, config)?;
    feed_one(alloc, &mut conn, login)?;
    Ok(conn)
}

/// Feeds requests in pieces of so many bytes. Says whether each was answered, and all went well.
fn answered(alloc: Global, login: &[u8], requests: &[u8], piece: usize) -> Result<bool, Memory>
    requires { 0 < piece }
{
    let mut conn = logged_in(alloc, login)?;
    let mut out = 0u64;
    for part in requests.chunks(piece) {
        out = out.saturating_add(feed_one(alloc, &mut conn, part)?);
    }
    Ok(out > 0 && conn.idle() && matches!(conn.state(), ConnState::Ready))
}

/// The number of the passes in which all requests were answered.
pub(crate) fn answer_often(
    alloc: Global,
    login: &[u8],
    requests: &[u8],
    piece: usize,
    times: u32,
) -> Result<u64, Memory>
    requires { 0 < piece }
{
    let mut sum = 0u64;
    for _ in 0..times {
        if answered(alloc, login, requests, piece)? {
            sum = sum.saturating_add(1);
        }
    }
    Ok(sum)
}
