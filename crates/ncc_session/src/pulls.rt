//! Rows of results: PULL and DISCARD.

ghost use Rattle.std.specs.Prelude.{◌≡◌, ◌≤◌, ◌<◌, ◌+◌, ◌++◌, ◌∷◌, [], OnOk, OnErr, IfOk, IsTrue, Some, None, length, take, drop, map, slice_get};
ghost use Rattle.std.specs.List.{list_all};
ghost use Rattle.ncc_pack.specs.Writing.{Begins};
ghost use Rattle.ncc_pack.specs.Fits.{fits_text};
ghost use Rattle.ncc_store.specs.Exec.{call_of};
ghost use Rattle.ncc_store.specs.Rows.{row_keeps};
ghost use Rattle.ncc_bolt.specs.declared.message.Response.TheVariants as s;
ghost use Rattle.ncc_session.specs.Core.{place_of, tx_of};
ghost use Rattle.ncc_session.specs.Question.{bytes_of};
ghost use Rattle.ncc_session.specs.Replies.{reply};
ghost use Rattle.ncc_session.specs.Took.{Took};
ghost use Rattle.ncc_session.specs.Turns.{rows_at, taken, are_left, pulled, records, kind_in, open_state};
ghost use Rattle.ncc_session.specs.Turns.{goes_on, pulls_wish, pulls, ends_step};

use crate::checks::{Wish, read_wish};
use crate::phase::{Core, Phase, Pulled, Transaction};
use crate::refusal::Halt;
use crate::reply;
use crate::requests::{end_tx, fail, go};
use crate::state::ConnState;
use ncc_bolt::{Response, write_row};
use ncc_chunk::chunk;
use ncc_pack::{Bytes, Dict, Memory, Rows, Values};
use ncc_store::Step;
use std::alloc::{AllocError, Global};

/// The rows of a result, from one of them on.
fn rows_from(told: &[Rows], number: usize, next: usize) -> &[Values]
    ensures rows { result.now ≡ rows_at told.now number next }
    ensures room { next + length result.now ≤ usize.MAX }
{
    if number >= told.len() {
        return &[];
    }
    let rows = told[number].as_slice();
    if next >= rows.len() {
        return &[];
    }
    &rows[next..]
}

/// Those of the rows that are taken.
fn share(rows: &[Values], count: Option<u64>) -> &[Values]
    ensures { result.now ≡ taken count rows.now }
{
    match count {
        None => rows,
        Some(count) => {
            if count < rows.len() as u64 {
                &rows[..count as usize]
            } else {
                rows
            }
        }
    }
}

/// Says whether more rows are left than are taken.
fn more_than(rows: &[Values], count: Option<u64>) -> bool
    ensures { result ≡ are_left count rows.now }
{
    match count {
        None => false,
        Some(count) => count < rows.len() as u64,
    }
}

/// Writes the RECORD of a row. An `Err` leaves the bytes as they were.
#[tactic(auto, using(crate::proofs::Written::answer_some, crate::proofs::Written::one_output))]
fn put_row(alloc: Global, row: &Values, out: &mut Bytes) -> Result<(), Memory>
    requires { IsTrue (row_keeps row.now) }
    ensures ok { OnOk result (out.new ≡ out.old ++ bytes_of (reply (s.Row row.now) ∷ [])) }
    ensures err { OnErr result (out.new ≡ out.old) }
{
    let mut message = Bytes::new(alloc);
    write_row(row, &mut message)?;
    chunk(message.as_slice(), out)
}

/// Writes the RECORDs of rows. An `Err` may leave some of them.
fn put_rows(alloc: Global, rows: &[Values], out: &mut Bytes) -> Result<(), Memory>
    requires { IsTrue (list_all row_keeps rows.now) }
    ensures ok { OnOk result (out.new ≡ out.old ++ bytes_of (map (λ row. reply (s.Row row)) rows.now)) }
    ensures err { OnErr result (Begins out.old out.new) }
{
    for row in rows {
        put_row(alloc, row, out)?;
    }
    Ok(())
}

/// The same for a PULL, and nothing for a DISCARD.
fn put_records(alloc: Global, keep: bool, rows: &[Values], out: &mut Bytes) -> Result<(), Memory>
    requires { IsTrue (list_all row_keeps rows.now) }
    ensures ok { OnOk result (out.new ≡ out.old ++ bytes_of (records keep rows.now)) }
    ensures err { OnErr result (Begins out.old out.new) }
{
    if keep {
        put_rows(alloc, rows, out)
    } else {
        Ok(())
    }
}

/// Notes that so many rows of a result were pulled.
fn note(tx: &mut Transaction, wish: Wish, count: usize, more: bool)
    requires room { wish.next + count ≤ usize.MAX }
    requires here { wish.number < length tx.old.results.items }
    ensures { tx_of tx.new ≡ pulled (tx_of tx.old) wish count more }
{
    tx.results[wish.number] = Pulled {
        next: wish.next + count,
        ended: !more,
    };
    if !more {
        tx.unended = tx.unended.saturating_sub(1);
    }
}

/// The kind of a step, by its number.
pub fn kind_at(steps: &[Step], number: usize) -> &'static str
    ensures exact { result.now ≡ kind_in (map call_of steps.now) number }
    ensures fits { IsTrue (fits_text result.now) }
{
    if number >= steps.len() {
        return "";
    }
    reply::kind(&steps[number].statement)
}

fn open_state(unended: usize) -> ConnState
    ensures { result ≡ open_state unended }
{
    if unended == 0 {
        ConnState::TxReady
    } else {
        ConnState::TxStreaming
    }
}

/// Behind the last row of a result in a transaction of several steps.
fn end_step(
    alloc: Global,
    core: &mut Core,
    tx: Transaction,
    number: usize,
    out: &mut Bytes,
) -> Result<(), Memory>
    ensures ok { OnOk result (Took (ends_step (place_of core.old) (tx_of tx) number) out.old (place_of core.new) out.new) }
    ensures err { OnErr result (out.new ≡ out.old) }
{
    let meta = reply::end(alloc, kind_at(tx.steps.as_slice(), number))?;
    let state = open_state(tx.unended);
    let response = Response::Success { meta };
    go(alloc, core, state, Phase::Opened(tx), &response, out)
}

/// Behind rows: more are left, or the result ends.
fn go_on(
    alloc: Global,
    core: &mut Core,
    tx: Transaction,
    number: usize,
    more: bool,
    out: &mut Bytes,
) -> Result<(), Memory>
    ensures ok { OnOk result (Took (goes_on (place_of core.old) (tx_of tx) number more) out.old (place_of core.new) out.new) }
    ensures err { OnErr result (out.new ≡ out.old) }
{
    if more {
        let meta = reply::more(alloc)?;
        let state = core.state;
        let response = Response::Success { meta };
        return go(alloc, core, state, Phase::Opened(tx), &response, out);
    }
    match core.state {
        ConnState::Streaming => end_tx(alloc, core, tx, out),
        _ => end_step(alloc, core, tx, number, out),
    }
}

/// Tells rows, or drops them. An `Err` may leave some RECORDs.
fn pull_rows(
    alloc: Global,
    core: &mut Core,
    tx: Transaction,
    keep: bool,
    wish: Wish,
    out: &mut Bytes,
) -> Result<(), Memory>
    requires here { wish.number < length tx.results.items }
    ensures ok { OnOk result (Took (pulls_wish (place_of core.old) (tx_of tx) keep wish) out.old (place_of core.new) out.new) }
    ensures err { OnErr result (Begins out.old out.new) }
{
    let left = rows_from(tx.told.as_slice(), wish.number, wish.next);
    let rows = share(left, wish.count);
    let more = more_than(left, wish.count);
    put_records(alloc, keep, rows, out)?;
    let count = rows.len();
    let mut tx = tx;
    note(&mut tx, wish, count, more);
    go_on(alloc, core, tx, wish.number, more, out)
}

/// PULL, and DISCARD where nothing is kept.
pub fn pull(
    alloc: Global,
    core: &mut Core,
    tx: Transaction,
    keep: bool,
    extra: &Dict,
    out: &mut Bytes,
) -> Result<(), Memory>
    ensures ok { OnOk result (Took (pulls (place_of core.old) (tx_of tx) keep extra.now) out.old (place_of core.new) out.new) }
    ensures err { OnErr result (out.new ≡ out.old) }
{
    match read_wish(tx.results.as_slice(), extra) {
        Ok(wish) => {
            let start = out.len();
            match pull_rows(alloc, core, tx, keep, wish, out) {
                Ok(()) => Ok(()),
                Err(error) => {
                    out.truncate(start);
                    Err(error)
                }
            }
        }
        Err(Halt::Refused(refusal)) => fail(alloc, core, refusal, out),
        Err(Halt::Memory) => Err(AllocError),
    }
}
