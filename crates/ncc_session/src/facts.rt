//! What each fact does.

ghost use Rattle.std.specs.Prelude.{◌≡◌, ◌++◌, ◌∷◌, [], OnOk, OnErr, IfOk, IsTrue, length, map, min, ◌<◌, ◌+◌, ◌^◌, ◌-◌};
ghost use Rattle.std.specs.List.{list_all};
ghost use Rattle.ncc_bolt.specs.declared.message.Response.TheVariants as s;
ghost use Rattle.ncc_bolt.specs.Writing.{fits_response};
ghost use Rattle.ncc_store.specs.Exec.{call_of};
ghost use Rattle.ncc_store.specs.Rows.{row_keeps, rows_len};
ghost use Rattle.ncc_session.specs.Config.{config_allowed};
ghost use Rattle.ncc_session.specs.Core.{place_of, tx_of, question_of, next_of};
ghost use Rattle.ncc_session.specs.Question.{fits, fits_run};
ghost use Rattle.ncc_session.specs.Took.{Took};
ghost use Rattle.ncc_session.specs.Turns.{with_rows, columns_meta, tells_columns, adds_rows, tells_done, refusal_of};
ghost use Rattle.ncc_session.specs.Turns.{columns_in, streaming, told_meta};
ghost use Rattle.ncc_session.specs.Turns.{after_begin, after_enter, after_step, after_run, after_end, after_leave, after_route, heard};

use crate::ask::{Ask, Fact};
use crate::config::ConnConfig;
use crate::phase::{Behind, Core, Phase, Pulled, Transaction};
use crate::pulls::kind_at;
use crate::refusal::Refusal;
use crate::reply;
use crate::requests::{fail, go, new_transaction, put, rest};
use crate::state::ConnState;
use ncc_bolt::Response;
use ncc_pack::{Bytes, Dict, Memory, Rows, Sequence, Values, values_len};
use ncc_store::{MAX_ROWS_BYTES, Step, Steps};
use ncc_tx::Entry;
use std::alloc::{AllocError, Global};

/// Why a fact fails the request.
fn refusal(fact: &Fact) -> Refusal
    ensures { result ≡ refusal_of fact.now }
{
    match fact {
        Fact::Late { .. } => Refusal::Late,
        Fact::Faulted { fault, .. } => Refusal::Fault(*fault),
        Fact::Stale { .. } => Refusal::Stale,
        Fact::Replaced { .. } => Refusal::Replaced,
        Fact::Unsure { .. } => Refusal::Unsure,
        Fact::Elsewhere => Refusal::Elsewhere,
        Fact::Full { .. } => Refusal::Full,
        _ => Refusal::OutOfPlace,
    }
}

#[tactic(auto, using(crate::proofs::Spellable::none_fits))]
fn after_begin(
    alloc: Global,
    core: &mut Core,
    write: bool,
    fact: &Fact,
    out: &mut Bytes,
) -> Result<(), Memory>
    ensures ok { OnOk result (Took (after_begin (place_of core.old) write fact.now) out.old (place_of core.new) out.new) }
    ensures err { OnErr result (out.new ≡ out.old) }
{
    match fact {
        Fact::Entered { .. } => {
            let meta = Dict::new(alloc);
            let response = Response::Success { meta };
            let phase = Phase::Opened(new_transaction(alloc, write));
            go(alloc, core, ConnState::TxReady, phase, &response, out)
        }
        other => fail(alloc, core, refusal(other), out),
    }
}

/// The list of one step.
fn one_step(alloc: Global, step: Step) -> Result<Steps, Memory>
    ensures { IfOk result (λ ss. map call_of ss ≡ call_of step ∷ []) }
{
    let mut steps = Sequence::new(alloc);
    steps.push(step)?;
    Ok(steps)
}

fn after_enter(
    alloc: Global,
    core: &mut Core,
    write: bool,
    step: Step,
    fact: &Fact,
    out: &mut Bytes,
) -> Result<(), Memory>
    ensures ok { OnOk result (Took (after_enter (place_of core.old) write (call_of step) fact.now) out.old (place_of core.new) out.new) }
    ensures err { OnErr result (out.new ≡ out.old) }
{
    match fact {
        Fact::Entered { .. } => {
            let steps = one_step(alloc, step)?;
            let behind = Behind::Adds(new_transaction(alloc, write));
            put(core, Ask::Run { steps }, behind);
            Ok(())
        }
        other => fail(alloc, core, refusal(other), out),
    }
}

/// How many bytes the short spellings of rows have, at most the greatest u64.
fn rows_bytes(rows: &[Values]) -> u64
    requires { IsTrue (list_all row_keeps rows.now) }
    ensures { result ≡ min (rows_len rows.now) (2 ^ 64 - 1) }
{
    let mut sum: u64 = 0;
    for row in rows {
        sum = sum.saturating_add(values_len(row));
    }
    sum
}

/// The transaction with the rows of its last step. It gives up at 2^64 results, which no memory holds.
fn with_rows(steps: Steps, tx: Transaction, rows: Rows, kept: u64) -> Result<Transaction, Memory>
    requires kept { kept ≡ tx.kept + rows_len rows }
    requires keep { IsTrue (list_all row_keeps rows) }
    ensures { IfOk result (λ t. tx_of t ≡ with_rows (map call_of steps) (tx_of tx) rows) }
{
    let mut tx = tx;
    tx.steps = steps;
    tx.told.push(rows)?;
    tx.results.push(Pulled {
        next: 0,
        ended: false,
    })?;
    tx.unended = match tx.unended.checked_add(1) {
        Some(unended) => unended,
        None => return Err(AllocError),
    };
    tx.kept = kept;
    Ok(tx)
}

/// The columns of the last step.
fn last_columns<'a>(steps: &'a [Step], none: &'a Values) -> &'a Values
    requires { none.now ≡ [] }
    ensures { result.now ≡ columns_in (map call_of steps.now) }
{
    match steps.last() {
        Some(step) => &step.statement.columns,
        None => none,
    }
}

fn told_columns(
    alloc: Global,
    state: ConnState,
    steps: &Steps,
    number: usize,
) -> Result<Dict, Memory>
    requires { number < 2 ^ 63 }
    ensures exact { IfOk result (λ ps. ps ≡ columns_meta state (map call_of steps.now) number) }
    ensures fits { IfOk result (λ ps. IsTrue (fits_response (s.Success ps))) }
{
    let none = Values::new(alloc);
    let columns = last_columns(steps.as_slice(), &none);
    match state {
        ConnState::Ready => reply::run(alloc, columns),
        _ => reply::step(alloc, columns, number as u64),
    }
}

fn streaming(state: ConnState) -> ConnState
    ensures { result ≡ streaming state }
{
    match state {
        ConnState::Ready => ConnState::Streaming,
        _ => ConnState::TxStreaming,
    }
}

fn tell_columns(
    alloc: Global,
    core: &mut Core,
    tx: Transaction,
    number: usize,
    out: &mut Bytes,
) -> Result<(), Memory>
    requires { number < 2 ^ 63 }
    ensures ok { OnOk result (Took (tells_columns (place_of core.old) (tx_of tx) number) out.old (place_of core.new) out.new) }
    ensures err { OnErr result (out.new ≡ out.old) }
{
    let meta = told_columns(alloc, core.state, &tx.steps, number)?;
    let state = streaming(core.state);
    let response = Response::Success { meta };
    go(alloc, core, state, Phase::Opened(tx), &response, out)
}

fn add_rows(
    alloc: Global,
    core: &mut Core,
    steps: Steps,
    tx: Transaction,
    rows: Rows,
    out: &mut Bytes,
) -> Result<(), Memory>
    requires { IsTrue (list_all row_keeps rows) }
    ensures ok { OnOk result (Took (adds_rows (place_of core.old) (map call_of steps) (tx_of tx) rows)
        out.old (place_of core.new) out.new) }
    ensures err { OnErr result (out.new ≡ out.old) }
{
    let kept = tx.kept.saturating_add(rows_bytes(rows.as_slice()));
    if kept > MAX_ROWS_BYTES {
        return fail(alloc, core, Refusal::TooLarge, out);
    }
    let number = tx.told.as_slice().len();
    let tx = with_rows(steps, tx, rows, kept)?;
    tell_columns(alloc, core, tx, number, out)
}

fn after_step(
    alloc: Global,
    core: &mut Core,
    steps: Steps,
    tx: Transaction,
    fact: Fact,
    out: &mut Bytes,
) -> Result<(), Memory>
    requires { IsTrue (fits_run (map call_of steps) fact) }
    ensures ok { OnOk result (Took (after_step (place_of core.old) (map call_of steps) (tx_of tx) fact)
        out.old (place_of core.new) out.new) }
    ensures err { OnErr result (out.new ≡ out.old) }
{
    match fact {
        Fact::Rows { rows, .. } => add_rows(alloc, core, steps, tx, rows, out),
        other => fail(alloc, core, refusal(&other), out),
    }
}

fn after_run(
    alloc: Global,
    core: &mut Core,
    ask: Ask,
    tx: Transaction,
    fact: Fact,
    out: &mut Bytes,
) -> Result<(), Memory>
    requires { IsTrue (fits (question_of ask) fact) }
    ensures ok { OnOk result (Took (after_run (place_of core.old) (question_of ask) (tx_of tx) fact)
        out.old (place_of core.new) out.new) }
    ensures err { OnErr result (out.new ≡ out.old) }
{
    match ask {
        Ask::Run { steps } => after_step(alloc, core, steps, tx, fact, out),
        _ => fail(alloc, core, refusal(&fact), out),
    }
}

fn told_done(
    alloc: Global,
    state: ConnState,
    cluster: u64,
    steps: &Steps,
    at: u64,
) -> Result<Dict, Memory>
    ensures exact { IfOk result (λ ps. ps ≡ told_meta cluster state (map call_of steps.now) at) }
    ensures fits { IfOk result (λ ps. IsTrue (fits_response (s.Success ps))) }
{
    match state {
        ConnState::Streaming => reply::done(alloc, cluster, at, kind_at(steps.as_slice(), 0)),
        _ => reply::commit(alloc, cluster, at),
    }
}

/// The transaction is done: its bookmark is told.
fn tell_done(
    alloc: Global,
    config: &ConnConfig,
    core: &mut Core,
    steps: &Steps,
    at: u64,
    out: &mut Bytes,
) -> Result<(), Memory>
    ensures ok { OnOk result (Took (tells_done config.now (place_of core.old) core.old.state (map call_of steps.now) at)
        out.old (place_of core.new) out.new) }
    ensures err { OnErr result (out.new ≡ out.old) }
{
    let meta = told_done(alloc, core.state, config.members.cluster, steps, at)?;
    rest(alloc, core, ConnState::Ready, meta, out)
}

fn after_end(
    alloc: Global,
    config: &ConnConfig,
    core: &mut Core,
    steps: &Steps,
    fact: &Fact,
    out: &mut Bytes,
) -> Result<(), Memory>
    ensures ok { OnOk result (Took (after_end config.now (place_of core.old) (map call_of steps.now) fact.now)
        out.old (place_of core.new) out.new) }
    ensures err { OnErr result (out.new ≡ out.old) }
{
    match fact {
        Fact::Done { at } => tell_done(alloc, config, core, steps, *at, out),
        Fact::Placed { place } => tell_done(alloc, config, core, steps, *place, out),
        other => fail(alloc, core, refusal(other), out),
    }
}

fn after_leave(
    alloc: Global,
    config: &ConnConfig,
    core: &mut Core,
    ask: &Ask,
    fact: &Fact,
    out: &mut Bytes,
) -> Result<(), Memory>
    ensures ok { OnOk result (Took (after_leave config.now (place_of core.old) (question_of ask.now) fact.now)
        out.old (place_of core.new) out.new) }
    ensures err { OnErr result (out.new ≡ out.old) }
{
    match ask {
        Ask::Leave {
            entry: Entry::Tx { steps, .. },
        } => after_end(alloc, config, core, steps, fact, out),
        _ => fail(alloc, core, refusal(fact), out),
    }
}

fn after_route(
    alloc: Global,
    config: &ConnConfig,
    core: &mut Core,
    fact: &Fact,
    out: &mut Bytes,
) -> Result<(), Memory>
    requires { IsTrue (config_allowed config.now) }
    ensures ok { OnOk result (Took (after_route config.now (place_of core.old) fact.now) out.old (place_of core.new) out.new) }
    ensures err { OnErr result (out.new ≡ out.old) }
{
    match fact {
        Fact::Routed { leader } => {
            let meta = reply::table(alloc, &config.members, *leader, config.ttl)?;
            rest(alloc, core, ConnState::Ready, meta, out)
        }
        other => fail(alloc, core, refusal(other), out),
    }
}

/// Takes a fact that answers the question.
pub fn hear(
    alloc: Global,
    config: &ConnConfig,
    core: &mut Core,
    ask: Ask,
    behind: Behind,
    fact: Fact,
    out: &mut Bytes,
) -> Result<(), Memory>
    requires config { IsTrue (config_allowed config.now) }
    requires fits { IsTrue (fits (question_of ask) fact) }
    ensures ok { OnOk result (Took (heard config.now (place_of core.old) (question_of ask) (next_of behind) fact)
        out.old (place_of core.new) out.new) }
    ensures err { OnErr result (out.new ≡ out.old) }
{
    match behind {
        Behind::Begins { write } => after_begin(alloc, core, write, &fact, out),
        Behind::Runs { write, step } => after_enter(alloc, core, write, step, &fact, out),
        Behind::Adds(tx) => after_run(alloc, core, ask, tx, fact, out),
        Behind::Leaves => after_leave(alloc, config, core, &ask, &fact, out),
        Behind::Routes => after_route(alloc, config, core, &fact, out),
    }
}
