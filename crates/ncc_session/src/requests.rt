//! What each request does.

ghost use Rattle.std.specs.Prelude.{◌≡◌, ◌++◌, ◌∷◌, [], OnOk, OnErr, IsTrue, Some};
ghost use Rattle.ncc_pack.specs.declared.value.Value.TheVariants as v;
ghost use Rattle.ncc_pack.specs.Fits.{fits};
ghost use Rattle.ncc_bolt.specs.declared.message.Response.TheVariants as s;
ghost use Rattle.ncc_bolt.specs.Writing.{fits_response};
ghost use Rattle.ncc_session.specs.Core.{place_of, doing_of, question_of, next_of, tx_of};
ghost use Rattle.ncc_session.specs.Replies.{reply};
ghost use Rattle.ncc_session.specs.Table.{ParamsFit};
ghost use Rattle.ncc_session.specs.Took.{Took, MayLeave};
ghost use Rattle.ncc_session.specs.Turns.{goes, rests, fails, puts, logs_in, runs_alone, begins_one, asks_route, runs_step};
ghost use Rattle.ncc_session.specs.Turns.{ends_tx, answered, refuses, runs_entered, checked_step, without_steps};
ghost use Rattle.ncc_session.specs.Turns.{new_tx, tx_in};
ghost use Rattle.ncc_session.specs.Answers.{Gives};
ghost use Rattle.ncc_store.specs.Exec.{call_of};
ghost use Rattle.std.specs.Prelude.{map, IfOk};

use crate::ask::Ask;
use crate::checks::{Entrance, is_welcome, need, read_entrance, room, step};
use crate::config::ConnConfig;
use crate::fit::some_writes;
use crate::phase::{Behind, Core, Phase, Transaction};
use crate::pulls::pull;
use crate::refusal::{Halt, Refusal};
use crate::reply;
use crate::state::{ConnState, ConnStop};
use crate::table::Turn;
use ncc_bolt::Response;
use ncc_pack::{Bytes, Dict, Memory, Sequence, Text, Value, Values};
use ncc_store::{Step, Steps};
use ncc_tx::{Entry, entry_allowed};
use std::alloc::{AllocError, Global};

/// A transaction that has no step.
pub fn new_transaction(alloc: Global, write: bool) -> Transaction
    ensures { tx_of result ≡ new_tx write }
{
    Transaction {
        write,
        steps: Sequence::new(alloc),
        told: Sequence::new(alloc),
        results: Vec::new(alloc),
        unended: 0,
        kept: 0,
    }
}

/// Takes the open transaction out. Where none is open, there is one that may write.
pub fn take_transaction(alloc: Global, core: &mut Core) -> Transaction
    ensures tx { tx_of result ≡ tx_in (doing_of core.old.phase) }
    ensures core { core.new ≡ record core.old { phase = Phase.Idle } }
{
    match std::mem::replace(&mut core.phase, Phase::Idle) {
        Phase::Opened(tx) => tx,
        _ => new_transaction(alloc, true),
    }
}

/// Goes to a state, and answers.
#[tactic(auto, using(crate::proofs::Written::one_output))]
pub fn go(
    alloc: Global,
    core: &mut Core,
    state: ConnState,
    phase: Phase,
    response: &Response,
    out: &mut Bytes,
) -> Result<(), Memory>
    requires fits { IsTrue (fits_response response.now) }
    ensures ok { OnOk result (Took (goes (place_of core.old) state (doing_of phase) (reply response.now ∷ []))
        out.old (place_of core.new) out.new) }
    ensures err { OnErr result (out.new ≡ out.old) }
{
    reply::put(alloc, response, out)?;
    core.state = state;
    core.phase = phase;
    Ok(())
}

/// Answers SUCCESS, with no transaction.
pub fn rest(
    alloc: Global,
    core: &mut Core,
    state: ConnState,
    meta: Dict,
    out: &mut Bytes,
) -> Result<(), Memory>
    requires fits { IsTrue (fits_response (s.Success meta)) }
    ensures ok { OnOk result (Took (rests (place_of core.old) state meta) out.old (place_of core.new) out.new) }
    ensures err { OnErr result (out.new ≡ out.old) }
{
    go(
        alloc,
        core,
        state,
        Phase::Idle,
        &Response::Success { meta },
        out,
    )
}

/// Answers FAILURE: transaction and results are dropped.
pub fn fail(alloc: Global, core: &mut Core, refusal: Refusal, out: &mut Bytes) -> Result<(), Memory>
    ensures ok { OnOk result (Took (fails (place_of core.old) refusal) out.old (place_of core.new) out.new) }
    ensures err { OnErr result (out.new ≡ out.old) }
{
    let response = reply::failure(alloc, refusal)?;
    go(alloc, core, ConnState::Failed, Phase::Idle, &response, out)
}

/// Answers FAILURE, and ends the connection.
fn refuse(alloc: Global, core: &mut Core, refusal: Refusal, out: &mut Bytes) -> Result<(), Memory>
    ensures ok { OnOk result (Took (refuses (place_of core.old) refusal) out.old (place_of core.new) out.new) }
    ensures err { OnErr result (out.new ≡ out.old) }
{
    let response = reply::failure(alloc, refusal)?;
    let state = ConnState::Ended(ConnStop::Refused);
    go(alloc, core, state, Phase::Idle, &response, out)
}

/// Asks a question. It takes no memory.
pub fn put(core: &mut Core, ask: Ask, behind: Behind)
    ensures { place_of core.new ≡ (puts (place_of core.old) (question_of ask) (next_of behind)).place }
{
    core.phase = Phase::Asks { ask, behind };
}

fn log_in(
    alloc: Global,
    config: &ConnConfig,
    core: &mut Core,
    extra: &Dict,
    out: &mut Bytes,
) -> Result<(), Memory>
    ensures ok { OnOk result (Took (logs_in config.now (place_of core.old) extra.now) out.old (place_of core.new) out.new) }
    ensures err { OnErr result (out.new ≡ out.old) }
{
    if is_welcome(&config.auth, extra) {
        let meta = reply::hello(alloc, config.conn)?;
        rest(alloc, core, ConnState::Ready, meta, out)
    } else {
        refuse(alloc, core, Refusal::Unauthorized, out)
    }
}

/// RUN outside of a transaction, where it may enter.
fn run_entered(
    alloc: Global,
    core: &mut Core,
    entrance: Entrance,
    query: &Text,
    params: Dict,
    out: &mut Bytes,
) -> Result<(), Memory>
    requires { IsTrue (fits (v.Dict params)) }
    ensures ok { OnOk result (Took (runs_entered (place_of core.old) query.now params entrance) out.old (place_of core.new) out.new) }
    ensures err { OnErr result (out.new ≡ out.old) }
{
    let write = entrance.write;
    match step(alloc, write, query, params) {
        Ok(step) => {
            let need = entrance.need;
            put(core, Ask::Enter { need }, Behind::Runs { write, step });
            Ok(())
        }
        Err(Halt::Refused(refusal)) => fail(alloc, core, refusal, out),
        Err(Halt::Memory) => Err(AllocError),
    }
}

/// RUN outside of a transaction.
fn run_alone(
    alloc: Global,
    config: &ConnConfig,
    core: &mut Core,
    query: &Text,
    params: Dict,
    extra: &Dict,
    out: &mut Bytes,
) -> Result<(), Memory>
    requires { IsTrue (fits (v.Dict params)) }
    ensures ok { OnOk result (Took (runs_alone config.now (place_of core.old) query.now params extra.now)
        out.old (place_of core.new) out.new) }
    ensures err { OnErr result (out.new ≡ out.old) }
{
    match read_entrance(alloc, config.members.cluster, extra) {
        Ok(entrance) => run_entered(alloc, core, entrance, query, params, out),
        Err(Halt::Refused(refusal)) => fail(alloc, core, refusal, out),
        Err(Halt::Memory) => Err(AllocError),
    }
}

fn begin(
    alloc: Global,
    config: &ConnConfig,
    core: &mut Core,
    extra: &Dict,
    out: &mut Bytes,
) -> Result<(), Memory>
    ensures ok { OnOk result (Took (begins_one config.now (place_of core.old) extra.now) out.old (place_of core.new) out.new) }
    ensures err { OnErr result (out.new ≡ out.old) }
{
    match read_entrance(alloc, config.members.cluster, extra) {
        Ok(entrance) => {
            let need = entrance.need;
            let write = entrance.write;
            put(core, Ask::Enter { need }, Behind::Begins { write });
            Ok(())
        }
        Err(Halt::Refused(refusal)) => fail(alloc, core, refusal, out),
        Err(Halt::Memory) => Err(AllocError),
    }
}

fn route(
    alloc: Global,
    config: &ConnConfig,
    core: &mut Core,
    bookmarks: Values,
    extra: &Dict,
    out: &mut Bytes,
) -> Result<(), Memory>
    ensures ok { OnOk result (Took (asks_route config.now (place_of core.old) bookmarks extra.now) out.old (place_of core.new) out.new) }
    ensures err { OnErr result (out.new ≡ out.old) }
{
    let listed = Value::List(bookmarks);
    match need(alloc, config.members.cluster, Some(&listed), extra) {
        Ok(_) => {
            put(core, Ask::Route, Behind::Routes);
            Ok(())
        }
        Err(Halt::Refused(refusal)) => fail(alloc, core, refusal, out),
        Err(Halt::Memory) => Err(AllocError),
    }
}

/// Checks 9, 6 and 7.
fn next_step(alloc: Global, tx: &Transaction, query: &Text, params: Dict) -> Result<Step, Halt>
    requires { IsTrue (fits (v.Dict params)) }
    ensures { Gives (λ s. call_of s) result (checked_step (tx_of tx.now) query.now params) }
{
    room(&tx.steps)?;
    step(alloc, tx.write, query, params)
}

/// The transaction's steps with one more, and the transaction without them.
fn take_steps(tx: Transaction, step: Step) -> Result<(Steps, Transaction), Memory>
    ensures steps { IfOk result (λ r. map call_of r.0 ≡ (tx_of tx).steps ++ call_of step ∷ []) }
    ensures tx { IfOk result (λ r. tx_of r.1 ≡ without_steps (tx_of tx)) }
{
    let mut tx = tx;
    let none = Sequence::new(tx.steps.allocator());
    let mut steps = std::mem::replace(&mut tx.steps, none);
    steps.push(step)?;
    Ok((steps, tx))
}

/// RUN in a transaction.
fn run_step(
    alloc: Global,
    core: &mut Core,
    tx: Transaction,
    query: &Text,
    params: Dict,
    out: &mut Bytes,
) -> Result<(), Memory>
    requires { IsTrue (fits (v.Dict params)) }
    ensures ok { OnOk result (Took (runs_step (place_of core.old) (tx_of tx) query.now params) out.old (place_of core.new) out.new) }
    ensures err { OnErr result (out.new ≡ out.old) }
{
    match next_step(alloc, &tx, query, params) {
        Ok(step) => {
            let (steps, tx) = take_steps(tx, step)?;
            put(core, Ask::Run { steps }, Behind::Adds(tx));
            Ok(())
        }
        Err(Halt::Refused(refusal)) => fail(alloc, core, refusal, out),
        Err(Halt::Memory) => Err(AllocError),
    }
}

/// Says whether a transaction may be done: where some step writes, its entry may stand in a log.
#[tactic(auto, unfolding(ncc_tx::specs::Items::entry_allowed))]
fn may_leave(entry: &Entry) -> bool
    ensures { MayLeave entry.now result }
{
    match entry {
        Entry::Noop => true,
        Entry::Tx { steps, .. } => !some_writes(steps.as_slice()) || entry_allowed(entry),
    }
}

/// Ends the transaction.
pub fn end_tx(
    alloc: Global,
    core: &mut Core,
    tx: Transaction,
    out: &mut Bytes,
) -> Result<(), Memory>
    ensures ok { OnOk result (Took (ends_tx (place_of core.old) (tx_of tx)) out.old (place_of core.new) out.new) }
    ensures err { OnErr result (out.new ≡ out.old) }
{
    let Transaction { steps, told, .. } = tx;
    let entry = Entry::Tx { steps, told };
    if may_leave(&entry) {
        put(core, Ask::Leave { entry }, Behind::Leaves);
        Ok(())
    } else {
        fail(alloc, core, Refusal::TooLarge, out)
    }
}

/// Does what a request comes to.
#[tactic(auto, using(crate::proofs::Spellable::none_fits))]
pub fn answer(
    alloc: Global,
    config: &ConnConfig,
    core: &mut Core,
    turn: Turn,
    out: &mut Bytes,
) -> Result<(), Memory>
    requires { ParamsFit turn }
    ensures ok { OnOk result (Took (answered config.now (place_of core.old) turn) out.old (place_of core.new) out.new) }
    ensures err { OnErr result (out.new ≡ out.old) }
{
    match turn {
        Turn::Login { extra } => log_in(alloc, config, core, &extra, out),
        Turn::HelloExpected => refuse(alloc, core, Refusal::HelloExpected, out),
        Turn::End => {
            core.state = ConnState::Ended(ConnStop::Goodbye);
            core.phase = Phase::Idle;
            Ok(())
        }
        Turn::Reset | Turn::Rollback => rest(alloc, core, ConnState::Ready, Dict::new(alloc), out),
        Turn::Ignore => go(
            alloc,
            core,
            ConnState::Failed,
            Phase::Idle,
            &Response::Ignored,
            out,
        ),
        Turn::Run {
            query,
            params,
            extra,
        } => run_alone(alloc, config, core, &query, params, &extra, out),
        Turn::Begin { extra } => begin(alloc, config, core, &extra, out),
        Turn::Route { bookmarks, extra } => route(alloc, config, core, bookmarks, &extra, out),
        Turn::Rows { extra, keep } => {
            let tx = take_transaction(alloc, core);
            pull(alloc, core, tx, keep, &extra, out)
        }
        Turn::Step { query, params } => {
            let tx = take_transaction(alloc, core);
            run_step(alloc, core, tx, &query, params, out)
        }
        Turn::Commit => {
            let tx = take_transaction(alloc, core);
            end_tx(alloc, core, tx, out)
        }
        Turn::OutOfPlace => fail(alloc, core, Refusal::OutOfPlace, out),
    }
}
