//! Attempts: whom a session connects to, and what it does behind each answer.

ghost use Rattle.std.specs.Prelude.{◌≡◌, ◌++◌, ◌≤◌, IfOk, OnOk, IsTrue, Some, true};
ghost use Rattle.ncc_driver.specs.Attempts as t;
ghost use Rattle.ncc_route.specs.Routing as r;
ghost use Rattle.ncc_driver.specs.Config.{texts_fit, config_fits};
ghost use Rattle.ncc_driver.specs.Keeping.{as_text, core_keeps, table_fits, told_fits};
ghost use Rattle.ncc_driver.specs.Fitting.{ends_fit};
ghost use Rattle.ncc_driver.specs.declared.standing.Stage.TheVariants as stage;
ghost use Rattle.ncc_driver.specs.State.{Makes, MakesAnew, MakesWith};
ghost use Rattle.ncc_driver.specs.Requests.{asks};
ghost use Rattle.ncc_driver.specs.Hearing.{shake_told};
ghost use Rattle.ncc_driver.specs.Session.{told_by};
ghost use Rattle.ncc_driver.specs.Talk.{StandsAsked, StandsAt};
ghost use Rattle.ncc_driver.specs.Work.{job_by, step_fits, rows_fit};
ghost use Rattle.ncc_bolt.specs.Writing.{fits_request};

use crate::action::{Action, Last};
use crate::answers::{Told, read_answer, shaken};
use crate::config::SessionConfig;
use crate::ends::{fail, refute, retry, succeed};
use crate::link::Item;
use crate::requests::{Actions, ask, begin, close, hello, pull, put, route, run};
use crate::standing::{Asked, Core, Leg, Stage};
use crate::work::{Work, WorkStep};
use ncc_bolt::Request;
use ncc_pack::{Memory, Rows, Text, Value, Values};
use ncc_route::{Role, Table};
use rand_core::utils::NextWord;
use std::alloc::Global;

fn connect(core: &mut Core, leg: Leg, address: Text, queue: &mut Actions) -> Result<(), Memory>
    ensures ok { OnOk result (Makes (λ p. t.connects p p.core leg address) core.old core.new queue.old.items queue.new.items) }
{
    core.address = address.copy()?;
    core.stage = Stage::Joins(leg);
    put(Action::Connect { address }, queue)
}

/// The address of a role that a word picks.
fn picked(table: &Option<Table>, role: Role, word: u32) -> Result<Option<Text>, Memory>
    requires fits { IsTrue (table_fits table.now) }
    ensures { IfOk result (λ found. r.picked word (t.addresses_in role table.now) ≡ as_text found) }
{
    let Some(table) = table else {
        return Ok(None);
    };
    match table.pick(role, word) {
        Ok(address) => Ok(Some(address.copy()?)),
        Err(_) => Ok(None),
    }
}

fn role_of(writes: bool) -> Role
    ensures { result ≡ t.role_of writes }
{
    if writes { Role::Write } else { Role::Read }
}

/// Connects to the server of the transaction: the next word picks it among the table's of the role.
fn join_server(writes: bool, core: &mut Core, now: u64, queue: &mut Actions) -> Result<(), Memory>
    requires keeps { IsTrue (core_keeps core.old) }
    ensures ok { OnOk result (Makes (λ p. t.joins_server writes p now) core.old core.new queue.old.items queue.new.items) }
{
    let role = role_of(writes);
    let word = core.words.next_word();
    match picked(&core.table, role, word)? {
        Some(address) => connect(core, Leg::Working, address, queue),
        None => {
            core.table = None;
            retry(core, now, Last::NoServer { role }, queue)
        }
    }
}

/// The addresses of routers: those of the last table got, or the given ones.
fn routers<'a>(config: &'a SessionConfig, route: &'a Values) -> &'a Values
    ensures { result.now ≡ t.or_else route.now config.now.routers }
{
    if route.is_empty() {
        &config.routers
    } else {
        route
    }
}

/// The router whose turn it is.
fn router(routers: &Values, connects: u64) -> Result<Option<Text>, Memory>
    requires fits { IsTrue (texts_fit routers.now) }
    ensures { IfOk result (λ found. r.picked connects routers.now ≡ as_text found) }
{
    if routers.is_empty() {
        return Ok(None);
    }
    let routers = routers.as_slice();
    let place = connects % routers.len() as u64;
    match &routers[place as usize] {
        Value::Text(address) => Ok(Some(address.copy()?)),
        _ => unreachable!(),
    }
}

/// Connects to a router. They take turns, over all works of the session.
fn join_router(config: &SessionConfig, core: &mut Core, queue: &mut Actions) -> Result<(), Memory>
    requires keeps { IsTrue (core_keeps core.old) }
    requires allowed { IsTrue (config_fits config.now) }
    ensures ok { OnOk result (Makes (λ p. t.joins_router config.now p) core.old core.new queue.old.items queue.new.items) }
{
    let router = router(routers(config, &core.route), core.connects)?;
    core.connects = core.connects.saturating_add(1);
    match router {
        Some(address) => connect(core, Leg::Routing, address, queue),
        None => Ok(()),
    }
}

fn is_fresh(table: &Option<Table>, now: u64) -> bool
    ensures { result ≡ t.is_fresh now table.now }
{
    match table {
        Some(table) => table.fresh(now),
        None => false,
    }
}

/// Begins an attempt. A table that is fresh at this moment serves it.
pub fn attempt(
    alloc: Global,
    config: &SessionConfig,
    writes: bool,
    core: &mut Core,
    now: u64,
    queue: &mut Actions,
) -> Result<(), Memory>
    requires keeps { IsTrue (core_keeps core.old) }
    requires allowed { IsTrue (config_fits config.now) }
    ensures ok { OnOk result (MakesAnew (λ p. t.attempts config.now writes p now) core.old core.new queue.old.items queue.new.items) }
    ensures keeps { OnOk result (IsTrue (core_keeps core.new)) }
{
    core.attempts = core.attempts.saturating_add(1);
    core.rows = Rows::new(alloc);
    if is_fresh(&core.table, now) {
        join_server(writes, core, now, queue)
    } else {
        join_router(config, core, queue)
    }
}

fn send(
    alloc: Global,
    core: &mut Core,
    asked: Asked,
    request: &Request,
    queue: &mut Actions,
) -> Result<(), Memory>
    requires fits { IsTrue (fits_request request.now) }
    ensures core { OnOk result (core.new ≡ record core.old { stage = stage.Awaits asked }) }
    ensures queue { OnOk result (queue.new.items ≡ queue.old.items ++ asks request.now) }
{
    core.stage = Stage::Awaits(asked);
    ask(alloc, request, queue)
}

/// Does the next step of the work.
fn take_step(
    alloc: Global,
    core: &mut Core,
    step: WorkStep,
    queue: &mut Actions,
) -> Result<(), Memory>
    requires fits { IsTrue (step_fits step) }
    ensures ok { OnOk result (Makes (λ p. t.takes_step p step) core.old core.new queue.old.items queue.new.items) }
{
    match step {
        WorkStep::Run { query, params } => {
            send(alloc, core, Asked::Run, &run(alloc, query, params), queue)
        }
        WorkStep::Commit => send(alloc, core, Asked::Commit, &Request::Commit, queue),
    }
}

fn follow_hello(
    alloc: Global,
    writes: bool,
    core: &mut Core,
    leg: Leg,
    queue: &mut Actions,
) -> Result<(), Memory>
    requires keeps { IsTrue (core_keeps core.old) }
    ensures ok { OnOk result (Makes (λ p. t.follows_hello writes p leg) core.old core.new queue.old.items queue.new.items) }
{
    match leg {
        Leg::Routing => {
            let request = route(alloc, &core.address)?;
            send(alloc, core, Asked::Route, &request, queue)
        }
        Leg::Working => {
            let request = begin(alloc, &core.bookmarks, writes)?;
            send(alloc, core, Asked::Begin, &request, queue)
        }
    }
}

/// Goes on behind an answer that says that all went well.
fn follow<W: Work>(
    alloc: Global,
    config: &SessionConfig,
    work: &mut W,
    core: &mut Core,
    asked: Asked,
    queue: &mut Actions,
) -> Result<(), Memory>
    requires at { core.old.stage ≡ stage.Awaits asked }
    requires keeps { IsTrue (core_keeps core.old) }
    requires allowed { IsTrue (config_fits config.now) }
    requires stands { StandsAsked asked (W.stands work.old) }
    ensures ok { OnOk result (MakesWith (W.stands work.old) (W.stands work.new)
        (λ p. t.follows config.now (job_by (W.writing work.old) (W.steps work.old)) p asked)
        core.old core.new queue.old.items queue.new.items) }
    ensures stands { OnOk result (StandsAt core.new.stage (W.stands work.new)) }
    ensures writing { W.writing work.new ≡ W.writing work.old }
    ensures steps { W.steps work.new ≡ W.steps work.old }
{
    match asked {
        Asked::Shake(leg) => {
            let request = hello(alloc, &config.auth, &core.address)?;
            send(alloc, core, Asked::Hello(leg), &request, queue)
        }
        Asked::Hello(leg) => follow_hello(alloc, work.writes(), core, leg, queue),
        Asked::Begin => {
            work.start();
            let step = work.next(None)?;
            take_step(alloc, core, step, queue)
        }
        Asked::Run => {
            core.rows = Rows::new(alloc);
            send(alloc, core, Asked::Pull, &pull(alloc)?, queue)
        }
        Asked::Pull => {
            let step = work.next(Some(&core.rows))?;
            take_step(alloc, core, step, queue)
        }
        Asked::Route => Ok(()),
        Asked::Commit => Ok(()),
    }
}

/// Keeps a table, and connects to the server of the transaction.
fn keep_table(
    alloc: Global,
    writes: bool,
    core: &mut Core,
    now: u64,
    table: Table,
    queue: &mut Actions,
) -> Result<(), Memory>
    requires keeps { IsTrue (core_keeps core.old) }
    requires fits { IsTrue (table_fits (Some table)) }
    ensures ok { OnOk result (Makes (λ p. t.keeps_and_joins writes now p table) core.old core.new queue.old.items queue.new.items) }
{
    close(alloc, queue)?;
    core.route = table.route.copy()?;
    core.table = Some(table);
    join_server(writes, core, now, queue)
}

fn told_shake(asked: Asked, bytes: &[u8]) -> Told
    ensures { result ≡ shake_told asked bytes.now }
{
    match asked {
        Asked::Shake(_) => shaken(bytes),
        _ => Told::Bad,
    }
}

/// What an item of the link tells of the request.
fn told_by(alloc: Global, core: &Core, asked: Asked, now: u64, item: Item) -> Result<Told, Memory>
    requires fits { IsTrue (rows_fit core.now.rows) }
    ensures exact { IfOk result (λ told. told ≡ told_by asked now core.now.rows item) }
    ensures fits { IfOk result (λ told. IsTrue (told_fits core.now.rows told)) }
{
    match item {
        Item::Shaken(bytes) => Ok(told_shake(asked, bytes.as_slice())),
        Item::Message(message) => read_answer(alloc, asked, now, &core.rows, message.as_slice()),
        Item::TooLong => Ok(Told::Bad),
    }
}

/// Goes on behind an item of the link, with its number.
pub fn answer<W: Work>(
    alloc: Global,
    config: &SessionConfig,
    work: &mut W,
    core: &mut Core,
    asked: Asked,
    now: u64,
    number: u64,
    item: Item,
    queue: &mut Actions,
) -> Result<(), Memory>
    requires at { core.old.stage ≡ stage.Awaits asked }
    requires keeps { IsTrue (core_keeps core.old) }
    requires allowed { IsTrue (config_fits config.now) }
    requires stands { StandsAsked asked (W.stands work.old) }
    requires ends { IsTrue (ends_fit queue.old.items) }
    ensures ok { OnOk result (MakesWith (W.stands work.old) (W.stands work.new)
        (λ p. t.behind config.now (job_by (W.writing work.old) (W.steps work.old)) now p asked number
        (told_by asked now core.old.rows item)) core.old core.new queue.old.items queue.new.items) }
    ensures keeps { OnOk result (IsTrue (core_keeps core.new)) }
    ensures ends { OnOk result (IsTrue (ends_fit queue.new.items)) }
    ensures stands { OnOk result (StandsAt core.new.stage (W.stands work.new)) }
    ensures writing { W.writing work.new ≡ W.writing work.old }
    ensures steps { W.steps work.new ≡ W.steps work.old }
{
    match told_by(alloc, core, asked, now, item)? {
        Told::Done => follow(alloc, config, work, core, asked, queue),
        Told::Row(fields) => {
            core.rows.push(fields)?;
            Ok(())
        }
        Told::Routed(table) => keep_table(alloc, work.writes(), core, now, table, queue),
        Told::Committed(bookmark) => succeed(alloc, core, bookmark, queue),
        Told::Failed(code) => fail(alloc, core, now, code, queue),
        Told::Bad => refute(alloc, core, number, queue),
    }
}
