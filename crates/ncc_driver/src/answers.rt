//! What a server's message tells of the request whose answer is awaited (Bolt 4.4, "Messages").

ghost use Rattle.std.specs.Prelude.{◌≡◌, ◌≢◌, ◌↔◌, ◌++◌, List, codes, IfOk, IfSome, IfNone, OnOk, IsTrue, Some, None};
ghost use Rattle.std.specs.Option.{option_copied};
ghost use Rattle.ncc_driver.specs.Answers as t;
ghost use Rattle.ncc_driver.specs.Tables.{AreServers, of_role};
ghost use Rattle.ncc_driver.specs.Keeping.{told_fits};
ghost use Rattle.ncc_driver.specs.Work.{rows_fit};

use crate::standing::Asked;
use ncc_bolt::{MessageError, Response, read_response};
use ncc_pack::{Dict, MAX_SIZE, Memory, Rows, Text, Value, Values, values_fit_within};
use ncc_route::Table;
use std::alloc::{AllocError, Global};

/// What a message tells.
#[derive(Drop)]
pub enum Told {
    /// The handshake, HELLO, BEGIN, RUN or PULL is done.
    Done,
    /// A row of PULL's answer, which goes on.
    Row(Values),
    /// ROUTE: a table.
    Routed(Table),
    /// COMMIT: a bookmark.
    Committed(Text),
    /// FAILURE with this code.
    Failed(Text),
    /// No answer of the request.
    Bad,
}

// The levels of a row within a list of rows, of the 32 in all.
const LEVELS: u8 = 31;

const MILLISECONDS: u64 = 1_000;

/// The text at a key.
fn text_at<'a>(meta: &'a Dict, key: &str) -> Option<&'a Text>
    ensures { option_copied result ≡ t.text_in (t.value_at key.now meta.now) }
{
    match meta.get(key) {
        Some(Value::Text(text)) => Some(text),
        _ => None,
    }
}

/// The list of texts at a key.
fn texts_at<'a>(meta: &'a Dict, key: &str) -> Option<&'a Values>
    ensures { option_copied result ≡ t.texts_in (t.value_at key.now meta.now) }
{
    match meta.get(key) {
        Some(Value::List(values)) => {
            if values.texts_alone() {
                Some(values)
            } else {
                None
            }
        }
        _ => None,
    }
}

fn is_server(value: &Value) -> bool
    ensures { IsTrue result ↔ (t.server_in value.now ≢ None) }
{
    match value {
        Value::Dict(pairs) => {
            text_at(pairs, "role").is_some() && texts_at(pairs, "addresses").is_some()
        }
        _ => false,
    }
}

/// Says whether each entry has a role and addresses.
fn are_servers(values: &[Value]) -> bool
    ensures { IsTrue result ↔ (t.servers_in values.now ≢ None) }
{
    for value in values {
        if !is_server(value) {
            return false;
        }
    }
    true
}

/// Appends the addresses of an entry, where it has this role.
fn add_server(value: &Value, role: &str, all: &mut Values) -> Result<(), Memory>
    ensures { (server : t.Served) → t.server_in value.now ≡ Some server
        → OnOk result (all.new ≡ all.old ++ of_role role.now server) }
{
    let Value::Dict(pairs) = value else {
        return Ok(());
    };
    match text_at(pairs, "role") {
        Some(text) => {
            if text.as_str() != role {
                return Ok(());
            }
        }
        None => return Ok(()),
    }
    match texts_at(pairs, "addresses") {
        Some(addresses) => add_all(addresses, all),
        None => Ok(()),
    }
}

fn add_all(more: &Values, all: &mut Values) -> Result<(), Memory>
    ensures { OnOk result (all.new ≡ all.old ++ more.now) }
{
    for value in more.as_slice() {
        all.push(value.copy()?)?;
    }
    Ok(())
}

/// The addresses of a role's entries, joined in their order.
fn addresses_of(alloc: Global, servers: &[Value], role: &str) -> Result<Values, Memory>
    ensures { (all : List t.Served) → t.servers_in servers.now ≡ Some all → IfOk result (λ found. found ≡ t.addresses_of role.now all) }
{
    let mut all = Values::new(alloc);
    for value in servers {
        add_server(value, role, &mut all)?;
    }
    Ok(all)
}

fn seconds_at(meta: &Dict, key: &str) -> Option<u64>
    ensures { result ≡ t.seconds_in (t.value_at key.now meta.now) }
{
    match meta.get(key) {
        Some(Value::Int(number)) => {
            if *number < 0 {
                None
            } else {
                Some(*number as u64)
            }
        }
        _ => None,
    }
}

/// The entries of a table, where each has a role and addresses.
fn servers_at(meta: &Dict) -> Option<&Values>
    ensures some { IfSome result (λ values. AreServers values.now (t.servers_at (t.list_in (t.value_at (codes "servers") meta.now)))) }
    ensures none { IfNone result (t.servers_at (t.list_in (t.value_at (codes "servers") meta.now)) ≡ None) }
{
    match meta.get("servers") {
        Some(Value::List(values)) => {
            if are_servers(values.as_slice()) {
                Some(values)
            } else {
                None
            }
        }
        _ => None,
    }
}

/// The table of ROUTE's answer.
fn table_in(alloc: Global, meta: &Dict, now: u64) -> Result<Option<Table>, Memory>
    ensures { IfOk result (λ r. r ≡ t.table_in now (t.value_at (codes "rt") meta.now)) }
{
    let Some(Value::Dict(table)) = meta.get("rt") else {
        return Ok(None);
    };
    let Some(seconds) = seconds_at(table, "ttl") else {
        return Ok(None);
    };
    let Some(servers) = servers_at(table) else {
        return Ok(None);
    };
    let servers = servers.as_slice();
    Ok(Some(Table {
        got: now,
        ttl: seconds.saturating_mul(MILLISECONDS),
        write: addresses_of(alloc, servers, "WRITE")?,
        read: addresses_of(alloc, servers, "READ")?,
        route: addresses_of(alloc, servers, "ROUTE")?,
    }))
}

fn has_more(meta: &Dict) -> bool
    ensures { result ≡ t.is_true (t.value_at (codes "has_more") meta.now) }
{
    match meta.get("has_more") {
        Some(Value::Bool(more)) => *more,
        _ => false,
    }
}

fn routed(alloc: Global, meta: &Dict, now: u64) -> Result<Told, Memory>
    ensures { IfOk result (λ r. r ≡ t.told_table (t.table_in now (t.value_at (codes "rt") meta.now))) }
{
    match table_in(alloc, meta, now)? {
        Some(table) => Ok(Told::Routed(table)),
        None => Ok(Told::Bad),
    }
}

fn committed(meta: &Dict) -> Result<Told, Memory>
    ensures { IfOk result (λ r. r ≡ t.told_bookmark (t.text_in (t.value_at (codes "bookmark") meta.now))) }
{
    match text_at(meta, "bookmark") {
        Some(bookmark) => Ok(Told::Committed(bookmark.copy()?)),
        None => Ok(Told::Bad),
    }
}

fn failed(meta: &Dict) -> Result<Told, Memory>
    ensures { IfOk result (λ r. r ≡ t.told_code (t.text_in (t.value_at (codes "code") meta.now))) }
{
    match text_at(meta, "code") {
        Some(code) => Ok(Told::Failed(code.copy()?)),
        None => Ok(Told::Bad),
    }
}

fn success(alloc: Global, asked: Asked, now: u64, meta: &Dict) -> Result<Told, Memory>
    ensures { IfOk result (λ r. r ≡ t.success_of asked now meta.now) }
{
    match asked {
        Asked::Route => routed(alloc, meta, now),
        Asked::Commit => committed(meta),
        Asked::Pull => {
            if has_more(meta) {
                Ok(Told::Bad)
            } else {
                Ok(Told::Done)
            }
        }
        Asked::Shake(_) => Ok(Told::Done),
        Asked::Hello(_) => Ok(Told::Done),
        Asked::Begin => Ok(Told::Done),
        Asked::Run => Ok(Told::Done),
    }
}

/// A row of PULL's answer, where it fits as one of its rows. Those before it fit.
fn record(asked: Asked, rows: &Rows, fields: Values) -> Told
    requires fits { IsTrue (rows_fit rows.now) }
    ensures { result ≡ t.record_of asked rows.now fields }
{
    match asked {
        Asked::Pull => {
            if rows.len() < MAX_SIZE && values_fit_within(&fields, LEVELS) {
                Told::Row(fields)
            } else {
                Told::Bad
            }
        }
        _ => Told::Bad,
    }
}

/// What a message tells of the request, behind these rows of the same answer.
pub fn read_answer(
    alloc: Global,
    asked: Asked,
    now: u64,
    rows: &Rows,
    message: &[u8],
) -> Result<Told, Memory>
    requires fits { IsTrue (rows_fit rows.now) }
    ensures exact { IfOk result (λ told. told ≡ t.message_of asked now rows.now message.now) }
    ensures fits { IfOk result (λ told. IsTrue (told_fits rows.now told)) }
{
    let response = match read_response(alloc, message) {
        Ok(response) => response,
        Err(MessageError::Memory) => return Err(AllocError),
        Err(_) => return Ok(Told::Bad),
    };
    match response {
        Response::Success { meta } => success(alloc, asked, now, &meta),
        Response::Row { fields } => Ok(record(asked, rows, fields)),
        Response::Ignored => Ok(Told::Bad),
        Response::Failure { meta } => failed(&meta),
    }
}

/// What the answer of the handshake tells.
pub fn shaken(bytes: &[u8]) -> Told
    ensures { result ≡ t.shake_of bytes.now }
{
    match bytes {
        [0, 0, 4, 4] => Told::Done,
        _ => Told::Bad,
    }
}
