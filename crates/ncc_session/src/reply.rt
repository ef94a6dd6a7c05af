//! The answers of a session, as Bolt 4.4 writes them.

ghost use Rattle.std.specs.Prelude.{◌≡◌, true, ◌++◌, ◌∷◌, ◌<◌, ◌^◌, [], pos, codes, map, IfOk, OnOk, OnErr, IsTrue};
ghost use Rattle.ncc_pack.specs.declared.value.Value.TheVariants as v;
ghost use Rattle.ncc_pack.specs.Fits.{fits, fits_text, fits_within};
ghost use Rattle.ncc_bolt.specs.Writing.{short_response, fits_response};
ghost use Rattle.ncc_bolt.specs.declared.message.Response.TheVariants as s;
ghost use Rattle.ncc_chunk.specs.Chunked.{chunked};
ghost use Rattle.ncc_route.specs.Addresses.{members_are_texts};
ghost use Rattle.ncc_session.specs.Config.{members_allowed};
ghost use Rattle.ncc_session.specs.Question.{bytes_of};
ghost use Rattle.ncc_session.specs.Replies.{reply, failure, hello_meta, run_meta, step_meta, more_meta, kind_of, writing_kind};
ghost use Rattle.ncc_session.specs.Replies.{end_meta, done_meta, commit_meta, server, servers, table_meta, text_at, number_at};

use crate::refusal::{Refusal, code, message};
use ncc_bolt::{Response, write_response};
use ncc_bookmark::Bookmark;
use ncc_chunk::chunk;
use ncc_cypher::{Statement, Tail};
use ncc_pack::{Bytes, Dict, Memory, Sequence, Text, Value, Values, values_fit_within};
use ncc_route::{Members, table_of};
use std::alloc::{AllocError, Global};

// The levels of a value within a dictionary, of the 32 in all.
const LEVELS: u8 = 31;

/// Writes an answer, which has to fit. An `Err` leaves the bytes as they were.
#[tactic(auto, using(crate::proofs::Written::answer_some))]
pub fn put(alloc: Global, response: &Response, out: &mut Bytes) -> Result<(), Memory>
    requires fits { IsTrue (fits_response response.now) }
    ensures ok { OnOk result (out.new ≡ out.old ++ chunked (short_response response.now)) }
    ensures err { OnErr result (out.new ≡ out.old) }
{
    let mut message = Bytes::new(alloc);
    write_response(response, &mut message)?;
    chunk(message.as_slice(), out)
}

/// A dictionary with one more pair.
fn with(alloc: Global, pairs: Dict, key: &str, value: Value) -> Result<Dict, Memory>
    ensures { IfOk result (λ ps. ps ≡ pairs ++ (key.now, value) ∷ []) }
{
    let mut pairs = pairs;
    let key = Text::from_str(alloc, key)?;
    pairs.push((key, value))?;
    Ok(pairs)
}

fn with_text(alloc: Global, pairs: Dict, key: &str, text: &str) -> Result<Dict, Memory>
    ensures { IfOk result (λ ps. ps ≡ pairs ++ text_at key.now text.now ∷ []) }
{
    let text = Text::from_str(alloc, text)?;
    with(alloc, pairs, key, Value::Text(text))
}

fn with_number(alloc: Global, pairs: Dict, key: &str, number: u64) -> Result<Dict, Memory>
    requires { number < 2 ^ 63 }
    ensures { IfOk result (λ ps. ps ≡ pairs ++ number_at key.now number ∷ []) }
{
    with(alloc, pairs, key, Value::Int(number as i64))
}

/// The meta of a FAILURE.
pub fn failure(alloc: Global, refusal: Refusal) -> Result<Response, Memory>
    ensures exact { IfOk result (λ r. reply r ≡ failure refusal) }
    ensures fits { IfOk result (λ r. IsTrue (fits_response r)) }
{
    let text = message(alloc, refusal)?;
    let meta = with_text(alloc, Dict::new(alloc), "code", code(refusal))?;
    let meta = with_text(alloc, meta, "message", text.as_str())?;
    Ok(Response::Failure { meta })
}

/// The meta of SUCCESS for HELLO.
pub fn hello(alloc: Global, conn: u64) -> Result<Dict, Memory>
    ensures exact { IfOk result (λ ps. ps ≡ hello_meta conn) }
    ensures fits { IfOk result (λ ps. IsTrue (fits (v.Dict ps))) }
{
    let id = format!(in alloc; "bolt-{conn}")?;
    let meta = with_text(alloc, Dict::new(alloc), "server", "Neo4j/4.4.0")?;
    with_text(alloc, meta, "connection_id", id.as_str())
}

/// The meta of SUCCESS for RUN outside of a transaction. Columns that do not fit, as no statement has them, are refused.
pub fn run(alloc: Global, columns: &Values) -> Result<Dict, Memory>
    ensures exact { IfOk result (λ ps. ps ≡ run_meta columns.now) }
    ensures columns { IfOk result (λ _. IsTrue (fits_within (v.List columns.now) 31)) }
    ensures fits { IfOk result (λ ps. IsTrue (fits (v.Dict ps))) }
{
    if !values_fit_within(columns, LEVELS) {
        return Err(AllocError);
    }
    let fields = columns.copy()?;
    let meta = with(alloc, Dict::new(alloc), "fields", Value::List(fields))?;
    with_number(alloc, meta, "t_first", 0)
}

/// The meta of SUCCESS for RUN in a transaction.
pub fn step(alloc: Global, columns: &Values, number: u64) -> Result<Dict, Memory>
    requires { number < 2 ^ 63 }
    ensures exact { IfOk result (λ ps. ps ≡ step_meta columns.now number) }
    ensures fits { IfOk result (λ ps. IsTrue (fits (v.Dict ps))) }
{
    let meta = run(alloc, columns)?;
    with_number(alloc, meta, "qid", number)
}

/// The meta of SUCCESS where rows are left.
pub fn more(alloc: Global) -> Result<Dict, Memory>
    ensures exact { IfOk result (λ ps. ps ≡ more_meta) }
    ensures fits { IfOk result (λ ps. IsTrue (fits (v.Dict ps))) }
{
    with(alloc, Dict::new(alloc), "has_more", Value::Bool(true))
}

fn has_return(tail: &Tail) -> &'static str
    ensures { result.now ≡ writing_kind tail.now }
{
    match tail {
        Tail::Nothing => "w",
        Tail::Count => "rw",
        Tail::Items(_) => "rw",
    }
}

/// Whether a statement reads, writes or both.
pub fn kind(statement: &Statement) -> &'static str
    ensures exact { result.now ≡ kind_of statement.now }
    ensures fits { IsTrue (fits_text result.now) }
{
    if statement.writes() {
        has_return(&statement.tail)
    } else {
        "r"
    }
}

fn with_end(alloc: Global, pairs: Dict, kind: &str) -> Result<Dict, Memory>
    ensures { IfOk result (λ ps. ps ≡ pairs ++ end_meta kind.now) }
{
    let meta = with_text(alloc, pairs, "type", kind)?;
    let meta = with_number(alloc, meta, "t_last", 0)?;
    with_text(alloc, meta, "db", "neo4j")
}

/// The meta of SUCCESS at the end of a result in a transaction.
pub fn end(alloc: Global, kind: &str) -> Result<Dict, Memory>
    ensures exact { IfOk result (λ ps. ps ≡ end_meta kind.now) }
    ensures fits { IsTrue (fits_text kind.now) → IfOk result (λ ps. IsTrue (fits (v.Dict ps))) }
{
    with_end(alloc, Dict::new(alloc), kind)
}

/// The meta of SUCCESS for COMMIT.
pub fn commit(alloc: Global, cluster: u64, place: u64) -> Result<Dict, Memory>
    ensures exact { IfOk result (λ ps. ps ≡ commit_meta cluster place) }
    ensures fits { IfOk result (λ ps. IsTrue (fits (v.Dict ps))) }
{
    let bookmark = Bookmark::of(cluster, place).text(alloc)?;
    with(alloc, Dict::new(alloc), "bookmark", Value::Text(bookmark))
}

/// The meta of SUCCESS at the end of the result of a transaction by itself.
pub fn done(alloc: Global, cluster: u64, place: u64, kind: &str) -> Result<Dict, Memory>
    ensures exact { IfOk result (λ ps. ps ≡ done_meta cluster place kind.now) }
    ensures fits { IsTrue (fits_text kind.now) → IfOk result (λ ps. IsTrue (fits (v.Dict ps))) }
{
    let meta = commit(alloc, cluster, place)?;
    with_end(alloc, meta, kind)
}

/// The servers with one more: the addresses of a role, where there are any.
fn with_server(
    alloc: Global,
    servers: Values,
    role: &str,
    addresses: Values,
) -> Result<Values, Memory>
    ensures { IfOk result (λ xs. xs ≡ servers ++ server role.now addresses) }
{
    let mut servers = servers;
    if addresses.is_empty() {
        return Ok(servers);
    }
    let one = with(alloc, Dict::new(alloc), "addresses", Value::List(addresses))?;
    let one = with_text(alloc, one, "role", role)?;
    servers.push(Value::Dict(one))?;
    Ok(servers)
}

fn servers(alloc: Global, members: &Members, leader: u8) -> Result<Values, Memory>
    requires { IsTrue (members_are_texts members.now) }
    ensures { IfOk result (λ xs. xs ≡ servers members.now leader) }
{
    let table = table_of(alloc, members, leader, 0, 0)?;
    let all = with_server(alloc, Sequence::new(alloc), "WRITE", table.write)?;
    let all = with_server(alloc, all, "READ", table.read)?;
    with_server(alloc, all, "ROUTE", table.route)
}

/// The meta of SUCCESS for ROUTE, where a table may be used for so many seconds.
pub fn table(alloc: Global, members: &Members, leader: u8, ttl: u64) -> Result<Dict, Memory>
    requires texts { IsTrue (members_are_texts members.now) }
    requires ttl { ttl < 2 ^ 63 }
    ensures exact { IfOk result (λ ps. ps ≡ table_meta members.now leader ttl) }
    ensures fits { IsTrue (members_allowed members.now) → IfOk result (λ ps. IsTrue (fits (v.Dict ps))) }
{
    let servers = servers(alloc, members, leader)?;
    let routing = with_number(alloc, Dict::new(alloc), "ttl", ttl)?;
    let routing = with_text(alloc, routing, "db", "neo4j")?;
    let routing = with(alloc, routing, "servers", Value::List(servers))?;
    with(alloc, Dict::new(alloc), "rt", Value::Dict(routing))
}
