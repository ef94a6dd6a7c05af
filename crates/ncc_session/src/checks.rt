//! The checks of requests, in their order.

ghost use Rattle.std.specs.Prelude.{◌≡◌, ◌<◌, IsTrue, IfOk, map, length};
ghost use Rattle.std.specs.Option.{option_copied};
ghost use Rattle.ncc_pack.specs.declared.value.Value.TheVariants as v;
ghost use Rattle.ncc_pack.specs.Fits.{fits};
ghost use Rattle.ncc_store.specs.Exec.{call_of};
ghost use Rattle.ncc_session.specs.Answers.{Gives};
ghost use Rattle.ncc_session.specs.Checks.{mode_named, mode_of, texts_of, bookmarks_of, database_of, user_of, few, place_in};
ghost use Rattle.ncc_session.specs.Checks.{greatest_in, need_of, entrance_of, allowed_in, checked_call, room_in};
ghost use Rattle.ncc_session.specs.Checks.{count_named, count_of, last_of, result_named, number_of, unended_at, wish_of, says};
ghost use Rattle.ncc_session.specs.Checks.{is_welcome, is_text, place_read, database_named, statement_in};
ghost use Rattle.std.specs.List.{list_all};
ghost use Rattle.ncc_bookmark.specs.Reading.{reading_of};

use crate::phase::Pulled;
use crate::refusal::{Halt, Refusal};
use ncc_bookmark::{Bookmark, BookmarkError};
use ncc_cypher::{ParseError, Statement};
use ncc_pack::{Dict, Text, Value, Values};
use ncc_route::Auth;
use ncc_store::{Step, Steps};
use std::alloc::Global;

const MOST_BOOKMARKS: usize = 256;

const MOST_STEPS: usize = 1000;

/// How a transaction enters.
#[derive(Clone, Copy)]
pub struct Entrance {
    /// Whether it may write.
    pub write: bool,
    /// The place that it needs.
    pub need: u64,
}

/// Which rows are pulled.
#[derive(Clone, Copy)]
pub struct Wish {
    /// How many, or all.
    pub count: Option<u64>,
    /// The number of the result.
    pub number: usize,
    /// How many of its rows were pulled before.
    pub next: usize,
}

fn named_mode(mode: &Text) -> Result<bool, Halt>
    ensures { Gives (λ b. b) result (mode_named mode.now) }
{
    if mode.as_str() == "w" {
        return Ok(true);
    }
    if mode.as_str() == "r" {
        return Ok(false);
    }
    Err(Halt::Refused(Refusal::BadMode))
}

/// Check 1: whether the transaction may write.
fn mode(value: Option<&Value>) -> Result<bool, Halt>
    ensures { Gives (λ b. b) result (mode_of (option_copied value.entry)) }
{
    match value {
        None | Some(Value::Null) => Ok(true),
        Some(Value::Text(mode)) => named_mode(mode),
        Some(_) => Err(Halt::Refused(Refusal::BadMode)),
    }
}

fn is_a_text(value: &Value) -> bool
    ensures { result ≡ is_text value.now }
{
    match value {
        Value::Text(_) => true,
        Value::Null => false,
        Value::Bool(_) => false,
        Value::Int(_) => false,
        Value::Bytes(_) => false,
        Value::List(_) => false,
        Value::Dict(_) => false,
        Value::Node(_) => false,
    }
}

fn are_texts(values: &[Value]) -> bool
    ensures { result ≡ list_all is_text values.now }
{
    for value in values {
        if !is_a_text(value) {
            return false;
        }
    }
    true
}

/// Check 2: a list of texts.
fn texts(values: &Values) -> Result<&[Value], Halt>
    ensures { Gives (λ xs. xs.now) result (texts_of values.now) }
{
    if are_texts(values.as_slice()) {
        Ok(values.as_slice())
    } else {
        Err(Halt::Refused(Refusal::BadBookmarks))
    }
}

fn bookmarks(value: Option<&Value>) -> Result<&[Value], Halt>
    ensures { Gives (λ xs. xs.now) result (bookmarks_of (option_copied value.entry)) }
{
    match value {
        None | Some(Value::Null) => Ok(&[]),
        Some(Value::List(values)) => texts(values),
        Some(_) => Err(Halt::Refused(Refusal::BadBookmarks)),
    }
}

/// Check 3: the database.
fn database(value: Option<&Value>) -> Result<(), Halt>
    ensures { Gives (λ _. tt) result (database_of (option_copied value.entry)) }
{
    match value {
        None | Some(Value::Null) => Ok(()),
        Some(Value::Text(name)) => named_database(name),
        Some(_) => Err(Halt::Refused(Refusal::NoDatabase)),
    }
}

fn named_database(name: &Text) -> Result<(), Halt>
    ensures { Gives (λ _. tt) result (database_named name.now) }
{
    if name.as_str() == "neo4j" {
        Ok(())
    } else {
        Err(Halt::Refused(Refusal::NoDatabase))
    }
}

/// Check 3: nobody is impersonated.
fn user(value: Option<&Value>) -> Result<(), Halt>
    ensures { Gives (λ _. tt) result (user_of (option_copied value.entry)) }
{
    match value {
        None | Some(Value::Null) => Ok(()),
        Some(_) => Err(Halt::Refused(Refusal::Impersonation)),
    }
}

/// Check 4: not too many bookmarks.
fn few_enough(texts: &[Value]) -> Result<(), Halt>
    ensures { Gives (λ _. tt) result (few texts.now) }
{
    if texts.len() > MOST_BOOKMARKS {
        return Err(Halt::Refused(Refusal::TooManyBookmarks));
    }
    Ok(())
}

/// Check 5: the place of one bookmark.
fn read_place(alloc: Global, text: &Text, cluster: u64) -> Result<u64, Halt>
    ensures { Gives (λ n. n) result (place_read (reading_of text.now cluster)) }
{
    match Bookmark::read(alloc, text.as_str(), cluster) {
        Ok(bookmark) => Ok(bookmark.place()),
        Err(BookmarkError::Memory) => Err(Halt::Memory),
        Err(_) => Err(Halt::Refused(Refusal::BadBookmark)),
    }
}

fn place(alloc: Global, value: &Value, cluster: u64) -> Result<u64, Halt>
    ensures { Gives (λ n. n) result (place_in cluster value.now) }
{
    match value {
        Value::Text(text) => read_place(alloc, text, cluster),
        _ => Err(Halt::Refused(Refusal::BadBookmark)),
    }
}

/// Check 5: the greatest place. There are no more than 256 bookmarks then.
fn greatest(alloc: Global, texts: &[Value], cluster: u64) -> Result<u64, Halt>
    ensures { Gives (λ n. n) result (greatest_in cluster texts.now) }
{
    match texts {
        [] => Ok(0),
        [first, rest @ ..] => {
            let place = place(alloc, first, cluster)?;
            let most = greatest(alloc, rest, cluster)?;
            Ok(place.max(most))
        }
    }
}

/// Checks 2 to 5: the place that is needed.
pub fn need(alloc: Global, cluster: u64, listed: Option<&Value>, extra: &Dict) -> Result<u64, Halt>
    ensures { Gives (λ n. n) result (need_of cluster (option_copied listed.entry) extra.now) }
{
    let texts = bookmarks(listed)?;
    database(extra.get("db"))?;
    user(extra.get("imp_user"))?;
    few_enough(texts)?;
    greatest(alloc, texts, cluster)
}

/// Checks 1 to 5: how a transaction enters.
pub fn read_entrance(alloc: Global, cluster: u64, extra: &Dict) -> Result<Entrance, Halt>
    ensures { Gives (λ e. e) result (entrance_of cluster extra.now) }
{
    let write = mode(extra.get("mode"))?;
    let need = need(alloc, cluster, extra.get("bookmarks"), extra)?;
    Ok(Entrance { write, need })
}

/// Check 7: a statement writes only where the transaction may.
fn allowed(write: bool, statement: &Statement) -> Result<(), Halt>
    ensures { Gives (λ _. tt) result (allowed_in write statement.now) }
{
    if statement.writes() && !write {
        return Err(Halt::Refused(Refusal::AccessMode));
    }
    Ok(())
}

/// Check 6: the query is a statement.
fn parsed_step(alloc: Global, query: &Text, params: Dict) -> Result<Step, Halt>
    requires { IsTrue (fits (v.Dict params)) }
    ensures call { IfOk result (λ s. call_of s ≡ record { source = query.now; params = params }) }
    ensures statement { Gives (λ s. s.statement) result (statement_in query.now) }
{
    match Step::of(alloc, query.as_str(), params) {
        Ok(step) => Ok(step),
        Err(ParseError::Memory) => Err(Halt::Memory),
        Err(ParseError::Syntax { at, .. }) => Err(Halt::Refused(Refusal::Syntax { at })),
    }
}

/// Checks 6 and 7: the step.
pub fn step(alloc: Global, write: bool, query: &Text, params: Dict) -> Result<Step, Halt>
    requires { IsTrue (fits (v.Dict params)) }
    ensures { Gives (λ s. call_of s) result (checked_call write query.now params) }
{
    let step = parsed_step(alloc, query, params)?;
    allowed(write, &step.statement)?;
    Ok(step)
}

/// Check 9: fewer than 1,000 steps.
pub fn room(steps: &Steps) -> Result<(), Halt>
    ensures { Gives (λ _. tt) result (room_in (map call_of steps.now)) }
{
    if steps.len() < MOST_STEPS {
        return Ok(());
    }
    Err(Halt::Refused(Refusal::TooManySteps))
}

fn named_count(number: i64) -> Result<Option<u64>, Halt>
    ensures { Gives (λ n. n) result (count_named number) }
{
    if number == -1 {
        return Ok(None);
    }
    if number < 1 {
        return Err(Halt::Refused(Refusal::BadPull));
    }
    Ok(Some(number as u64))
}

/// Check 8: how many rows.
fn count(value: Option<&Value>) -> Result<Option<u64>, Halt>
    ensures { Gives (λ n. n) result (count_of (option_copied value.entry)) }
{
    match value {
        None | Some(Value::Null) => Ok(None),
        Some(Value::Int(number)) => named_count(*number),
        Some(_) => Err(Halt::Refused(Refusal::BadPull)),
    }
}

fn last(results: &[Pulled]) -> Result<usize, Halt>
    ensures { Gives (λ n. n) result (last_of results.now) }
{
    match results {
        [] => Err(Halt::Refused(Refusal::BadPull)),
        [_, rest @ ..] => Ok(rest.len()),
    }
}

fn named_result(results: &[Pulled], number: i64) -> Result<usize, Halt>
    ensures { Gives (λ n. n) result (result_named results.now number) }
{
    if number == -1 {
        return last(results);
    }
    if number < 0 {
        return Err(Halt::Refused(Refusal::BadPull));
    }
    Ok(number as usize)
}

/// Check 8: of which result.
fn number(results: &[Pulled], value: Option<&Value>) -> Result<usize, Halt>
    ensures { Gives (λ n. n) result (number_of results.now (option_copied value.entry)) }
{
    match value {
        None | Some(Value::Null) => last(results),
        Some(Value::Int(number)) => named_result(results, *number),
        Some(_) => Err(Halt::Refused(Refusal::BadPull)),
    }
}

/// Check 8: the end of the result is not told.
fn unended(results: &[Pulled], number: usize) -> Result<Pulled, Halt>
    ensures exact { Gives (λ x. x) result (unended_at results.now number) }
    ensures here { IfOk result (λ _. number < length results.now) }
{
    if number >= results.len() {
        return Err(Halt::Refused(Refusal::BadPull));
    }
    let pulled = results[number];
    if pulled.ended {
        return Err(Halt::Refused(Refusal::BadPull));
    }
    Ok(pulled)
}

/// Check 8: which rows.
pub fn read_wish(results: &[Pulled], extra: &Dict) -> Result<Wish, Halt>
    ensures exact { Gives (λ w. w) result (wish_of results.now extra.now) }
    ensures here { IfOk result (λ w. w.number < length results.now) }
{
    let count = count(extra.get("n"))?;
    let number = number(results, extra.get("qid"))?;
    let pulled = unended(results, number)?;
    Ok(Wish {
        count,
        number,
        next: pulled.next,
    })
}

fn says_it(text: &str, value: Option<&Value>) -> bool
    ensures { result ≡ says text.now (option_copied value.entry) }
{
    match value {
        Some(Value::Text(said)) => said.as_str() == text,
        _ => false,
    }
}

/// Whether a login is right.
pub fn is_welcome(auth: &Auth, extra: &Dict) -> bool
    ensures { result ≡ is_welcome auth.now extra.now }
{
    match auth {
        Auth::Nobody => true,
        Auth::Basic { user, password } => {
            says_it("basic", extra.get("scheme"))
                && says_it(user.as_str(), extra.get("principal"))
                && says_it(password.as_str(), extra.get("credentials"))
        }
    }
}
