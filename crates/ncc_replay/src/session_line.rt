//! The lines of sessions of drivers, read word by word.

ghost use Rattle.std.specs.Prelude.{◌≡◌, ◌≢◌, ◌<◌, ◌^◌, ℕ, ℤ, true, List, [], ◌∷◌, codes, decimal, Option, Some, IfSome, IfNone, IfOk, IsErrOf};
ghost use Rattle.std.specs.Int.Signed.{mag};
ghost use Rattle.ncc_pack.specs.Fits.{fits_i64};
ghost use Rattle.ncc_replay.specs.Line.{signed_text, limit_words, FitsLimit};
ghost use Rattle.ncc_replay.specs.Reading.{words_in, AreJob, AreWords, AreBad};
ghost use Rattle.ncc_replay.specs.declared.status.Cause.{Cause};
ghost use Rattle.ncc_replay.specs.declared.status.Cause.TheVariants.{BadLine};
ghost use Rattle.ncc_world.specs.declared.event.Job.{Job};

use crate::line::{BAD_LINE, LineError, next_name, next_number, next_word};
use itoa::Buffer;
use ncc_pack::Text;
use ncc_world::{Event, Job};
use std::alloc::Global;

// What the digits of a word say, behind a sign or none, and perhaps what some other words say.
fn signed_in(word: &[u8]) -> Option<i64>
    ensures { (n : ℤ) → mag n < 2 ^ 63 → word.now ≡ signed_text n → result ≡ Some n }
{
    let Ok(text) = str::from_utf8(word) else {
        return None;
    };
    text.parse().ok()
}

// The number that the word is the one spelling of.
fn signed(word: &[u8]) -> Option<i64>
    ensures some { IfSome result (λ n. (fits_i64 n ≡ true) × (word.now ≡ signed_text n)) }
    ensures none { IfNone result ((n : ℤ) → fits_i64 n ≡ true → word.now ≢ signed_text n) }
{
    let n = signed_in(word)?;
    if Buffer::new().format(n).as_bytes() != word {
        return None;
    }
    Some(n)
}

fn next_signed(rest: Option<&[u8]>) -> Option<(i64, Option<&[u8]>)>
    ensures some { IfSome result (λ r. (fits_i64 r.0 ≡ true) × (words_in rest.entry ≡ signed_text r.0 ∷ words_in r.1)) }
    ensures none { IfNone result ((n : ℤ) (more : List (List ℕ)) → fits_i64 n ≡ true → words_in rest.entry ≢ signed_text n ∷ more) }
{
    let (word, rest) = next_word(rest)?;
    let n = signed(word)?;
    Some((n, rest))
}

// What follows `add`.
fn add(alloc: Global, rest: Option<&[u8]>) -> Result<Job, LineError>
    ensures ok { IfOk result (λ j. AreJob (codes "add" ∷ words_in rest.entry) j) }
    ensures bad { (cause : Cause) → IsErrOf result (LineError.Cause cause)
        → (cause ≡ BadLine) × ((j : Job) → ¬ (AreJob (codes "add" ∷ words_in rest.entry) j)) }
{
    let Some((key, rest)) = next_name(rest) else {
        return Err(BAD_LINE);
    };
    let Some((by, rest)) = next_signed(rest) else {
        return Err(BAD_LINE);
    };
    if rest.is_some() {
        return Err(BAD_LINE);
    }
    let key = Text::from_str(alloc, key)?;
    Ok(Job::Add { key, by })
}

// What follows `put`.
fn put(alloc: Global, rest: Option<&[u8]>) -> Result<Job, LineError>
    ensures ok { IfOk result (λ j. AreJob (codes "put" ∷ words_in rest.entry) j) }
    ensures bad { (cause : Cause) → IsErrOf result (LineError.Cause cause)
        → (cause ≡ BadLine) × ((j : Job) → ¬ (AreJob (codes "put" ∷ words_in rest.entry) j)) }
{
    let Some((key, rest)) = next_name(rest) else {
        return Err(BAD_LINE);
    };
    let Some((value, rest)) = next_name(rest) else {
        return Err(BAD_LINE);
    };
    if rest.is_some() {
        return Err(BAD_LINE);
    }
    let key = Text::from_str(alloc, key)?;
    let value = Text::from_str(alloc, value)?;
    Ok(Job::Put { key, value })
}

// What follows `get`.
fn get(alloc: Global, rest: Option<&[u8]>) -> Result<Job, LineError>
    ensures ok { IfOk result (λ j. AreJob (codes "get" ∷ words_in rest.entry) j) }
    ensures bad { (cause : Cause) → IsErrOf result (LineError.Cause cause)
        → (cause ≡ BadLine) × ((j : Job) → ¬ (AreJob (codes "get" ∷ words_in rest.entry) j)) }
{
    let Some((key, rest)) = next_name(rest) else {
        return Err(BAD_LINE);
    };
    if rest.is_some() {
        return Err(BAD_LINE);
    }
    let key = Text::from_str(alloc, key)?;
    Ok(Job::Get { key })
}

// The work that a word and what follows it say.
fn job(alloc: Global, word: &[u8], rest: Option<&[u8]>) -> Result<Job, LineError>
    ensures ok { IfOk result (λ j. AreJob (word.now ∷ words_in rest.entry) j) }
    ensures bad { (cause : Cause) → IsErrOf result (LineError.Cause cause)
        → (cause ≡ BadLine) × ((j : Job) → ¬ (AreJob (word.now ∷ words_in rest.entry) j)) }
{
    match word {
        b"add" => add(alloc, rest),
        b"put" => put(alloc, rest),
        b"get" => get(alloc, rest),
        _ => Err(BAD_LINE),
    }
}

pub(crate) fn session(rest: Option<&[u8]>) -> Option<Event>
    ensures some { IfSome result (λ e. (cluster : ℕ) → AreWords cluster (codes "session" ∷ words_in rest.entry) e) }
    ensures none { IfNone result ((cluster : ℕ) → AreBad cluster (codes "session" ∷ words_in rest.entry) BadLine) }
{
    let (seed, rest) = next_number(rest, u64::MAX)?;
    if rest.is_some() {
        return None;
    }
    Some(Event::Session { seed })
}

pub(crate) fn work(alloc: Global, rest: Option<&[u8]>) -> Result<Event, LineError>
    ensures ok { IfOk result (λ e. (cluster : ℕ) → AreWords cluster (codes "work" ∷ words_in rest.entry) e) }
    ensures bad { (cause : Cause) → IsErrOf result (LineError.Cause cause)
        → (cluster : ℕ) → AreBad cluster (codes "work" ∷ words_in rest.entry) cause }
{
    let Some((session, rest)) = next_number(rest, u64::MAX) else {
        return Err(BAD_LINE);
    };
    let Some((word, rest)) = next_word(rest) else {
        return Err(BAD_LINE);
    };
    match job(alloc, word, rest) {
        Ok(job) => Ok(Event::Work { session, job }),
        Err(error) => Err(error),
    }
}

// A session and a number of bytes.
fn moves(rest: Option<&[u8]>) -> Option<(u64, u64)>
    ensures some { IfSome result (λ m. (m.0 < 2 ^ 64) × (m.1 < 2 ^ 64) × (words_in rest.entry ≡ decimal m.0 ∷ decimal m.1 ∷ [])) }
    ensures none { IfNone result ((session count : ℕ) → session < 2 ^ 64 → count < 2 ^ 64
        → words_in rest.entry ≢ decimal session ∷ decimal count ∷ []) }
{
    let (session, rest) = next_number(rest, u64::MAX)?;
    let (bytes, rest) = next_number(rest, u64::MAX)?;
    if rest.is_some() {
        return None;
    }
    Some((session, bytes))
}

pub(crate) fn up(rest: Option<&[u8]>) -> Option<Event>
    ensures some { IfSome result (λ e. (cluster : ℕ) → AreWords cluster (codes "up" ∷ words_in rest.entry) e) }
    ensures none { IfNone result ((cluster : ℕ) → AreBad cluster (codes "up" ∷ words_in rest.entry) BadLine) }
{
    let (session, bytes) = moves(rest)?;
    Some(Event::Up { session, bytes })
}

pub(crate) fn down(rest: Option<&[u8]>) -> Option<Event>
    ensures some { IfSome result (λ e. (cluster : ℕ) → AreWords cluster (codes "down" ∷ words_in rest.entry) e) }
    ensures none { IfNone result ((cluster : ℕ) → AreBad cluster (codes "down" ∷ words_in rest.entry) BadLine) }
{
    let (session, bytes) = moves(rest)?;
    Some(Event::Down { session, bytes })
}

// How many requests go up, where that is said.
fn limit(rest: Option<&[u8]>) -> Option<Option<u64>>
    ensures some { IfSome result (λ requests. FitsLimit requests × (words_in rest.entry ≡ limit_words requests)) }
    ensures none { IfNone result ((requests : Option ℕ) → FitsLimit requests → words_in rest.entry ≢ limit_words requests) }
{
    if rest.is_none() {
        return Some(None);
    }
    let (requests, rest) = next_number(rest, u64::MAX)?;
    if requests == 0 || rest.is_some() {
        return None;
    }
    Some(Some(requests))
}

pub(crate) fn pump(rest: Option<&[u8]>) -> Option<Event>
    ensures some { IfSome result (λ e. (cluster : ℕ) → AreWords cluster (codes "pump" ∷ words_in rest.entry) e) }
    ensures none { IfNone result ((cluster : ℕ) → AreBad cluster (codes "pump" ∷ words_in rest.entry) BadLine) }
{
    let (session, rest) = next_number(rest, u64::MAX)?;
    let requests = limit(rest)?;
    Some(Event::Pump { session, requests })
}

pub(crate) fn cut_link(rest: Option<&[u8]>) -> Option<Event>
    ensures some { IfSome result (λ e. (cluster : ℕ) → AreWords cluster (codes "cut" ∷ words_in rest.entry) e) }
    ensures none { IfNone result ((cluster : ℕ) → AreBad cluster (codes "cut" ∷ words_in rest.entry) BadLine) }
{
    let (session, rest) = next_number(rest, u64::MAX)?;
    if rest.is_some() {
        return None;
    }
    Some(Event::Cut { session })
}
