//! How attempts and works end.

ghost use Rattle.std.specs.Prelude.{◌≡◌, ◌<◌, min, ◌^◌, ◌+◌, ◌*◌, ◌/◌, ◌%◌, IfOk, OnOk, codes};
ghost use Rattle.ncc_driver.specs.Attempts as t;
ghost use Rattle.ncc_driver.specs.Ends.{IsNamed};
ghost use Rattle.ncc_driver.specs.State.{Makes};

use crate::action::{Action, Last, WorkDone, WorkError};
use crate::requests::{Actions, close, put};
use crate::standing::{Core, Stage};
use ncc_bookmark::{Bookmark, BookmarkError};
use ncc_pack::{Memory, Text, Value, Values};
use rand_core::utils::NextWord;
use std::alloc::{AllocError, Global};

// For how long a work is tried again, and the greatest delay, in milliseconds.
const LONGEST: u64 = 30_000;

const NOT_A_LEADER: &str = "Neo.ClientError.Cluster.NotALeader";

// The front of each code that may be tried again.
const TRANSIENT: &str = "Neo.TransientError.";

pub fn finish(
    core: &mut Core,
    end: Result<WorkDone, WorkError>,
    queue: &mut Actions,
) -> Result<(), Memory>
    ensures ok { OnOk result (Makes (λ p. t.finishes p end) core.old core.new queue.old.items queue.new.items) }
{
    core.stage = Stage::Rests;
    put(Action::Finish(end), queue)
}

/// The place of a bookmark of whatever cluster.
fn place_of(alloc: Global, bookmark: &Text) -> Result<Option<u64>, Memory>
    ensures { IfOk result (λ r. r ≡ t.place_of bookmark.now) }
{
    match Bookmark::read(alloc, bookmark.as_str(), 0) {
        Ok(found) => Ok(Some(found.place())),
        Err(BookmarkError::BadForm) => Ok(None),
        Err(BookmarkError::Memory) => Err(AllocError),
        Err(BookmarkError::OtherCluster { id }) => place_in(alloc, bookmark, id),
    }
}

fn place_in(alloc: Global, bookmark: &Text, cluster: u64) -> Result<Option<u64>, Memory>
    requires named { IsNamed bookmark.now cluster }
    ensures { IfOk result (λ r. r ≡ t.place_of bookmark.now) }
{
    match Bookmark::read(alloc, bookmark.as_str(), cluster) {
        Ok(found) => Ok(Some(found.place())),
        Err(BookmarkError::Memory) => Err(AllocError),
        Err(_) => Ok(None),
    }
}

/// The work was committed, with this bookmark, which is presented from now on.
pub fn succeed(
    alloc: Global,
    core: &mut Core,
    bookmark: Text,
    queue: &mut Actions,
) -> Result<(), Memory>
    ensures ok { OnOk result (Makes (λ p. t.succeeds p bookmark) core.old core.new queue.old.items queue.new.items) }
{
    close(alloc, queue)?;
    let mut bookmarks = Values::new(alloc);
    bookmarks.push(Value::Text(bookmark.copy()?))?;
    core.bookmarks = bookmarks;
    let done = WorkDone {
        attempts: core.attempts,
        place: place_of(alloc, &bookmark)?,
        bookmark,
        rows: core.rows.copy()?,
    };
    finish(core, Ok(done), queue)
}

/// A message is no answer of the request.
pub fn refute(
    alloc: Global,
    core: &mut Core,
    message: u64,
    queue: &mut Actions,
) -> Result<(), Memory>
    ensures ok { OnOk result (Makes (λ p. t.refutes p message) core.old core.new queue.old.items queue.new.items) }
{
    close(alloc, queue)?;
    finish(core, Err(WorkError::BadReply { message }), queue)
}

/// The moment until which a delay lasts that a word varies by a fifth.
fn until(now: u64, delay: u64, word: u32) -> u64
    requires small { delay < 30_001 }
    ensures { result ≡ t.until_of now delay word }
{
    now.saturating_add(delay * (800 + u64::from(word) % 401) / 1_000)
}

fn sleep(core: &mut Core, now: u64, queue: &mut Actions) -> Result<(), Memory>
    requires small { core.old.delay < 30_001 }
    ensures ok { OnOk result (Makes (λ p. t.sleeps p now) core.old core.new queue.old.items queue.new.items) }
{
    let word = core.words.next_word();
    let until = until(now, core.delay, word);
    core.delay = (core.delay * 2).min(LONGEST);
    core.stage = Stage::Sleeps;
    put(Action::Sleep { until }, queue)
}

/// Says whether too long has passed since the work began.
fn is_spent(now: u64, began: u64) -> bool
    ensures { result ≡ t.is_spent now began }
{
    now.saturating_sub(began) >= LONGEST
}

/// An attempt has failed that may be tried again.
pub fn retry(core: &mut Core, now: u64, last: Last, queue: &mut Actions) -> Result<(), Memory>
    requires small { core.old.delay < 30_001 }
    ensures ok { OnOk result (Makes (λ p. t.retries p now last) core.old core.new queue.old.items queue.new.items) }
{
    if is_spent(now, core.began) {
        let attempts = core.attempts;
        return finish(core, Err(WorkError::RetriesSpent { attempts, last }), queue);
    }
    sleep(core, now, queue)
}

/// The link was not opened, or broke.
pub fn lose(core: &mut Core, now: u64, queue: &mut Actions) -> Result<(), Memory>
    requires small { core.old.delay < 30_001 }
    ensures ok { OnOk result (Makes (λ p. t.loses p now) core.old core.new queue.old.items queue.new.items) }
{
    core.table = None;
    retry(core, now, Last::LinkLost, queue)
}

fn is_transient(code: &Text) -> bool
    ensures { result ≡ t.is_transient code.now }
{
    code.as_str().as_bytes().starts_with(TRANSIENT.as_bytes())
}

fn is_no_leader(code: &Text) -> bool
    ensures { result ≡ t.is_no_leader code.now }
{
    code.as_str() == NOT_A_LEADER
}

/// A server answered FAILURE.
pub fn fail(
    alloc: Global,
    core: &mut Core,
    now: u64,
    code: Text,
    queue: &mut Actions,
) -> Result<(), Memory>
    requires small { core.old.delay < 30_001 }
    ensures ok { OnOk result (Makes (λ p. t.fails p now code) core.old core.new queue.old.items queue.new.items) }
{
    close(alloc, queue)?;
    if is_transient(&code) {
        return retry(core, now, Last::Code(code), queue);
    }
    if is_no_leader(&code) {
        core.table = None;
        return retry(core, now, Last::Code(code), queue);
    }
    let attempts = core.attempts;
    finish(core, Err(WorkError::Refused { attempts, code }), queue)
}
