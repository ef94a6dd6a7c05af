//! What comes on a link is answered, one item after another.

ghost use Rattle.std.specs.Prelude.{◌≡◌, IfOk, OnOk, IsTrue, true, false};
ghost use Rattle.ncc_driver.specs.declared.action.Input.TheVariants as i;
ghost use Rattle.ncc_driver.specs.declared.standing.Stage.TheVariants as stage;
ghost use Rattle.ncc_driver.specs.Config.{config_fits};
ghost use Rattle.ncc_driver.specs.Hearing.{Hears, Moves, awaits_more};
ghost use Rattle.ncc_driver.specs.Keeping.{core_keeps};
ghost use Rattle.ncc_driver.specs.Fitting.{ends_fit};
ghost use Rattle.ncc_driver.specs.Talk.{StandsAsked, StandsAt};
ghost use Rattle.ncc_driver.specs.Work.{job_by};

use crate::action::Action;
use crate::attempt::answer;
use crate::config::SessionConfig;
use crate::link::Link;
use crate::requests::{Actions, put};
use crate::standing::{Asked, Core, Stage};
use crate::work::Work;
use ncc_pack::Memory;
use std::alloc::{AllocError, Global};

/// Answers the next item that is whole, and says whether there was one.
fn answer_next<W: Work>(
    alloc: Global,
    config: &SessionConfig,
    work: &mut W,
    core: &mut Core,
    link: &mut Link,
    asked: Asked,
    now: u64,
    queue: &mut Actions,
) -> Result<bool, Memory>
    requires at { core.old.stage ≡ stage.Awaits asked }
    requires keeps { IsTrue (core_keeps core.old) }
    requires allowed { IsTrue (config_fits config.now) }
    requires stands { StandsAsked asked (W.stands work.old) }
    requires ends { IsTrue (ends_fit queue.old.items) }
    ensures ok { IfOk result (λ more. Hears config.now (job_by (W.writing work.old) (W.steps work.old)) now
        (W.stands work.old) (W.stands work.new) core.old link.old queue.old.items core.new link.new queue.new.items more) }
    ensures keeps { OnOk result (IsTrue (core_keeps core.new)) }
    ensures ends { OnOk result (IsTrue (ends_fit queue.new.items)) }
    ensures stands { OnOk result (StandsAt core.new.stage (W.stands work.new)) }
    ensures writing { W.writing work.new ≡ W.writing work.old }
    ensures steps { W.steps work.new ≡ W.steps work.old }
{
    let number = link.number();
    match link.take()? {
        Some(item) => {
            answer(alloc, config, work, core, asked, now, number, item, queue)?;
            Ok(true)
        }
        None => Ok(false),
    }
}

/// Goes on as long as an answer is awaited and something whole has come. It gives up after 2^64 items, which no memory holds.
fn answer_all<W: Work>(
    alloc: Global,
    config: &SessionConfig,
    work: &mut W,
    core: &mut Core,
    link: &mut Link,
    now: u64,
    queue: &mut Actions,
) -> Result<(), Memory>
    requires keeps { IsTrue (core_keeps core.old) }
    requires allowed { IsTrue (config_fits config.now) }
    requires stands { StandsAt core.old.stage (W.stands work.old) }
    requires ends { IsTrue (ends_fit queue.old.items) }
    ensures ok { OnOk result (Hears config.now (job_by (W.writing work.old) (W.steps work.old)) now
        (W.stands work.old) (W.stands work.new) core.old link.old queue.old.items core.new link.new queue.new.items false) }
    ensures keeps { OnOk result (IsTrue (core_keeps core.new)) }
    ensures ends { OnOk result (IsTrue (ends_fit queue.new.items)) }
    ensures stands { OnOk result (StandsAt core.new.stage (W.stands work.new)) }
    ensures writing { W.writing work.new ≡ W.writing work.old }
    ensures steps { W.steps work.new ≡ W.steps work.old }
{
    'items: for _ in 0..u64::MAX {
        let Stage::Awaits(asked) = core.stage else {
            return Ok(());
        };
        let more = answer_next(alloc, config, work, core, link, asked, now, queue)?;
        if !more {
            return Ok(());
        }
    }
    Err(AllocError)
}

/// Takes bytes that came, and waits for more where they leave the answer unfinished.
pub fn hear<W: Work>(
    alloc: Global,
    config: &SessionConfig,
    work: &mut W,
    core: &mut Core,
    link: &mut Link,
    piece: &[u8],
    now: u64,
    queue: &mut Actions,
) -> Result<(), Memory>
    requires at { awaits_more core.old.stage ≡ true }
    requires keeps { IsTrue (core_keeps core.old) }
    requires allowed { IsTrue (config_fits config.now) }
    requires stands { StandsAt core.old.stage (W.stands work.old) }
    requires ends { IsTrue (ends_fit queue.old.items) }
    ensures ok { OnOk result (Moves config.now (job_by (W.writing work.old) (W.steps work.old)) now (i.Bytes piece.now)
        (W.stands work.old) (W.stands work.new) core.old link.old queue.old.items core.new link.new queue.new.items) }
    ensures keeps { OnOk result (IsTrue (core_keeps core.new)) }
    ensures ends { OnOk result (IsTrue (ends_fit queue.new.items)) }
    ensures stands { OnOk result (StandsAt core.new.stage (W.stands work.new)) }
    ensures writing { W.writing work.new ≡ W.writing work.old }
    ensures steps { W.steps work.new ≡ W.steps work.old }
{
    let held = queue.len();
    link.feed(piece)?;
    answer_all(alloc, config, work, core, link, now, queue)?;
    if queue.len() == held {
        return put(Action::Receive, queue);
    }
    Ok(())
}
