//! What a session does by each input.

ghost use Rattle.std.specs.Prelude.{◌≡◌, ◌++◌, [], OnOk, IsTrue};
ghost use Rattle.ncc_driver.specs.declared.standing.Stage.TheVariants as stage;
ghost use Rattle.ncc_driver.specs.declared.standing.Asked.TheVariants as a;
ghost use Rattle.ncc_driver.specs.Config.{config_fits};
ghost use Rattle.ncc_driver.specs.Hearing.{Moves};
ghost use Rattle.ncc_driver.specs.Keeping.{core_keeps};
ghost use Rattle.ncc_driver.specs.Fitting.{ends_fit};
ghost use Rattle.ncc_driver.specs.Requests.{shakes};
ghost use Rattle.ncc_driver.specs.Talk.{Keeps, StandsAt};
ghost use Rattle.ncc_driver.specs.Work.{job_by};

use crate::action::Input;
use crate::attempt::attempt;
use crate::config::SessionConfig;
use crate::ends::lose;
use crate::hear::hear;
use crate::link::Link;
use crate::requests::{Actions, shake};
use crate::standing::{Asked, Core, Leg, Stage};
use crate::work::Work;
use ncc_pack::Memory;
use std::alloc::Global;

/// Sends the handshake on a new link.
fn open(
    alloc: Global,
    core: &mut Core,
    link: &mut Link,
    leg: Leg,
    queue: &mut Actions,
) -> Result<(), Memory>
    ensures core { OnOk result (core.new ≡ record core.old { stage = stage.Awaits (a.Shake leg) }) }
    ensures link { OnOk result (Keeps link.new [] 0) }
    ensures queue { OnOk result (queue.new.items ≡ queue.old.items ++ shakes) }
{
    *link = Link::new(alloc)?;
    core.stage = Stage::Awaits(Asked::Shake(leg));
    shake(alloc, queue)
}

/// Does what an input leads to. What is not waited for changes nothing.
pub fn turn<W: Work>(
    alloc: Global,
    config: &SessionConfig,
    work: &mut W,
    core: &mut Core,
    link: &mut Link,
    input: &Input,
    now: u64,
    queue: &mut Actions,
) -> Result<(), Memory>
    requires keeps { IsTrue (core_keeps core.old) }
    requires allowed { IsTrue (config_fits config.now) }
    requires stands { StandsAt core.old.stage (W.stands work.old) }
    requires ends { IsTrue (ends_fit queue.old.items) }
    ensures ok { OnOk result (Moves config.now (job_by (W.writing work.old) (W.steps work.old)) now input.now
        (W.stands work.old) (W.stands work.new) core.old link.old queue.old.items core.new link.new queue.new.items) }
    ensures keeps { OnOk result (IsTrue (core_keeps core.new)) }
    ensures ends { OnOk result (IsTrue (ends_fit queue.new.items)) }
    ensures stands { OnOk result (StandsAt core.new.stage (W.stands work.new)) }
    ensures writing { W.writing work.new ≡ W.writing work.old }
    ensures steps { W.steps work.new ≡ W.steps work.old }
{
    match core.stage {
        Stage::Rests => Ok(()),
        Stage::Begun => match input {
            Input::Start => attempt(alloc, config, work.writes(), core, now, queue),
            _ => Ok(()),
        },
        Stage::Sleeps => match input {
            Input::Woken => attempt(alloc, config, work.writes(), core, now, queue),
            _ => Ok(()),
        },
        Stage::Joins(leg) => match input {
            Input::Connected => open(alloc, core, link, leg, queue),
            Input::Lost => lose(core, now, queue),
            _ => Ok(()),
        },
        Stage::Awaits(_) => match input {
            Input::Bytes(bytes) => {
                hear(
                    alloc,
                    config,
                    work,
                    core,
                    link,
                    bytes.as_slice(),
                    now,
                    queue,
                )
            }
            Input::Lost => lose(core, now, queue),
            _ => Ok(()),
        },
    }
}
