//! A session.

ghost use Rattle.std.specs.Prelude.{◌≡◌, ◌≤◌, ◌++◌, ◌∷◌, [], IfOk, IfSome, IfNone, OnOk, OnErr, IsErr, IsTrue, true, false};
ghost use Rattle.ncc_driver.specs.Config.{config_fits};
ghost use Rattle.ncc_driver.specs.State.{new_core};
ghost use Rattle.ncc_driver.specs.Work.{job_by};
ghost use Rattle.ncc_driver.specs.Talk.{Stands, Begins, Tells, TellBreaks, StaysWith, HandsOut, AllOut, Shows, is_working, works_at};
ghost use Rattle.ncc_driver.specs.Talk.{StandsAt};
ghost use Rattle.ncc_driver.specs.Fitting.{action_fits};

use crate::action::{Action, Input};
use crate::config::SessionConfig;
use crate::link::Link;
use crate::requests::Actions;
use crate::standing::{Core, Stage};
use crate::turn::turn;
use crate::work::Work;
use ncc_pack::{Memory, Rows, Text, Values};
use rand_core::SeedableRng;
use rand_pcg::Pcg32;
use std::alloc::{AllocError, Global};
use std::collections::VecDeque;
use std::marker::Model;

// The delay before the first retry of a work, in milliseconds.
const FIRST_DELAY: u64 = 1_000;

/// A client's side of a session, which runs works one after another. It is told what happened, and hands out what to do. A later work
/// presents the bookmark of the last success. It keeps no history.
#[derive(Drop)]
pub struct Session {
    config: SessionConfig,
    core: Core,
    link: Link,
    queue: Actions,
    spent: bool,
    alloc: Global,
}

impl Model for Session {
    ghost use Rattle.ncc_driver.specs.Talk.{Held};

    ghost Value = { Held };

    ghost use Rattle.std.specs.Coded.{codes};
    ghost use Rattle.ncc_pack.specs.contracts.value.Value as e;

    ghost coded = { Prim.hlevel (codes, e.the_row.coded) };

    ghost view = { λ s. record { spent = s.spent; config = s.config; core = s.core; line = s.link; queue = s.queue.items } };

    ghost use Rattle.std.specs.Prelude.{◌≡◌, false, IsTrue};
    ghost use Rattle.ncc_driver.specs.Config.{config_fits};
    ghost use Rattle.ncc_driver.specs.Keeping.{core_keeps};
    ghost use Rattle.ncc_driver.specs.Fitting.{ends_fit};

    ghost invariant = { λ s. IsTrue (config_fits s.config)
        × (s.spent ≡ false → IsTrue (core_keeps s.core) × IsTrue (ends_fit s.queue.items)) };
}

#[tactic(auto, unfolding(crate::specs::State::words_of, crate::specs::State::new_core))]
fn new_core(alloc: Global, config: &SessionConfig) -> Result<Core, Memory>
    ensures { IfOk result (λ core. core ≡ new_core config.now) }
{
    Ok(Core {
        stage: Stage::Rests,
        bookmarks: config.bookmarks.copy()?,
        words: Pcg32::seed_from_u64(config.seed),
        table: None,
        route: Values::new(alloc),
        connects: 0,
        began: 0,
        attempts: 0,
        delay: FIRST_DELAY,
        address: Text::new(alloc),
        rows: Rows::new(alloc),
    })
}

impl Session {
    /// A session of which no work was begun.
    pub fn new(alloc: Global, config: SessionConfig) -> Result<Session, Memory>
        requires fits { IsTrue (config_fits config) }
        ensures made { IfOk result (λ s. Stands s config [] []) }
    {
        let core = new_core(alloc, &config)?;
        let link = Link::new(alloc)?;
        Ok(Session {
            config,
            core,
            link,
            queue: VecDeque::new(alloc),
            spent: false,
            alloc,
        })
    }

    /// Begins a work at a moment in milliseconds. No work may run, and the moment is not less than in an earlier call. A spent session
    /// answers `Err`.
    pub fn begin_work<W: Work>(&mut self, work: &mut W, now: u64) -> Result<(), Memory>
        requires resting { is_working self.old ≡ false }
        requires later { self.old.core.began ≤ now }
        // One more work was begun.
        ensures ok { OnOk result (Begins self.old (job_by (W.writing work.old) (W.steps work.old)) now self.new) }
        ensures same_work { work.new ≡ work.old }
        ensures err { OnErr result ((self.old.spent ≡ true) × (self.new ≡ self.old)) }
    {
        if self.spent {
            return Err(AllocError);
        }
        let _writes = work.writes();
        self.core.stage = Stage::Begun;
        self.core.began = now;
        self.core.attempts = 0;
        self.core.delay = FIRST_DELAY;
        Ok(())
    }

    /// Tells what happened at a moment in milliseconds, which is not less than in an earlier call. The work is the one that was begun.
    /// What is not waited for changes nothing. After an `Err` the session is spent.
    pub fn on<W: Work>(&mut self, work: &mut W, input: Input, now: u64) -> Result<(), Memory>
        requires later { self.old.core.began ≤ now }
        // From where it was started, the work stands behind some rows that fit.
        requires stands { StandsAt self.old.core.stage (W.stands work.old) }
        // The last work was told one thing more, where the work stands behind the rows of the running attempt.
        ensures ok { OnOk result (Tells (W.stands work.old) self.old (job_by (W.writing work.old) (W.steps work.old)) input now self.new) }
        // It still stands behind them.
        ensures stands { OnOk result (StaysWith (W.stands work.old) (W.stands work.new) self.old
            (job_by (W.writing work.old) (W.steps work.old)) input now self.new) }
        ensures stands_still { StandsAt self.new.core.stage (W.stands work.new) }
        ensures writing { W.writing work.new ≡ W.writing work.old }
        ensures steps { W.steps work.new ≡ W.steps work.old }
        ensures err { OnErr result (TellBreaks self.old (job_by (W.writing work.old) (W.steps work.old)) input now self.new) }
        ensures spent { IsTrue self.old.spent → IsErr result × (self.new ≡ self.old) }
    {
        if self.spent {
            return Err(AllocError);
        }
        self.spent = true;
        match turn(
            self.alloc,
            &self.config,
            work,
            &mut self.core,
            &mut self.link,
            &input,
            now,
            &mut self.queue,
        ) {
            Ok(()) => {
                self.spent = false;
                Ok(())
            }
            Err(error) => {
                self.core.stage = Stage::Rests;
                Err(error)
            }
        }
    }

    /// Hands out the next action; `None` exactly where all were handed out, or the session is spent. It takes no memory.
    pub fn next(&mut self) -> Option<Action>
        ensures some { IfSome result (λ action. HandsOut self.old action self.new) }
        ensures none { IfNone result (self.new ≡ self.old) }
        ensures all { IfNone result (AllOut self.old) }
        // Where it is the end of a work, its rows fit, and its texts have a spelling.
        ensures fits { IfSome result (λ action. IsTrue (action_fits action)) }
        ensures spent { IsTrue self.old.spent → IfSome result (λ _. ⊥) }
    {
        if self.spent {
            return None;
        }
        self.queue.pop_front()
    }

    /// Says whether a work was begun that has not ended. It takes no memory.
    pub fn is_working(&self) -> bool
        ensures exact { result ≡ is_working self.now }
        // It says so of the session of the works that were begun.
        ensures same { Shows (λ core. works_at core.stage) self.now result }
    {
        match self.core.stage {
            Stage::Rests => false,
            _ => true,
        }
    }

    /// The bookmarks that are presented: that of the last success, or before that the given ones. It takes no memory.
    pub fn bookmarks(&self) -> &Values
        ensures exact { result.now ≡ self.now.core.bookmarks }
        // They are those of the session of the works that were begun.
        ensures same { Shows (λ core. core.bookmarks) self.now result.now }
    {
        &self.core.bookmarks
    }
}
