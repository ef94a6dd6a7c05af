//! A session of a driver with its link.

ghost use Rattle.std.specs.Prelude.{◌≡◌, ◌+◌, ◌<◌, ◌^◌, ◌++◌, ◌∷◌, ◌≤◌, [], List, Some, None, false};
ghost use Rattle.std.specs.Prelude.{IfOk, IfSome, IfNone, OnOk, IsTrue};
ghost use Rattle.ncc_driver.specs.Config.{config_fits};
ghost use Rattle.ncc_driver.specs.Fitting.{action_fits};
ghost use Rattle.ncc_driver.specs.Talk.{begun, is_working};
ghost use Rattle.ncc_driver.specs.declared.action.Action.{Action as OneAction};
ghost use Rattle.ncc_clients.specs.Links.{Driver as OneDriver, Link as OneLink, lift_bytes};
ghost use Rattle.ncc_clients.specs.Drives.{is_busy, knows, lift_to, new_driver, sends, with_input};
ghost use Rattle.ncc_clients.specs.Task.{job_of};
ghost use Rattle.ncc_clients.specs.Held.{Does, Hears, IsDriver, IsLive, conn_in, effect_fits, effect_of, fallen, lifted, own, parts_by};
ghost use Rattle.ncc_clients.specs.Held.{waiting_on, with_up};

use crate::link::Link;
use crate::task::Task;
use ncc_driver::{Action, Input, Session, SessionConfig, WorkDone, WorkError};
use ncc_pack::{Bytes, Memory, Text};
use std::alloc::Global;
use std::marker::Model;

/// What is left to do of an action whose part at the session's own link is done.
#[derive(Drop)]
pub enum Effect {
    /// Nothing.
    Nothing,
    /// A connection is opened to this address. `join` says which, and `Connected` or `Lost` is told of it.
    Joins {
        /// The address.
        address: Text,
    },
    /// These bytes go up on this connection, and then it is closed.
    Parts {
        /// The number of the connection.
        conn: u64,
        /// What waited to go up.
        bytes: Bytes,
    },
    /// It sleeps until a moment. `sleep` says so, and `Woken` is told then.
    Sleeps {
        /// The moment, in milliseconds.
        until: u64,
    },
    /// Its work has ended.
    Ends(Result<WorkDone, WorkError>),
}

/// A session of a driver, the work that it was given last, and its link.
#[derive(Drop)]
pub struct Driver {
    session: Session,
    task: Option<Task>,
    link: Option<Link>,
    wakes: Option<u64>,
    alloc: Global,
}

impl Model for Driver {
    ghost use Rattle.ncc_clients.specs.Held.{Held};

    ghost Value = { Held };

    ghost use Rattle.std.specs.Coded.{codes};
    ghost use Rattle.ncc_pack.specs.contracts.value.Value as e;

    ghost coded = { Prim.hlevel (codes, e.the_row.coded) };

    ghost view = { λ d. record { session = d.session; task = d.task; link = d.link; wakes = d.wakes } };
}

impl Driver {
    /// A session that was given no work.
    pub fn new(alloc: Global, config: SessionConfig) -> Result<Driver, Memory>
        requires fits { IsTrue (config_fits config) }
        ensures made { IfOk result (λ d. IsDriver d (new_driver config) []) }
    {
        let session = Session::new(alloc, config)?;
        Ok(Driver {
            session,
            task: None,
            link: None,
            wakes: None,
            alloc,
        })
    }

    /// Says whether a work was begun that has not ended. It takes no memory.
    pub fn is_busy(&self) -> bool
        ensures exact { result ≡ is_working self.now.session }
        // It says so of the session of the run.
        ensures same { (d : OneDriver) (left : List OneAction) → IsDriver self.now d left → result ≡ is_busy d }
    {
        self.session.is_working()
    }

    /// Its link, if there is one. It takes no memory.
    pub fn link(&self) -> Option<&Link>
        ensures some { IfSome result (λ link. self.now.link ≡ Some link.now) }
        ensures none { IfNone result (self.now.link ≡ None) }
    {
        self.link.as_ref()
    }

    #[tactic(auto, using(crate::proofs::Holding::begins_work))]
    /// Begins a work, at a moment in milliseconds. `Start` is told of it.
    pub fn begin(&mut self, task: Task, now: u64) -> Result<(), Memory>
        requires resting { is_working self.old.session ≡ false }
        requires later { self.old.session.core.began ≤ now }
        ensures ok { OnOk result ((d : OneDriver) → IsDriver self.old d [] →
            IsDriver self.new (knows d (d.works ++ begun (job_of task) now ∷ [])) []) }
    {
        let mut task = task;
        self.session.begin_work(&mut task, now)?;
        self.task = Some(task);
        Ok(())
    }

    #[tactic(auto, using(crate::proofs::Holding::hears_some, crate::proofs::Holding::hears_none))]
    /// Tells what happened, at a moment in milliseconds.
    pub fn hear(&mut self, input: Input, now: u64) -> Result<(), Memory>
        requires lives { IsLive self.old }
        requires later { self.old.session.core.began ≤ now }
        ensures ok { OnOk result ((d : OneDriver) → Hears self.old self.new d (with_input d.works (input, now))) }
    {
        match &mut self.task {
            Some(task) => {
                self.session.on(task, input, now)?;
                Ok(())
            }
            None => Ok(()),
        }
    }

    #[tactic(auto, using(crate::proofs::Holding::handed, crate::proofs::Holding::none_left))]
    /// Does the next action at the link, and says what is left to do of it; `None` exactly where all is done.
    pub fn next(&mut self) -> Result<Option<Effect>, Memory>
        ensures some { IfOk result (λ o. IfSome o (λ effect. (d : OneDriver) (left : List OneAction) → IsDriver self.old d left →
            Does self.new d left effect)) }
        ensures none { IfOk result (λ o. IfNone o ((d : OneDriver) (left : List OneAction) → IsDriver self.old d left → left ≡ [])) }
        ensures same { IfOk result (λ o. IfNone o (self.new ≡ self.old)) }
        // Where its work has ended, the rows fit, and bookmark and code have a spelling.
        ensures fits { IfOk result (λ o. IfSome o (λ effect. IsTrue (effect_fits effect))) }
    {
        match self.session.next() {
            Some(action) => Ok(Some(self.act(action)?)),
            None => Ok(None),
        }
    }

    fn act(&mut self, action: Action) -> Result<Effect, Memory>
        requires fits { IsTrue (action_fits action) }
        ensures ok { IfOk result (λ effect. (d : OneDriver) (left : List OneAction) → IsDriver self.old d left →
            IsDriver self.new (own d action) left × (effect ≡ effect_of d action)) }
        ensures fits { IfOk result (λ effect. IsTrue (effect_fits effect)) }
    {
        match action {
            Action::Connect { address } => Ok(Effect::Joins { address }),
            Action::Send { bytes } => self.send(bytes),
            Action::Close => self.part(),
            Action::Sleep { until } => Ok(Effect::Sleeps { until }),
            Action::Receive => Ok(Effect::Nothing),
            Action::Finish(ended) => Ok(Effect::Ends(ended)),
        }
    }

    fn send(&mut self, bytes: Bytes) -> Result<Effect, Memory>
        ensures ok { IfOk result (λ effect. (effect ≡ Effect.Nothing) × (self.new ≡ record self.old { link = sends bytes self.old.link })) }
    {
        match self.link.as_mut() {
            Some(link) => link.send(bytes)?,
            None => {}
        }
        Ok(Effect::Nothing)
    }

    fn part(&mut self) -> Result<Effect, Memory>
        ensures ok { IfOk result (λ effect. (effect ≡ parts_by self.old.link) × (self.new ≡ record self.old { link = None })) }
        ensures fits { IfOk result (λ effect. IsTrue (effect_fits effect)) }
    {
        let Some(link) = self.link.take() else {
            return Ok(Effect::Nothing);
        };
        let mut link = link;
        let bytes = link.lift_all()?;
        Ok(Effect::Parts {
            conn: link.conn(),
            bytes,
        })
    }

    /// It has a link that is this connection. It takes no memory.
    pub fn join(&mut self, conn: u64)
        ensures joined { self.new ≡ record self.old { link = Some (record { conn = conn; up = []; down = 0 }) } }
    {
        self.link = Some(Link::new(self.alloc, conn));
    }

    /// It has no link any more, if it had one: the number of its connection. What waited to go up is dropped. It takes no memory.
    pub fn cut(&mut self) -> Option<u64>
        ensures conn { result ≡ conn_in self.old.link }
        ensures cut { self.new ≡ record self.old { link = None } }
    {
        match self.link.take() {
            Some(link) => Some(link.conn()),
            None => None,
        }
    }

    /// It sleeps until a moment, in milliseconds. It takes no memory.
    pub fn sleep(&mut self, until: u64)
        ensures sleeps { self.new ≡ record self.old { wakes = Some until } }
    {
        self.wakes = Some(until);
    }

    /// It does not sleep any more. It takes no memory.
    pub fn wake(&mut self)
        ensures woken { self.new ≡ record self.old { wakes = None } }
    {
        self.wakes = None;
    }

    /// How many requests wait to go up, of those that count; none where nothing waits at all. It takes no memory.
    pub fn waiting(&self) -> Option<u64>
        ensures exact { result ≡ waiting_on self.now.link }
    {
        match self.link.as_ref() {
            Some(link) => {
                if link.is_empty() {
                    None
                } else {
                    Some(link.requests())
                }
            }
            None => None,
        }
    }

    /// So many bytes come down on its link. It takes no memory.
    pub fn fall(&mut self, count: u64)
        requires within { (link : OneLink) → self.old.link ≡ Some link → link.down + count < 2 ^ 64 }
        ensures fallen { self.new ≡ record self.old { link = fallen count self.old.link } }
    {
        if let Some(link) = self.link.as_mut() {
            link.fall(count);
        }
    }

    /// What goes up where at most so many bytes do.
    pub fn lift_bytes(&mut self, count: u64) -> Result<Bytes, Memory>
        ensures moved { IfOk result (λ bytes. bytes ≡ (lifted (lift_bytes count) self.old.link).moved) }
        ensures left { OnOk result (self.new ≡ record self.old {
          link = with_up (lifted (lift_bytes count) self.old.link).left self.old.link;
        }) }
    {
        match self.link.as_mut() {
            Some(link) => link.lift_bytes(count),
            None => Ok(Bytes::new(self.alloc)),
        }
    }

    /// What goes up up to the end of so many requests; all where no number is given, or fewer wait.
    pub fn lift_to(&mut self, limit: Option<u64>) -> Result<Bytes, Memory>
        ensures moved { IfOk result (λ bytes. bytes ≡ (lifted (lift_to limit) self.old.link).moved) }
        ensures left { OnOk result (self.new ≡ record self.old {
          link = with_up (lifted (lift_to limit) self.old.link).left self.old.link;
        }) }
    {
        let Some(link) = self.link.as_mut() else {
            return Ok(Bytes::new(self.alloc));
        };
        match limit {
            Some(count) => {
                if count <= link.requests() {
                    link.lift_requests(count)
                } else {
                    link.lift_all()
                }
            }
            None => link.lift_all(),
        }
    }
}
