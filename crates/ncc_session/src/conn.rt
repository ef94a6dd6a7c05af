//! The connection.

ghost use Rattle.std.specs.Prelude.{◌≡◌, ◌<◌, [], IfOk, IfSome, IfNone, OnOk, OnErr, IsErr, IsTrue, Some, None, true, false};
ghost use Rattle.ncc_session.specs.Config.{config_allowed};
ghost use Rattle.ncc_session.specs.Core.{question_of, doing_of};
ghost use Rattle.ncc_session.specs.Session.{asked_at, question_in};
ghost use Rattle.ncc_session.specs.Talk.{Stands, Feeds, FeedBreaks, Tells, TellBreaks, HandsOut, Shows, asked, fits_at};
ghost use Rattle.ncc_session.specs.Talk.{MayAskAt, measure, IdleBy, IdleAt, SaysIdle};

use crate::ask::{Ask, Fact};
use crate::config::ConnConfig;
use crate::fit;
use crate::phase::{Core, Phase};
use crate::state::ConnState;
use crate::stream::{has_ended, take_fact, take_piece};
use ncc_chunk::{Dechunker, Handshake};
use ncc_pack::{Bytes, Memory};
use std::alloc::{AllocError, Global};
use std::marker::Model;

// So much room for bytes to hand out stays with a connection.
const KEPT_ROOM: usize = 65_536;

/// A server's side of a client's session. It is fed the client's bytes in any pieces and told facts, and hands out the bytes that
/// go to the client and the questions that wait for facts. It keeps no history.
#[derive(Drop)]
pub struct Conn {
    config: ConnConfig,
    core: Core,
    shake: Handshake,
    dechunker: Dechunker,
    out: Bytes,
    spent: bool,
    alloc: Global,
}

impl Model for Conn {
    ghost use Rattle.std.specs.Prelude.{IsTrue};
    ghost use Rattle.ncc_session.specs.Talk.{Talk};

    ghost Value = { Talk };

    ghost use Rattle.std.specs.Coded.{codes};
    ghost use Rattle.ncc_pack.specs.contracts.value.Value as e;

    ghost coded = { Prim.hlevel (codes, e.the_row.coded) };

    ghost use Rattle.ncc_session.specs.Core.{place_of};
    ghost use Rattle.ncc_session.specs.Config.{config_allowed};

    ghost view = { λ c. record {
      spent = c.spent;
      config = c.config;
      place = place_of c.core;
      shake = c.shake;
      inflow = c.dechunker;
      out = c.out;
    } };

    ghost invariant = { λ c. IsTrue (config_allowed c.config) };
}

impl Conn {
    /// A connection of which nothing has come.
    pub fn new(alloc: Global, config: ConnConfig) -> Result<Conn, Memory>
        requires allowed { IsTrue (config_allowed config) }
        ensures made { IfOk result (λ c. Stands c config [] [] []) }
    {
        let dechunker = Dechunker::new(alloc)?;
        Ok(Conn {
            config,
            core: Core {
                state: ConnState::Shaking,
                number: 0,
                phase: Phase::Idle,
            },
            shake: Handshake::new(),
            dechunker,
            out: Bytes::new(alloc),
            spent: false,
            alloc,
        })
    }

    // Marks the connection as spent, until the call that does so has gone well.
    fn spend(&mut self) -> Result<(), Memory>
        ensures ok { OnOk result ((self.old.spent ≡ false) × (self.new ≡ record self.old { spent = true })) }
        ensures err { OnErr result ((self.old.spent ≡ true) × (self.new ≡ self.old)) }
    {
        if self.spent {
            return Err(AllocError);
        }
        self.spent = true;
        Ok(())
    }

    /// Takes all the bytes, and handles whole requests in order until one needs an answer. Bytes after the end of the
    /// connection are dropped. After an `Err` the connection is spent.
    pub fn feed(&mut self, piece: &[u8]) -> Result<(), Memory>
        ensures ok { OnOk result (Feeds self.old piece.now self.new) }
        ensures err { OnErr result (FeedBreaks self.old piece.now self.new) }
        ensures spent { IsTrue self.old.spent → IsErr result × (self.new ≡ self.old) }
    {
        self.spend()?;
        take_piece(
            self.alloc,
            &self.config,
            &mut self.core,
            &mut self.shake,
            &mut self.dechunker,
            piece,
            &mut self.out,
        )?;
        self.spent = false;
        Ok(())
    }

    /// The question that waits. A spent connection has none. It takes no memory.
    pub fn ask(&self) -> Option<&Ask>
        ensures some { IfSome result (λ ask. asked self.now ≡ Some (question_of ask.now)) }
        ensures none { IfNone result (asked self.now ≡ None) }
        // It is the one of the session on what was fed and told.
        ensures same { Shows asked_at self.now (asked self.now) }
        // It may be asked.
        ensures may_ask { IfSome result (λ ask. MayAskAt self.now (question_of ask.now)) }
    {
        if self.spent || has_ended(&self.core) {
            return None;
        }
        match &self.core.phase {
            Phase::Asks { ask, .. } => Some(ask),
            _ => None,
        }
    }

    /// Says whether a fact answers the question that waits. It takes no memory.
    pub fn fits(&self, fact: &Fact) -> bool
        ensures exact { result ≡ fits_at (asked self.now) fact.now }
    {
        match self.ask() {
            Some(ask) => fit::fits(ask, fact),
            None => false,
        }
    }

    /// Goes on from the question that waits by a fact that answers it. After an `Err` the connection is spent.
    pub fn tell(&mut self, fact: Fact) -> Result<(), Memory>
        requires fits { self.old.spent ≡ false → IsTrue (fits_at (asked self.old) fact) }
        ensures ok { OnOk result (Tells self.old fact self.new) }
        // Until more bytes come only so many facts are told.
        ensures lowers { OnOk result (measure self.new < measure self.old) }
        ensures err { OnErr result (TellBreaks self.old fact self.new) }
        ensures spent { IsTrue self.old.spent → IsErr result × (self.new ≡ self.old) }
    {
        self.spend()?;
        take_fact(
            self.alloc,
            &self.config,
            &mut self.core,
            &self.shake,
            &mut self.dechunker,
            fact,
            &mut self.out,
        )?;
        self.spent = false;
        Ok(())
    }

    /// The bytes that were written and not yet handed out. It takes no memory.
    pub fn out(&self) -> &[u8]
        ensures bytes { result.now ≡ self.now.out }
    {
        self.out.as_slice()
    }

    /// Hands out the bytes that `out` tells. Up to 65,536 bytes of their room stay for what is written next. It takes no memory.
    pub fn clear_out(&mut self)
        ensures handed { HandsOut self.old self.old.out self.new }
        ensures rest { self.new ≡ record self.old { out = [] } }
    {
        let mut bytes = self.take_out();
        if bytes.len() <= KEPT_ROOM {
            bytes.truncate(0);
            self.out = bytes;
        }
    }

    /// Hands out the bytes written since the last call. It takes no memory.
    pub fn take_out(&mut self) -> Bytes
        ensures handed { HandsOut self.old result self.new }
        ensures bytes { result ≡ self.old.out }
        ensures rest { self.new ≡ record self.old { out = [] } }
    {
        Bytes::from_vec(self.out.take())
    }

    /// Where the session stands. It takes no memory.
    pub fn state(&self) -> &ConnState
        ensures state { result.now ≡ self.now.place.state }
        // It is where the session on what was fed and told stands.
        ensures same { Shows (λ place. place.state) self.now result.now }
    {
        &self.core.state
    }

    /// Says whether no question waits and nothing of an unfinished handshake or message is held: the connection has ended, or
    /// nothing has come, or the handshake is whole, no question waits and the last message is whole. A spent connection is
    /// idle, since nothing of it goes on. It takes no memory.
    pub fn idle(&self) -> bool
        ensures exact { self.now.spent ≡ false → IdleAt self.now result }
        // It says so of the session on what was fed and told.
        ensures same { SaysIdle self.now result }
        ensures spent { self.now.spent ≡ true → result ≡ true }
    {
        self.spent || is_idle(&self.core, &self.shake, &self.dechunker)
    }
}

fn is_idle(core: &Core, shake: &Handshake, dechunker: &Dechunker) -> bool
    ensures { IdleBy core.now.state (question_in (doing_of core.now.phase)) shake.now dechunker.now result }
{
    match core.state {
        ConnState::Ended(_) => true,
        ConnState::Shaking => shake.is_empty(),
        _ => match core.phase {
            Phase::Asks { .. } => false,
            _ => dechunker.idle(),
        },
    }
}
