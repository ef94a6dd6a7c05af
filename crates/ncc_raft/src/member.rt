//! A core as callers see it.

ghost use Rattle.std.specs.Prelude.{◌≡◌, ◌↔◌, ◌-◌, ◌≤◌, ◌<◌, ℕ, false, true, Ok, Err, IfOk, IfSome, IfNone, IsTrue, OnErr, OnOk, length};
ghost use Rattle.std.specs.Prelude.{slice_get, option_copied, Some};
ghost use Rattle.ncc_tx.specs.Items.{entry_allowed};
ghost use Rattle.ncc_tx.specs.Kept.{Leads, MayKeep};
ghost use Rattle.ncc_raft.specs.declared.message.ProposeError.TheVariants.{Elsewhere, Full};
ghost use Rattle.ncc_raft.specs.Carried.{Carried};
ghost use Rattle.ncc_raft.specs.Core.{IsSeat, seated};
ghost use Rattle.ncc_raft.specs.Member.{Timeout, Beat, Receive, Propose, is_leader, kept};
ghost use Rattle.ncc_raft.specs.Step.{step};

use crate::logs::Log;
use crate::message::{Envelope, ProposeError, RaftRole, Step};
use crate::slots::{Places, Votes};
use crate::state::{Seat, Standing, State};
use crate::steps::{propose, receive, send_beat, time_out};
use ncc_pack::Memory;
use ncc_tx::{Entry, Item, Saved};
use std::alloc::Global;
use std::marker::Model;

/// A core of the cluster as a value in memory: one step of Raft at each call. A contract sees its seat and its member.
#[derive(Drop)]
pub struct Core {
    seat: Seat,
    state: State,
}

impl Model for Core {
    ghost use Rattle.ncc_raft.specs.Core.{IsCore, Seated};

    ghost Value = { Seated };

    ghost use Rattle.std.specs.Coded.{codes};
    ghost use Rattle.ncc_tx.specs.contracts.entry.Item as e;

    ghost coded = { Prim.hlevel (codes, e.the_row.coded) };

    ghost use Rattle.ncc_raft.specs.State.{member_of, seat_of};

    ghost view = { λ c. record { seat = seat_of c.seat; member = member_of c.state } };

    ghost invariant = { λ c. IsCore (record { seat = seat_of c.seat; member = member_of c.state }) };
}

impl Core {
    /// A core that starts from what was kept over a crash: a follower that has applied nothing and knows nobody. `id` is its
    /// number among `cores`, and `limit` the greatest length of its log.
    pub fn new(alloc: Global, id: u8, cores: u8, limit: u64, saved: Saved) -> Result<Core, Memory>
        requires seat { IsSeat (record { id = id; cores = cores; limit = limit }) }
        requires kept { MayKeep saved }
        requires few { length saved.log ≤ limit }
        ensures started { IfOk result (λ c. c ≡ seated id cores limit saved) }
    {
        let votes = Votes::none(alloc, cores)?;
        let next = Places::all_at(alloc, cores, 0)?;
        let matches = Places::all_at(alloc, cores, 0)?;
        let Saved { term, vote, log } = saved;
        let log = Log::new(log)?;
        let standing = Standing {
            term,
            vote,
            role: RaftRole::Follower,
            leader: 0,
        };
        Ok(Core {
            seat: Seat { id, cores, limit },
            state: State {
                standing,
                log,
                commit: 0,
                votes,
                next,
                matches,
            },
        })
    }

    /// The time to hear of a leader is over: a core that doesn't lead stands for the next term and asks for votes. An `Err`
    /// changes nothing, here and in the other calls.
    pub fn timeout(&mut self) -> Result<Step, Memory>
        ensures seat { self.new.seat ≡ self.old.seat }
        ensures member { OnOk result (self.new.member ≡ (step self.old.seat self.old.member Timeout).member) }
        ensures sent { IfOk result (λ s. s.out ≡ (step self.old.seat self.old.member Timeout).sent) }
        ensures note { IfOk result (λ s. s.note ≡ (step self.old.seat self.old.member Timeout).note) }
        ensures change { IfOk result (λ s. Leads (kept self.old.member) (kept self.new.member) s.change) }
        ensures err { OnErr result (self.new ≡ self.old) }
    {
        time_out(self.seat, &mut self.state)
    }

    /// The time for a sign of life: a leader sends to each other core.
    pub fn beat(&mut self) -> Result<Step, Memory>
        ensures seat { self.new.seat ≡ self.old.seat }
        ensures member { OnOk result (self.new.member ≡ (step self.old.seat self.old.member Beat).member) }
        ensures sent { IfOk result (λ s. s.out ≡ (step self.old.seat self.old.member Beat).sent) }
        ensures note { IfOk result (λ s. s.note ≡ (step self.old.seat self.old.member Beat).note) }
        ensures change { IfOk result (λ s. Leads (kept self.old.member) (kept self.new.member) s.change) }
        ensures err { OnErr result (self.new ≡ self.old) }
    {
        send_beat(self.seat, &mut self.state)
    }

    /// A message came, which a frame has to be able to carry (`Envelope::carried`).
    pub fn receive(&mut self, envelope: &Envelope) -> Result<Step, Memory>
        requires carried { Carried envelope.now }
        ensures seat { self.new.seat ≡ self.old.seat }
        ensures member { OnOk result (self.new.member ≡ (step self.old.seat self.old.member (Receive envelope.now)).member) }
        ensures sent { IfOk result (λ s. s.out ≡ (step self.old.seat self.old.member (Receive envelope.now)).sent) }
        ensures note { IfOk result (λ s. s.note ≡ (step self.old.seat self.old.member (Receive envelope.now)).note) }
        ensures change { IfOk result (λ s. Leads (kept self.old.member) (kept self.new.member) s.change) }
        ensures err { OnErr result (self.new ≡ self.old) }
    {
        receive(self.seat, &mut self.state, envelope)
    }

    /// A leader whose log has room appends an entry, and sends it to the other cores. The answer has the entry's place and
    /// term. Each refusal changes nothing and drops the entry; `Elsewhere` and `Full` take no memory.
    pub fn propose(&mut self, entry: Entry) -> Result<(u64, u64, Step), ProposeError>
        requires allowed { IsTrue (entry_allowed entry) }
        ensures seat { self.new.seat ≡ self.old.seat }
        ensures member { OnOk result (self.new.member ≡ (step self.old.seat self.old.member (Propose entry)).member) }
        ensures sent { IfOk result (λ r. r.2.out ≡ (step self.old.seat self.old.member (Propose entry)).sent) }
        ensures note { IfOk result (λ r. r.2.note ≡ (step self.old.seat self.old.member (Propose entry)).note) }
        ensures change { IfOk result (λ r. Leads (kept self.old.member) (kept self.new.member) r.2.change) }
        ensures place { IfOk result (λ r. r.0 ≡ length self.new.member.log) }
        ensures term { IfOk result (λ r. r.1 ≡ self.new.member.term) }
        ensures elsewhere { (result ≡ Err Elsewhere) ↔ (is_leader self.old.member.role ≡ false) }
        ensures full { (entries : ℕ) → (result ≡ Err (Full entries))
            ↔ (IsTrue (is_leader self.old.member.role) × (length self.old.member.log ≡ self.old.seat.limit)
            × (entries ≡ self.old.seat.limit)) }
        ensures err { OnErr result (self.new ≡ self.old) }
    {
        propose(self.seat, &mut self.state, entry)
    }

    /// The term.
    pub fn term(&self) -> u64
        ensures term { result ≡ self.now.member.term }
    {
        self.state.standing.term
    }

    /// What it is in its term.
    pub fn role(&self) -> RaftRole
        ensures role { result ≡ self.now.member.role }
    {
        self.state.standing.role
    }

    /// Who leads its term; 0 where it knows nobody.
    pub fn leader(&self) -> u8
        ensures leader { result ≡ self.now.member.leader }
    {
        self.state.standing.leader
    }

    /// How many items are applied.
    pub fn commit(&self) -> u64
        ensures commit { result ≡ self.now.member.commit }
    {
        self.state.commit
    }

    /// How many items its log has.
    pub fn length(&self) -> u64
        ensures length { result ≡ length self.now.member.log }
    {
        self.state.log.len()
    }

    /// The item at a place, from 1.
    pub fn item(&self, place: u64) -> Option<&Item>
        ensures found { IfSome result (λ i. (1 ≤ place) × (Some i.now ≡ slice_get self.now.member.log (place - 1))) }
        ensures none { IfNone result (1 ≤ place → place ≤ length self.now.member.log → ⊥) }
    {
        if place == 0 || place > self.state.log.len() {
            None
        } else {
            Some(&self.state.log.as_slice()[place as usize - 1])
        }
    }
}
