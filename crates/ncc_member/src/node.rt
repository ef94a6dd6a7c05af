//! The node of a core.

ghost use Rattle.std.specs.Prelude.{◌≡◌, ◌≢◌, ◌⊎◌, ◌↔◌, ◌≤◌, ◌<◌, ◌-◌, ℕ, [], true, false, Err, Option, Some, IfErr, IfOk, IsTrue, OnOk};
ghost use Rattle.std.specs.Prelude.{MatchResult, length};
ghost use Rattle.ncc_base.specs.Disk.{LeavesOnly, Only};
ghost use Rattle.ncc_base.specs.Faults.{Rose};
ghost use Rattle.ncc_tx.specs.declared.entry.ChangeSet.{ChangeSet};
ghost use Rattle.ncc_tx.specs.declared.entry.Saved.{Saved};
ghost use Rattle.ncc_tx.specs.Kept.{IsChange, Leads};
ghost use Rattle.ncc_log.specs.declared.error.JournalError.{JournalError};
ghost use Rattle.ncc_log.specs.Calls.{Arms, Asks, AsksUntilFailed};
ghost use Rattle.ncc_log.specs.Saves.{BeforeOrAfter, IsFree, IsOrFree, IsRefusal, Refuses, Saves, nothing};
ghost use Rattle.ncc_log.specs.Shown.{Ready, disk_of};
ghost use Rattle.ncc_raft.specs.Core.{IsCore, IsSeat};
ghost use Rattle.ncc_raft.specs.Laws.{MayCome};
ghost use Rattle.ncc_raft.specs.Member.{is_leader, kept, started};
ghost use Rattle.ncc_member.specs.declared.event.NodeError.{NodeError};
ghost use Rattle.ncc_member.specs.Answers.{GoesOn, Refused, calls_of, stepped};
ghost use Rattle.ncc_member.specs.Event.{is_proposal, meant, placed_by};
ghost use Rattle.ncc_member.specs.Journaled.{Rests};
ghost use Rattle.ncc_member.specs.Opening.{StandsTooLong};

use crate::event::{Broken, NodeError, NodeEvent, NodeOut};
use crate::opening::start;
use crate::turn::{refusal, turn};
use ncc_base::{Armed, Disk};
use ncc_log::{Journal, JournalError, Unopened};
use ncc_raft::Core;
use ncc_tx::{Entries, Saved};
use std::alloc::Global;
use std::marker::Model;

/// A core and its journal on a disk. A contract sees the disk, whose cluster it is, the core's seat and member, the place of the
/// journal's closed gate, the disk's count of faults when the node was made, and whether the node is down. While it is not, a
/// crash leaves just the saved part of its member.
#[derive(Drop)]
pub struct Node<D: Disk> {
    journal: Journal<D>,
    core: Core,
    limit: u64,
    made: u64,
    down: bool,
}

impl<D: Disk> Model for Node<D> {
    ghost use Rattle.ncc_raft.specs.contracts.member.Core as c;
    ghost use Rattle.ncc_member.specs.Journaled.{IsNode, Journaled, journaled_code, shown};

    ghost Value = { Journaled D };

    ghost coded = { journaled_code D.code c.the_row.coded };

    ghost view = { λ n. shown n.journal n.core n.made n.down };

    ghost invariant = { λ n. IsNode D.Disk n.journal n.core n.limit n.made n.down };
}

impl<D: Disk> Node<D> {
    /// Makes an empty disk the journal of a new core: `id` is its number among `cores`, and `limit` the greatest length of its
    /// log. A refusal hands the disk back: `DiskFault` or `Memory`.
    pub fn create(
        alloc: Global,
        disk: D,
        cluster: u64,
        id: u8,
        cores: u8,
        limit: u64,
    ) -> Result<Node<D>, Unopened<D>>
        requires empty { D.told → D.seen disk ≡ [] }
        requires seat { IsSeat (record { id = id; cores = cores; limit = limit }) }

        // A core that starts from nothing, which is all that any crash leaves.
        ensures owner { IfOk result (λ n. (n.cluster ≡ cluster) × (n.seat ≡ record { id = id; cores = cores; limit = limit })) }
        ensures starts { IfOk result (λ n. (n.member ≡ started cores nothing) × (n.down ≡ false)) }
        ensures made { IfOk result (λ n. n.made ≡ D.fault_count n.disk) }
        ensures stable { IfOk result (λ n. D.told → Rests D.Disk cluster id n.disk nothing) }

        // From a disk on which nothing is pending, a crash at any moment leaves no more bytes than those of a new journal.
        ensures short { D.told → Only [] (D.may_leave disk) →
            LeavesOnly D.moment D.left_since disk (disk_of (λ n. n.disk) result) (λ c. length c ≤ 15) }

        ensures which { IfErr result (λ u. (u.error ≡ JournalError.DiskFault) ⊎ (u.error ≡ JournalError.Memory)) }
        ensures failed { IfErr result (λ u. u.error ≡ JournalError.DiskFault → Rose (D.fault_count disk) (D.fault_count u.disk)) }
        ensures never_falls { D.fault_count disk ≤ D.fault_count (disk_of (λ n. n.disk) result) }
        ensures calm { D.calm disk → D.calm (disk_of (λ n. n.disk) result) }
        ensures calm_ok { IfErr result (λ u. D.calm disk → u.error ≡ JournalError.DiskFault → ⊥) }
    {
        let saved = Saved {
            term: 0,
            vote: 0,
            log: Entries::new(alloc),
        };
        match Core::new(alloc, id, cores, limit, saved) {
            Err(_) => Err(Unopened {
                disk,
                error: JournalError::Memory,
            }),
            Ok(core) => match Journal::create(alloc, disk, cluster, id) {
                Err(refused) => Err(refused),
                Ok(journal) => {
                    let made = journal.faults();
                    Ok(Node {
                        journal,
                        core,
                        limit,
                        made,
                        down: false,
                    })
                }
            },
        }
    }

    /// Starts a core from the journal that a disk holds: a follower that has applied nothing and knows nobody, with exactly the
    /// term, vote and log that are there. A refusal hands the disk back: those of the journal, and then `Full`, where its log
    /// has more than `limit` entries.
    pub fn recover(
        alloc: Global,
        disk: D,
        cluster: u64,
        id: u8,
        cores: u8,
        limit: u64,
    ) -> Result<Node<D>, Unopened<D>>
        requires seat { IsSeat (record { id = id; cores = cores; limit = limit }) }
        ensures owner { IfOk result (λ n. (n.cluster ≡ cluster) × (n.seat ≡ record { id = id; cores = cores; limit = limit })) }
        ensures starts { IfOk result (λ n. (n.member ≡ started cores (kept n.member)) × (n.down ≡ false)) }
        ensures made { IfOk result (λ n. n.made ≡ D.fault_count n.disk) }

        // It starts from the part that the bytes stand for, and from nothing else.
        ensures saved { IfOk result (λ n. D.told → Saves cluster id (D.seen disk) (kept n.member)) }
        ensures opens { D.told → (s : Saved) → Saves cluster id (D.seen disk) s → length s.log ≤ limit →
            MatchResult result (λ n. kept n.member ≡ s) (λ u. IsFree u.error) }

        // A refusal is that of the bytes, but for faults and want of memory; `Full` comes exactly where the log is too long.
        ensures refused { IfErr result (λ u. D.told → u.error ≢ JournalError.Full → IsRefusal cluster id (D.seen disk) u.error) }
        ensures exact { D.told → (e : JournalError) → Refuses cluster id (D.seen disk) e →
            MatchResult result (λ _. ⊥) (λ u. IsOrFree e u.error) }
        ensures full { D.told → StandsTooLong cluster id (D.seen disk) limit →
            MatchResult result (λ _. ⊥) (λ u. IsOrFree JournalError.Full u.error) }
        ensures full_only { IfErr result (λ u. u.error ≡ JournalError.Full → D.told → StandsTooLong cluster id (D.seen disk) limit) }

        // What a read gives stays. At any moment a crash leaves what it might have left before, and behind Ok just that part.
        ensures seen { D.told → D.seen (disk_of (λ n. n.disk) result) ≡ D.seen disk }
        ensures any_moment { D.told →
            LeavesOnly D.moment D.left_since disk (disk_of (λ n. n.disk) result) (D.may_leave disk) }
        ensures stable { IfOk result (λ n. D.told → Rests D.Disk cluster id n.disk (kept n.member)) }

        ensures failed { IfErr result (λ u. u.error ≡ JournalError.DiskFault → Rose (D.fault_count disk) (D.fault_count u.disk)) }
        ensures never_falls { D.fault_count disk ≤ D.fault_count (disk_of (λ n. n.disk) result) }
        ensures calm { D.calm disk → D.calm (disk_of (λ n. n.disk) result) }
        ensures calm_ok { IfErr result (λ u. D.calm disk → u.error ≡ JournalError.DiskFault → ⊥) }
    {
        match Journal::recover(alloc, disk, cluster, id) {
            Err(refused) => Err(refused),
            Ok((journal, saved)) => match start(alloc, id, cores, limit, saved) {
                Err(error) => Err(Unopened {
                    disk: journal.into_disk(),
                    error,
                }),
                Ok(core) => {
                    let made = journal.faults();
                    Ok(Node {
                        journal,
                        core,
                        limit,
                        made,
                        down: false,
                    })
                }
            },
        }
    }

    /// One step of the core. Room for the largest change that the event can make is taken first; then the core steps, and what
    /// it changed is saved; then alone anything is handed out.
    ///
    /// A received envelope is one that a frame can carry (`Envelope::carried`), and a proposed entry one that may stand in a log
    /// (`ncc_tx::entry_allowed`).
    pub fn event(&mut self, event: NodeEvent) -> Result<NodeOut, NodeError>
        requires comes { MayCome (meant event) }

        // It is the step of Raft.
        ensures member { OnOk result (self.new.member ≡ (stepped self.old event).member) }
        ensures sent { IfOk result (λ o. o.sent ≡ (stepped self.old event).sent) }
        ensures note { IfOk result (λ o. o.note ≡ (stepped self.old event).note) }
        ensures placed { IfOk result (λ o. o.placed ≡ placed_by event self.new.member) }
        ensures saved { IfOk result (λ o. IsTrue o.saved ↔ (kept self.old.member ≢ kept self.new.member)) }
        ensures owner { (self.new.cluster ≡ self.old.cluster) × (self.new.seat ≡ self.old.seat) × (self.new.made ≡ self.old.made) }

        // What is handed out is stable: from then on a crash leaves the saved part behind the step.
        ensures stable { OnOk result (D.told → Rests D.Disk self.new.cluster self.new.seat.id self.new.disk (kept self.new.member)) }

        // Whatever it answers, at any moment of it a crash leaves the saved part before the step or behind it.
        ensures any_moment { self.old.down ≡ false → D.told → LeavesOnly D.moment D.left_since self.old.disk self.new.disk
            (BeforeOrAfter self.old.cluster self.old.seat.id (kept self.old.member) (kept (stepped self.old event).member)) }

        // What the disk was asked: a save where the saved part changed, and else nothing; where one of its calls failed, that is the last.
        ensures asked { OnOk result (D.told → (c : Option ChangeSet) → Leads (kept self.old.member) (kept self.new.member) c →
            Asks D.Disk self.old.disk self.new.disk (calls_of self.old.gate c)) }
        ensures stopped { self.old.down ≡ false → (faults : ℕ) → result ≡ Err (NodeError.Down faults) → D.told → (c : ChangeSet) →
            IsChange (kept self.old.member) (kept (stepped self.old event).member) c →
            AsksUntilFailed D.Disk self.old.disk self.new.disk (calls_of self.old.gate (Some c)) }

        // Whatever it answers, the member is that from before the step or from behind it, and what was committed stays.
        ensures one_of { (self.new.member ≡ self.old.member) ⊎ (self.new.member ≡ (stepped self.old event).member) }
        ensures applied { GoesOn self.old.member self.new.member }

        // It is down where the disk failed, then to every event, and before every other answer.
        ensures down { self.old.down ≡ true →
            (result ≡ Err (NodeError.Down (D.fault_count self.old.disk - self.old.made))) × (self.new ≡ self.old) }
        ensures up { OnOk result (self.new.down ≡ false) }

        // What each refusal says, and leaves.
        ensures refused { IfErr result (λ e. Refused D.Disk e self.old self.new) }
        ensures elsewhere { (result ≡ Err NodeError.Elsewhere) ↔
            ((self.old.down ≡ false) × IsTrue (is_proposal event) × (is_leader self.old.member.role ≡ false)) }
        ensures full { (entries : ℕ) → (result ≡ Err (NodeError.Full entries)) ↔ ((self.old.down ≡ false)
            × IsTrue (is_proposal event) × IsTrue (is_leader self.old.member.role)
            × (length self.old.member.log ≡ self.old.seat.limit) × (entries ≡ self.old.seat.limit)) }

        ensures never_falls { D.fault_count self.old.disk ≤ D.fault_count self.new.disk }
        ensures calm { D.calm self.old.disk → D.calm self.new.disk }
        ensures calm_ok { D.calm self.old.disk → self.old.down ≡ false → (faults : ℕ) → result ≡ Err (NodeError.Down faults) → ⊥ }
    {
        if self.down {
            return Err(NodeError::Down {
                faults: self.journal.faults() - self.made,
            });
        }
        if let Some(error) = refusal(&self.core, self.limit, &event) {
            return Err(error);
        }
        match turn(&mut self.journal, &mut self.core, event) {
            Ok(out) => Ok(out),
            Err(Broken::Memory) => Err(NodeError::Memory),
            Err(Broken::Fault) => {
                self.down = true;
                Err(NodeError::Down {
                    faults: self.journal.faults() - self.made,
                })
            }
        }
    }

    /// The core. Here a caller learns what every node keeps: while it is not down, a crash leaves just the core's saved part.
    pub fn core(&self) -> &Core
        ensures seat { result.now.seat ≡ self.now.seat }
        ensures member { result.now.member ≡ self.now.member }
        ensures rests { self.now.down ≡ false → D.told →
            Rests D.Disk self.now.cluster self.now.seat.id self.now.disk (kept self.now.member) }
        ensures sound { self.now.down ≡ false → IsCore (record { seat = self.now.seat; member = self.now.member }) }
    {
        &self.core
    }

    /// By how much the disk's count of faults rose since the node was made.
    pub fn faults(&self) -> u64
        ensures value { result ≡ D.fault_count self.now.disk - self.now.made }
    {
        self.journal.faults() - self.made
    }

    /// The disk, as the last call left it.
    pub fn into_disk(self) -> D
        ensures same { result ≡ self.disk }
    {
        let Node {
            journal,
            core: _,
            limit: _,
            made: _,
            down: _,
        } = self;
        journal.into_disk()
    }
}

impl<D: Armed> Node<D> {
    /// Gives the setting to the disk.
    pub fn fail_at(&mut self, call: u64)
        ensures same { self.new ≡ record self.old { disk = self.new.disk } }
        ensures disk { Arms D.Disk self.old.disk self.new.disk }
        ensures exact { D.set_to_fail self.old.disk call self.new.disk }
    {
        self.journal.fail_at(call);
    }

    /// Gives the setting to the disk. Here a caller learns that the journal is ready, as the law of stopped saves wants it.
    pub fn stop_at(&mut self, call: u64)
        ensures same { self.new ≡ record self.old { disk = self.new.disk } }
        ensures disk { Arms D.Disk self.old.disk self.new.disk }
        ensures exact { D.set_to_stop self.old.disk call self.new.disk }
        ensures ready { self.new.down ≡ false → D.told →
            Ready self.new.cluster self.new.seat.id self.new.gate (D.seen self.new.disk) (D.may_leave self.new.disk) }
    {
        self.journal.stop_at(call);
    }
}
