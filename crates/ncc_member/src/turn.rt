//! One turn of a node: room, the core's step, the save, and only then what is handed out.

ghost use Rattle.std.specs.Prelude.{◌≡◌, ◌≢◌, ◌↔◌, ◌≤◌, ℕ, Err, Option, Some, IsTrue, IfOk, OnErr, OnOk};
ghost use Rattle.ncc_base.specs.Disk.{LeavesOnly};
ghost use Rattle.ncc_base.specs.Faults.{Rose};
ghost use Rattle.ncc_tx.specs.declared.entry.ChangeSet.{ChangeSet};
ghost use Rattle.ncc_tx.specs.Kept.{IsChange, Leads};
ghost use Rattle.ncc_log.specs.Calls.{Asks, AsksUntilFailed, MakesRoom};
ghost use Rattle.ncc_log.specs.Saves.{BeforeOrAfter};
ghost use Rattle.ncc_log.specs.Shown.{IsSame};
ghost use Rattle.ncc_raft.specs.Laws.{MayCome};
ghost use Rattle.ncc_raft.specs.Member.{kept};
ghost use Rattle.ncc_raft.specs.Step.{step};
ghost use Rattle.ncc_member.specs.Answers.{calls_of};
ghost use Rattle.ncc_member.specs.Event.{meant, placed_by, refusal};
ghost use Rattle.ncc_member.specs.Journaled.{Agrees};

use crate::event::{Broken, NodeError, NodeEvent, NodeOut};
use crate::room::most_payload;
use ncc_base::Disk;
use ncc_log::Journal;
use ncc_raft::{Core, RaftRole, Step};

/// Why a proposal is refused. It takes no memory.
pub(crate) fn refusal(core: &Core, limit: u64, event: &NodeEvent) -> Option<NodeError>
    requires limit { limit ≡ core.now.seat.limit }
    ensures exact { result ≡ refusal core.now.seat core.now.member event.now }
{
    match event {
        NodeEvent::Propose(_) => match core.role() {
            RaftRole::Leader => {
                if core.length() == limit {
                    Some(NodeError::Full { entries: limit })
                } else {
                    None
                }
            }
            RaftRole::Candidate | RaftRole::Follower => Some(NodeError::Elsewhere),
        },
        NodeEvent::Timeout | NodeEvent::Beat | NodeEvent::Receive(_) => None,
    }
}

/// What a step hands out, and where it placed a proposal.
#[derive(Drop)]
struct Taken {
    placed: Option<(u64, u64)>,
    step: Step,
}

/// The core's step.
fn take(core: &mut Core, event: NodeEvent) -> Result<Taken, Broken>
    requires comes { MayCome (meant event) }
    ensures seat { core.new.seat ≡ core.old.seat }
    ensures member { OnOk result (core.new.member ≡ (step core.old.seat core.old.member (meant event)).member) }
    ensures sent { IfOk result (λ t. t.step.out ≡ (step core.old.seat core.old.member (meant event)).sent) }
    ensures note { IfOk result (λ t. t.step.note ≡ (step core.old.seat core.old.member (meant event)).note) }
    ensures change { IfOk result (λ t. Leads (kept core.old.member) (kept core.new.member) t.step.change) }
    ensures placed { IfOk result (λ t. t.placed ≡ placed_by event core.new.member) }
    ensures which { OnErr result (result ≡ Err Broken.Memory) }
    ensures err { OnErr result (core.new ≡ core.old) }
{
    match event {
        NodeEvent::Timeout => match core.timeout() {
            Ok(step) => Ok(Taken { placed: None, step }),
            Err(_) => Err(Broken::Memory),
        },
        NodeEvent::Beat => match core.beat() {
            Ok(step) => Ok(Taken { placed: None, step }),
            Err(_) => Err(Broken::Memory),
        },
        NodeEvent::Receive(envelope) => match core.receive(&envelope) {
            Ok(step) => Ok(Taken { placed: None, step }),
            Err(_) => Err(Broken::Memory),
        },
        // That it is no other refusal was looked at before.
        NodeEvent::Propose(entry) => match core.propose(entry) {
            Ok((place, term, step)) => Ok(Taken {
                placed: Some((place, term)),
                step,
            }),
            Err(_) => Err(Broken::Memory),
        },
    }
}

/// One turn, where the event is no proposal that is refused. All memory is taken before anything changes.
pub(crate) fn turn<D: Disk>(
    journal: &mut Journal<D>,
    core: &mut Core,
    event: NodeEvent,
) -> Result<NodeOut, Broken>
    requires agrees { Agrees D.Disk journal.old core.old }
    requires comes { MayCome (meant event) }
    ensures owner { (journal.new.cluster ≡ journal.old.cluster) × (journal.new.member ≡ journal.old.member) }
    ensures seat { core.new.seat ≡ core.old.seat }
    ensures member { OnOk result (core.new.member ≡ (step core.old.seat core.old.member (meant event)).member) }
    ensures sent { IfOk result (λ o. o.sent ≡ (step core.old.seat core.old.member (meant event)).sent) }
    ensures note { IfOk result (λ o. o.note ≡ (step core.old.seat core.old.member (meant event)).note) }
    ensures placed { IfOk result (λ o. o.placed ≡ placed_by event core.new.member) }
    ensures saved { IfOk result (λ o. IsTrue o.saved ↔ (kept core.old.member ≢ kept core.new.member)) }
    ensures agrees { OnOk result (Agrees D.Disk journal.new core.new) }
    ensures any_moment { D.told → LeavesOnly D.moment D.left_since journal.old.disk journal.new.disk
        (BeforeOrAfter journal.old.cluster journal.old.member (kept core.old.member)
        (kept (step core.old.seat core.old.member (meant event)).member)) }
    ensures asked { OnOk result (D.told → (c : Option ChangeSet) → Leads (kept core.old.member) (kept core.new.member) c →
        Asks D.Disk journal.old.disk journal.new.disk (calls_of journal.old.gate c)) }
    ensures stopped { result ≡ Err Broken.Fault → D.told → (c : ChangeSet) → IsChange (kept core.old.member) (kept core.new.member) c →
        AsksUntilFailed D.Disk journal.old.disk journal.new.disk (calls_of journal.old.gate (Some c)) }
    ensures memory { result ≡ Err Broken.Memory → IsSame journal.old journal.new
        × MakesRoom D.Disk journal.old.disk journal.new.disk × (core.new ≡ core.old) }
    ensures fault { result ≡ Err Broken.Fault → Rose (D.fault_count journal.old.disk) (D.fault_count journal.new.disk)
        × (core.new.member ≡ (step core.old.seat core.old.member (meant event)).member) }
    ensures never_falls { D.fault_count journal.old.disk ≤ D.fault_count journal.new.disk }
    ensures calm { D.calm journal.old.disk → D.calm journal.new.disk }
    ensures calm_ok { D.calm journal.old.disk → result ≡ Err Broken.Fault → ⊥ }
{
    let most = most_payload(&event);
    journal.reserve(most)?;
    let Taken { placed, step } = take(core, event)?;
    let Step { change, out, note } = step;
    match change {
        None => Ok(NodeOut {
            sent: out,
            placed,
            saved: false,
            note,
        }),
        Some(change) => match journal.save(&change) {
            Ok(()) => Ok(NodeOut {
                sent: out,
                placed,
                saved: true,
                note,
            }),
            // There is room, and the log is not too long, so it is the disk.
            Err(_) => Err(Broken::Fault),
        },
    }
}
