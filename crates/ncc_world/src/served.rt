//! One connection of a world.

ghost use Rattle.std.specs.Prelude.{◌≡◌, [], Some, None, IfSome, IfNone, OnOk};
ghost use Rattle.ncc_session.specs.Core.{question_of};
ghost use Rattle.ncc_session.specs.Session.{is_ended};
ghost use Rattle.ncc_session.specs.Talk.{HandsOut};
ghost use Rattle.ncc_clients.specs.Run.{Client, since_fed};
ghost use Rattle.ncc_world.specs.declared.setup.Setup.{Setup};
ghost use Rattle.ncc_world.specs.declared.seen.ConnSeen.{ConnSeen};
ghost use Rattle.ncc_world.specs.World.{IsKept, IsClient, asked_by};
ghost use Rattle.ncc_world.specs.Parts.{Lowers, MayChange, changed, left_at};

use crate::seen::ConnSeen;
use ncc_pack::{Bytes, Memory};
use ncc_session::{Ask, Conn, ConnState, Fact};

/// Where an entry was proposed that waits to be applied.
#[derive(Clone, Copy, Debug, PartialEq, Eq)]
pub(crate) struct ProposedAt {
    pub(crate) place: u64,
    pub(crate) term: u64,
}

/// What is kept of a connection beside what it shows.
#[derive(Drop)]
pub(crate) struct Served {
    pub(crate) conn: Conn,
    /// From when on its question waits, in milliseconds.
    pub(crate) since: u64,
    pub(crate) placing: Option<ProposedAt>,
    /// The client closed it.
    pub(crate) closed: bool,
}

/// What happens to a connection.
#[derive(Drop)]
pub(crate) enum Change {
    /// Bytes come in.
    Fed(Bytes),
    /// Its question is answered.
    Told(Fact),
    /// Its entry was proposed.
    Placed(ProposedAt),
    /// The client closes it.
    Closed,
}

/// The question that waits. Once the connection is closed there is none.
pub(crate) fn question(served: &Served) -> Option<&Ask>
    ensures some { IfSome result (λ ask. asked_by served.now ≡ Some (question_of ask.now)) }
    ensures none { IfNone result (asked_by served.now ≡ None) }
{
    if served.closed {
        return None;
    }
    served.conn.ask()
}

/// Says whether a session has ended.
fn has_ended(state: &ConnState) -> bool
    ensures { result ≡ is_ended state.now }
{
    match state {
        ConnState::Ended(_) => true,
        _ => false,
    }
}

// From when on the question waits that bytes may ask: a question that waits already does so since before.
fn since_fed(served: &Served, now: u64) -> u64
    ensures { result ≡ since_fed now served.now.since (asked_by served.now) }
{
    match question(served) {
        Some(_) => served.since,
        None => now,
    }
}

// Changes a connection at a moment. What it wrote is not shown yet.
pub(crate) fn alter(served: &mut Served, change: Change, now: u64) -> Result<(), Memory>
    requires may { MayChange change served.old.conn }
    ensures ok { OnOk result ((s : Setup) (seen : ConnSeen) (c : Client) → IsKept s served.old seen c →
        IsKept s served.new seen (changed s now c change)) }
    ensures lowers { OnOk result (Lowers change served.old.placing (left_at served.old) (left_at served.new)) }
{
    match change {
        Change::Fed(piece) => {
            served.since = since_fed(served, now);
            served.conn.feed(piece.as_slice())
        }
        Change::Told(fact) => {
            served.conn.tell(fact)?;
            served.since = now;
            served.placing = None;
            Ok(())
        }
        Change::Placed(place) => {
            served.since = now;
            served.placing = Some(place);
            Ok(())
        }
        Change::Closed => {
            served.closed = true;
            Ok(())
        }
    }
}

// What was written is shown. Its room is kept for what comes next, and given back where nothing comes.
fn let_go(conn: &mut Conn, ended: bool)
    ensures handed { HandsOut conn.old conn.old.out conn.new }
    ensures rest { conn.new ≡ record conn.old { out = [] } }
{
    if ended {
        conn.take_out();
    } else {
        conn.clear_out();
    }
}

// Shows what a connection wrote last, and where it stands.
pub(crate) fn show(served: &mut Served, seen: &mut ConnSeen) -> Result<(), Memory>
    ensures ok { OnOk result ((s : Setup) (c : Client) → IsKept s served.old seen.old c → IsClient s served.new seen.new c) }
    ensures left { left_at served.new ≡ left_at served.old }
    ensures conn { seen.new.conn ≡ seen.old.conn }
    ensures member { seen.new.member ≡ seen.old.member }
{
    seen.out.extend(served.conn.out())?;
    let ended = served.closed || has_ended(served.conn.state());
    let_go(&mut served.conn, ended);
    seen.waiting = question(served).is_some();
    seen.ended = ended;
    Ok(())
}
