//! What comes of an `Append` at the others: "AppendEntries RPC" at the receiver.

ghost use Rattle.std.specs.Prelude.{◌≡◌, ◌≤◌, ◌<◌, ◌^◌, ◌∷◌, ◌&&◌, not, nat_eq, nat_le, IfOk, IfSome, IfNone, None, Some};
ghost use Rattle.std.specs.Prelude.{OnErr, OnOk, drop, length};
ghost use Rattle.ncc_tx.specs.Kept.{AllAllowed, Leads, SameTerms, term_at, terms};
ghost use Rattle.ncc_raft.specs.Logs.{accepted, first_conflict};
ghost use Rattle.ncc_raft.specs.State.{Made, append_of, offered_of, took_of, took_or_not_of};

use crate::logs::{Clash, Log, first_conflict};
use crate::message::{Body, Note, RaftRole, Step};
use crate::stand::{is_leader, one_letter, quiet, stand};
use crate::state::{Seat, Standing, State};
use ncc_pack::Memory;
use ncc_tx::{ChangeSet, Entries, Item, copy_items, same_terms, term_at};

/// An `Append`, but for its sender and term.
#[derive(Clone, Copy)]
pub(crate) struct Offer<'a> {
    pub prev: u64,
    pub prev_term: u64,
    pub commit: u64,
    pub items: &'a Entries,
}

/// Says whether another term was told of a place at or below the commit.
fn differs(commit: u64, place: u64, kept: u64, told: u64) -> bool
    ensures exact { result ≡ (nat_le place commit && not (nat_eq kept told)) }
{
    place <= commit && kept != told
}

/// The first place at or below the commit, that before the items among them, at which another term was told.
#[tactic(auto, using(crate::proofs::Conflicts::prev_found, crate::proofs::Conflicts::prev_some, crate::proofs::Conflicts::prev_none))]
fn contradicted(
    log: &[Item],
    commit: u64,
    prev: u64,
    prev_term: u64,
    items: &[Item],
) -> Option<Clash>
    requires prev { prev < 2 ^ 62 }
    requires few { length items.now ≤ 64 }
    ensures some { IfSome result (λ x. first_conflict log.now commit prev (prev_term ∷ terms items.now)
        ≡ Some (record { place = x.place; kept = x.kept; told = x.told })) }
    ensures none { IfNone result (first_conflict log.now commit prev (prev_term ∷ terms items.now) ≡ None) }
{
    let kept = term_at(log, prev);
    if differs(commit, prev, kept, prev_term) {
        return Some(Clash {
            place: prev,
            kept,
            told: prev_term,
        });
    }
    first_conflict(log, commit, prev + 1, items)
}

/// Takes the items behind the first ones, of which the log has the terms, and all else stays.
#[tactic(auto, using(crate::proofs::Follows::part_allowed))]
fn take(
    state: &mut State,
    standing: Standing,
    prev: usize,
    same: usize,
    items: &[Item],
    commit: u64,
) -> Result<ChangeSet, Memory>
    requires near { prev < 2 ^ 62 }
    requires few { length items.now ≤ 64 }
    requires prev { prev ≤ length state.old.log }
    requires same { SameTerms (drop prev state.old.log) items.now same }
    requires some { same < length items.now }
    requires allowed { AllAllowed items.now }
    ensures taken { OnOk result (state.new
        ≡ record state.old { standing = standing; log = accepted state.old.log prev items.now; commit = commit }) }
    ensures change { IfOk result (λ c. Leads
        (record { term = state.old.standing.term; vote = state.old.standing.vote; log = state.old.log })
        (record { term = standing.term; vote = standing.vote; log = accepted state.old.log prev items.now }) (Some c)) }
    ensures err { OnErr result (state.new ≡ state.old) }
{
    let alloc = state.log.allocator();
    let keep = prev + same;
    let fresh = &items[same..];
    let told = copy_items(alloc, fresh)?;
    let kept = copy_items(alloc, fresh)?;
    state.log.put(keep, kept)?;
    state.standing = standing;
    state.commit = commit;
    Ok(ChangeSet {
        term: standing.term,
        vote: standing.vote,
        keep: keep as u64,
        items: told,
    })
}

/// Takes the items of an `Append` whose place before them the log has.
#[tactic(auto, using(crate::proofs::Follows::same_on, crate::proofs::Follows::part_some))]
fn took(
    seat: Seat,
    standing: Standing,
    state: &mut State,
    from: u8,
    offer: &Offer,
) -> Result<Step, Memory>
    requires prev { offer.now.prev < 2 ^ 62 }
    requires few { length offer.now.items.now ≤ 64 }
    requires allowed { AllAllowed offer.now.items.now }
    requires has { offer.now.prev ≤ length state.old.log }
    ensures ok { IfOk result (λ s. Made state.old state.new
        (took_of seat standing state.old from offer.now.prev offer.now.commit offer.now.items.now) s) }
    ensures err { OnErr result (state.new ≡ state.old) }
{
    let items = offer.items.as_slice();
    let prev = offer.prev as usize;
    let place = offer.prev + items.len() as u64;
    let body = Body::AppendReply {
        term: standing.term,
        yes: true,
        place,
    };
    let out = one_letter(state.log.allocator(), seat.id, from, body)?;
    let same = same_terms(&state.log.as_slice()[prev..], items);
    let commit = state.commit.max(offer.commit.min(place));
    if same == items.len() {
        state.commit = commit;
        return Ok(stand(state, standing, out, Note::Nothing));
    }
    let change = take(state, standing, prev, same, items, commit)?;
    Ok(Step {
        change: Some(change),
        out,
        note: Note::Nothing,
    })
}

/// Says whether a log has this term at a place.
fn has_prev(log: &Log, prev: u64, prev_term: u64) -> bool
    ensures exact { result ≡ (nat_le prev (length log.now) && nat_eq (term_at log.now prev) prev_term) }
{
    prev <= log.len() && log.term_at(prev) == prev_term
}

/// Takes the items, or says up to where the log may be the leader's.
#[tactic(auto, using(crate::proofs::Follows::has_prev_within))]
fn took_or_not(
    seat: Seat,
    standing: Standing,
    state: &mut State,
    from: u8,
    offer: &Offer,
) -> Result<Step, Memory>
    requires prev { offer.now.prev < 2 ^ 62 }
    requires few { length offer.now.items.now ≤ 64 }
    requires allowed { AllAllowed offer.now.items.now }
    ensures ok { IfOk result (λ s. Made state.old state.new
        (took_or_not_of seat standing state.old from offer.now.prev offer.now.prev_term offer.now.commit offer.now.items.now) s) }
    ensures err { OnErr result (state.new ≡ state.old) }
{
    if has_prev(&state.log, offer.prev, offer.prev_term) {
        return took(seat, standing, state, from, offer);
    }
    let body = Body::AppendReply {
        term: standing.term,
        yes: false,
        place: offer.prev.saturating_sub(1).min(state.log.len()),
    };
    let out = one_letter(state.log.allocator(), seat.id, from, body)?;
    Ok(stand(state, standing, out, Note::Nothing))
}

/// What comes of an `Append` of the own term at a core that doesn't lead.
fn offered(
    seat: Seat,
    standing: Standing,
    state: &mut State,
    from: u8,
    offer: &Offer,
) -> Result<Step, Memory>
    requires prev { offer.now.prev < 2 ^ 62 }
    requires few { length offer.now.items.now ≤ 64 }
    requires allowed { AllAllowed offer.now.items.now }
    ensures ok { IfOk result (λ s. Made state.old state.new
        (offered_of seat standing state.old from offer.now.prev offer.now.prev_term offer.now.commit offer.now.items.now) s) }
    ensures err { OnErr result (state.new ≡ state.old) }
{
    let last = offer.prev + offer.items.len() as u64;
    if last > seat.limit {
        let note = Note::Beyond { last };
        return Ok(quiet(state, standing, note));
    }
    let log = state.log.as_slice();
    let items = offer.items.as_slice();
    match contradicted(log, state.commit, offer.prev, offer.prev_term, items) {
        Some(clash) => {
            let note = Note::Contradicted {
                index: clash.place,
                kept: clash.kept,
                told: clash.told,
            };
            Ok(quiet(state, standing, note))
        }
        None => took_or_not(seat, standing, state, from, offer),
    }
}

/// What comes of an `Append`.
pub(crate) fn on_append(
    seat: Seat,
    standing: Standing,
    state: &mut State,
    from: u8,
    term: u64,
    offer: &Offer,
) -> Result<Step, Memory>
    requires prev { offer.now.prev < 2 ^ 62 }
    requires few { length offer.now.items.now ≤ 64 }
    requires allowed { AllAllowed offer.now.items.now }
    ensures ok { IfOk result (λ s. Made state.old state.new
        (append_of seat standing state.old from term offer.now.prev offer.now.prev_term offer.now.commit offer.now.items.now) s) }
    ensures err { OnErr result (state.new ≡ state.old) }
{
    let alloc = state.log.allocator();
    if term < standing.term {
        let body = Body::AppendReply {
            term: standing.term,
            yes: false,
            place: 0,
        };
        let out = one_letter(alloc, seat.id, from, body)?;
        return Ok(stand(state, standing, out, Note::Nothing));
    }
    if is_leader(standing.role) {
        return Ok(quiet(state, standing, Note::Nothing));
    }
    let standing = Standing {
        term: standing.term,
        vote: standing.vote,
        role: RaftRole::Follower,
        leader: from,
    };
    offered(seat, standing, state, from, offer)
}
