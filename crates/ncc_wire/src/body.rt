//! What stands in a frame behind sender and receiver.

ghost use Rattle.std.specs.Prelude.{◌≡◌, ◌≤◌, ◌∷◌, [], length, drop, Ok, Err, MatchResult, OnOk};
ghost use Rattle.ncc_wire.specs.declared.kind.Kind.TheVariants as kinds;
ghost use Rattle.ncc_wire.specs.Judged.{BodyRead, HasFields, HasItems};
ghost use Rattle.ncc_wire.specs.Kinds.{fields};
ghost use Rattle.ncc_wire.specs.Reading.{fields_at, next_least};

use crate::error::FrameError;
use crate::field::{any_at, count_at, first_at, flag_at, place_at, term_at};
use crate::kind::Kind;
use crate::listing::Listing;
use ncc_raft::Body;
use ncc_tx::{Entries, ItemError, TERM_LIMIT, read_item};
use std::alloc::Global;

fn vote_ask(frame: &[u8]) -> Result<Body, FrameError>
    ensures { HasFields kinds.VoteAsk frame.now result }
{
    let term = term_at(frame, 15)?;
    let place = any_at(frame, 23)?;
    let last = term_at(frame, 31)?;
    Ok(Body::VoteAsk { term, place, last })
}

fn vote_reply(frame: &[u8]) -> Result<Body, FrameError>
    ensures { HasFields kinds.VoteReply frame.now result }
{
    let term = term_at(frame, 15)?;
    let yes = flag_at(frame, 23)?;
    Ok(Body::VoteReply { term, yes })
}

fn append_reply(frame: &[u8]) -> Result<Body, FrameError>
    ensures { HasFields kinds.AppendReply frame.now result }
{
    let term = term_at(frame, 15)?;
    let yes = flag_at(frame, 23)?;
    let place = any_at(frame, 24)?;
    Ok(Body::AppendReply { term, yes, place })
}

fn pull(frame: &[u8]) -> Result<Body, FrameError>
    ensures { HasFields kinds.Pull frame.now result }
{
    let have = place_at(frame, 15)?;
    Ok(Body::Pull { have })
}

/// The least term of what stands behind an item with this term.
fn next_least(listing: Listing, least: u64, term: u64) -> u64
    ensures { result ≡ next_least listing.rising least term }
{
    if listing.rising { term } else { least }
}

/// So many items from a place on, and the place behind them. Room is made for what was read alone.
#[tactic(auto, using(crate::proofs::Lists::offset_small))]
fn items_at(
    alloc: Global,
    frame: &[u8],
    at: usize,
    listing: Listing,
) -> Result<(Entries, usize), FrameError>
    requires { at ≤ length frame.now }
    ensures { HasItems listing at (drop at frame.now) result }
{
    let mut items = Entries::new(alloc);
    let mut place = at;
    let mut least = listing.least;
    for _ in 0..listing.count {
        match read_item(alloc, frame, place, least, listing.greatest) {
            Ok((item, behind)) => {
                least = next_least(listing, least, item.term);
                place = behind;
                items.push(item)?;
            }
            Err(ItemError::Wrong(field)) => {
                return Err(FrameError::BadField {
                    at: (place + field.offset()) as u64,
                });
            }
            Err(ItemError::Memory) => return Err(FrameError::Memory),
        }
    }
    Ok((items, place))
}

/// What stands in an Append before its items.
#[derive(Drop)]
struct AppendFields {
    term: u64,
    prev: u64,
    prev_term: u64,
    commit: u64,
    count: u32,
}

fn append_fields(frame: &[u8]) -> Result<AppendFields, FrameError>
    ensures exact { MatchResult result
        (λ f. fields_at (fields kinds.Append) 15 frame.now ≡ Ok (f.term ∷ f.prev ∷ f.prev_term ∷ f.commit ∷ f.count ∷ []))
        (λ e. fields_at (fields kinds.Append) 15 frame.now ≡ Err e) }
    ensures inside { OnOk result (51 ≤ length frame.now) }
{
    let term = term_at(frame, 15)?;
    let prev = place_at(frame, 23)?;
    let prev_term = term_at(frame, 31)?;
    let commit = any_at(frame, 39)?;
    let count = count_at(frame, 47)?;
    Ok(AppendFields {
        term,
        prev,
        prev_term,
        commit,
        count,
    })
}

fn append(alloc: Global, frame: &[u8]) -> Result<(Body, usize), FrameError>
    ensures { BodyRead kinds.Append frame.now result }
{
    let fields = append_fields(frame)?;
    let listing = Listing {
        count: fields.count,
        rising: true,
        least: fields.prev_term,
        greatest: fields.term,
    };
    let (items, end) = items_at(alloc, frame, 51, listing)?;
    let body = Body::Append {
        term: fields.term,
        prev: fields.prev,
        prev_term: fields.prev_term,
        commit: fields.commit,
        items,
    };
    Ok((body, end))
}

/// The place of the first item of a Batch, and how many there are.
fn batch_fields(frame: &[u8]) -> Result<(u64, u32), FrameError>
    ensures exact { MatchResult result (λ f. fields_at (fields kinds.Batch) 15 frame.now ≡ Ok (f.0 ∷ f.1 ∷ []))
        (λ e. fields_at (fields kinds.Batch) 15 frame.now ≡ Err e) }
    ensures inside { OnOk result (27 ≤ length frame.now) }
{
    let first = first_at(frame, 15)?;
    let count = count_at(frame, 23)?;
    Ok((first, count))
}

fn batch(alloc: Global, frame: &[u8]) -> Result<(Body, usize), FrameError>
    ensures { BodyRead kinds.Batch frame.now result }
{
    let (first, count) = batch_fields(frame)?;
    let listing = Listing {
        count,
        rising: false,
        least: 0,
        greatest: TERM_LIMIT - 1,
    };
    let (items, end) = items_at(alloc, frame, 27, listing)?;
    Ok((Body::Batch { first, items }, end))
}

/// The body of a kind, and the place behind it.
pub(crate) fn body_at(alloc: Global, kind: Kind, frame: &[u8]) -> Result<(Body, usize), FrameError>
    ensures { BodyRead kind frame.now result }
{
    match kind {
        Kind::VoteAsk => Ok((vote_ask(frame)?, 39)),
        Kind::VoteReply => Ok((vote_reply(frame)?, 24)),
        Kind::Append => append(alloc, frame),
        Kind::AppendReply => Ok((append_reply(frame)?, 32)),
        Kind::Pull => Ok((pull(frame)?, 23)),
        Kind::Batch => batch(alloc, frame),
    }
}
