//! The lines of members over Raft, read word by word.

ghost use Rattle.std.specs.Prelude.{◌≡◌, ◌≢◌, ◌<◌, ◌^◌, ℕ, List, [], ◌∷◌, codes, decimal, IfSome, IfNone};
ghost use Rattle.ncc_replay.specs.Reading.{words_in, AreWords, AreBad};
ghost use Rattle.ncc_replay.specs.declared.status.Cause.TheVariants.{BadLine};

use crate::line::next_number;
use ncc_world::Event;

// A member alone.
fn one(rest: Option<&[u8]>) -> Option<u8>
    ensures some { IfSome result (λ m. words_in rest.entry ≡ decimal m ∷ []) }
    ensures none { IfNone result ((m : ℕ) → m < 2 ^ 8 → words_in rest.entry ≢ decimal m ∷ []) }
{
    let (member, rest) = next_number(rest, 255)?;
    if rest.is_some() {
        return None;
    }
    Some(member as u8)
}

// Two members.
fn two(rest: Option<&[u8]>) -> Option<(u8, u8)>
    ensures some { IfSome result (λ m. words_in rest.entry ≡ decimal m.0 ∷ decimal m.1 ∷ []) }
    ensures none { IfNone result ((m n : ℕ) → m < 2 ^ 8 → n < 2 ^ 8 → words_in rest.entry ≢ decimal m ∷ decimal n ∷ []) }
{
    let (first, rest) = next_number(rest, 255)?;
    let (second, rest) = next_number(rest, 255)?;
    if rest.is_some() {
        return None;
    }
    Some((first as u8, second as u8))
}

pub(crate) fn timeout(rest: Option<&[u8]>) -> Option<Event>
    ensures some { IfSome result (λ e. (cluster : ℕ) → AreWords cluster (codes "timeout" ∷ words_in rest.entry) e) }
    ensures none { IfNone result ((cluster : ℕ) → AreBad cluster (codes "timeout" ∷ words_in rest.entry) BadLine) }
{
    let member = one(rest)?;
    Some(Event::Timeout { member })
}

pub(crate) fn beat(rest: Option<&[u8]>) -> Option<Event>
    ensures some { IfSome result (λ e. (cluster : ℕ) → AreWords cluster (codes "beat" ∷ words_in rest.entry) e) }
    ensures none { IfNone result ((cluster : ℕ) → AreBad cluster (codes "beat" ∷ words_in rest.entry) BadLine) }
{
    let member = one(rest)?;
    Some(Event::Beat { member })
}

pub(crate) fn deliver(rest: Option<&[u8]>) -> Option<Event>
    ensures some { IfSome result (λ e. (cluster : ℕ) → AreWords cluster (codes "deliver" ∷ words_in rest.entry) e) }
    ensures none { IfNone result ((cluster : ℕ) → AreBad cluster (codes "deliver" ∷ words_in rest.entry) BadLine) }
{
    let (message, rest) = next_number(rest, u64::MAX)?;
    if rest.is_some() {
        return None;
    }
    Some(Event::Deliver { message })
}

pub(crate) fn pull(rest: Option<&[u8]>) -> Option<Event>
    ensures some { IfSome result (λ e. (cluster : ℕ) → AreWords cluster (codes "pull" ∷ words_in rest.entry) e) }
    ensures none { IfNone result ((cluster : ℕ) → AreBad cluster (codes "pull" ∷ words_in rest.entry) BadLine) }
{
    let (replica, core) = two(rest)?;
    Some(Event::Pull { replica, core })
}

pub(crate) fn crash(rest: Option<&[u8]>) -> Option<Event>
    ensures some { IfSome result (λ e. (cluster : ℕ) → AreWords cluster (codes "crash" ∷ words_in rest.entry) e) }
    ensures none { IfNone result ((cluster : ℕ) → AreBad cluster (codes "crash" ∷ words_in rest.entry) BadLine) }
{
    let member = one(rest)?;
    Some(Event::Crash { member })
}
