//! The spelling of items, as a journal's records and the frames of peers have them.

ghost use Rattle.std.specs.Prelude.{◌≡◌, ◌≤◌, ◌<◌, ◌+◌, ◌-◌, ◌^◌, ◌++◌, List, ℕ, min, length, drop, take, IsTrue, IfOk, IfSome};
ghost use Rattle.std.specs.Prelude.{IfNone, IsOk, OnOk, OnErr, Ok, Err, vec_len, vec_capacity};
ghost use Rattle.std.specs.List.{All};
ghost use Rattle.ncc_tx.specs.declared.entry.Item.{Item};
ghost use Rattle.ncc_tx.specs.declared.field.ItemError.TheVariants.{Wrong};
ghost use Rattle.ncc_tx.specs.declared.field.ItemField.{ItemField};
ghost use Rattle.ncc_tx.specs.Fields.{BeginsWith, Behind, ItemOrMemory, IsWrong, RightEntry, RightTerm, size_at_front, term_at_front};
ghost use Rattle.ncc_tx.specs.Items.{Begins, AreItems, counted, entry_allowed, item_bytes, items_bytes};
ghost use Rattle.ncc_tx.specs.Kept.{AllAllowed, payload};
ghost use Rattle.ncc_tx.specs.Spelled.{entry_fits};

use crate::entry::{ChangeSet, Entry, EntryError, Item};
use crate::field::{ItemError, ItemField};
use crate::read::{entry_of, one_spelling};
use crate::write::{MAX_ENTRY, entry_len, put_entry};
use ncc_pack::Memory;
use std::alloc::Global;

/// The bytes of a term and of a size.
const HEAD: u64 = 12;

/// The length in bytes of the spelling of an item: 12, and those of its entry, which has to fit. A length that would pass
/// the greatest `u64` stays there. It takes no memory.
#[tactic(auto, using(crate::proofs::ItemBytes::length_item))]
pub fn item_len(item: &Item) -> u64
    requires fits { IsTrue (entry_fits item.now.entry) }
    ensures length { result ≡ min (length (item_bytes item.now)) (2 ^ 64 - 1) }
{
    HEAD.saturating_add(entry_len(&item.entry))
}

/// The length in bytes of items behind their number, as `item_len` tells that of one.
#[tactic(auto, using(crate::proofs::ItemBytes::adds_item, crate::proofs::ItemBytes::all_added))]
pub fn items_len(items: &[Item]) -> u64
    requires fit { All (λ i. IsTrue (entry_fits i.entry)) items.now }
    ensures length { result ≡ min (length (counted items.now)) (2 ^ 64 - 1) }
{
    let mut sum: u64 = 4;
    for item in items {
        sum = sum.saturating_add(item_len(item));
    }
    sum
}

/// The length in bytes of the payload of a change in a journal's record, as `item_len` tells that of an item.
#[tactic(auto, using(crate::proofs::ItemBytes::length_payload))]
pub fn payload_len(change: &ChangeSet) -> u64
    requires fit { All (λ i. IsTrue (entry_fits i.entry)) change.now.items }
    ensures length { result ≡ min (length (payload change.now)) (2 ^ 64 - 1) }
{
    items_len(change.items.as_slice()).saturating_add(17)
}

#[tactic(auto, using(crate::proofs::ItemBytes::puts_one))]
fn put_item(item: &Item, into: &mut Vec<u8>) -> Result<(), Memory>
    requires { IsTrue (entry_allowed item.now.entry) }
    ensures ok { OnOk result (into.new.items ≡ into.old.items ++ item_bytes item.now) }
    ensures err { OnErr result (Begins into.old.items into.new.items) }
    ensures grows { vec_capacity into.old ≤ vec_capacity into.new }
    ensures full { OnErr result (vec_capacity into.old < length into.old.items + length (item_bytes item.now)) }
{
    into.extend_from_slice(&item.term.to_be_bytes())?;
    let size = entry_len(&item.entry) as u32;
    into.extend_from_slice(&size.to_be_bytes())?;
    put_entry(&item.entry, into)
}

#[tactic(auto, using(crate::proofs::ItemBytes::puts_all))]
fn put_items(items: &[Item], into: &mut Vec<u8>) -> Result<(), Memory>
    requires { AllAllowed items.now }
    ensures ok { OnOk result (into.new.items ≡ into.old.items ++ items_bytes items.now) }
    ensures err { OnErr result (Begins into.old.items into.new.items) }
    ensures grows { vec_capacity into.old ≤ vec_capacity into.new }
    ensures full { OnErr result (vec_capacity into.old < length into.old.items + length (items_bytes items.now)) }
{
    for item in items {
        put_item(item, into)?;
    }
    Ok(())
}

#[tactic(auto, using(crate::proofs::ItemBytes::counted_put, crate::proofs::ItemBytes::length_counted))]
fn put_counted(items: &[Item], into: &mut Vec<u8>) -> Result<(), Memory>
    requires allowed { AllAllowed items.now }
    requires few { length items.now < 2 ^ 32 }
    ensures ok { OnOk result (into.new.items ≡ into.old.items ++ counted items.now) }
    ensures err { OnErr result (Begins into.old.items into.new.items) }
    ensures grows { vec_capacity into.old ≤ vec_capacity into.new }
    ensures full { OnErr result (vec_capacity into.old < length into.old.items + length (counted items.now)) }
{
    let number = items.len() as u32;
    into.extend_from_slice(&number.to_be_bytes())?;
    put_items(items, into)
}

/// Appends the spelling of an item (`docs/HISTORY.md`, "The spelling of items"). An `Err` leaves the bytes as they were, and
/// comes only where the room is too small.
pub fn item_within(item: &Item, into: &mut Vec<u8>) -> Result<(), Memory>
    requires allowed { IsTrue (entry_allowed item.now.entry) }
    ensures ok { OnOk result (into.new.items ≡ into.old.items ++ item_bytes item.now) }
    ensures err { OnErr result (into.new.items ≡ into.old.items) }
    ensures roomy { vec_len into.old + length (item_bytes item.now) ≤ vec_capacity into.old → IsOk result }
    ensures capacity { vec_capacity into.old ≤ vec_capacity into.new }
{
    let before = into.len();
    match put_item(item, into) {
        Ok(()) => Ok(()),
        Err(error) => {
            into.truncate(before);
            Err(error)
        }
    }
}

/// Appends items behind their number, as `item_within` does one.
pub fn items_within(items: &[Item], into: &mut Vec<u8>) -> Result<(), Memory>
    requires allowed { AllAllowed items.now }
    requires few { length items.now < 2 ^ 32 }
    ensures ok { OnOk result (into.new.items ≡ into.old.items ++ counted items.now) }
    ensures err { OnErr result (into.new.items ≡ into.old.items) }
    ensures roomy { vec_len into.old + length (counted items.now) ≤ vec_capacity into.old → IsOk result }
    ensures capacity { vec_capacity into.old ≤ vec_capacity into.new }
{
    let before = into.len();
    match put_counted(items, into) {
        Ok(()) => Ok(()),
        Err(error) => {
            into.truncate(before);
            Err(error)
        }
    }
}

/// The term at the front, where it is whole and within the limits.
fn right_term(bytes: &[u8], least: u64, greatest: u64) -> Option<u64>
    ensures some { IfSome result (λ t. RightTerm least greatest bytes.now × (t ≡ term_at_front bytes.now)) }
    ensures none { IfNone result (RightTerm least greatest bytes.now → ⊥) }
{
    let [a, b, c, d, e, f, g, h, ..] = bytes else {
        return None;
    };
    let term = u64::from_be_bytes([*a, *b, *c, *d, *e, *f, *g, *h]);
    if least <= term && term <= greatest {
        Some(term)
    } else {
        None
    }
}

/// The size behind the term, where it is whole.
fn right_size(bytes: &[u8]) -> Option<usize>
    ensures some { IfSome result (λ n. (12 ≤ length bytes.now) × (n ≡ size_at_front bytes.now)) }
    ensures none { IfNone result (length bytes.now < 12) }
{
    if bytes.len() < 12 {
        return None;
    }
    let size = u32::from_be_bytes([bytes[8], bytes[9], bytes[10], bytes[11]]);
    Some(size as usize)
}

/// The entry of this size behind term and size, where there is an allowed one.
fn right_entry(alloc: Global, bytes: &[u8], size: usize) -> Result<Option<Entry>, Memory>
    requires there { 12 ≤ length bytes.now }
    requires size { size ≡ size_at_front bytes.now }
    ensures some { IfOk result (λ o. IfSome o (λ x. IsTrue (entry_allowed x) × Behind bytes.now x)) }
    ensures none { IfOk result (λ o. IfNone o (RightEntry bytes.now → ⊥)) }
{
    let behind = &bytes[12..];
    if size as u64 > MAX_ENTRY || size > behind.len() {
        return Ok(None);
    }
    match entry_of(alloc, &behind[..size]) {
        Ok(entry) => Ok(Some(entry)),
        Err(EntryError::Memory) => Err(Memory),
        Err(_) => Ok(None),
    }
}

/// The item that bytes have at a place, with a term within these limits, and the place behind it. An item has one spelling
/// (`docs/HISTORY.md`, "The spelling of items"). `Wrong` names the first field that is wrong: one that passes the end of the
/// bytes, a term outside the limits, or an entry that is not allowed or does not read.
pub fn read_item(
    alloc: Global,
    bytes: &[u8],
    at: usize,
    least: u64,
    greatest: u64,
) -> Result<(Item, usize), ItemError>
    requires place { at ≤ length bytes.now }
    // What is read stands there, within the limits.
    ensures found { IfOk result (λ r. BeginsWith least greatest (drop at bytes.now) r.0) }
    // The place behind it.
    ensures behind { IfOk result (λ r. r.1 ≡ at + length (item_bytes r.0)) }
    // An item that stands there is read, unless memory runs out.
    ensures only { (i : Item) → BeginsWith least greatest (drop at bytes.now) i → ItemOrMemory result (Ok (i, at + length (item_bytes i))) }
    // A refusal names the first field that is wrong.
    ensures refused { (field : ItemField) → result ≡ Err (Wrong field) → IsWrong least greatest (drop at bytes.now) field }
    // Where a field is the first that is wrong, it is named, unless memory runs out.
    ensures exact { (field : ItemField) → IsWrong least greatest (drop at bytes.now) field → ItemOrMemory result (Err (Wrong field)) }
{
    one_spelling();
    let rest = &bytes[at..];
    let Some(term) = right_term(rest, least, greatest) else {
        return Err(ItemError::Wrong(ItemField::Term));
    };
    let Some(size) = right_size(rest) else {
        return Err(ItemError::Wrong(ItemField::Size));
    };
    match right_entry(alloc, rest, size)? {
        None => Err(ItemError::Wrong(ItemField::Entry)),
        Some(entry) => Ok((Item { term, entry }, at + 12 + size)),
    }
}

/// Bytes begin with one item at most.
pub fn one_item()
    ensures one { (greatest : ℕ) (bytes : List ℕ) (i j : Item) → greatest < 2 ^ 64 → BeginsWith 0 greatest bytes i →
        BeginsWith 0 greatest bytes j → i ≡ j }
{
    one_spelling();
}

/// Bytes begin with one list of items behind their number at most.
pub fn one_list()
    ensures one { (is js : List Item) (r s : List ℕ) → AreItems is → AreItems js → counted is ++ r ≡ counted js ++ s → is ≡ js }
{
    one_spelling();
}
