//! From bytes to a value.

ghost use Rattle.std.specs.Prelude.{◌≡◌, ◌≤◌, ◌+◌, ◌++◌, [], ℕ, List, Ok, IfOk, IsTrue, length, take, drop};
ghost use Rattle.ncc_pack.specs.declared.value.Value.{Value};
ghost use Rattle.ncc_pack.specs.Reading.{Gives, read_value, value_at, labels_at, props_at, items_at, pairs_at, label_at, fields_at, within};
ghost use Rattle.ncc_pack.specs.Spells.{spells};
ghost use Rattle.ncc_pack.specs.Limits.{max_depth};
ghost use Rattle.ncc_pack.specs.Short.{short};
ghost use Rattle.ncc_pack.specs.Fits.{fits};

use crate::cursor::Cursor;
use crate::error::PackError;
use crate::field::other_kind;
use crate::fit::{FEW, has_key};
use crate::limits::MAX_DEPTH;
use crate::mark::{Mark, Size, mark_of};
use crate::roomy::Roomy;
use crate::text::Text;
use crate::value::{Dict, NodeValue, Value, Values};
use std::alloc::Global;
use std::collections::BTreeSet;

/// The labels of a node: a list of texts alone.
#[tactic(auto, unfolding(crate::specs::Reading::labels_at))]
fn labels_of(cursor: &mut Cursor) -> Result<Values, PackError>
    ensures read { Gives (λ x. (x, cursor.new.rest.now)) result (labels_at cursor.old.total cursor.old.rest.now) }
    ensures total { cursor.new.total ≡ cursor.old.total }
{
    let at = cursor.place();
    match mark_of(cursor.take_u8()?) {
        Mark::List(size) => {
            let count = cursor.take_size(at, size)?;
            label_items(cursor, count)
        }
        mark => Err(other_kind(at, mark)),
    }
}

fn label_items(cursor: &mut Cursor, count: usize) -> Result<Values, PackError>
    ensures read { Gives (λ x. (x, cursor.new.rest.now)) result (items_at (label_at cursor.old.total) count cursor.old.rest.now) }
    ensures total { cursor.new.total ≡ cursor.old.total }
{
    let mut labels = Roomy::ahead(cursor.alloc, count)?;
    for _ in 0..count {
        let label = cursor.take_label()?;
        labels.push(label)?;
    }
    Ok(labels.into_sequence())
}

#[cycle(reading)]
fn items_of(cursor: &mut Cursor, levels: u8, count: usize) -> Result<Values, PackError>
    ensures read { Gives (λ x. (x, cursor.new.rest.now)) result (items_at (value_at cursor.old.total levels) count cursor.old.rest.now) }
    ensures total { cursor.new.total ≡ cursor.old.total }
{
    let mut items = Roomy::ahead(cursor.alloc, count)?;
    for _ in 0..count {
        let item = value_of(cursor, levels)?;
        items.push(item)?;
    }
    Ok(items.into_sequence())
}

#[cycle(reading)]
fn pairs_of(cursor: &mut Cursor, levels: u8, count: usize) -> Result<Dict, PackError>
    ensures read { Gives (λ x. (x, cursor.new.rest.now)) result
        (pairs_at cursor.old.total (value_at cursor.old.total levels) [] count cursor.old.rest.now) }
    ensures total { cursor.new.total ≡ cursor.old.total }
{
    if count <= FEW {
        return few_pairs_of(cursor, levels, count);
    }
    many_pairs_of(cursor, levels, count)
}

// A key that came before is found by a search through the earlier ones.
#[cycle(reading)]
fn few_pairs_of(cursor: &mut Cursor, levels: u8, count: usize) -> Result<Dict, PackError>
    ensures read { Gives (λ x. (x, cursor.new.rest.now)) result
        (pairs_at cursor.old.total (value_at cursor.old.total levels) [] count cursor.old.rest.now) }
    ensures total { cursor.new.total ≡ cursor.old.total }
{
    let mut pairs = Roomy::ahead(cursor.alloc, count)?;
    for _ in 0..count {
        let at = cursor.place();
        let key = cursor.take_key()?;
        if has_key(pairs.as_slice(), key) {
            return Err(PackError::RepeatedKey { at });
        }
        let value = value_of(cursor, levels)?;
        pairs.push((Text::from_str(cursor.alloc, key)?, value))?;
    }
    Ok(pairs.into_sequence())
}

// A key that came before is found in a set of the earlier ones.
#[cycle(reading)]
fn many_pairs_of(cursor: &mut Cursor, levels: u8, count: usize) -> Result<Dict, PackError>
    ensures read { Gives (λ x. (x, cursor.new.rest.now)) result
        (pairs_at cursor.old.total (value_at cursor.old.total levels) [] count cursor.old.rest.now) }
    ensures total { cursor.new.total ≡ cursor.old.total }
{
    let mut seen: BTreeSet<&str> = BTreeSet::new(cursor.alloc);
    let mut pairs = Roomy::ahead(cursor.alloc, count)?;
    for _ in 0..count {
        let at = cursor.place();
        let key = cursor.take_key()?;
        if !seen.insert(key)? {
            return Err(PackError::RepeatedKey { at });
        }
        let value = value_of(cursor, levels)?;
        pairs.push((Text::from_str(cursor.alloc, key)?, value))?;
    }
    Ok(pairs.into_sequence())
}

#[cycle(reading)]
fn list_of(cursor: &mut Cursor, levels: u8, at: u64, size: Size) -> Result<Values, PackError>
    ensures read { Gives (λ x. (x, cursor.new.rest.now)) result ((within cursor.old.total levels).list at size cursor.old.rest.now) }
    ensures total { cursor.new.total ≡ cursor.old.total }
{
    if levels == 0 {
        return Err(PackError::TooDeep { at });
    }
    let count = cursor.take_size(at, size)?;
    items_of(cursor, levels - 1, count)
}

#[cycle(reading)]
fn dict_of(cursor: &mut Cursor, levels: u8, at: u64, size: Size) -> Result<Dict, PackError>
    ensures read { Gives (λ x. (x, cursor.new.rest.now)) result ((within cursor.old.total levels).dict at size cursor.old.rest.now) }
    ensures total { cursor.new.total ≡ cursor.old.total }
{
    if levels == 0 {
        return Err(PackError::TooDeep { at });
    }
    let count = cursor.take_size(at, size)?;
    pairs_of(cursor, levels - 1, count)
}

/// The properties of a node.
#[cycle(reading)]
#[tactic(auto, unfolding(crate::specs::Reading::props_at))]
fn props_of(cursor: &mut Cursor, levels: u8) -> Result<Dict, PackError>
    ensures read { Gives (λ x. (x, cursor.new.rest.now)) result
        (props_at cursor.old.total (within cursor.old.total levels) cursor.old.rest.now) }
    ensures total { cursor.new.total ≡ cursor.old.total }
{
    let at = cursor.place();
    match mark_of(cursor.take_u8()?) {
        Mark::Dict(size) => dict_of(cursor, levels, at, size),
        mark => Err(other_kind(at, mark)),
    }
}

/// The tag and the three fields of a node.
#[cycle(reading)]
#[tactic(auto, unfolding(crate::specs::Reading::fields_at))]
fn fields_of(cursor: &mut Cursor, levels: u8) -> Result<NodeValue, PackError>
    ensures read { Gives (λ x. (x, cursor.new.rest.now)) result
        (fields_at cursor.old.total (within cursor.old.total levels) cursor.old.rest.now) }
    ensures total { cursor.new.total ≡ cursor.old.total }
{
    cursor.take_tag()?;
    let id = cursor.take_id()?;
    let labels = labels_of(cursor)?;
    let props = props_of(cursor, levels)?;
    Ok(NodeValue { id, labels, props })
}

#[cycle(reading)]
fn node_of(cursor: &mut Cursor, levels: u8, at: u64) -> Result<NodeValue, PackError>
    ensures read { Gives (λ x. (x, cursor.new.rest.now)) result ((within cursor.old.total levels).node at cursor.old.rest.now) }
    ensures total { cursor.new.total ≡ cursor.old.total }
{
    // its labels are a list inside it
    if levels < 2 {
        return Err(PackError::TooDeep { at });
    }
    fields_of(cursor, levels - 1)
}

/// The value that the bytes begin with, with so many levels left.
#[cycle(reading)]
#[tactic(auto, unfolding(crate::specs::Reading::value_with))]
fn value_of(cursor: &mut Cursor, levels: u8) -> Result<Value, PackError>
    ensures read { Gives (λ x. (x, cursor.new.rest.now)) result (value_at cursor.old.total levels cursor.old.rest.now) }
    ensures total { cursor.new.total ≡ cursor.old.total }
{
    let at = cursor.place();
    match mark_of(cursor.take_u8()?) {
        Mark::Null => Ok(Value::Null),
        Mark::Bool(truth) => Ok(Value::Bool(truth)),
        Mark::Small(number) => Ok(Value::Int(number)),
        Mark::Int1 => Ok(Value::Int(i64::from(cursor.take_u8()?.cast_signed()))),
        Mark::Int2 => Ok(Value::Int(i64::from(cursor.take_u16()?.cast_signed()))),
        Mark::Int4 => Ok(Value::Int(i64::from(cursor.take_u32()?.cast_signed()))),
        Mark::Int8 => Ok(Value::Int(cursor.take_u64()?.cast_signed())),
        Mark::Bytes(size) => {
            let len = cursor.take_size(at, size)?;
            Ok(Value::Bytes(cursor.take_bytes(len)?))
        }
        Mark::Text(size) => {
            let len = cursor.take_size(at, size)?;
            Ok(Value::Text(cursor.take_text(len)?))
        }
        Mark::List(size) => Ok(Value::List(list_of(cursor, levels, at, size)?)),
        Mark::Dict(size) => Ok(Value::Dict(dict_of(cursor, levels, at, size)?)),
        Mark::Node => Ok(Value::Node(node_of(cursor, levels, at)?)),
        Mark::Float => Err(PackError::Float { at }),
        Mark::Bad => Err(PackError::BadMarker { at }),
    }
}

/// The value that the bytes begin with, and the length of its spelling in bytes (PackStream version 1).
///
/// Every width of a number and of a size is read. It refuses, with the place of the first offending byte from 0:
/// a float, another marker or tag, a text that is no UTF-8, a key twice, a key that is no text, more than 32 levels
/// (a node takes two, for its labels), a size above 16,777,216; and bytes that end before the value does.
pub fn decode(alloc: Global, bytes: &[u8]) -> Result<(Value, usize), PackError>
    // What is read is spelled so.
    ensures found { IfOk result (λ r. (r.1 ≤ length bytes.now) × spells r.0 (take r.1 bytes.now)) }
    // What is spelled so is read, whatever follows, unless memory runs out.
    ensures only { (x : Value) (b rest : List ℕ) → spells x b → bytes.now ≡ b ++ rest
        → Gives {Y = Value × ℕ} (λ r. r) result (Ok (x, length b)) }
    // What was written is read again, whatever follows.
    ensures again { (x : Value) (rest : List ℕ) → IsTrue (fits x) → bytes.now ≡ short x ++ rest
        → Gives {Y = Value × ℕ} (λ r. r) result (Ok (x, length (short x))) }
    // A refusal is the first fault that stands in the bytes.
    ensures exact { Gives (λ r. (r.0, drop r.1 bytes.now)) result (read_value bytes.now) }
{
    let mut cursor = Cursor {
        alloc,
        total: bytes.len(),
        rest: bytes,
    };
    let value = value_of(&mut cursor, MAX_DEPTH)?;
    Ok((value, bytes.len() - cursor.rest.len()))
}

/// The value that the bytes from a place on begin with, and the length of its spelling. It is as `decode`, and the place of
/// a refusal counts in the whole bytes.
pub fn decode_at(alloc: Global, bytes: &[u8], at: usize) -> Result<(Value, usize), PackError>
    requires inside { at ≤ length bytes.now }
    // What is read is spelled so.
    ensures found { IfOk result (λ r. (at + r.1 ≤ length bytes.now) × spells r.0 (take r.1 (drop at bytes.now))) }
    // What is spelled so is read, whatever follows, unless memory runs out.
    ensures only { (x : Value) (b rest : List ℕ) → spells x b → drop at bytes.now ≡ b ++ rest
        → Gives {Y = Value × ℕ} (λ r. r) result (Ok (x, length b)) }
    // A refusal is the first fault that stands in the bytes.
    ensures exact { Gives (λ r. (r.0, drop (at + r.1) bytes.now)) result (value_at (length bytes.now) max_depth (drop at bytes.now)) }
{
    let (_, front) = bytes.split_at(at);
    let mut cursor = Cursor {
        alloc,
        total: bytes.len(),
        rest: front,
    };
    let value = value_of(&mut cursor, MAX_DEPTH)?;
    Ok((value, front.len() - cursor.rest.len()))
}

/// No spelling begins another.
pub fn one_form()
    ensures one { (x y : Value) (a b r s : List ℕ) → spells x a → spells y b → a ++ r ≡ b ++ s → (x ≡ y) × (a ≡ b) }
{}
