//! From a value to its shortest spelling, behind bytes that have room for it.

ghost use Rattle.std.specs.Prelude.{◌≡◌, ◌<◌, ◌≤◌, ◌+◌, ◌-◌, ◌^◌, ◌++◌, ◌∷◌, [], ℕ, map, min, length, vec_len, vec_capacity, IsOk, OnOk};
ghost use Rattle.ncc_pack.specs.Limits.{max_size};
ghost use Rattle.ncc_pack.specs.Spells.{lists, dicts, bytes_mark};
ghost use Rattle.ncc_pack.specs.Short.{head, wide_head, integer, text, bytes, list, dict, short, short_node, short_pair};
ghost use Rattle.ncc_pack.specs.Writing.{SomeValue, SomeList, SomeDict, SomeNode};

use crate::bytes::Bytes;
use crate::mark::{
    BYTES, DICT, DICT_HERE, FALSE, INT_1, INT_2, INT_4, INT_8, LIST, LIST_HERE, NODE, NODE_TAG,
    NULL, TEXT, TEXT_HERE, TRUE,
};
use crate::text::Text;
use crate::value::{Dict, NodeValue, Value, Values};
use std::alloc::AllocError;

/// Makes room for a length that stays at the greatest `u64` where it would pass it: so great a room is never had.
#[tactic(auto, using(crate::proofs::Room::exact_length))]
pub(crate) fn make_room(len: u64, into: &mut Vec<u8>) -> Result<(), AllocError>
    ensures items { into.new.items ≡ into.old.items }
    ensures len { vec_len into.new ≡ vec_len into.old }
    ensures capacity { vec_capacity into.old ≤ vec_capacity into.new }
    ensures ok { (wanted : ℕ) → len ≡ min wanted (2 ^ 64 - 1) → OnOk result (vec_len into.new + wanted ≤ vec_capacity into.new) }
    ensures roomy { (wanted : ℕ) → len ≡ min wanted (2 ^ 64 - 1) → vec_len into.old + wanted ≤ vec_capacity into.old
        → IsOk result }
{
    if len > isize::MAX as u64 {
        return Err(AllocError);
    }
    into.reserve(len as usize)
}

/// Appends bytes that there is room for.
#[inline]
fn append(more: &[u8], into: &mut Vec<u8>)
    requires { vec_len into.old + length more.now ≤ vec_capacity into.old }
    ensures items { into.new.items ≡ into.old.items ++ more.now }
    ensures len { vec_len into.new ≡ vec_len into.old + length more.now }
    ensures capacity { vec_capacity into.old ≤ vec_capacity into.new }
{
    if into.extend_from_slice(more).is_err() {
        unreachable!();
    }
}

/// Appends a byte that there is room for.
#[inline]
fn append_one(byte: u8, into: &mut Vec<u8>)
    requires { vec_len into.old + 1 ≤ vec_capacity into.old }
    ensures items { into.new.items ≡ into.old.items ++ byte ∷ [] }
    ensures len { vec_len into.new ≡ vec_len into.old + 1 }
    ensures capacity { vec_capacity into.old ≤ vec_capacity into.new }
{
    into.push_reserved(byte);
}

#[tactic(auto, unfolding(crate::specs::Short::integer))]
fn put_integer(number: i64, into: &mut Vec<u8>)
    requires { vec_len into.old + length (integer number) ≤ vec_capacity into.old }
    ensures items { into.new.items ≡ into.old.items ++ integer number }
    ensures len { vec_len into.new ≡ vec_len into.old + length (integer number) }
    ensures capacity { vec_capacity into.old ≤ vec_capacity into.new }
{
    if -16 <= number && number < 128 {
        return append_one((number as i8).cast_unsigned(), into);
    }
    if -128 <= number && number < 128 {
        return append(&[INT_1, (number as i8).cast_unsigned()], into);
    }
    if -0x8000 <= number && number < 0x8000 {
        let bytes = (number as i16).to_be_bytes();
        return append(&[INT_2, bytes[0], bytes[1]], into);
    }
    if -0x8000_0000 <= number && number < 0x8000_0000 {
        append_one(INT_4, into);
        return append(&(number as i32).to_be_bytes(), into);
    }
    append_one(INT_8, into);
    append(&number.to_be_bytes(), into)
}

fn put_wide_head(mark: u8, len: usize, into: &mut Vec<u8>)
    requires low { mark < 250 }
    requires small { len ≤ max_size }
    requires room { vec_len into.old + length (wide_head mark len) ≤ vec_capacity into.old }
    ensures items { into.new.items ≡ into.old.items ++ wide_head mark len }
    ensures len { vec_len into.new ≡ vec_len into.old + length (wide_head mark len) }
    ensures capacity { vec_capacity into.old ≤ vec_capacity into.new }
{
    if len < 0x100 {
        return append(&[mark, len as u8], into);
    }
    if len < 0x1_0000 {
        let size = (len as u16).to_be_bytes();
        return append(&[mark + 1, size[0], size[1]], into);
    }
    let size = (len as u32).to_be_bytes();
    append(&[mark + 2, size[0], size[1], size[2], size[3]], into)
}

#[tactic(auto, unfolding(crate::specs::Short::head))]
fn put_head(tiny: u8, wide: u8, len: usize, into: &mut Vec<u8>)
    requires low { tiny < 240 }
    requires mark { wide < 250 }
    requires small { len ≤ max_size }
    requires room { vec_len into.old + length (head (record { tiny = tiny; wide = wide }) len) ≤ vec_capacity into.old }
    ensures items { into.new.items ≡ into.old.items ++ head (record { tiny = tiny; wide = wide }) len }
    ensures len { vec_len into.new ≡ vec_len into.old + length (head (record { tiny = tiny; wide = wide }) len) }
    ensures capacity { vec_capacity into.old ≤ vec_capacity into.new }
{
    if len < 16 {
        return append_one(tiny + len as u8, into);
    }
    put_wide_head(wide, len, into)
}

pub(crate) fn put_list_head(len: usize, into: &mut Vec<u8>)
    requires small { len ≤ max_size }
    requires room { vec_len into.old + length (head lists len) ≤ vec_capacity into.old }
    ensures items { into.new.items ≡ into.old.items ++ head lists len }
    ensures len { vec_len into.new ≡ vec_len into.old + length (head lists len) }
    ensures capacity { vec_capacity into.old ≤ vec_capacity into.new }
{
    put_head(LIST_HERE, LIST, len, into)
}

fn put_dict_head(len: usize, into: &mut Vec<u8>)
    requires small { len ≤ max_size }
    requires room { vec_len into.old + length (head dicts len) ≤ vec_capacity into.old }
    ensures items { into.new.items ≡ into.old.items ++ head dicts len }
    ensures len { vec_len into.new ≡ vec_len into.old + length (head dicts len) }
    ensures capacity { vec_capacity into.old ≤ vec_capacity into.new }
{
    put_head(DICT_HERE, DICT, len, into)
}

#[tactic(auto, unfolding(crate::specs::Short::text), using(crate::proofs::Room::text_length))]
pub(crate) fn put_text(written: &Text, into: &mut Vec<u8>)
    requires small { length written.now ≤ max_size }
    requires room { vec_len into.old + length (text written.now) ≤ vec_capacity into.old }
    ensures items { into.new.items ≡ into.old.items ++ text written.now }
    ensures len { vec_len into.new ≡ vec_len into.old + length (text written.now) }
    ensures capacity { vec_capacity into.old ≤ vec_capacity into.new }
{
    let written = written.as_str().as_bytes();
    put_head(TEXT_HERE, TEXT, written.len(), into);
    append(written, into)
}

#[tactic(auto, unfolding(crate::specs::Short::bytes), using(crate::proofs::Room::bytes_length))]
fn put_bytes(written: &Bytes, into: &mut Vec<u8>)
    requires small { length written.now ≤ max_size }
    requires room { vec_len into.old + length (bytes written.now) ≤ vec_capacity into.old }
    ensures items { into.new.items ≡ into.old.items ++ bytes written.now }
    ensures len { vec_len into.new ≡ vec_len into.old + length (bytes written.now) }
    ensures capacity { vec_capacity into.old ≤ vec_capacity into.new }
{
    put_wide_head(BYTES, written.len(), into);
    append(written.as_slice(), into)
}

#[cycle(encoding)]
#[tactic(auto, unfolding(crate::specs::Short::list), using(crate::proofs::Loops::list_size))]
pub(crate) fn put_values(values: &Values, into: &mut Vec<u8>)
    requires some { SomeList values.now }
    requires room { vec_len into.old + length (list (map short values.now)) ≤ vec_capacity into.old }
    ensures items { into.new.items ≡ into.old.items ++ list (map short values.now) }
    ensures len { vec_len into.new ≡ vec_len into.old + length (list (map short values.now)) }
    ensures capacity { vec_capacity into.old ≤ vec_capacity into.new }
{
    put_list_head(values.len(), into);
    for value in values.as_slice() {
        put_value(value, into);
    }
}

#[cycle(encoding)]
#[tactic(auto, unfolding(crate::specs::Short::dict), using(crate::proofs::Loops::dict_size))]
pub(crate) fn put_dict(pairs: &Dict, into: &mut Vec<u8>)
    requires some { SomeDict pairs.now }
    requires room { vec_len into.old + length (dict (map short_pair pairs.now)) ≤ vec_capacity into.old }
    ensures items { into.new.items ≡ into.old.items ++ dict (map short_pair pairs.now) }
    ensures len { vec_len into.new ≡ vec_len into.old + length (dict (map short_pair pairs.now)) }
    ensures capacity { vec_capacity into.old ≤ vec_capacity into.new }
{
    put_dict_head(pairs.len(), into);
    for pair in pairs.as_slice() {
        put_text(&pair.0, into);
        put_value(&pair.1, into);
    }
}

#[cycle(encoding)]
fn put_node(node: &NodeValue, into: &mut Vec<u8>)
    requires some { SomeNode node.now }
    requires room { vec_len into.old + length (short_node node.now) ≤ vec_capacity into.old }
    ensures items { into.new.items ≡ into.old.items ++ short_node node.now }
    ensures len { vec_len into.new ≡ vec_len into.old + length (short_node node.now) }
    ensures capacity { vec_capacity into.old ≤ vec_capacity into.new }
{
    append(&[NODE, NODE_TAG], into);
    put_integer(node.id, into);
    put_values(&node.labels, into);
    put_dict(&node.props, into)
}

#[cycle(encoding)]
pub(crate) fn put_value(value: &Value, into: &mut Vec<u8>)
    requires some { SomeValue value.now }
    requires room { vec_len into.old + length (short value.now) ≤ vec_capacity into.old }
    ensures items { into.new.items ≡ into.old.items ++ short value.now }
    ensures len { vec_len into.new ≡ vec_len into.old + length (short value.now) }
    ensures capacity { vec_capacity into.old ≤ vec_capacity into.new }
{
    match value {
        Value::Null => append_one(NULL, into),
        Value::Bool(false) => append_one(FALSE, into),
        Value::Bool(true) => append_one(TRUE, into),
        Value::Int(number) => put_integer(*number, into),
        Value::Bytes(written) => put_bytes(written, into),
        Value::Text(written) => put_text(written, into),
        Value::List(values) => put_values(values, into),
        Value::Dict(pairs) => put_dict(pairs, into),
        Value::Node(node) => put_node(node, into),
    }
}
