//! How long the shortest spelling of a value is.

ghost use Rattle.std.specs.Prelude.{◌≡◌, ◌≤◌, ◌+◌, ◌-◌, ◌^◌, ℕ, map, length, min, IsTrue};
ghost use Rattle.ncc_pack.specs.Limits.{max_size};
ghost use Rattle.ncc_pack.specs.Spells.{Kind};
ghost use Rattle.ncc_pack.specs.Short.{head, wide_head, integer, text, bytes, list, dict, short, short_node, short_pair};
ghost use Rattle.ncc_pack.specs.Fits.{fits};
ghost use Rattle.ncc_pack.specs.Writing.{SomeValue, SomeList, SomeDict, SomeNode};

use crate::bytes::Bytes;
use crate::text::Text;
use crate::value::{Dict, NodeValue, Value, Values};

#[tactic(auto, unfolding(crate::specs::Short::integer))]
fn integer_len(number: i64) -> u64
    ensures is { result ≡ length (integer number) }
    ensures small { result ≤ 9 }
{
    if -16 <= number && number < 128 {
        1
    } else if -128 <= number && number < 128 {
        2
    } else if -0x8000 <= number && number < 0x8000 {
        3
    } else if -0x8000_0000 <= number && number < 0x8000_0000 {
        5
    } else {
        9
    }
}

fn wide_head_len(len: usize) -> u64
    ensures is { (mark : ℕ) → result ≡ length (wide_head mark len) }
    ensures small { result ≤ 5 }
{
    if len < 0x100 {
        2
    } else if len < 0x1_0000 {
        3
    } else {
        5
    }
}

#[tactic(auto, unfolding(crate::specs::Short::head))]
pub(crate) fn head_len(len: usize) -> u64
    ensures is { (kind : Kind) → result ≡ length (head kind len) }
    ensures small { result ≤ 5 }
{
    if len < 16 { 1 } else { wide_head_len(len) }
}

#[tactic(auto, unfolding(crate::specs::Short::text))]
pub(crate) fn text_len(written: &Text) -> u64
    requires { length written.now ≤ max_size }
    ensures is { result ≡ length (text written.now) }
    ensures small { result ≤ max_size + 5 }
{
    head_len(written.len()) + written.len() as u64
}

#[tactic(auto, unfolding(crate::specs::Short::bytes))]
fn bytes_len(written: &Bytes) -> u64
    requires { length written.now ≤ max_size }
    ensures is { result ≡ length (bytes written.now) }
    ensures small { result ≤ max_size + 5 }
{
    wide_head_len(written.len()) + written.len() as u64
}

#[cycle(measuring)]
#[tactic(auto, unfolding(crate::specs::Short::list))]
pub(crate) fn values_len(values: &Values) -> u64
    requires { SomeList values.now }
    ensures { result ≡ min (length (list (map short values.now))) (2 ^ 64 - 1) }
{
    let mut sum = head_len(values.len());
    for value in values.as_slice() {
        sum = sum.saturating_add(value_len(value));
    }
    sum
}

#[cycle(measuring)]
#[tactic(auto, unfolding(crate::specs::Short::dict))]
pub(crate) fn dict_len(pairs: &Dict) -> u64
    requires { SomeDict pairs.now }
    ensures { result ≡ min (length (dict (map short_pair pairs.now))) (2 ^ 64 - 1) }
{
    let mut sum = head_len(pairs.len());
    for pair in pairs.as_slice() {
        sum = sum
            .saturating_add(text_len(&pair.0))
            .saturating_add(value_len(&pair.1));
    }
    sum
}

#[cycle(measuring)]
fn node_len(node: &NodeValue) -> u64
    requires { SomeNode node.now }
    ensures { result ≡ min (length (short_node node.now)) (2 ^ 64 - 1) }
{
    let front = 2 + integer_len(node.id);
    front
        .saturating_add(values_len(&node.labels))
        .saturating_add(dict_len(&node.props))
}

#[cycle(measuring)]
fn value_len(value: &Value) -> u64
    requires { SomeValue value.now }
    ensures { result ≡ min (length (short value.now)) (2 ^ 64 - 1) }
{
    match value {
        Value::Null | Value::Bool(_) => 1,
        Value::Int(number) => integer_len(*number),
        Value::Bytes(bytes) => bytes_len(bytes),
        Value::Text(text) => text_len(text),
        Value::List(values) => values_len(values),
        Value::Dict(pairs) => dict_len(pairs),
        Value::Node(node) => node_len(node),
    }
}

/// The length in bytes of the shortest spelling of a value. The value has to fit, which `Value::fits` says. A length that
/// would pass the greatest `u64` stays there. It takes no memory.
#[tactic(auto, using(crate::proofs::Loops::whole_value))]
pub fn short_len(value: &Value) -> u64
    requires fits { IsTrue (fits value.now) }
    ensures length { result ≡ min (length (short value.now)) (2 ^ 64 - 1) }
{
    value_len(value)
}
