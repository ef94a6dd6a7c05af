//! Appending the shortest spelling of a value, and of a text, a list and a dictionary by themselves, as messages and
//! entries hold them (PackStream version 1). A form over a `Vec` is refused only where it has too little room and gets no
//! more.

ghost use Rattle.std.specs.Prelude.{◌≡◌, ◌≤◌, ◌+◌, ◌-◌, ◌^◌, ◌++◌, length, min, vec_len, vec_capacity, IsOk, OnOk, OnErr, IsTrue};
ghost use Rattle.ncc_pack.specs.declared.value.Value.TheVariants as value;
ghost use Rattle.ncc_pack.specs.Limits.{max_size};
ghost use Rattle.ncc_pack.specs.Spells.{lists, IsHead};
ghost use Rattle.ncc_pack.specs.Short.{head, short};
ghost use Rattle.ncc_pack.specs.Fits.{fits};
ghost use Rattle.ncc_pack.specs.Writing.{Spelled, HeadSpelled};

use crate::alone::{dict_len, text_len, values_len};
use crate::bytes::Bytes;
use crate::size::{head_len, short_len};
use crate::text::Text;
use crate::value::{Dict, Value, Values};
use crate::write::{make_room, put_dict, put_list_head, put_text, put_value, put_values};
use std::alloc::AllocError;

/// Appends the one shortest spelling of a value to bytes with room. The value has to fit, which `Value::fits` says. It is
/// refused only where there is too little room and no more is had: so room that was made before is enough. An `Err` leaves
/// the bytes as they were.
#[tactic(auto, using(crate::proofs::Loops::whole_value, crate::proofs::Room::spelled))]
pub fn encode_within(value: &Value, into: &mut Vec<u8>) -> Result<(), AllocError>
    requires fits { IsTrue (fits value.now) }
    ensures ok { OnOk result (into.new.items ≡ into.old.items ++ short value.now) }
    ensures spelled { OnOk result (Spelled value.now into.old.items into.new.items) }
    ensures err { OnErr result (into.new.items ≡ into.old.items) }
    ensures roomy { vec_len into.old + length (short value.now) ≤ vec_capacity into.old → IsOk result }
    ensures capacity { vec_capacity into.old ≤ vec_capacity into.new }
{
    make_room(short_len(value), into)?;
    put_value(value, into);
    Ok(())
}

/// Appends the one shortest spelling of a value. The value has to fit, which `Value::fits` says. An `Err` leaves the bytes
/// as they were.
pub fn encode(value: &Value, into: &mut Bytes) -> Result<(), AllocError>
    requires fits { IsTrue (fits value.now) }
    ensures ok { OnOk result (into.new ≡ into.old ++ short value.now) }
    ensures spelled { OnOk result (Spelled value.now into.old into.new) }
    ensures err { OnErr result (into.new ≡ into.old) }
{
    encode_within(value, &mut into.inner)
}

/// Appends the shortest spelling of a text to bytes with room, as `encode_within` does that of a value.
#[tactic(auto, using(crate::proofs::Loops::text_fits, crate::proofs::Loops::short_text, crate::proofs::Room::spelled))]
pub fn encode_text_within(text: &Text, into: &mut Vec<u8>) -> Result<(), AllocError>
    requires fits { IsTrue (fits (value.Text text.now)) }
    ensures ok { OnOk result (into.new.items ≡ into.old.items ++ short (value.Text text.now)) }
    ensures spelled { OnOk result (Spelled (value.Text text.now) into.old.items into.new.items) }
    ensures err { OnErr result (into.new.items ≡ into.old.items) }
    ensures roomy { vec_len into.old + length (short (value.Text text.now)) ≤ vec_capacity into.old → IsOk result }
    ensures capacity { vec_capacity into.old ≤ vec_capacity into.new }
{
    make_room(text_len(text), into)?;
    put_text(text, into);
    Ok(())
}

/// Appends the shortest spelling of a text, as `encode` does that of a value.
pub fn encode_text(text: &Text, into: &mut Bytes) -> Result<(), AllocError>
    requires fits { IsTrue (fits (value.Text text.now)) }
    ensures ok { OnOk result (into.new ≡ into.old ++ short (value.Text text.now)) }
    ensures spelled { OnOk result (Spelled (value.Text text.now) into.old into.new) }
    ensures err { OnErr result (into.new ≡ into.old) }
{
    encode_text_within(text, &mut into.inner)
}

/// Appends the shortest spelling of a list to bytes with room, as `encode_within` does that of a value.
#[tactic(auto, using(crate::proofs::Loops::list_fits, crate::proofs::Loops::short_list, crate::proofs::Room::spelled))]
pub fn encode_values_within(values: &Values, into: &mut Vec<u8>) -> Result<(), AllocError>
    requires fits { IsTrue (fits (value.List values.now)) }
    ensures ok { OnOk result (into.new.items ≡ into.old.items ++ short (value.List values.now)) }
    ensures spelled { OnOk result (Spelled (value.List values.now) into.old.items into.new.items) }
    ensures err { OnErr result (into.new.items ≡ into.old.items) }
    ensures roomy { vec_len into.old + length (short (value.List values.now)) ≤ vec_capacity into.old → IsOk result }
    ensures capacity { vec_capacity into.old ≤ vec_capacity into.new }
{
    make_room(values_len(values), into)?;
    put_values(values, into);
    Ok(())
}

/// Appends the shortest spelling of a list, as `encode` does that of a value.
pub fn encode_values(values: &Values, into: &mut Bytes) -> Result<(), AllocError>
    requires fits { IsTrue (fits (value.List values.now)) }
    ensures ok { OnOk result (into.new ≡ into.old ++ short (value.List values.now)) }
    ensures spelled { OnOk result (Spelled (value.List values.now) into.old into.new) }
    ensures err { OnErr result (into.new ≡ into.old) }
{
    encode_values_within(values, &mut into.inner)
}

/// Appends the shortest spelling of a dictionary to bytes with room, as `encode_within` does that of a value.
#[tactic(auto, using(crate::proofs::Loops::dict_fits, crate::proofs::Loops::short_dict, crate::proofs::Room::spelled))]
pub fn encode_dict_within(pairs: &Dict, into: &mut Vec<u8>) -> Result<(), AllocError>
    requires fits { IsTrue (fits (value.Dict pairs.now)) }
    ensures ok { OnOk result (into.new.items ≡ into.old.items ++ short (value.Dict pairs.now)) }
    ensures spelled { OnOk result (Spelled (value.Dict pairs.now) into.old.items into.new.items) }
    ensures err { OnErr result (into.new.items ≡ into.old.items) }
    ensures roomy { vec_len into.old + length (short (value.Dict pairs.now)) ≤ vec_capacity into.old → IsOk result }
    ensures capacity { vec_capacity into.old ≤ vec_capacity into.new }
{
    make_room(dict_len(pairs), into)?;
    put_dict(pairs, into);
    Ok(())
}

/// Appends the shortest spelling of a dictionary, as `encode` does that of a value.
pub fn encode_dict(pairs: &Dict, into: &mut Bytes) -> Result<(), AllocError>
    requires fits { IsTrue (fits (value.Dict pairs.now)) }
    ensures ok { OnOk result (into.new ≡ into.old ++ short (value.Dict pairs.now)) }
    ensures spelled { OnOk result (Spelled (value.Dict pairs.now) into.old into.new) }
    ensures err { OnErr result (into.new ≡ into.old) }
{
    encode_dict_within(pairs, &mut into.inner)
}

// A head is short, so that its length does not pass the greatest number.
#[tactic(auto, using(crate::proofs::Room::head_told))]
fn told_head_len(len: usize) -> u64
    ensures { result ≡ min (length (head lists len)) (2 ^ 64 - 1) }
{
    head_len(len)
}

/// Appends what stands before the items of a list of so many, its marker and its size, to bytes with room, as
/// `encode_within` does.
#[tactic(auto, using(crate::proofs::Room::head_spelled))]
pub fn encode_list_head_within(len: usize, into: &mut Vec<u8>) -> Result<(), AllocError>
    requires small { len ≤ max_size }
    ensures ok { OnOk result (into.new.items ≡ into.old.items ++ head lists len) }
    ensures spelled { OnOk result (HeadSpelled len into.old.items into.new.items) }
    ensures err { OnErr result (into.new.items ≡ into.old.items) }
    ensures roomy { vec_len into.old + length (head lists len) ≤ vec_capacity into.old → IsOk result }
    ensures capacity { vec_capacity into.old ≤ vec_capacity into.new }
{
    make_room(told_head_len(len), into)?;
    put_list_head(len, into);
    Ok(())
}

/// Appends what stands before the items of a list of so many: its marker and its size. An `Err` leaves the bytes as they
/// were.
pub fn encode_list_head(len: usize, into: &mut Bytes) -> Result<(), AllocError>
    requires small { len ≤ max_size }
    ensures ok { OnOk result (into.new ≡ into.old ++ head lists len) }
    ensures spelled { OnOk result (HeadSpelled len into.old into.new) }
    ensures err { OnErr result (into.new ≡ into.old) }
{
    encode_list_head_within(len, &mut into.inner)
}
