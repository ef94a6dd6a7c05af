//! Reading entries.

ghost use Rattle.std.specs.Prelude.{◌≡◌, ◌↔◌, List, map, IsTrue, Ok, Err, IfOk};
ghost use Rattle.std.specs.List.{All};
ghost use Rattle.ncc_pack.specs.declared.value.Value.TheVariants as value;
ghost use Rattle.ncc_pack.specs.Fits.{fits};
ghost use Rattle.ncc_pack.specs.Short.{short};
ghost use Rattle.ncc_store.specs.declared.step.Step.{Step};
ghost use Rattle.ncc_store.specs.Exec.{call_of};
ghost use Rattle.ncc_tx.specs.declared.entry.Entry.{Entry};
ghost use Rattle.ncc_tx.specs.declared.entry.EntryError.{EntryError};
ghost use Rattle.ncc_tx.specs.Spelled.{EntryOrMemory, IsStepsOf, Refuses, StepsOrMemory, entry_fits, spelled};

use crate::entry::{Entry, EntryError};
use crate::shape::{Shape, shape_of};
use ncc_cypher::ParseError;
use ncc_pack::{
    Bytes, Memory, PackError, Sequence, Value, decode, encode, fits_deeper, spelled_fits,
};
use ncc_store::{Call, Calls, Step, Steps};
use std::alloc::Global;

/// Says whether bytes are the shortest spelling of a value.
fn is_short(alloc: Global, value: &Value, bytes: &[u8]) -> Result<bool, Memory>
    requires { IsTrue (fits value.now) }
    ensures { IfOk result (λ b. IsTrue b ↔ (bytes.now ≡ short value.now)) }
{
    let mut spelled = Bytes::new(alloc);
    encode(value, &mut spelled)?;
    Ok(spelled.as_slice() == bytes)
}

/// The steps of these calls.
fn steps_of(alloc: Global, calls: Calls) -> Result<Steps, EntryError>
    requires { All (λ c. IsTrue (fits (value.Dict c.params))) calls }
    ensures is { IsStepsOf calls result }
    ensures only { (ss : List Step) → map call_of ss ≡ calls → StepsOrMemory ss result }
{
    let mut steps = Sequence::new(alloc);
    let mut number: u64 = 0;
    for call in calls.into_vec() {
        let Call { source, params } = call;
        match Step::of(alloc, source.as_str(), params) {
            Ok(step) => steps.push(step)?,
            Err(ParseError::Memory) => return Err(EntryError::Memory),
            Err(ParseError::Syntax { .. }) => {
                return Err(EntryError::BadStatement { step: number });
            }
        }
        number += 1;
    }
    Ok(steps)
}

/// The entry that bytes spell. An entry has one spelling (`docs/HISTORY.md`, "The spelling of an entry"). `Pack` says
/// that the bytes begin with no value, with the place of the first fault; then `BadShape` that they are another value
/// than an entry's, or not in its one spelling, or followed by more; then `BadStatement` the first step whose source
/// does not parse, from 0.
pub fn entry_of(alloc: Global, bytes: &[u8]) -> Result<Entry, EntryError>
    // What is read fits, and is spelled so.
    ensures found { IfOk result (λ x. IsTrue (entry_fits x) × (bytes.now ≡ spelled x)) }
    // What is spelled so is read, unless memory runs out.
    ensures only { (x : Entry) → IsTrue (entry_fits x) → bytes.now ≡ spelled x → EntryOrMemory result (Ok x) }
    // A refusal has its cause in the bytes.
    ensures refused { (e : EntryError) → result ≡ Err e → Refuses bytes.now e }
{
    let (value, used) = match decode(alloc, bytes) {
        Ok(read) => read,
        Err(PackError::Memory) => return Err(EntryError::Memory),
        Err(error) => return Err(EntryError::Pack(error)),
    };
    spelled_fits();
    fits_deeper();
    if used != bytes.len() || !is_short(alloc, &value, bytes)? {
        return Err(EntryError::BadShape);
    }
    match shape_of(alloc, value)? {
        None => Err(EntryError::BadShape),
        Some(Shape::Noop) => Ok(Entry::Noop),
        Some(Shape::Tx { calls, told }) => {
            let steps = steps_of(alloc, calls)?;
            Ok(Entry::Tx { steps, told })
        }
    }
}

/// Two entries that fit and have one spelling are equal.
pub fn one_spelling()
    ensures one { (x y : Entry) → IsTrue (entry_fits x) → IsTrue (entry_fits y) → spelled x ≡ spelled y → x ≡ y }
{}
