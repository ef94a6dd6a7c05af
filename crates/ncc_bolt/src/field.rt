//! The parts of a message: its marker, its tag and its fields.

ghost use Rattle.std.specs.Prelude.{◌≡◌, ◌≤◌, [], ◌∷◌, length, drop, Ok, IfOk};
ghost use Rattle.ncc_bolt.specs.declared.error.MessageError.TheVariants.{WrongKind};
ghost use Rattle.ncc_bolt.specs.Fields.{dictionary, text, list};
ghost use Rattle.ncc_bolt.specs.Reading.{Gives, head_at, spelled_at, field_at, fields_of, ended, counted, row_at};
ghost use Rattle.ncc_bolt.specs.Table.{bare, run_row, route_row};

use crate::error::MessageError;
use crate::message::Request;
use crate::tag::{FIRST_STRUCTURE, LAST_STRUCTURE};
use ncc_pack::{Dict, PackError, Text, Value, Values, decode_at};
use std::alloc::Global;

/// The number of fields, and the tag.
#[tactic(auto, unfolding(crate::specs::Reading::head_at))]
pub(crate) fn head_of(message: &[u8]) -> Result<(u8, u8), MessageError>
    ensures long { IfOk result (λ r. 2 ≤ length message.now) }
    ensures exact { Gives (λ r. r) result (head_at message.now) }
{
    let [mark, rest @ ..] = message else {
        return Err(MessageError::Pack(PackError::Short));
    };
    if *mark < FIRST_STRUCTURE || *mark > LAST_STRUCTURE {
        return Err(MessageError::Pack(PackError::BadMarker { at: 0 }));
    }
    match rest {
        [] => Err(MessageError::Pack(PackError::Short)),
        [tag, ..] => Ok((*mark - FIRST_STRUCTURE, *tag)),
    }
}

/// Refuses another number of fields than the message of the tag has.
fn counted(tag: u8, n: u8, want: u8) -> Result<(), MessageError>
    ensures exact { result ≡ counted tag n want }
{
    if n == want {
        Ok(())
    } else {
        Err(MessageError::WrongFields { tag, n })
    }
}

/// Refuses bytes from a place on.
fn ended(message: &[u8], at: usize) -> Result<(), MessageError>
    requires within { at ≤ length message.now }
    ensures exact { result ≡ ended (length message.now) tt (drop at message.now) }
{
    if at < message.len() {
        return Err(MessageError::Rest { at: at as u64 });
    }
    Ok(())
}

/// The value at a place, and the place behind it.
#[tactic(auto, unfolding(crate::specs::Reading::spelled_at))]
fn value_of(alloc: Global, bytes: &[u8], at: usize) -> Result<(Value, usize), MessageError>
    requires within { at ≤ length bytes.now }
    ensures inside { IfOk result (λ r. r.1 ≤ length bytes.now) }
    ensures exact { Gives (λ r. (r.0, drop r.1 bytes.now)) result (spelled_at (length bytes.now) (drop at bytes.now)) }
{
    match decode_at(alloc, bytes, at) {
        Ok((value, len)) => Ok((value, at + len)),
        Err(error) => Err(MessageError::from(error)),
    }
}

/// The refusal of a field of another kind, whose spelling begins at a place.
fn wrong_kind(tag: u8, field: u8, at: usize) -> MessageError
    ensures exact { result ≡ WrongKind tag field at }
{
    MessageError::WrongKind {
        tag,
        field,
        at: at as u64,
    }
}

/// The dictionary at a place, and the place behind it.
#[tactic(auto, unfolding(crate::specs::Reading::field_at), using(crate::proofs::Parts::place_of_rest))]
fn dict_of(
    alloc: Global,
    bytes: &[u8],
    at: usize,
    tag: u8,
    field: u8,
) -> Result<(Dict, usize), MessageError>
    requires within { at ≤ length bytes.now }
    ensures inside { IfOk result (λ r. r.1 ≤ length bytes.now) }
    ensures exact { Gives (λ r. (r.0, drop r.1 bytes.now)) result (field_at dictionary (length bytes.now) tag field (drop at bytes.now)) }
{
    let (value, behind) = value_of(alloc, bytes, at)?;
    match value {
        Value::Dict(pairs) => Ok((pairs, behind)),
        _ => Err(wrong_kind(tag, field, at)),
    }
}

/// The text at a place, and the place behind it.
#[tactic(auto, unfolding(crate::specs::Reading::field_at), using(crate::proofs::Parts::place_of_rest))]
fn text_of(
    alloc: Global,
    bytes: &[u8],
    at: usize,
    tag: u8,
    field: u8,
) -> Result<(Text, usize), MessageError>
    requires within { at ≤ length bytes.now }
    ensures inside { IfOk result (λ r. r.1 ≤ length bytes.now) }
    ensures exact { Gives (λ r. (r.0, drop r.1 bytes.now)) result (field_at text (length bytes.now) tag field (drop at bytes.now)) }
{
    let (value, behind) = value_of(alloc, bytes, at)?;
    match value {
        Value::Text(written) => Ok((written, behind)),
        _ => Err(wrong_kind(tag, field, at)),
    }
}

/// The list at a place, and the place behind it.
#[tactic(auto, unfolding(crate::specs::Reading::field_at), using(crate::proofs::Parts::place_of_rest))]
fn list_of(
    alloc: Global,
    bytes: &[u8],
    at: usize,
    tag: u8,
    field: u8,
) -> Result<(Values, usize), MessageError>
    requires within { at ≤ length bytes.now }
    ensures inside { IfOk result (λ r. r.1 ≤ length bytes.now) }
    ensures exact { Gives (λ r. (r.0, drop r.1 bytes.now)) result (field_at list (length bytes.now) tag field (drop at bytes.now)) }
{
    let (value, behind) = value_of(alloc, bytes, at)?;
    match value {
        Value::List(values) => Ok((values, behind)),
        _ => Err(wrong_kind(tag, field, at)),
    }
}

/// A message that has no fields.
pub(crate) fn no_fields<M: Drop>(made: M, message: &[u8], tag: u8, n: u8) -> Result<M, MessageError>
    requires long { 2 ≤ length message.now }
    ensures exact { Gives (λ m. m) result (row_at (bare tag made) tag n message.now) }
{
    counted(tag, n, 0)?;
    ended(message, 2)?;
    Ok(made)
}

/// The field of a message that has a dictionary alone.
pub(crate) fn one_dict(alloc: Global, message: &[u8], tag: u8, n: u8) -> Result<Dict, MessageError>
    requires long { 2 ≤ length message.now }
    ensures exact { Gives (λ ps. (ps, tt)) result (fields_of (dictionary ∷ []) tag n message.now) }
{
    counted(tag, n, 1)?;
    let (pairs, behind) = dict_of(alloc, message, 2, tag, 0)?;
    ended(message, behind)?;
    Ok(pairs)
}

/// The field of a message that has a list alone.
pub(crate) fn one_list(
    alloc: Global,
    message: &[u8],
    tag: u8,
    n: u8,
) -> Result<Values, MessageError>
    requires long { 2 ≤ length message.now }
    ensures exact { Gives (λ xs. (xs, tt)) result (fields_of (list ∷ []) tag n message.now) }
{
    counted(tag, n, 1)?;
    let (values, behind) = list_of(alloc, message, 2, tag, 0)?;
    ended(message, behind)?;
    Ok(values)
}

/// The request RUN: a text and two dictionaries.
pub(crate) fn run_of(alloc: Global, message: &[u8], tag: u8, n: u8) -> Result<Request, MessageError>
    requires long { 2 ≤ length message.now }
    ensures exact { Gives (λ m. m) result (row_at run_row tag n message.now) }
{
    counted(tag, n, 3)?;
    let (query, behind) = text_of(alloc, message, 2, tag, 0)?;
    let (params, behind) = dict_of(alloc, message, behind, tag, 1)?;
    let (extra, behind) = dict_of(alloc, message, behind, tag, 2)?;
    ended(message, behind)?;
    Ok(Request::Run {
        query,
        params,
        extra,
    })
}

/// The request ROUTE: a dictionary, a list and a dictionary.
pub(crate) fn route_of(
    alloc: Global,
    message: &[u8],
    tag: u8,
    n: u8,
) -> Result<Request, MessageError>
    requires long { 2 ≤ length message.now }
    ensures exact { Gives (λ m. m) result (row_at route_row tag n message.now) }
{
    counted(tag, n, 3)?;
    let (routing, behind) = dict_of(alloc, message, 2, tag, 0)?;
    let (bookmarks, behind) = list_of(alloc, message, behind, tag, 1)?;
    let (extra, behind) = dict_of(alloc, message, behind, tag, 2)?;
    ended(message, behind)?;
    Ok(Request::Route {
        routing,
        bookmarks,
        extra,
    })
}
