//! From a message to its shortest spelling (Bolt 4.4, section "Messages"). A form over a `Vec` is refused only where it has
//! too little room and gets no more.

ghost use Rattle.std.specs.Prelude.{◌≡◌, ◌++◌, ◌∷◌, ◌+◌, ◌≤◌, [], length, vec_len, vec_capacity, IsOk, OnOk, OnErr, IsTrue};
ghost use Rattle.ncc_pack.specs.declared.value.Value.TheVariants as value;
ghost use Rattle.ncc_pack.specs.Short.{short};
ghost use Rattle.ncc_pack.specs.Fits.{fits};
ghost use Rattle.ncc_bolt.specs.declared.message.Response.TheVariants as response_of;
ghost use Rattle.ncc_bolt.specs.Tags.{structure};
ghost use Rattle.ncc_bolt.specs.Writing.{Begins, fits_request, fits_response, short_run, short_route, short_request, short_response};
ghost use Rattle.ncc_bolt.specs.Writing.{RequestSpelled, ResponseSpelled};

use crate::message::{Request, Response};
use crate::tag::{
    BEGIN, COMMIT, DISCARD, FAILURE, FIRST_STRUCTURE, GOODBYE, HELLO, IGNORED, ONE_FIELD, PULL,
    RECORD, RESET, ROLLBACK, ROUTE, RUN, SUCCESS, THREE_FIELDS,
};
use ncc_pack::{
    Bytes, Dict, Text, Values, encode_dict_within, encode_text_within, encode_values_within,
};
use std::alloc::AllocError;

/// A message without fields.
fn put_bare(tag: u8, into: &mut Vec<u8>) -> Result<(), AllocError>
    ensures ok { OnOk result (into.new.items ≡ into.old.items ++ structure 0 ∷ tag ∷ []) }
    ensures err { OnErr result (Begins into.old.items into.new.items) }
    ensures roomy { vec_len into.old + 2 ≤ vec_capacity into.old → IsOk result }
    ensures capacity { vec_capacity into.old ≤ vec_capacity into.new }
{
    into.extend_from_slice(&[FIRST_STRUCTURE, tag])
}

/// A message with a dictionary alone.
fn put_dict(tag: u8, pairs: &Dict, into: &mut Vec<u8>) -> Result<(), AllocError>
    requires fits { IsTrue (fits (value.Dict pairs.now)) }
    ensures ok { OnOk result (into.new.items ≡ into.old.items ++ structure 1 ∷ tag ∷ short (value.Dict pairs.now)) }
    ensures err { OnErr result (Begins into.old.items into.new.items) }
    ensures roomy { vec_len into.old + (2 + length (short (value.Dict pairs.now))) ≤ vec_capacity into.old → IsOk result }
    ensures capacity { vec_capacity into.old ≤ vec_capacity into.new }
{
    into.extend_from_slice(&[ONE_FIELD, tag])?;
    encode_dict_within(pairs, into)
}

/// A message with a list alone.
fn put_values(tag: u8, values: &Values, into: &mut Vec<u8>) -> Result<(), AllocError>
    requires fits { IsTrue (fits (value.List values.now)) }
    ensures ok { OnOk result (into.new.items ≡ into.old.items ++ structure 1 ∷ tag ∷ short (value.List values.now)) }
    ensures err { OnErr result (Begins into.old.items into.new.items) }
    ensures roomy { vec_len into.old + (2 + length (short (value.List values.now))) ≤ vec_capacity into.old → IsOk result }
    ensures capacity { vec_capacity into.old ≤ vec_capacity into.new }
{
    into.extend_from_slice(&[ONE_FIELD, tag])?;
    encode_values_within(values, into)
}

/// The request RUN.
fn put_run(query: &Text, params: &Dict, extra: &Dict, into: &mut Vec<u8>) -> Result<(), AllocError>
    requires query { IsTrue (fits (value.Text query.now)) }
    requires params { IsTrue (fits (value.Dict params.now)) }
    requires extra { IsTrue (fits (value.Dict extra.now)) }
    ensures ok { OnOk result (into.new.items ≡ into.old.items ++ short_run query.now params.now extra.now) }
    ensures err { OnErr result (Begins into.old.items into.new.items) }
    ensures roomy { vec_len into.old + length (short_run query.now params.now extra.now) ≤ vec_capacity into.old → IsOk result }
    ensures capacity { vec_capacity into.old ≤ vec_capacity into.new }
{
    into.extend_from_slice(&[THREE_FIELDS, RUN])?;
    encode_text_within(query, into)?;
    encode_dict_within(params, into)?;
    encode_dict_within(extra, into)
}

/// The request ROUTE.
fn put_route(
    routing: &Dict,
    bookmarks: &Values,
    extra: &Dict,
    into: &mut Vec<u8>,
) -> Result<(), AllocError>
    requires routing { IsTrue (fits (value.Dict routing.now)) }
    requires bookmarks { IsTrue (fits (value.List bookmarks.now)) }
    requires extra { IsTrue (fits (value.Dict extra.now)) }
    ensures ok { OnOk result (into.new.items ≡ into.old.items ++ short_route routing.now bookmarks.now extra.now) }
    ensures err { OnErr result (Begins into.old.items into.new.items) }
    ensures roomy { vec_len into.old + length (short_route routing.now bookmarks.now extra.now) ≤ vec_capacity into.old → IsOk result }
    ensures capacity { vec_capacity into.old ≤ vec_capacity into.new }
{
    into.extend_from_slice(&[THREE_FIELDS, ROUTE])?;
    encode_dict_within(routing, into)?;
    encode_values_within(bookmarks, into)?;
    encode_dict_within(extra, into)
}

fn put_request(request: &Request, into: &mut Vec<u8>) -> Result<(), AllocError>
    requires fits { IsTrue (fits_request request.now) }
    ensures ok { OnOk result (into.new.items ≡ into.old.items ++ short_request request.now) }
    ensures err { OnErr result (Begins into.old.items into.new.items) }
    ensures roomy { vec_len into.old + length (short_request request.now) ≤ vec_capacity into.old → IsOk result }
    ensures capacity { vec_capacity into.old ≤ vec_capacity into.new }
{
    match request {
        Request::Hello { extra } => put_dict(HELLO, extra, into),
        Request::Goodbye => put_bare(GOODBYE, into),
        Request::Reset => put_bare(RESET, into),
        Request::Run {
            query,
            params,
            extra,
        } => put_run(query, params, extra, into),
        Request::Begin { extra } => put_dict(BEGIN, extra, into),
        Request::Commit => put_bare(COMMIT, into),
        Request::Rollback => put_bare(ROLLBACK, into),
        Request::Discard { extra } => put_dict(DISCARD, extra, into),
        Request::Pull { extra } => put_dict(PULL, extra, into),
        Request::Route {
            routing,
            bookmarks,
            extra,
        } => put_route(routing, bookmarks, extra, into),
    }
}

/// Appends the shortest spelling of a request, without chunks, to bytes with room (Bolt 4.4, section "Messages"). Each field
/// has to fit by itself, as `Value::fits` says of the value that it is. It is refused only where there is too little room and
/// no more is had. An `Err` leaves the bytes as they were.
pub fn write_request_within(request: &Request, into: &mut Vec<u8>) -> Result<(), AllocError>
    requires fits { IsTrue (fits_request request.now) }
    ensures ok { OnOk result (into.new.items ≡ into.old.items ++ short_request request.now) }
    // What is written is spelled so.
    ensures spelled { OnOk result (RequestSpelled request.now into.old.items into.new.items) }
    ensures err { OnErr result (into.new.items ≡ into.old.items) }
    ensures roomy { vec_len into.old + length (short_request request.now) ≤ vec_capacity into.old → IsOk result }
    ensures capacity { vec_capacity into.old ≤ vec_capacity into.new }
{
    let before = into.len();
    match put_request(request, into) {
        Ok(()) => Ok(()),
        Err(error) => {
            into.truncate(before);
            Err(error)
        }
    }
}

/// Appends the shortest spelling of a request, without chunks (Bolt 4.4, section "Messages"). Each field has to fit by itself,
/// as `Value::fits` says of the value that it is. An `Err` leaves the bytes as they were.
pub fn write_request(request: &Request, into: &mut Bytes) -> Result<(), AllocError>
    requires fits { IsTrue (fits_request request.now) }
    ensures ok { OnOk result (into.new ≡ into.old ++ short_request request.now) }
    // What is written is spelled so.
    ensures spelled { OnOk result (RequestSpelled request.now into.old into.new) }
    ensures err { OnErr result (into.new ≡ into.old) }
{
    let mut bytes = into.take();
    let written = write_request_within(request, &mut bytes);
    *into = Bytes::from_vec(bytes);
    written
}

/// Appends the shortest spelling of the response RECORD with these values, without chunks, to bytes with room. They have to
/// fit as a list, as `values_fit` says. It is refused only where there is too little room and no more is had. An `Err` leaves
/// the bytes as they were.
pub fn write_row_within(fields: &Values, into: &mut Vec<u8>) -> Result<(), AllocError>
    requires fits { IsTrue (fits (value.List fields.now)) }
    ensures ok { OnOk result (into.new.items ≡ into.old.items ++ short_response (response_of.Row fields.now)) }
    // What is written is spelled so.
    ensures spelled { OnOk result (ResponseSpelled (response_of.Row fields.now) into.old.items into.new.items) }
    ensures err { OnErr result (into.new.items ≡ into.old.items) }
    ensures roomy { vec_len into.old + length (short_response (response_of.Row fields.now)) ≤ vec_capacity into.old → IsOk result }
    ensures capacity { vec_capacity into.old ≤ vec_capacity into.new }
{
    let before = into.len();
    match put_values(RECORD, fields, into) {
        Ok(()) => Ok(()),
        Err(error) => {
            into.truncate(before);
            Err(error)
        }
    }
}

/// Appends the shortest spelling of the response RECORD with these values, without chunks (Bolt 4.4, section "Messages"). They
/// have to fit as a list, as `values_fit` says. An `Err` leaves the bytes as they were.
pub fn write_row(fields: &Values, into: &mut Bytes) -> Result<(), AllocError>
    requires fits { IsTrue (fits (value.List fields.now)) }
    ensures ok { OnOk result (into.new ≡ into.old ++ short_response (response_of.Row fields.now)) }
    // What is written is spelled so.
    ensures spelled { OnOk result (ResponseSpelled (response_of.Row fields.now) into.old into.new) }
    ensures err { OnErr result (into.new ≡ into.old) }
{
    let mut bytes = into.take();
    let written = write_row_within(fields, &mut bytes);
    *into = Bytes::from_vec(bytes);
    written
}

fn put_response(response: &Response, into: &mut Vec<u8>) -> Result<(), AllocError>
    requires fits { IsTrue (fits_response response.now) }
    ensures ok { OnOk result (into.new.items ≡ into.old.items ++ short_response response.now) }
    ensures err { OnErr result (Begins into.old.items into.new.items) }
    ensures roomy { vec_len into.old + length (short_response response.now) ≤ vec_capacity into.old → IsOk result }
    ensures capacity { vec_capacity into.old ≤ vec_capacity into.new }
{
    match response {
        Response::Success { meta } => put_dict(SUCCESS, meta, into),
        Response::Row { fields } => put_values(RECORD, fields, into),
        Response::Ignored => put_bare(IGNORED, into),
        Response::Failure { meta } => put_dict(FAILURE, meta, into),
    }
}

/// Appends the shortest spelling of a response, without chunks, to bytes with room (Bolt 4.4, section "Messages"). Each field
/// has to fit by itself, as `Value::fits` says of the value that it is. It is refused only where there is too little room and
/// no more is had. An `Err` leaves the bytes as they were.
pub fn write_response_within(response: &Response, into: &mut Vec<u8>) -> Result<(), AllocError>
    requires fits { IsTrue (fits_response response.now) }
    ensures ok { OnOk result (into.new.items ≡ into.old.items ++ short_response response.now) }
    // What is written is spelled so.
    ensures spelled { OnOk result (ResponseSpelled response.now into.old.items into.new.items) }
    ensures err { OnErr result (into.new.items ≡ into.old.items) }
    ensures roomy { vec_len into.old + length (short_response response.now) ≤ vec_capacity into.old → IsOk result }
    ensures capacity { vec_capacity into.old ≤ vec_capacity into.new }
{
    let start = into.len();
    match put_response(response, into) {
        Ok(()) => Ok(()),
        Err(error) => {
            into.truncate(start);
            Err(error)
        }
    }
}

/// Appends the shortest spelling of a response, without chunks (Bolt 4.4, section "Messages"). Each field has to fit by itself,
/// as `Value::fits` says of the value that it is. An `Err` leaves the bytes as they were.
pub fn write_response(response: &Response, into: &mut Bytes) -> Result<(), AllocError>
    requires fits { IsTrue (fits_response response.now) }
    ensures ok { OnOk result (into.new ≡ into.old ++ short_response response.now) }
    // What is written is spelled so.
    ensures spelled { OnOk result (ResponseSpelled response.now into.old into.new) }
    ensures err { OnErr result (into.new ≡ into.old) }
{
    let mut bytes = into.take();
    let written = write_response_within(response, &mut bytes);
    *into = Bytes::from_vec(bytes);
    written
}
