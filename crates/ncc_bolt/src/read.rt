//! From bytes to a message.

ghost use Rattle.std.specs.Prelude.{◌≡◌, ◌≤◌, IfOk, IsTrue, length};
ghost use Rattle.ncc_bolt.specs.declared.message.Request.{Request};
ghost use Rattle.ncc_bolt.specs.declared.message.Response.{Response};
ghost use Rattle.ncc_bolt.specs.Messages.{SpellsRequest, SpellsResponse};
ghost use Rattle.ncc_bolt.specs.Table.{requests, responses};
ghost use Rattle.ncc_bolt.specs.Reading.{Gives, GivesOk, in_table, request_at, response_at};
ghost use Rattle.ncc_bolt.specs.Writing.{fits_request, fits_response, short_request, short_response};

use crate::error::MessageError;
use crate::field::{head_of, no_fields, one_dict, one_list, route_of, run_of};
use crate::message::{Request, Response};
use crate::tag::{
    BEGIN, COMMIT, DISCARD, FAILURE, GOODBYE, HELLO, IGNORED, PULL, RECORD, RESET, ROLLBACK, ROUTE,
    RUN, SUCCESS,
};
use std::alloc::Global;

/// The request of a tag with so many fields.
fn request_of(alloc: Global, message: &[u8], tag: u8, n: u8) -> Result<Request, MessageError>
    requires long { 2 ≤ length message.now }
    ensures exact { Gives {Y = Request} (λ m. m) result (in_table requests tag n message.now) }
{
    match tag {
        HELLO => Ok(Request::Hello {
            extra: one_dict(alloc, message, tag, n)?,
        }),
        GOODBYE => no_fields(Request::Goodbye, message, tag, n),
        RESET => no_fields(Request::Reset, message, tag, n),
        RUN => run_of(alloc, message, tag, n),
        BEGIN => Ok(Request::Begin {
            extra: one_dict(alloc, message, tag, n)?,
        }),
        COMMIT => no_fields(Request::Commit, message, tag, n),
        ROLLBACK => no_fields(Request::Rollback, message, tag, n),
        DISCARD => Ok(Request::Discard {
            extra: one_dict(alloc, message, tag, n)?,
        }),
        PULL => Ok(Request::Pull {
            extra: one_dict(alloc, message, tag, n)?,
        }),
        ROUTE => route_of(alloc, message, tag, n),
        _ => Err(MessageError::UnknownTag { tag }),
    }
}

/// The response of a tag with so many fields.
fn response_of(alloc: Global, message: &[u8], tag: u8, n: u8) -> Result<Response, MessageError>
    requires long { 2 ≤ length message.now }
    ensures exact { Gives {Y = Response} (λ m. m) result (in_table responses tag n message.now) }
{
    match tag {
        SUCCESS => Ok(Response::Success {
            meta: one_dict(alloc, message, tag, n)?,
        }),
        RECORD => Ok(Response::Row {
            fields: one_list(alloc, message, tag, n)?,
        }),
        IGNORED => no_fields(Response::Ignored, message, tag, n),
        FAILURE => Ok(Response::Failure {
            meta: one_dict(alloc, message, tag, n)?,
        }),
        _ => Err(MessageError::UnknownTag { tag }),
    }
}

fn request_in(alloc: Global, message: &[u8]) -> Result<Request, MessageError>
    ensures exact { Gives (λ x. x) result (request_at message.now) }
{
    let (n, tag) = head_of(message)?;
    request_of(alloc, message, tag, n)
}

fn response_in(alloc: Global, message: &[u8]) -> Result<Response, MessageError>
    ensures exact { Gives (λ x. x) result (response_at message.now) }
{
    let (n, tag) = head_of(message)?;
    response_of(alloc, message, tag, n)
}

/// Reads a request, the whole of a message without its chunks (Bolt 4.4, section "Messages").
///
/// It refuses the first of these faults: an empty message or another marker than B0 to BF, an end before the tag, a tag of no
/// request, another number of fields, then for each field in turn a spelling that is none or another kind, and at last bytes
/// that follow. A kind is refused at the first byte of its field's spelling. `Memory` says alone
/// that memory ran out.
pub fn read_request(alloc: Global, message: &[u8]) -> Result<Request, MessageError>
    // The whole message spells what is read.
    ensures found { IfOk result (λ m. SpellsRequest m message.now) }
    // What is spelled so is read, unless memory runs out.
    ensures only { (m : Request) → SpellsRequest m message.now → GivesOk result m }
    // What was written is read again.
    ensures again { (m : Request) → IsTrue (fits_request m) → message.now ≡ short_request m → GivesOk result m }
    // A refusal is the first fault that stands in the message.
    ensures exact { Gives (λ x. x) result (request_at message.now) }
{
    request_in(alloc, message)
}

/// Reads a response, the whole of a message without its chunks (Bolt 4.4, section "Messages").
///
/// It refuses as `read_request` does, by the table of responses.
pub fn read_response(alloc: Global, message: &[u8]) -> Result<Response, MessageError>
    // The whole message spells what is read.
    ensures found { IfOk result (λ m. SpellsResponse m message.now) }
    // What is spelled so is read, unless memory runs out.
    ensures only { (m : Response) → SpellsResponse m message.now → GivesOk result m }
    // What was written is read again.
    ensures again { (m : Response) → IsTrue (fits_response m) → message.now ≡ short_response m → GivesOk result m }
    // A refusal is the first fault that stands in the message.
    ensures exact { Gives (λ x. x) result (response_at message.now) }
{
    response_in(alloc, message)
}
