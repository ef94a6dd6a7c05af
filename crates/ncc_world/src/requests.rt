//! The bytes of the clients that `put` and `get` stand for.

ghost use Rattle.std.specs.Prelude.{◌≡◌, ◌++◌, [], map, IfOk, OnOk, IsTrue};
ghost use Rattle.ncc_pack.specs.declared.value.Value.TheVariants as v;
ghost use Rattle.ncc_bolt.specs.Writing.{fits_request};
ghost use Rattle.ncc_bolt.specs.declared.message.Request.TheVariants as request;
ghost use Rattle.ncc_bookmark.specs.Spelling.{text_of};
ghost use Rattle.ncc_world.specs.Requests.{bookmarks_at, client_bytes, get_request, pull, put_request, sent, text_at};

use crate::event::Bookmarks;
use ncc_bolt::{Request, write_request};
use ncc_chunk::chunk;
use ncc_pack::{Bytes, Dict, Memory, Sequence, Text, Value};
use std::alloc::Global;

// 60 60 B0 17, and four proposals: 4.4 alone (Bolt 4.4, "Handshake").
const SHAKE: [u8; 20] = [
    0x60, 0x60, 0xB0, 0x17, 0, 0, 4, 4, 0, 0, 0, 0, 0, 0, 0, 0, 0, 0, 0, 0,
];

// Appends a request as it is sent.
fn send(alloc: Global, request: &Request, into: &mut Bytes) -> Result<(), Memory>
    requires fits { IsTrue (fits_request request.now) }
    ensures sent { OnOk result (into.new ≡ into.old ++ sent request.now) }
{
    let mut message = Bytes::new(alloc);
    write_request(request, &mut message)?;
    chunk(message.as_slice(), into)
}

// HELLO that says nothing more.
fn hello(alloc: Global) -> Request
    ensures made { result ≡ request.Hello [] }
    ensures fits { IsTrue (fits_request result) }
{
    Request::Hello {
        extra: Sequence::new(alloc),
    }
}

// PULL of all rows.
fn pull(alloc: Global) -> Result<Request, Memory>
    ensures made { IfOk result (λ r. r ≡ pull) }
    ensures fits { IfOk result (λ r. IsTrue (fits_request r)) }
{
    let mut extra = Sequence::new(alloc);
    extra.push((Text::from_str(alloc, "n")?, Value::Int(-1)))?;
    Ok(Request::Pull { extra })
}

/// All that a client sends for one statement: the handshake, HELLO, the statement, PULL of all rows, and GOODBYE.
pub(crate) fn client_bytes(alloc: Global, request: &Request) -> Result<Bytes, Memory>
    requires fits { IsTrue (fits_request request.now) }
    ensures { IfOk result (λ b. b ≡ client_bytes request.now) }
{
    let mut bytes = Bytes::from_slice(alloc, &SHAKE)?;
    send(alloc, &hello(alloc), &mut bytes)?;
    send(alloc, request, &mut bytes)?;
    send(alloc, &pull(alloc)?, &mut bytes)?;
    send(alloc, &Request::Goodbye, &mut bytes)?;
    Ok(bytes)
}

// A parameter that is a text.
fn text_at(alloc: Global, name: &str, text: &Text) -> Result<(Text, Value), Memory>
    ensures { IfOk result (λ p. p ≡ text_at name.now text.now) }
{
    Ok((Text::from_str(alloc, name)?, Value::Text(text.copy()?)))
}

// The texts of bookmarks.
fn texts_of(alloc: Global, bookmarks: &Bookmarks) -> Result<Sequence<Value>, Memory>
    ensures { IfOk result (λ texts. texts ≡ map (λ b. v.Text (text_of b)) bookmarks.now) }
{
    let mut texts = Sequence::new(alloc);
    for bookmark in bookmarks.as_slice() {
        texts.push(Value::Text(bookmark.text(alloc)?))?;
    }
    Ok(texts)
}

// The bookmarks of a statement.
fn bookmarks_at(alloc: Global, bookmarks: &Bookmarks) -> Result<Dict, Memory>
    ensures { IfOk result (λ d. d ≡ bookmarks_at bookmarks.now) }
{
    let texts = texts_of(alloc, bookmarks)?;
    let mut extra = Sequence::new(alloc);
    extra.push((Text::from_str(alloc, "bookmarks")?, Value::List(texts)))?;
    Ok(extra)
}

/// The statement that gives a key a value.
pub(crate) fn put_request(
    alloc: Global,
    key: &Text,
    value: &Text,
    bookmarks: &Bookmarks,
) -> Result<Request, Memory>
    ensures { IfOk result (λ r. r ≡ put_request key.now value.now bookmarks.now) }
{
    let mut params = Sequence::new(alloc);
    params.push(text_at(alloc, "k", key)?)?;
    params.push(text_at(alloc, "v", value)?)?;
    Ok(Request::Run {
        query: Text::from_str(alloc, "MERGE (n:Pair {k: $k}) SET n.v = $v")?,
        params,
        extra: bookmarks_at(alloc, bookmarks)?,
    })
}

/// The statement that asks for the value of a key.
pub(crate) fn get_request(
    alloc: Global,
    key: &Text,
    bookmarks: &Bookmarks,
) -> Result<Request, Memory>
    ensures { IfOk result (λ r. r ≡ get_request key.now bookmarks.now) }
{
    let mut params = Sequence::new(alloc);
    params.push(text_at(alloc, "k", key)?)?;
    Ok(Request::Run {
        query: Text::from_str(alloc, "MATCH (n:Pair {k: $k}) RETURN n.v")?,
        params,
        extra: bookmarks_at(alloc, bookmarks)?,
    })
}
