//! Texts in quotes.

ghost use Rattle.std.specs.Prelude.{◌≡◌, ◌∷◌, [], false, true, IfOk, MatchOption, ◌==◌, ◌<◌, length, slice_index};
ghost use Rattle.std.specs.List.{prefix_len};
ghost use Rattle.ncc_cypher.specs.Class.{escape, is_escape};
ghost use Rattle.ncc_cypher.specs.Scan.{read, RestIsText};
ghost use Rattle.ncc_cypher.specs.Body.{body_at, is_plain};
ghost use Rattle.ncc_cypher.specs.Stops.{StopsAt};
ghost use Rattle.ncc_cypher.specs.Piece.{rest_of, rest_read, BehindIsText};

use crate::slice::{past, plain_split};
use ncc_pack::{Memory, Text};
use std::alloc::Global;

pub(crate) fn plain_len(quote: u8, bytes: &[u8]) -> usize
    ensures { result ≡ prefix_len (is_plain quote) bytes.now }
{
    bytes
        .iter()
        .take_while(|b| !(**b == quote || **b == b'\\'))
        .count()
}

/// What an escape stands for.
fn escape_of(byte: u8) -> Option<&'static str>
    ensures { MatchOption result (is_escape byte ≡ false) (λ t. (is_escape byte ≡ true) × (t.now ≡ escape byte ∷ [])) }
{
    match byte {
        b'\\' => Some("\\"),
        b'\'' => Some("'"),
        b'"' => Some("\""),
        b'n' => Some("\n"),
        b'r' => Some("\r"),
        b't' => Some("\t"),
        _ => None,
    }
}

/// What ends a run of plain bytes.
enum Stop<'a> {
    Quote(&'a str),
    Escape(&'static str, &'a str),
    Bad,
}

/// What stands behind a run of plain bytes.
fn stop_at<'a>(quote: u8, text: &'a str) -> Stop<'a>
    requires quote { quote < 92 }
    requires stops { 0 < length text.now → is_plain quote (slice_index text.now 0) ≡ false }
    ensures { StopsAt quote text.now result }
{
    let bytes = text.as_bytes();
    if bytes.is_empty() {
        return Stop::Bad;
    }
    if bytes[0] == quote {
        return Stop::Quote(past(text));
    }
    if bytes.len() < 2 {
        return Stop::Bad;
    }
    match escape_of(bytes[1]) {
        None => Stop::Bad,
        Some(c) => Stop::Escape(c, past(past(text))),
    }
}

/// A text up to its quote, and what follows it.
pub(crate) fn text_of<'a>(
    alloc: Global,
    quote: u8,
    text: &'a str,
) -> Result<Option<(Text, &'a str)>, Memory>
    requires { quote < 92 }
    ensures value { IfOk result (λ r. read r ≡ body_at quote false text.now) }
    ensures rest { IfOk result (λ r. RestIsText r) }
{
    let mut out = Text::new(alloc);
    let mut rest = text;
    loop {
        let (front, after) = plain_split(quote, rest);
        out.push_str(front)?;
        match stop_at(quote, after) {
            Stop::Quote(behind) => return Ok(Some((out, behind))),
            Stop::Escape(c, behind) => {
                out.push_str(c)?;
                rest = behind;
            }
            Stop::Bad => return Ok(None),
        }
    }
}

/// What follows the closing quote of a text.
pub(crate) fn past_body<'a>(quote: u8, text: &'a str) -> Option<&'a str>
    requires { quote < 92 }
    ensures value { rest_read result ≡ rest_of (body_at quote false text.now) }
    ensures rest { BehindIsText result }
{
    let mut rest = text;
    loop {
        let (_, after) = plain_split(quote, rest);
        match stop_at(quote, after) {
            Stop::Quote(behind) => return Some(behind),
            Stop::Escape(_, behind) => rest = behind,
            Stop::Bad => return None,
        }
    }
}
