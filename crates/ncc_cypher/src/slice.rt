//! Places to cut a text.

ghost use Rattle.std.specs.Prelude.{◌≡◌, ◌∷◌, ◌++◌, ◌≤◌, ◌-◌, ◌<◌, take, drop, length, List, ℕ, slice_index};
ghost use Rattle.std.specs.List.{prefix_len};
ghost use Rattle.ncc_cypher.specs.Body.{is_plain, Ends};

use crate::text::plain_len;

/// What stands in a text before one of its ends.
pub(crate) fn before<'a>(text: &'a str, end: &str) -> &'a str
    requires { Ends text.now end.now }
    ensures { result.now ≡ take (length text.now - length end.now) text.now }
{
    let (front, _) = text.split_at(text.len() - end.len());
    front
}

/// What follows an ASCII byte.
pub(crate) fn past<'a>(text: &'a str) -> &'a str
    requires some { 0 < length text.now }
    requires ascii { slice_index text.now 0 < 128 }
    ensures { result.now ≡ drop 1 text.now }
{
    let (_, rest) = text.split_at(1);
    rest
}

pub(crate) fn plain_split(quote: u8, text: &str) -> (&str, &str)
    requires { quote < 92 }
    ensures front { result.0.now ≡ take (prefix_len (is_plain quote) text.now) text.now }
    ensures back { result.1.now ≡ drop (prefix_len (is_plain quote) text.now) text.now }
{
    let n = plain_len(quote, text.as_bytes());
    text.split_at(n)
}
