//! Tokens. What they keep is borrowed from the source.

ghost use Rattle.std.specs.Prelude.{◌≡◌, ◌<◌, IfOk, false};
ghost use Rattle.ncc_cypher.specs.Body.{body_at};
ghost use Rattle.ncc_cypher.specs.Piece.{value_of, HasBody};

use crate::text::text_of;
use ncc_pack::{Memory, Text};
use std::alloc::Global;
use std::marker::Model;

/// A part of a source. A contract sees its bytes.
#[derive(Drop)]
pub(crate) struct Piece<'a> {
    text: &'a str,
}

impl<'a> Model for Piece<'a> {
    ghost use Rattle.std.specs.Prelude.{List, ℕ};
    ghost use Rattle.std.specs.Str.{IsUtf8};

    ghost Value = { List ℕ };

    ghost view = { λ p. p.text.now };

    ghost invariant = { λ p. IsUtf8 p.text.now };
}

impl<'a> Piece<'a> {
    pub(crate) fn new(text: &'a str) -> Piece<'a>
        ensures same { result ≡ text.now }
    {
        Piece { text }
    }

    pub(crate) fn as_str(&self) -> &'a str
        ensures same { result.now ≡ self.now }
    {
        self.text
    }

    /// A copy that is kept.
    pub(crate) fn to_text(&self, alloc: Global) -> Result<Text, Memory>
        ensures same { IfOk result (λ t. t ≡ self.now) }
    {
        Text::from_str(alloc, self.text)
    }
}

/// A text in quotes. A contract sees its value, with each escape as what it stands for.
#[derive(Drop)]
pub(crate) struct Quoted<'a> {
    quote: u8,
    /// The source behind the quote.
    text: &'a str,
}

impl<'a> Model for Quoted<'a> {
    ghost use Rattle.std.specs.Prelude.{List, ℕ, false};
    ghost use Rattle.ncc_cypher.specs.Piece.{quoted_value, IsQuoted};

    ghost Value = { List ℕ };

    ghost view = { λ q. quoted_value q.quote q.text.now };

    ghost invariant = { λ q. IsQuoted q.quote q.text.now };
}

impl<'a> Quoted<'a> {
    /// The text behind a quote, where it ends.
    pub(crate) fn new(quote: u8, text: &'a str) -> Quoted<'a>
        requires quote { quote < 92 }
        requires body { HasBody (body_at quote false text.now) }
        ensures same { result ≡ value_of (body_at quote false text.now) }
    {
        Quoted { quote, text }
    }

    /// The value.
    pub(crate) fn to_text(&self, alloc: Global) -> Result<Text, Memory>
        ensures same { IfOk result (λ t. t ≡ self.now) }
    {
        match text_of(alloc, self.quote, self.text)? {
            Some((value, _)) => Ok(value),
            None => Ok(Text::new(alloc)),
        }
    }
}

/// A token of a source: a keyword, a value, a name or a sign.
#[derive(Drop)]
pub(crate) enum Token<'a> {
    Create,
    Match,
    Merge,
    Set,
    Delete,
    Return,
    As,
    True,
    False,
    Null,
    Int(i64),
    Text(Quoted<'a>),
    Name(Piece<'a>),
    Open,
    Close,
    LeftBrace,
    RightBrace,
    Colon,
    Comma,
    Dot,
    Equals,
    Plus,
    Dollar,
    Semicolon,
}
