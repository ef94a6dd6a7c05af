//! Tokens at the front of a text.

ghost use Rattle.std.specs.Prelude.{◌≡◌, ◌++◌, ◌<◌, length, IfOk, None, Some, slice_index};
ghost use Rattle.std.specs.Str.Parse.{AllDigits};
ghost use Rattle.ncc_cypher.specs.declared.class.Class.TheVariants.{Letter, Minus, Quote};
ghost use Rattle.ncc_cypher.specs.Class.{class, IsDigitClass};
ghost use Rattle.ncc_cypher.specs.Token.{keyword, or_name, sign_of};
ghost use Rattle.ncc_cypher.specs.Scan.{digits_at, token_at, read, RestIsText};

use crate::class::{Class, class_of};
use crate::number::{minus_number, plain_number};
use crate::slice::{before, past};
use crate::text::past_body;
use crate::token::{Piece, Quoted, Token};
use crate::word::{digits_split, word_split};

/// The keyword that a word is, in any case.
#[tactic(auto, unfolding(crate::specs::Token::keyword))]
fn keyword<'a>(word: &str) -> Option<Token<'a>>
    ensures { result ≡ keyword word.now }
{
    if word.eq_ignore_ascii_case("create") {
        Some(Token::Create)
    } else if word.eq_ignore_ascii_case("match") {
        Some(Token::Match)
    } else if word.eq_ignore_ascii_case("merge") {
        Some(Token::Merge)
    } else if word.eq_ignore_ascii_case("set") {
        Some(Token::Set)
    } else if word.eq_ignore_ascii_case("delete") {
        Some(Token::Delete)
    } else if word.eq_ignore_ascii_case("return") {
        Some(Token::Return)
    } else if word.eq_ignore_ascii_case("as") {
        Some(Token::As)
    } else if word.eq_ignore_ascii_case("true") {
        Some(Token::True)
    } else if word.eq_ignore_ascii_case("false") {
        Some(Token::False)
    } else if word.eq_ignore_ascii_case("null") {
        Some(Token::Null)
    } else {
        None
    }
}

/// The token that a word is.
fn word_token<'a>(word: &'a str) -> Token<'a>
    ensures { result ≡ or_name word.now (keyword word.now) }
{
    match keyword(word) {
        Some(token) => token,
        None => Token::Name(Piece::new(word)),
    }
}

/// The token of a sign.
#[tactic(auto, unfolding(crate::specs::Token::sign_of))]
fn sign_of<'a>(byte: u8) -> Option<Token<'a>>
    ensures { result ≡ sign_of byte }
{
    match byte {
        b'(' => Some(Token::Open),
        b')' => Some(Token::Close),
        b'{' => Some(Token::LeftBrace),
        b'}' => Some(Token::RightBrace),
        b':' => Some(Token::Colon),
        b',' => Some(Token::Comma),
        b'.' => Some(Token::Dot),
        b'=' => Some(Token::Equals),
        b'+' => Some(Token::Plus),
        b'$' => Some(Token::Dollar),
        b';' => Some(Token::Semicolon),
        _ => None,
    }
}

/// The digits of a number at the front, none where no number stands there, and the rest.
fn digits_front(text: &str) -> (&str, &str)
    ensures parts { result.0.now ++ result.1.now ≡ text.now }
    ensures none { length result.0.now ≡ 0 → digits_at text.now ≡ None }
    ensures some { 0 < length result.0.now → digits_at text.now ≡ Some (result.0.now, result.1.now) }
    ensures digits { AllDigits 10 result.0.now }
{
    let bytes = text.as_bytes();
    if bytes.is_empty() {
        return ("", text);
    }
    match class_of(bytes[0]) {
        Class::Zero => text.split_at(1),
        Class::Digit => digits_split(text),
        _ => ("", text),
    }
}

/// The integer at the front, where its first byte is a digit.
fn number_at<'a>(text: &'a str) -> Option<(Token<'a>, &'a str)>
    requires some { 0 < length text.now }
    requires digit { IsDigitClass (class (slice_index text.now 0)) }
    ensures token { read result ≡ token_at text.now }
    ensures rest { RestIsText result }
{
    let (digits, rest) = digits_front(text);
    if digits.is_empty() {
        return None;
    }
    match plain_number(digits) {
        Some(n) => Some((Token::Int(n), rest)),
        None => None,
    }
}

/// The integer at the front, where its first byte is a minus.
fn minus_at<'a>(text: &'a str) -> Option<(Token<'a>, &'a str)>
    requires some { 0 < length text.now }
    requires minus { class (slice_index text.now 0) ≡ Minus }
    ensures token { read result ≡ token_at text.now }
    ensures rest { RestIsText result }
{
    let (digits, rest) = digits_front(past(text));
    if digits.is_empty() {
        return None;
    }
    match minus_number(before(text, rest)) {
        Some(n) => Some((Token::Int(n), rest)),
        None => None,
    }
}

/// The keyword or name at the front.
fn word_at<'a>(text: &'a str) -> (Token<'a>, &'a str)
    requires some { 0 < length text.now }
    requires letter { class (slice_index text.now 0) ≡ Letter }
    ensures token { token_at text.now ≡ Some (result.0, result.1.now) }
    ensures rest { RestIsText (Some result) }
{
    let (word, rest) = word_split(text);
    (word_token(word), rest)
}

/// The text at the front, where its first byte is a quote.
fn quoted_at<'a>(quote: u8, text: &'a str) -> Option<(Token<'a>, &'a str)>
    requires some { 0 < length text.now }
    requires first { quote ≡ slice_index text.now 0 }
    requires quote { class quote ≡ Quote }
    ensures token { read result ≡ token_at text.now }
    ensures rest { RestIsText result }
{
    let body = past(text);
    match past_body(quote, body) {
        Some(rest) => Some((Token::Text(Quoted::new(quote, body)), rest)),
        None => None,
    }
}

/// The token that the text begins with, and what follows it.
pub(crate) fn token_at<'a>(text: &'a str) -> Option<(Token<'a>, &'a str)>
    ensures token { read result ≡ token_at text.now }
    ensures rest { RestIsText result }
{
    let bytes = text.as_bytes();
    if bytes.is_empty() {
        return None;
    }
    let first = bytes[0];
    match class_of(first) {
        Class::Letter => Some(word_at(text)),
        Class::Zero => number_at(text),
        Class::Digit => number_at(text),
        Class::Minus => minus_at(text),
        Class::Quote => quoted_at(first, text),
        Class::Sign => match sign_of(first) {
            Some(token) => Some((token, past(text))),
            None => None,
        },
        Class::Blank => None,
        Class::Other => None,
    }
}
