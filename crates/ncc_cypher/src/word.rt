//! Words and digits.

ghost use Rattle.std.specs.Prelude.{◌≡◌, take, drop};
ghost use Rattle.std.specs.List.{prefix_len};
ghost use Rattle.ncc_cypher.specs.Token.{is_blank, past_blanks};
ghost use Rattle.ncc_cypher.specs.Class.{is_word, is_digit, is_word_class, is_digit_class};

use crate::class::{Class, class_of};

fn is_digit(b: u8) -> bool
    ensures { result ≡ is_digit b }
{
    match class_of(b) {
        Class::Zero | Class::Digit => true,
        _ => false,
    }
}

fn is_word(b: u8) -> bool
    ensures { result ≡ is_word b }
{
    match class_of(b) {
        Class::Letter | Class::Zero | Class::Digit => true,
        _ => false,
    }
}

fn word_len(bytes: &[u8]) -> usize
    ensures { result ≡ prefix_len is_word bytes.now }
{
    bytes.iter().take_while(|b| is_word(**b)).count()
}

fn digits_len(bytes: &[u8]) -> usize
    ensures { result ≡ prefix_len is_digit bytes.now }
{
    bytes.iter().take_while(|b| is_digit(**b)).count()
}

/// The front whose bytes may stand in a name, and the rest.
pub(crate) fn word_split(text: &str) -> (&str, &str)
    ensures front { result.0.now ≡ take (prefix_len is_word text.now) text.now }
    ensures back { result.1.now ≡ drop (prefix_len is_word text.now) text.now }
{
    let n = word_len(text.as_bytes());
    text.split_at(n)
}

/// The front of digits, and the rest.
pub(crate) fn digits_split(text: &str) -> (&str, &str)
    ensures front { result.0.now ≡ take (prefix_len is_digit text.now) text.now }
    ensures back { result.1.now ≡ drop (prefix_len is_digit text.now) text.now }
{
    let n = digits_len(text.as_bytes());
    text.split_at(n)
}

fn is_blank(b: u8) -> bool
    ensures { result ≡ is_blank b }
{
    match class_of(b) {
        Class::Blank => true,
        _ => false,
    }
}

fn blanks_len(bytes: &[u8]) -> usize
    ensures { result ≡ prefix_len is_blank bytes.now }
{
    bytes.iter().take_while(|b| is_blank(**b)).count()
}

/// The text behind the spaces, tabs, CR and LF that it begins with.
pub(crate) fn past_blanks(text: &str) -> &str
    ensures { result.now ≡ past_blanks text.now }
{
    let n = blanks_len(text.as_bytes());
    let (_, rest) = text.split_at(n);
    rest
}
