//! Classes of bytes.

ghost use Rattle.std.specs.Prelude.{◌≡◌};
ghost use Rattle.ncc_cypher.specs.Class.{class};

/// What a byte may begin.
#[derive(Clone, Copy)]
pub(crate) enum Class {
    Letter,
    Zero,
    Digit,
    Minus,
    Quote,
    Sign,
    Blank,
    Other,
}

/// The class of a byte.
#[tactic(auto, unfolding(crate::specs::Class::class))]
#[inline(always)]
pub(crate) fn class_of(byte: u8) -> Class
    ensures { result ≡ class byte }
{
    match byte {
        b'A'..=b'Z' | b'a'..=b'z' | b'_' => Class::Letter,
        b'0' => Class::Zero,
        b'1'..=b'9' => Class::Digit,
        b'-' => Class::Minus,
        b'\'' | b'"' => Class::Quote,
        b'(' | b')' | b'{' | b'}' | b':' | b',' | b'.' | b'=' | b'+' | b'$' | b';' => Class::Sign,
        b' ' | b'\t' | b'\r' | b'\n' => Class::Blank,
        _ => Class::Other,
    }
}
