//! Rows as text.

ghost use Rattle.std.specs.Prelude.{◌≡◌, ◌<◌, ◌++◌, ◌∷◌, [], map, IfOk, OnOk, IsTrue};
ghost use Rattle.std.specs.Option.{option_copied};
ghost use Rattle.ncc_pack.specs.declared.value.Value.TheVariants as v;
ghost use Rattle.ncc_pack.specs.Short.{short};
ghost use Rattle.ncc_driver.specs.RowWords.{word_of};
ghost use Rattle.ncc_driver.specs.RowText as t;
ghost use Rattle.ncc_driver.specs.Work as w;

use ncc_pack::{
    Bytes, MAX_SIZE, Memory, Rows, Text, Value, encode_list_head, encode_values, values_fit_within,
};
use std::alloc::Global;

// The levels of a row within a list of rows, of the 32 in all.
const LEVELS: u8 = 31;

const MAX_WORD: usize = 64;

/// Says whether rows have a spelling as one list. It takes no memory.
pub fn rows_fit(rows: &Rows) -> bool
    ensures exact { result ≡ w.rows_fit rows.now }
{
    if rows.len() > MAX_SIZE {
        return false;
    }
    for row in rows.as_slice() {
        if !values_fit_within(row, LEVELS) {
            return false;
        }
    }
    true
}

fn is_word(text: &str) -> bool
    ensures { result ≡ t.is_word text.now }
{
    let bytes = text.as_bytes();
    if bytes.is_empty() || bytes.len() > MAX_WORD {
        return false;
    }
    for byte in bytes {
        if !is_word_byte(*byte) {
            return false;
        }
    }
    true
}

fn is_word_byte(byte: u8) -> bool
    ensures { result ≡ t.is_word_byte byte }
{
    byte.is_ascii_alphanumeric() || byte == b'_' || byte == b'-'
}

/// The word that rows are, where they are one row of one word.
fn word_in(rows: &Rows) -> Option<&Text>
    ensures { option_copied result ≡ word_of rows.now }
{
    match rows.as_slice() {
        [row] => match row.as_slice() {
            [Value::Text(text)] => {
                if is_word(text.as_str()) {
                    Some(text)
                } else {
                    None
                }
            }
            _ => None,
        },
        _ => None,
    }
}

fn spelled(alloc: Global, rows: &Rows) -> Result<Bytes, Memory>
    requires fits { IsTrue (w.rows_fit rows.now) }
    ensures { IfOk result (λ bytes. bytes ≡ short (v.List (map v.List rows.now))) }
{
    let mut bytes = Bytes::new(alloc);
    encode_list_head(rows.len(), &mut bytes)?;
    for row in rows.as_slice() {
        encode_values(row, &mut bytes)?;
    }
    Ok(bytes)
}

/// A digit of base 16.
fn digit(number: u8) -> &'static str
    requires { number < 16 }
    ensures { result.now ≡ t.digit number ∷ [] }
{
    match number {
        0 => "0",
        1 => "1",
        2 => "2",
        3 => "3",
        4 => "4",
        5 => "5",
        6 => "6",
        7 => "7",
        8 => "8",
        9 => "9",
        10 => "a",
        11 => "b",
        12 => "c",
        13 => "d",
        14 => "e",
        _ => "f",
    }
}

fn push_hex(bytes: &[u8], text: &mut Text) -> Result<(), Memory>
    ensures { OnOk result (text.new ≡ text.old ++ t.hex_of bytes.now) }
{
    for byte in bytes {
        text.push_str(digit(*byte / 16))?;
        text.push_str(digit(*byte % 16))?;
    }
    Ok(())
}

fn as_hex(alloc: Global, rows: &Rows) -> Result<Text, Memory>
    requires fits { IsTrue (w.rows_fit rows.now) }
    ensures { IfOk result (λ text. text ≡ t.as_hex rows.now) }
{
    let bytes = spelled(alloc, rows)?;
    let mut text = Text::from_str(alloc, "hex ")?;
    push_hex(bytes.as_slice(), &mut text)?;
    Ok(text)
}

/// Rows as text: `none` where there are none; `word` and a word where they are one row of one text that is 1 to 64 letters, digits, `_`
/// and `-`; else `hex` and, in lower case, the bytes of the shortest spelling of the list of rows. They have to fit, as `rows_fit` says.
pub fn row_text(alloc: Global, rows: &Rows) -> Result<Text, Memory>
    requires fits { IsTrue (w.rows_fit rows.now) }
    ensures exact { IfOk result (λ text. text ≡ t.text_of rows.now) }
{
    if rows.is_empty() {
        return Text::from_str(alloc, "none");
    }
    match word_in(rows) {
        Some(word) => {
            let mut text = Text::from_str(alloc, "word ")?;
            text.push_str(word.as_str())?;
            Ok(text)
        }
        None => as_hex(alloc, rows),
    }
}
