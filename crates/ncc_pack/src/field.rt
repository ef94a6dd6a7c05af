//! The parts of a value that hold no other: numbers, sizes, bytes, texts, keys, labels and a node's number.

ghost use Rattle.std.specs.Prelude.{◌≡◌, ◌++◌, ◌∷◌, [], take, drop, length, is_some, ◌<◌, ◌≤◌};
ghost use Rattle.std.specs.Str.Lossy.{utf8_valid_len, utf8_error_len};
ghost use Rattle.std.specs.Int.{w32, from_be_bytes};
ghost use Rattle.ncc_pack.specs.Reading.{Gives, size_at, bytes_at, text_at, id_at, key_at, label_at, tag_at, other_kind};
ghost use Rattle.ncc_pack.specs.Reading.{sequence_len, cut_text};

use crate::bytes::Bytes;
use crate::cursor::Cursor;
use crate::error::PackError;
use crate::limits::MAX_SIZE;
use crate::mark::{Mark, NODE_TAG, Size, mark_of};
use crate::text::Text;
use crate::value::Value;
use std::str;

/// The number that the first four bytes spell, with zeros for those that are missing.
fn first_four(bytes: &[u8]) -> u32
    ensures { result ≡ from_be_bytes w32 (take 4 (bytes.now ++ 0 ∷ 0 ∷ 0 ∷ 0 ∷ [])) }
{
    match bytes {
        [] => 0,
        [a] => u32::from_be_bytes([*a, 0, 0, 0]),
        [a, b] => u32::from_be_bytes([*a, *b, 0, 0]),
        [a, b, c] => u32::from_be_bytes([*a, *b, *c, 0]),
        [a, b, c, d, ..] => u32::from_be_bytes([*a, *b, *c, *d]),
    }
}

/// How many bytes the sequence has that begins so; 0 where nothing does.
fn sequence_len(bytes: &[u8]) -> usize
    ensures { result ≡ sequence_len bytes.now }
{
    match bytes {
        [] => 0,
        [0..=0x7F, ..] => 1,
        [0x80..=0xDF, ..] => 2,
        [0xE0..=0xEF, ..] => 3,
        _ => 4,
    }
}

/// How many bytes in front are UTF-8, and whether those behind them are ill-formed already.
#[tactic(auto, using(crate::proofs::Texts::all_well, crate::proofs::Texts::none_ill, crate::proofs::Texts::well_le))]
fn well_formed(bytes: &[u8]) -> (usize, bool)
    ensures inside { result.0 ≤ length bytes.now }
    ensures len { result.0 ≡ utf8_valid_len bytes.now }
    ensures ill { result.1 ≡ is_some (utf8_error_len (drop (utf8_valid_len bytes.now) bytes.now)) }
{
    match str::from_utf8(bytes) {
        Ok(_) => (bytes.len(), false),
        Err(e) => (e.valid_up_to(), e.error_len().is_some()),
    }
}

/// The fault of a text of so many bytes whose bytes end too early.
fn cut_text(total: usize, len: usize, bytes: &[u8]) -> PackError
    requires { length bytes.now < len }
    ensures { result ≡ cut_text total len bytes.now }
{
    let (valid, ill) = well_formed(bytes);
    let last = sequence_len(&bytes[valid..]);
    if ill || len - valid < last {
        let at = total.saturating_sub(bytes.len() - valid) as u64;
        return PackError::BadUtf8 { at };
    }
    PackError::Short
}

/// The fault of a marker where another kind has to stand.
pub(crate) fn other_kind(at: u64, mark: Mark) -> PackError
    ensures { result ≡ other_kind at mark }
{
    match mark {
        Mark::Float => PackError::Float { at },
        _ => PackError::BadMarker { at },
    }
}

impl<'a> Cursor<'a> {
    /// A size, by what its marker says of it; the marker stands at a place.
    #[tactic(auto, unfolding(crate::specs::Reading::size_at))]
    pub(crate) fn take_size(&mut self, at: u64, size: Size) -> Result<usize, PackError>
        ensures read { Gives (λ n. (n, self.new.rest.now)) result (size_at at size self.old.rest.now) }
        ensures total { self.new.total ≡ self.old.total }
    {
        match size {
            Size::Here(n) => Ok(n as usize),
            Size::One => Ok(self.take_u8()? as usize),
            Size::Two => Ok(self.take_u16()? as usize),
            Size::Four => {
                if first_four(self.rest) as usize > MAX_SIZE {
                    return Err(PackError::TooLong { at });
                }
                Ok(self.take_u32()? as usize)
            }
        }
    }

    #[tactic(auto, unfolding(crate::specs::Reading::bytes_at))]
    pub(crate) fn take_bytes(&mut self, len: usize) -> Result<Bytes, PackError>
        ensures read { Gives (λ b. (b, self.new.rest.now)) result (bytes_at len self.old.rest.now) }
        ensures total { self.new.total ≡ self.old.total }
    {
        if self.rest.len() < len {
            return Err(PackError::Short);
        }
        let (front, rest) = self.rest.split_at(len);
        self.rest = rest;
        Ok(Bytes::from_slice(self.alloc, front)?)
    }

    /// A text of so many bytes, as a part of the bytes.
    #[tactic(auto, unfolding(crate::specs::Reading::text_at), using(crate::proofs::Texts::text_whole))]
    pub(crate) fn take_str(&mut self, len: usize) -> Result<&'a str, PackError>
        ensures read { Gives (λ t. (t.now, self.new.rest.now)) result (text_at self.old.total len self.old.rest.now) }
        ensures total { self.new.total ≡ self.old.total }
    {
        let bytes = self.rest;
        if bytes.len() < len {
            return Err(cut_text(self.total, len, bytes));
        }
        let (front, rest) = bytes.split_at(len);
        match str::from_utf8(front) {
            Ok(text) => {
                self.rest = rest;
                Ok(text)
            }
            Err(e) => {
                let at = self.total.saturating_sub(bytes.len() - e.valid_up_to()) as u64;
                Err(PackError::BadUtf8 { at })
            }
        }
    }

    pub(crate) fn take_text(&mut self, len: usize) -> Result<Text, PackError>
        ensures read { Gives (λ t. (t, self.new.rest.now)) result (text_at self.old.total len self.old.rest.now) }
        ensures total { self.new.total ≡ self.old.total }
    {
        let text = self.take_str(len)?;
        Ok(Text::from_str(self.alloc, text)?)
    }

    /// A key, as a part of the bytes.
    #[tactic(auto, unfolding(crate::specs::Reading::key_at))]
    pub(crate) fn take_key(&mut self) -> Result<&'a str, PackError>
        ensures read { Gives (λ t. (t.now, self.new.rest.now)) result (key_at self.old.total self.old.rest.now) }
        ensures total { self.new.total ≡ self.old.total }
    {
        let at = self.place();
        match mark_of(self.take_u8()?) {
            Mark::Text(size) => {
                let len = self.take_size(at, size)?;
                self.take_str(len)
            }
            _ => Err(PackError::KeyNotText { at }),
        }
    }

    /// A label of a node.
    #[tactic(auto, unfolding(crate::specs::Reading::label_at))]
    pub(crate) fn take_label(&mut self) -> Result<Value, PackError>
        ensures read { Gives (λ x. (x, self.new.rest.now)) result (label_at self.old.total self.old.rest.now) }
        ensures total { self.new.total ≡ self.old.total }
    {
        let at = self.place();
        match mark_of(self.take_u8()?) {
            Mark::Text(size) => {
                let len = self.take_size(at, size)?;
                Ok(Value::Text(self.take_text(len)?))
            }
            mark => Err(other_kind(at, mark)),
        }
    }

    /// The number of a node.
    #[tactic(auto, unfolding(crate::specs::Reading::id_at))]
    pub(crate) fn take_id(&mut self) -> Result<i64, PackError>
        ensures read { Gives (λ z. (z, self.new.rest.now)) result (id_at self.old.total self.old.rest.now) }
        ensures total { self.new.total ≡ self.old.total }
    {
        let at = self.place();
        match mark_of(self.take_u8()?) {
            Mark::Small(number) => Ok(number),
            Mark::Int1 => Ok(i64::from(self.take_u8()?.cast_signed())),
            Mark::Int2 => Ok(i64::from(self.take_u16()?.cast_signed())),
            Mark::Int4 => Ok(i64::from(self.take_u32()?.cast_signed())),
            Mark::Int8 => Ok(self.take_u64()?.cast_signed()),
            mark => Err(other_kind(at, mark)),
        }
    }

    /// The tag of a node.
    #[tactic(auto, unfolding(crate::specs::Reading::tag_at))]
    pub(crate) fn take_tag(&mut self) -> Result<(), PackError>
        ensures read { Gives (λ u. self.new.rest.now) result (tag_at self.old.total self.old.rest.now) }
        ensures total { self.new.total ≡ self.old.total }
    {
        let at = self.place();
        match self.rest {
            [] => Err(PackError::Short),
            [NODE_TAG, rest @ ..] => {
                self.rest = rest;
                Ok(())
            }
            _ => Err(PackError::BadMarker { at }),
        }
    }
}
