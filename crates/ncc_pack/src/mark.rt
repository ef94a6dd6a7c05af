//! What a marker byte says.

ghost use Rattle.std.specs.Prelude.{◌≡◌};
ghost use Rattle.ncc_pack.specs.Marker.{marker};

/// The marker of null.
pub const NULL: u8 = 0xC0;
/// The marker of a float.
const FLOAT: u8 = 0xC1;
/// The marker of a false truth value.
pub(crate) const FALSE: u8 = 0xC2;
/// The marker of a true one.
pub(crate) const TRUE: u8 = 0xC3;
/// The marker before an integer in one byte.
pub(crate) const INT_1: u8 = 0xC8;
/// The marker before an integer in two bytes.
pub(crate) const INT_2: u8 = 0xC9;
/// The marker before an integer in four bytes.
pub(crate) const INT_4: u8 = 0xCA;
/// The marker before an integer in eight bytes.
pub(crate) const INT_8: u8 = 0xCB;
/// The marker before a size of bytes in one byte; the next two are those before two and four bytes.
pub(crate) const BYTES: u8 = 0xCC;

const BYTES_2: u8 = BYTES + 1;

const BYTES_4: u8 = BYTES + 2;
/// The first marker with the size of a text in it.
pub(crate) const TEXT_HERE: u8 = 0x80;
/// The marker before a size of a text in one byte; the next two are those before two and four bytes.
pub(crate) const TEXT: u8 = 0xD0;

const TEXT_2: u8 = TEXT + 1;

const TEXT_4: u8 = TEXT + 2;
/// The first marker with the size of a list in it.
pub(crate) const LIST_HERE: u8 = 0x90;
/// The marker before a size of a list in one byte; the next two are those before two and four bytes.
pub(crate) const LIST: u8 = 0xD4;

const LIST_2: u8 = LIST + 1;

const LIST_4: u8 = LIST + 2;
/// The first marker with the size of a dictionary in it.
pub(crate) const DICT_HERE: u8 = 0xA0;
/// The marker before a size of a dictionary in one byte; the next two are those before two and four bytes.
pub(crate) const DICT: u8 = 0xD8;

const DICT_2: u8 = DICT + 1;

const DICT_4: u8 = DICT + 2;
/// The marker of a structure of three fields, as a node is.
pub(crate) const NODE: u8 = 0xB3;
/// The tag of a node.
pub(crate) const NODE_TAG: u8 = 0x4E;
/// The last markers with the size of a text, a list and a dictionary in them, which is at most 15.
const MOST_TEXT: u8 = TEXT_HERE + 15;

const MOST_LIST: u8 = LIST_HERE + 15;

const MOST_DICT: u8 = DICT_HERE + 15;
/// The greatest integer that stands in a marker by itself.
const MOST_SMALL: u8 = 0x7F;
/// The marker that is -16, the least integer in a marker.
const LEAST_SMALL: u8 = 0xF0;

/// Where the size of a text, of bytes, of a list or of a dictionary stands.
#[derive(Clone, Copy, Debug)]
pub enum Size {
    /// In the marker.
    Here(u8),
    /// In the byte behind it.
    One,
    /// In the two bytes behind it.
    Two,
    /// In the four bytes behind it.
    Four,
}

/// What a marker byte says (PackStream, "Representation").
#[derive(Clone, Copy, Debug)]
pub enum Mark {
    /// Null.
    Null,
    /// A truth value.
    Bool(bool),
    /// An integer that stands in the marker.
    Small(i64),
    /// An integer in one byte.
    Int1,
    /// An integer in two bytes.
    Int2,
    /// An integer in four bytes.
    Int4,
    /// An integer in eight bytes.
    Int8,
    /// Bytes.
    Bytes(Size),
    /// A text.
    Text(Size),
    /// A list.
    List(Size),
    /// A dictionary.
    Dict(Size),
    /// A structure of three fields; a node, by the tag behind it.
    Node,
    /// A float.
    Float,
    /// No marker of a value.
    Bad,
}

#[inline]
#[tactic(auto, unfolding(crate::specs::Marker::marker))]
pub(crate) fn mark_of(byte: u8) -> Mark
    ensures { result ≡ marker byte }
{
    match byte {
        0..=MOST_SMALL => Mark::Small(i64::from(byte)),
        TEXT_HERE..=MOST_TEXT => Mark::Text(Size::Here(byte - TEXT_HERE)),
        LIST_HERE..=MOST_LIST => Mark::List(Size::Here(byte - LIST_HERE)),
        DICT_HERE..=MOST_DICT => Mark::Dict(Size::Here(byte - DICT_HERE)),
        NODE => Mark::Node,
        NULL => Mark::Null,
        FLOAT => Mark::Float,
        FALSE => Mark::Bool(false),
        TRUE => Mark::Bool(true),
        INT_1 => Mark::Int1,
        INT_2 => Mark::Int2,
        INT_4 => Mark::Int4,
        INT_8 => Mark::Int8,
        BYTES => Mark::Bytes(Size::One),
        BYTES_2 => Mark::Bytes(Size::Two),
        BYTES_4 => Mark::Bytes(Size::Four),
        TEXT => Mark::Text(Size::One),
        TEXT_2 => Mark::Text(Size::Two),
        TEXT_4 => Mark::Text(Size::Four),
        LIST => Mark::List(Size::One),
        LIST_2 => Mark::List(Size::Two),
        LIST_4 => Mark::List(Size::Four),
        DICT => Mark::Dict(Size::One),
        DICT_2 => Mark::Dict(Size::Two),
        DICT_4 => Mark::Dict(Size::Four),
        LEAST_SMALL..=0xFF => Mark::Small(i64::from(byte) - 256),
        _ => Mark::Bad,
    }
}
