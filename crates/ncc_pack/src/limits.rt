//! The limits on sizes and on nesting.

/// The greatest size of a text, of bytes, of a list and of a dictionary.
pub const MAX_SIZE: usize = 16_777_216;

/// How many lists, dictionaries and nodes may stand inside one another.
pub const MAX_DEPTH: u8 = 32;
