//! The fields of an item's spelling, and why bytes are no item.

ghost use Rattle.std.specs.Prelude.{◌≡◌};
ghost use Rattle.ncc_tx.specs.Fields.{offset};
ghost use Rattle.ncc_tx.specs.declared.field.ItemError.TheVariants.{Memory};

use std::alloc::AllocError;
use thiserror::Error;

/// A field of the spelling of an item, in their order.
#[derive(Clone, Copy, Debug, PartialEq, Eq, Error)]
pub enum ItemField {
    /// Eight bytes.
    #[error("the term of an item")]
    Term,
    /// The number of the entry's bytes, in four.
    #[error("the size of an item's entry")]
    Size,
    /// The spelling of the entry.
    #[error("the entry of an item")]
    Entry,
}

impl ItemField {
    /// How many bytes of an item stand before this field.
    pub fn offset(self) -> usize
        ensures place { result ≡ offset self }
    {
        match self {
            ItemField::Term => 0,
            ItemField::Size => 8,
            ItemField::Entry => 12,
        }
    }
}

/// Why bytes begin with no item.
#[derive(Clone, Copy, Debug, PartialEq, Eq, Error)]
pub enum ItemError {
    /// The first field that is wrong.
    #[error("wrong: {0}")]
    Wrong(ItemField),
    /// Out of memory.
    #[error("out of memory")]
    Memory,
}

impl From<AllocError> for ItemError {
    ghost from_gives = { λ _ e. e ≡ Memory };

    fn from(_e: AllocError) -> ItemError {
        ItemError::Memory
    }
}
