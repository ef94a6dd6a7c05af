//! The items of a frame.

/// How many items stand behind the fields of a frame, and which terms they may have: from a least to a greatest one, and where
/// they rise none below the one before it.
#[derive(Clone, Copy)]
pub(crate) struct Listing {
    pub(crate) count: u32,
    pub(crate) rising: bool,
    pub(crate) least: u64,
    pub(crate) greatest: u64,
}
