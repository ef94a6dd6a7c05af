//! Bookmarks: places of a cluster's history, as clients carry them from one member to another.
#![tactic(auto)]

mod bookmark;
mod laws;

pub use bookmark::{Bookmark, BookmarkError, need};
pub use laws::{named_is_spelled, one_text};
