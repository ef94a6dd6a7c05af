//! What a member shows of the history that it has applied.
#![tactic(auto)]

mod runs;
mod shelf;
mod view;

pub use ncc_tx::Stamp;
pub use shelf::Shelf;
pub use view::{View, one_meaning, stamps_stay};
