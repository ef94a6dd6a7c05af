//! Waits for a place of the history, with a deadline.
#![tactic(auto)]

mod outcome_at;
mod outcomes;
mod parked;
mod room;
mod span;
mod tree;

pub use outcome_at::outcome;
pub use outcomes::Outcome;
pub use parked::Parked;
pub use room::{Room, first_is_lowest};
pub use std::alloc::AllocError as Memory;
