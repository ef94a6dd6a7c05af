//! What a read replica has of the history: a list of items that grows behind.
#![tactic(auto)]

mod replica;

pub use replica::{Replica, TakeError};
