//! A graph store, and what the steps of a transaction do to it.
#![tactic(auto)]

mod call;
mod fault;
mod laws;
mod node;
mod overlay;
mod props;
mod ran;
mod rows;
mod run;
mod scalar;
mod step;
mod store;
mod sum;

pub use call::{Call, Calls};
pub use fault::{RunError, RunFault};
pub use laws::{
    ids_stay_placed, merges_once, next_never_falls, one_delta, one_list_a_call,
    reading_changes_nothing, rows_are_kept, runs_join, step_is_its_call,
};
pub use ncc_pack::Rows;
pub use node::{Ids, NodeList, StoredNode};
pub use overlay::Overlay;
pub use ran::{Delta, Ran, RowLists};
pub use rows::{MAX_ROW_BYTES, MAX_ROWS, MAX_ROWS_BYTES, rows_keep};
pub use step::{Step, Steps};
pub use store::Store;
