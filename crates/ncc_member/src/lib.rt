//! A core with its journal: what a step changes is on the disk before anything of the step is handed out.
#![tactic(auto)]

mod event;
mod node;
mod opening;
mod room;
mod turn;

pub use event::{NodeError, NodeEvent, NodeOut};
pub use ncc_log::{JournalError, Unopened};
pub use node::Node;
