//! Routing tables: where a client finds the members that take writes, that answer reads, and that tell the table.
#![tactic(auto)]

mod auth;
mod members;
mod table;

pub use auth::Auth;
pub use members::Members;
pub use table::{NoServer, Role, Table, table_of};
