//! A server's side of a client's session: Bolt bytes made of Bolt bytes and told facts.
#![tactic(auto)]

mod ask;
mod checks;
mod config;
mod conn;
mod facts;
mod fit;
mod laws;
mod messages;
mod phase;
mod pulls;
mod refusal;
mod reply;
mod requests;
mod state;
mod stream;
mod table;
mod transactions;

pub use ask::{Ask, Fact};
pub use config::ConnConfig;
pub use conn::Conn;
pub use laws::{any_calls, asks_in_turn, never_for_memory, shakes_until_whole};
pub use ncc_route::Auth;
pub use state::{ConnState, ConnStop};
pub use transactions::any_questions;
