//! One work of a client: the words say which, a session of a driver says what to do, and links do it.
#![tactic(auto)]

mod line;
mod links;
mod status;
mod words;
mod working;

pub use line::done_line;
pub use links::Links;
pub use status::{ClientStatus, status_number};
pub use working::work;
