//! A client's side of sessions: a machine that is told what happened and says what to do. It finds the leader, carries the bookmark, and
//! runs a work again where an attempt fails.
#![tactic(auto)]

mod action;
mod answers;
mod attempt;
mod config;
mod ends;
mod hear;
mod laws;
mod link;
mod requests;
mod rows;
mod session;
mod standing;
mod turn;
mod work;
mod works;

pub use action::{Action, Input, Last, WorkDone, WorkError};
pub use config::SessionConfig;
pub use laws::{
    cuts_change_only_receives, ends_exactly, presents_last, tells_by_grammar, waits_by_last,
    waits_exactly, worked_runs, worked_works,
};
pub use ncc_route::{Auth, Role};
pub use rows::{row_text, rows_fit};
pub use session::Session;
pub use work::{Work, WorkStep};
pub use works::{Add, Get, Put};
