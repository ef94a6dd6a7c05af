//! The journal: what a member keeps, on a disk that may stop in any call.
#![tactic(auto)]

mod error;
mod header;
mod journal;
mod law;
mod open;
mod payload;
mod records;
mod steps;
mod window;

pub use error::{JournalError, Unopened};
pub use journal::Journal;
pub use law::{
    one_part, one_refusal, part_may_be_kept, part_or_refusal, record_stands, stopped_save,
    worked_journal, worked_stops,
};
pub use ncc_tx::{ChangeSet, Entries, Item, Saved, payload_len};
