//! One step of a core of the cluster: Raft, by Figure 2 of the extended Raft paper.
#![tactic(auto)]

mod appending;
mod carry;
mod election;
mod follow;
mod law;
mod logs;
mod member;
mod message;
mod slots;
mod stand;
mod state;
mod steps;

pub use law::{may_be_saved, never_goes_back, notes_alone, sends_carried, stays_sound};
pub use logs::{Clash, first_conflict};
pub use member::Core;
pub use message::{Body, Envelope, Envelopes, Note, ProposeError, RaftRole, Step};
pub use ncc_tx::{ChangeSet, Entries, Item, Saved};
