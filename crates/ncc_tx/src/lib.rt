//! Entries of a history: when one is valid, what it does to a store, its one spelling, and what members keep of it.
#![tactic(auto)]

mod entry;
mod field;
mod items;
mod kept;
mod read;
mod shape;
mod stamp;
mod validity;
mod write;

pub use entry::{ChangeSet, Entries, Entry, EntryError, Item, Saved, copy_entries, copy_items};
pub use field::{ItemError, ItemField};
pub use items::{
    item_len, item_within, items_len, items_within, one_item, one_list, payload_len, read_item,
};
pub use kept::{
    MAX_ITEMS, MAX_VOTE, TERM_LIMIT, change_leads, kept_on, leads_on, one_change, same_terms,
    term_at, terms_part,
};
pub use read::{entry_of, one_spelling};
pub use stamp::{Stamp, stamp_item, stamps_grow};
pub use validity::{absorb, equal_is_same, state_grows, valid, valid_means};
pub use write::{
    MAX_ENTRY, entry_allowed, entry_bytes, entry_fits, entry_len, entry_within, noop_allowed,
};
