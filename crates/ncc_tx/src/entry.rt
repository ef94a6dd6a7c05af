//! Entries of a history, and what members keep of it.

ghost use Rattle.std.specs.Prelude.{◌≡◌, IfOk};
ghost use Rattle.ncc_tx.specs.declared.entry.EntryError.TheVariants.{Memory};

use ncc_pack::{Copied, PackError, Sequence};
use ncc_store::{RowLists, Steps};
use std::alloc::{AllocError, Global};
use thiserror::Error;

/// An entry of a history.
#[derive(Debug, Drop)]
pub enum Entry {
    /// Nothing. A new leader begins its term with one.
    Noop,
    /// A transaction.
    Tx {
        /// What it does, step by step.
        steps: Steps,
        /// The rows that its client was told, one list for each step.
        told: RowLists,
    },
}

/// An entry at its place, with the term in which it was proposed.
#[derive(Debug, Drop)]
pub struct Item {
    /// The term of the leader that proposed it.
    pub term: u64,
    /// What it says.
    pub entry: Entry,
}

/// A list of items. The item at place 1 is the first.
pub type Entries = Sequence<Item>;

/// What a member keeps over a crash.
#[derive(Debug, Drop)]
pub struct Saved {
    /// The greatest term that it knows.
    pub term: u64,
    /// The member that it voted for in this term; 0 for nobody.
    pub vote: u8,
    /// Its log.
    pub log: Entries,
}

/// A change of what a member keeps.
#[derive(Debug, Drop)]
pub struct ChangeSet {
    /// The new term.
    pub term: u64,
    /// The new vote.
    pub vote: u8,
    /// How many items of the log stay, from its first on.
    pub keep: u64,
    /// The items that come behind them.
    pub items: Entries,
}

/// Why bytes are no entry.
#[derive(Clone, Copy, Debug, PartialEq, Eq, Error)]
pub enum EntryError {
    /// The bytes begin with no value. That memory ran out is not said so.
    #[error("{0}")]
    Pack(PackError),
    /// They are another value than an entry's, or not its one spelling, or more follows.
    #[error("another shape than that of an entry")]
    BadShape,
    /// A source does not parse. `step` is the number of the first such step, from 0.
    #[error("no statement at step {step}")]
    BadStatement { step: u64 },
    /// Out of memory.
    #[error("out of memory")]
    Memory,
}

impl From<AllocError> for EntryError {
    ghost from_gives = { λ _ e. e ≡ Memory };

    fn from(_e: AllocError) -> EntryError {
        EntryError::Memory
    }
}

impl Entry {
    /// An equal entry, on the same allocators.
    pub fn copy(&self) -> Result<Entry, AllocError>
        ensures equal { IfOk result (λ e. e ≡ self.now) }
    {
        match self {
            Entry::Noop => Ok(Entry::Noop),
            Entry::Tx { steps, told } => {
                let steps = steps.copy()?;
                let told = told.copy()?;
                Ok(Entry::Tx { steps, told })
            }
        }
    }
}

impl Item {
    /// An equal item, on the same allocators.
    pub fn copy(&self) -> Result<Item, AllocError>
        ensures equal { IfOk result (λ i. i ≡ self.now) }
    {
        let entry = self.entry.copy()?;
        Ok(Item {
            term: self.term,
            entry,
        })
    }
}

impl Copied for Item {
    fn copy(&self) -> Result<Item, AllocError> {
        Item::copy(self)
    }
}

/// Equal items.
pub fn copy_items(alloc: Global, items: &[Item]) -> Result<Entries, AllocError>
    ensures equal { IfOk result (λ copy. copy ≡ items.now) }
{
    let mut copy = Sequence::new(alloc);
    for item in items {
        copy.push(item.copy()?)?;
    }
    Ok(copy)
}

/// Equal items, on the same allocators.
pub fn copy_entries(items: &Entries) -> Result<Entries, AllocError>
    ensures equal { IfOk result (λ copy. copy ≡ items.now) }
{
    items.copy()
}

impl Saved {
    /// An equal value, on the same allocators.
    pub fn copy(&self) -> Result<Saved, AllocError>
        ensures equal { IfOk result (λ s. s ≡ self.now) }
    {
        let log = self.log.copy()?;
        Ok(Saved {
            term: self.term,
            vote: self.vote,
            log,
        })
    }
}

impl ChangeSet {
    /// An equal value, on the same allocators.
    pub fn copy(&self) -> Result<ChangeSet, AllocError>
        ensures equal { IfOk result (λ c. c ≡ self.now) }
    {
        let items = self.items.copy()?;
        Ok(ChangeSet {
            term: self.term,
            vote: self.vote,
            keep: self.keep,
            items,
        })
    }
}
