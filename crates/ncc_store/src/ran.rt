//! What a run gives.

ghost use Rattle.std.specs.Prelude.{◌≡◌, IfOk};

use crate::node::{Ids, NodeList, copy_ids};
use ncc_pack::{Memory, Rows, Sequence};

/// One list of rows for each step.
pub type RowLists = Sequence<Rows>;

/// What steps changed of a store.
#[derive(Debug, Drop)]
pub struct Delta {
    /// The store's next id after the steps.
    pub next: i64,
    /// The nodes that were made or changed, as they are now, by ascending id.
    pub put: NodeList,
    /// The ids of the nodes that were removed, ascending.
    pub gone: Ids,
}

/// What a run gives.
#[derive(Debug, Drop)]
pub struct Ran {
    /// One list of rows for each step.
    pub rows: RowLists,
    /// What the steps changed.
    pub delta: Delta,
}

impl Delta {
    /// An equal value, on the same allocators.
    pub fn copy(&self) -> Result<Delta, Memory>
        ensures same { IfOk result (λ copy. copy ≡ self.now) }
    {
        Ok(Delta {
            next: self.next,
            put: self.put.copy()?,
            gone: copy_ids(&self.gone)?,
        })
    }
}

impl Ran {
    /// An equal value, on the same allocators.
    pub fn copy(&self) -> Result<Ran, Memory>
        ensures same { IfOk result (λ copy. copy ≡ self.now) }
    {
        Ok(Ran {
            rows: self.rows.copy()?,
            delta: self.delta.copy()?,
        })
    }
}
