//! What is kept of the steps of a transaction that is open.

use ncc_store::Delta;

/// What steps left that ran over the store behind so many entries.
#[derive(Debug, Drop)]
pub(crate) struct Earlier {
    pub(crate) at: u64,
    pub(crate) delta: Delta,
}
