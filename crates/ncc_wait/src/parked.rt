//! Who waits.

/// A connection that waits for a place of the history, with its deadline.
#[derive(Clone, Copy, Debug, PartialEq, Eq)]
pub struct Parked {
    /// The number of the connection.
    pub conn: u64,
    /// The place that it waits for.
    pub need: u64,
    /// The last moment at which it is not late, in milliseconds.
    pub deadline: u64,
}
