//! Facts, as they are told.

use ncc_session::Fact;

/// A fact that a member told to a connection.
#[derive(Debug, Drop)]
pub struct Told {
    /// The line of the script in whose event it was told.
    pub line: u64,
    /// The number of the connection, from 1.
    pub conn: u64,
    /// The fact.
    pub fact: Fact,
}
