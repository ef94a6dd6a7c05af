//! Which statements write.

ghost use Rattle.std.specs.Prelude.{◌≡◌};
ghost use Rattle.ncc_cypher.specs.Writing.{writes};

use crate::tree::{Change, Head, Statement};

impl Statement {
    /// Says whether the statement writes: exactly CREATE, MERGE, SET and DELETE do. It takes no memory.
    pub fn writes(&self) -> bool
        ensures exact { result ≡ writes self.now }
    {
        let makes = match &self.head {
            Head::Alone => false,
            Head::Create { .. } => true,
            Head::Find { .. } => false,
            Head::Merge { .. } => true,
        };
        let changes = match &self.change {
            Change::Keep => false,
            Change::Set(_) => true,
            Change::Delete => true,
        };
        makes || changes
    }
}
