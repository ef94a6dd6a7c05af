//! Calls.

ghost use Rattle.std.specs.Prelude.{◌≡◌, IfOk};

use ncc_pack::{Copied, Dict, Memory, Sequence, Text};
use std::alloc::AllocError;

/// A source and its parameters, which need not be right: the source may spell no statement, and the parameters may not
/// fit. A step is made of a call whose source spells a statement and whose parameters fit.
#[derive(Debug, Drop)]
pub struct Call {
    /// The source of a statement.
    pub source: Text,
    /// The parameters.
    pub params: Dict,
}

/// A list of calls.
pub type Calls = Sequence<Call>;

impl Call {
    /// An equal call, on the same allocators.
    pub fn copy(&self) -> Result<Call, Memory>
        ensures same { IfOk result (λ c. c ≡ self.now) }
    {
        let source = self.source.copy()?;
        let params = self.params.copy()?;
        Ok(Call { source, params })
    }
}

impl Copied for Call {
    fn copy(&self) -> Result<Call, AllocError> {
        Call::copy(self)
    }
}
