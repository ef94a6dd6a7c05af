//! What a list needs of its elements, to be copied and compared.

ghost use Rattle.std.specs.Prelude.{◌≡◌, IfOk, IsTrue, ◌↔◌};

use std::alloc::AllocError;

/// What can be copied, so that a list of it can. The copy is equal.
pub trait Copied: Drop {
    /// An equal value, on the same allocators.
    fn copy(&self) -> Result<Self, AllocError>
        ensures equal { IfOk result (λ copy. copy ≡ self.now) };
}

/// What can be compared, so that a list of it can.
pub trait Compared {
    /// Says whether two values are equal. It takes no memory.
    fn equals(&self, other: &Self) -> bool
        ensures exact { IsTrue result ↔ (self.now ≡ other.now) };
}

impl<A: Copied, B: Copied> Copied for (A, B) {
    fn copy(&self) -> Result<(A, B), AllocError> {
        let first = self.0.copy()?;
        let second = self.1.copy()?;
        Ok((first, second))
    }
}

impl<A: Compared, B: Compared> Compared for (A, B) {
    fn equals(&self, other: &(A, B)) -> bool {
        self.0.equals(&other.0) && self.1.equals(&other.1)
    }
}
