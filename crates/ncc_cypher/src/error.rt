//! Why a source is no statement.

ghost use Rattle.std.specs.Prelude.{◌≡◌};
ghost use Rattle.ncc_cypher.specs.declared.error.ParseError.TheVariants.{Memory};

use std::alloc::AllocError;
use thiserror::Error;

/// What stands where a source goes wrong.
#[derive(Clone, Copy, Debug, PartialEq, Eq)]
pub enum SyntaxKind {
    /// The bytes there begin no token. So it is at the end too.
    BadToken,
    /// A token that no statement has there.
    Unexpected,
}

/// Why a source could not be parsed.
#[derive(Clone, Copy, Debug, PartialEq, Eq, Error)]
pub enum ParseError {
    /// The source is no statement. `at` is the byte of the first token that goes wrong, or the source's length.
    #[error("no statement from byte {at} on")]
    Syntax { at: u64, kind: SyntaxKind },
    /// Memory ran out.
    #[error("out of memory")]
    Memory,
}

impl From<AllocError> for ParseError {
    ghost from_gives = { λ _ e. e ≡ Memory };

    fn from(_e: AllocError) -> ParseError {
        ParseError::Memory
    }
}

/// Why reading stopped: `left` is how many bytes there are from the place on.
#[derive(Clone, Copy, Debug)]
pub(crate) enum Fault {
    Syntax { left: usize, kind: SyntaxKind },
    Memory,
}

impl From<AllocError> for Fault {
    ghost use Rattle.ncc_cypher.specs.declared.error.Fault.TheVariants as f;

    ghost from_gives = { λ _ e. e ≡ f.Memory };

    fn from(_e: AllocError) -> Fault {
        Fault::Memory
    }
}
