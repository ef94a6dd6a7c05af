//! Who a client says that it is.

ghost use Rattle.std.specs.Prelude.{◌≡◌, IfOk};

use ncc_pack::Text;
use std::alloc::AllocError;

/// What a client shows of itself when it connects (Bolt 4.4, HELLO, the schemes "none" and "basic"). It is not
/// printed, since it may hold a password.
#[derive(Drop)]
pub enum Auth {
    /// Nothing.
    Nobody,
    /// A name and its password.
    Basic {
        /// The name.
        user: Text,
        /// The password.
        password: Text,
    },
}

impl Auth {
    /// An equal value, on the same allocators.
    pub fn copy(&self) -> Result<Auth, AllocError>
        ensures equal { IfOk result (λ copy. copy ≡ self.now) }
    {
        match self {
            Auth::Nobody => Ok(Auth::Nobody),
            Auth::Basic { user, password } => Ok(Auth::Basic {
                user: user.copy()?,
                password: password.copy()?,
            }),
        }
    }
}
