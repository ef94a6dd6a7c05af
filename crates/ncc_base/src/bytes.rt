//! Bytes that a disk hands out.

ghost use Rattle.std.specs.Prelude.{◌≡◌, length, IsTrue, ◌↔◌, []};

use std::marker::Model;

/// Bytes that were read from a disk. A contract sees the list of them.
#[derive(Debug, Drop)]
pub struct Bytes {
    inner: Vec<u8>,
}

impl Model for Bytes {
    ghost use Rattle.std.specs.Prelude.{List, ℕ};

    ghost Value = { List ℕ };

    ghost view = { λ b. b.inner.items };
}

impl Bytes {
    /// The bytes of a `Vec`. It takes no memory.
    pub fn from_vec(inner: Vec<u8>) -> Bytes
        ensures value { result ≡ inner.items }
    {
        Bytes { inner }
    }

    /// The bytes as a `Vec`. It takes no memory.
    pub fn into_vec(self) -> Vec<u8>
        ensures value { result.items ≡ self }
    {
        let Bytes { inner } = self;
        inner
    }

    /// The bytes as a slice.
    pub fn as_slice(&self) -> &[u8]
        ensures value { result.now ≡ self.now }
    {
        self.inner.as_slice()
    }

    /// How many bytes there are.
    pub fn len(&self) -> usize
        ensures value { result ≡ length self.now }
    {
        self.inner.len()
    }

    /// Says whether there are none.
    pub fn is_empty(&self) -> bool
        ensures value { IsTrue result ↔ (self.now ≡ []) }
    {
        self.inner.is_empty()
    }
}
