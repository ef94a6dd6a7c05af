//! Bytes.

ghost use Rattle.std.specs.Prelude.{◌≡◌, ◌++◌, ◌∷◌, [], length, take, IfOk, OnOk, OnErr, IsTrue, ◌↔◌};

use crate::element::{Compared, Copied};
use std::alloc::{AllocError, Global};
use std::marker::Model;

/// Bytes. A contract sees the list of them.
#[derive(Debug, Drop)]
pub struct Bytes {
    pub(crate) inner: Vec<u8>,
}

impl Model for Bytes {
    ghost use Rattle.std.specs.Prelude.{List, ℕ};

    ghost Value = { List ℕ };

    ghost view = { λ b. b.inner.items };
}

impl Bytes {
    /// No bytes. It takes no memory.
    pub fn new(alloc: Global) -> Bytes
        ensures empty { result ≡ [] }
    {
        Bytes {
            inner: Vec::new(alloc),
        }
    }

    /// The bytes of a `Vec`. It copies nothing and takes no memory.
    pub fn from_vec(inner: Vec<u8>) -> Bytes
        ensures same { result ≡ inner.items }
    {
        Bytes { inner }
    }

    /// The bytes as a `Vec`. It copies nothing and takes no memory.
    pub fn into_vec(self) -> Vec<u8>
        ensures same { result.items ≡ self }
    {
        let Bytes { inner } = self;
        inner
    }

    /// The bytes as a `Vec`; none are left here. It copies nothing and takes no memory.
    pub fn take(&mut self) -> Vec<u8>
        ensures taken { result.items ≡ self.old }
        ensures none { self.new ≡ [] }
    {
        let none = Vec::new(*self.inner.allocator());
        std::mem::replace(&mut self.inner, none)
    }

    /// A copy of these bytes.
    pub fn from_slice(alloc: Global, bytes: &[u8]) -> Result<Bytes, AllocError>
        ensures same { IfOk result (λ b. b ≡ bytes.now) }
    {
        let inner = Vec::from_slice(alloc, bytes)?;
        Ok(Bytes { inner })
    }

    /// The bytes as a slice.
    pub fn as_slice(&self) -> &[u8]
        ensures same { result.now ≡ self.now }
    {
        self.inner.as_slice()
    }

    /// The allocator that the bytes keep. It takes no memory.
    pub fn allocator(&self) -> Global {
        *self.inner.allocator()
    }

    /// How many bytes there are.
    pub fn len(&self) -> usize
        ensures length { result ≡ length self.now }
    {
        self.inner.len()
    }

    /// Says whether there are none.
    pub fn is_empty(&self) -> bool
        ensures exact { IsTrue result ↔ (self.now ≡ []) }
    {
        self.inner.is_empty()
    }

    /// Appends one byte. An `Err` changes nothing.
    pub fn push(&mut self, byte: u8) -> Result<(), AllocError>
        ensures ok { OnOk result (self.new ≡ self.old ++ byte ∷ []) }
        ensures err { OnErr result (self.new ≡ self.old) }
    {
        self.inner.push(byte)?;
        Ok(())
    }

    /// Appends these bytes. An `Err` changes nothing.
    pub fn extend(&mut self, more: &[u8]) -> Result<(), AllocError>
        ensures ok { OnOk result (self.new ≡ self.old ++ more.now) }
        ensures err { OnErr result (self.new ≡ self.old) }
    {
        self.inner.extend_from_slice(more)
    }

    /// Keeps the first bytes alone, so many of them, or all where there are no more. It takes no memory.
    pub fn truncate(&mut self, len: usize)
        ensures kept { self.new ≡ take len self.old }
    {
        self.inner.truncate(len);
    }

    /// An equal value, on the same allocator.
    pub fn copy(&self) -> Result<Bytes, AllocError>
        ensures equal { IfOk result (λ b. b ≡ self.now) }
    {
        Bytes::from_slice(*self.inner.allocator(), self.as_slice())
    }
    /// Says whether two are equal. It takes no memory.
    pub fn equals(&self, other: &Bytes) -> bool
        ensures exact { IsTrue result ↔ (self.now ≡ other.now) }
    {
        self.as_slice() == other.as_slice()
    }
}

impl Copied for Bytes {
    fn copy(&self) -> Result<Bytes, AllocError> {
        Bytes::copy(self)
    }
}

impl Compared for Bytes {
    fn equals(&self, other: &Bytes) -> bool {
        Bytes::equals(self, other)
    }
}
