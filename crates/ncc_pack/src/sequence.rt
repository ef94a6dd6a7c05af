//! Lists of any element.

ghost use Rattle.std.specs.Prelude.{◌≡◌, ◌++◌, ◌∷◌, [], length, IfOk, OnOk, OnErr, IsTrue, ◌↔◌};

use crate::element::{Compared, Copied};
use std::alloc::{AllocError, Global};
use std::marker::Model;

/// A list. A contract sees the list of its elements.
#[derive(Debug, Drop)]
pub struct Sequence<T> {
    inner: Vec<T>,
}

impl<T> Model for Sequence<T> {
    ghost use Rattle.std.specs.Prelude.{List};
    ghost use Rattle.std.specs.Coded.{coded_list};

    ghost Value = { List T };

    ghost coded = { coded_list T.code };

    ghost view = { λ s. s.inner.items };
}

impl<T> Sequence<T> {
    /// No elements. It takes no memory.
    pub fn new(alloc: Global) -> Sequence<T>
        ensures empty { result ≡ [] }
    {
        Sequence {
            inner: Vec::new(alloc),
        }
    }

    /// No elements, with room for so many.
    pub fn with_capacity(alloc: Global, capacity: usize) -> Result<Sequence<T>, AllocError>
        ensures empty { IfOk result (λ s. s ≡ []) }
    {
        let inner = Vec::with_capacity(alloc, capacity)?;
        Ok(Sequence { inner })
    }

    /// The elements of a `Vec`. It takes no memory.
    pub fn from_vec(inner: Vec<T>) -> Sequence<T>
        ensures same { result ≡ inner.items }
    {
        Sequence { inner }
    }

    /// The elements as a `Vec`. It takes no memory.
    pub fn into_vec(self) -> Vec<T>
        ensures same { result.items ≡ self }
    {
        let Sequence { inner } = self;
        inner
    }

    /// The elements as a slice.
    pub fn as_slice(&self) -> &[T]
        ensures same { result.now ≡ self.now }
    {
        self.inner.as_slice()
    }

    /// The allocator that the list keeps.
    pub fn allocator(&self) -> Global {
        *self.inner.allocator()
    }

    /// How many elements there are.
    pub fn len(&self) -> usize
        ensures length { result ≡ length self.now }
    {
        self.inner.len()
    }

    /// Says whether there are none.
    pub fn is_empty(&self) -> bool
        ensures exact { IsTrue result ↔ (self.now ≡ []) }
    {
        self.inner.is_empty()
    }
}

impl<T: Drop> Sequence<T> {
    /// Appends an element. An `Err` changes nothing and drops the element.
    pub fn push(&mut self, item: T) -> Result<(), AllocError>
        ensures ok { OnOk result (self.new ≡ self.old ++ item ∷ []) }
        ensures err { OnErr result (self.new ≡ self.old) }
    {
        self.inner.push(item)?;
        Ok(())
    }
}

impl<T: Copied> Sequence<T> {
    /// An equal list, on the same allocator.
    pub fn copy(&self) -> Result<Sequence<T>, AllocError>
        ensures equal { IfOk result (λ copy. copy ≡ self.now) }
    {
        let mut copy = Sequence::with_capacity(self.allocator(), self.len())?;
        for item in self.as_slice() {
            copy.push(item.copy()?)?;
        }
        Ok(copy)
    }
}

impl<T: Copied> Copied for Sequence<T> {
    fn copy(&self) -> Result<Sequence<T>, AllocError> {
        Sequence::copy(self)
    }
}

impl<T: Compared> Sequence<T> {
    /// Says whether two lists are equal: as long, and equal item by item. It takes no memory.
    pub fn equals(&self, other: &Sequence<T>) -> bool
        ensures exact { IsTrue result ↔ (self.now ≡ other.now) }
    {
        if self.len() != other.len() {
            return false;
        }
        let others = other.as_slice();
        for (i, item) in self.as_slice().iter().enumerate() {
            if !item.equals(&others[i]) {
                return false;
            }
        }
        true
    }
}

impl<T: Compared> Compared for Sequence<T> {
    fn equals(&self, other: &Sequence<T>) -> bool {
        Sequence::equals(self, other)
    }
}
