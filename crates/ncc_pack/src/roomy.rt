//! Lists that make room first, and then take items without an answer for memory.

ghost use Rattle.std.specs.Prelude.{◌≡◌, ◌≤◌, ◌<◌, ◌+◌, ◌++◌, ◌∷◌, [], length, take, min, IfOk, OnOk, OnErr, IsTrue, ◌↔◌};
ghost use Rattle.ncc_pack.specs.Limits.{ahead};

use crate::sequence::Sequence;
use std::alloc::{AllocError, Global};
use std::marker::Model;

// How many items a list gets room for before its first one is read: few, whatever its size says.
const AHEAD: usize = 16;

/// A list with room for more items. Where all room is made first, nothing that is put is refused. A contract sees the
/// items, and for how many more there is room.
#[derive(Debug, Drop)]
pub struct Roomy<T> {
    inner: Vec<T>,
}

impl<T> Model for Roomy<T> {
    ghost use Rattle.std.specs.Prelude.{◌-◌, vec_len, vec_capacity};
    ghost use Rattle.ncc_pack.specs.Stock.{Stock, stock_code};

    ghost Value = { Stock T };

    ghost coded = { stock_code T.code };

    ghost view = { λ r. record { items = r.inner.items; room = vec_capacity r.inner - vec_len r.inner } };
}

impl<T> Roomy<T> {
    /// No items. It takes no memory.
    pub fn new(alloc: Global) -> Roomy<T>
        ensures empty { result.items ≡ [] }
    {
        Roomy {
            inner: Vec::new(alloc),
        }
    }

    /// No items, with room for what a size says, and for 16 at most: so a size alone takes little memory.
    pub fn ahead(alloc: Global, size: usize) -> Result<Roomy<T>, AllocError>
        ensures empty { IfOk result (λ r. r.items ≡ []) }
        ensures bounded { IfOk result (λ r. r.room ≡ min size ahead) }
    {
        let inner = Vec::with_capacity(alloc, size.min(AHEAD))?;
        Ok(Roomy { inner })
    }

    /// The items of a list. It copies nothing and takes no memory.
    pub fn from_sequence(items: Sequence<T>) -> Roomy<T>
        ensures same { result.items ≡ items }
    {
        Roomy {
            inner: items.into_vec(),
        }
    }

    /// The items as a list. It copies nothing and takes no memory.
    pub fn into_sequence(self) -> Sequence<T>
        ensures same { result ≡ self.items }
    {
        let Roomy { inner } = self;
        Sequence::from_vec(inner)
    }

    /// The items as a slice.
    pub fn as_slice(&self) -> &[T]
        ensures same { result.now ≡ self.now.items }
    {
        self.inner.as_slice()
    }

    /// How many items there are.
    pub fn len(&self) -> usize
        ensures length { result ≡ length self.now.items }
    {
        self.inner.len()
    }

    /// Says whether there are none.
    pub fn is_empty(&self) -> bool
        ensures exact { IsTrue result ↔ (self.now.items ≡ []) }
    {
        self.inner.is_empty()
    }

    /// For how many more items there is room.
    pub fn room(&self) -> usize
        ensures room { result ≡ self.now.room }
    {
        self.inner.capacity() - self.inner.len()
    }

    /// Makes room for so many more items. An `Err` changes nothing.
    pub fn reserve(&mut self, more: usize) -> Result<(), AllocError>
        ensures items { self.new.items ≡ self.old.items }
        ensures ok { OnOk result (more ≤ self.new.room) }
        ensures kept { self.old.room ≤ self.new.room }
        ensures err { OnErr result (self.new ≡ self.old) }
        ensures refused { OnErr result (self.old.room < more) }
    {
        self.inner.reserve(more)
    }

    /// Appends an item, for which there has to be room. It takes no memory.
    pub fn put(&mut self, item: T)
        requires room { 0 < self.old.room }
        ensures items { self.new.items ≡ self.old.items ++ item ∷ [] }
        ensures room { self.new.room + 1 ≡ self.old.room }
    {
        self.inner.push_reserved(item);
    }
}

impl<T: Drop> Roomy<T> {
    /// Appends an item. An `Err` leaves the items and drops this one; it comes only where there was no room.
    pub fn push(&mut self, item: T) -> Result<(), AllocError>
        ensures ok { OnOk result (self.new.items ≡ self.old.items ++ item ∷ []) }
        ensures err { OnErr result (self.new.items ≡ self.old.items) }
        ensures full { OnErr result (self.old.room ≡ 0) }
    {
        self.inner.push(item)?;
        Ok(())
    }

    /// Keeps the first items alone, so many of them, or all where there are no more. It takes no memory, and what is
    /// dropped leaves room.
    pub fn truncate(&mut self, len: usize)
        ensures items { self.new.items ≡ take len self.old.items }
        ensures room { length self.new.items + self.new.room ≡ length self.old.items + self.old.room }
    {
        self.inner.truncate(len);
    }
}
