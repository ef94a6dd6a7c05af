//! Text in UTF-8.

ghost use Rattle.std.specs.Prelude.{◌≡◌, ◌++◌, [], length, IfOk, OnOk, OnErr, IsTrue, ◌↔◌};

use crate::element::{Compared, Copied};
use crate::sequence::Sequence;
use std::alloc::{AllocError, Global};
use std::marker::Model;

/// A text in UTF-8. A contract sees the list of its bytes.
#[derive(Debug, Drop)]
pub struct Text {
    inner: String,
}

/// A list of texts, such as the arguments of a program. A contract sees the list of their bytes.
pub type Words = Sequence<Text>;

impl Model for Text {
    ghost use Rattle.std.specs.Prelude.{List, ℕ};
    ghost use Rattle.std.specs.String.{string_bytes};

    ghost Value = { List ℕ };

    ghost view = { λ t. string_bytes t.inner };
}

impl Text {
    /// The empty text. It takes no memory.
    pub fn new(alloc: Global) -> Text
        ensures empty { result ≡ [] }
    {
        Text {
            inner: String::new(alloc),
        }
    }

    /// A copy of this text.
    pub fn from_str(alloc: Global, text: &str) -> Result<Text, AllocError>
        ensures same { IfOk result (λ t. t ≡ text.now) }
    {
        let inner = String::from_str(alloc, text)?;
        Ok(Text { inner })
    }

    /// The text as a `str`.
    pub fn as_str(&self) -> &str
        ensures same { result.now ≡ self.now }
    {
        self.inner.as_str()
    }

    /// Its length in bytes.
    pub fn len(&self) -> usize
        ensures length { result ≡ length self.now }
    {
        self.inner.len()
    }

    /// Says whether it has no byte.
    pub fn is_empty(&self) -> bool
        ensures exact { IsTrue result ↔ (self.now ≡ []) }
    {
        self.inner.is_empty()
    }

    /// Appends a text. An `Err` changes nothing.
    pub fn push_str(&mut self, more: &str) -> Result<(), AllocError>
        ensures ok { OnOk result (self.new ≡ self.old ++ more.now) }
        ensures err { OnErr result (self.new ≡ self.old) }
    {
        self.inner.push_str(more)
    }

    /// An equal value, on the same allocator.
    pub fn copy(&self) -> Result<Text, AllocError>
        ensures equal { IfOk result (λ t. t ≡ self.now) }
    {
        Text::from_str(*self.inner.allocator(), self.as_str())
    }
    /// Says whether two are equal. It takes no memory.
    pub fn equals(&self, other: &Text) -> bool
        ensures exact { IsTrue result ↔ (self.now ≡ other.now) }
    {
        self.as_str() == other.as_str()
    }
}

impl Copied for Text {
    fn copy(&self) -> Result<Text, AllocError> {
        Text::copy(self)
    }
}

impl Compared for Text {
    fn equals(&self, other: &Text) -> bool {
        Text::equals(self, other)
    }
}
