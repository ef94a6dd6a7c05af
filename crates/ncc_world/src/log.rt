//! The one list.

ghost use Rattle.std.specs.Prelude.{◌≡◌, ◌++◌, ◌∷◌, [], length, OnOk, OnErr, IsTrue};
ghost use Rattle.ncc_tx.specs.Items.{entry_allowed};
ghost use Rattle.ncc_world.specs.Spellable.{AllAllowed};

use ncc_pack::{Memory, Sequence};
use ncc_tx::{Entries, Item};
use std::alloc::Global;
use std::marker::Model;

/// Entries, each of which may stand in a log. A contract sees the list of them.
#[derive(Drop)]
pub(crate) struct Log {
    items: Entries,
}

impl Model for Log {
    ghost use Rattle.std.specs.Prelude.{List};
    ghost use Rattle.ncc_tx.specs.declared.entry.Item.{Item};
    ghost use Rattle.ncc_world.specs.Spellable.{AllAllowed};

    ghost Value = { List Item };

    ghost use Rattle.std.specs.Coded.{codes};
    ghost use Rattle.ncc_pack.specs.contracts.value.Value as e;

    ghost coded = { Prim.hlevel (codes, e.the_row.coded) };

    ghost view = { λ l. l.items };

    ghost invariant = { λ l. AllAllowed l.items };
}

impl Log {
    /// No entries. It takes no memory.
    pub(crate) fn new(alloc: Global) -> Log
        ensures empty { result ≡ [] }
    {
        Log {
            items: Sequence::new(alloc),
        }
    }

    /// Appends an entry that may stand there. An `Err` changes nothing.
    pub(crate) fn push(&mut self, item: Item) -> Result<(), Memory>
        requires allowed { IsTrue (entry_allowed item.entry) }
        ensures ok { OnOk result (self.new ≡ self.old ++ item ∷ []) }
        ensures err { OnErr result (self.new ≡ self.old) }
    {
        self.items.push(item)?;
        Ok(())
    }

    /// How many there are.
    pub(crate) fn len(&self) -> usize
        ensures length { result ≡ length self.now }
    {
        self.items.len()
    }

    /// The entries.
    pub(crate) fn entries(&self) -> &Entries
        ensures same { result.now ≡ self.now }
        ensures allowed { AllAllowed result.now }
    {
        &self.items
    }
}
