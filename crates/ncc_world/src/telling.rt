//! The facts that were told.

ghost use Rattle.std.specs.Prelude.{◌≡◌, ◌++◌, ◌∷◌, [], OnOk, OnErr, IsTrue};
ghost use Rattle.ncc_world.specs.Spellable.{AllFit, rows_fit};

use crate::seen::ToldList;
use ncc_clients::Told;
use ncc_pack::{Memory, Sequence};
use std::alloc::Global;
use std::marker::Model;

/// Facts that were told, the first first, whose rows keep the limits of one step. A contract sees the list of them.
#[derive(Drop)]
pub(crate) struct Telling {
    facts: ToldList,
}

impl Model for Telling {
    ghost use Rattle.std.specs.Prelude.{List};
    ghost use Rattle.ncc_clients.specs.declared.told.Told.{Told};
    ghost use Rattle.ncc_world.specs.Spellable.{AllFit};

    ghost Value = { List Told };

    ghost use Rattle.std.specs.Coded.{codes};
    ghost use Rattle.ncc_pack.specs.contracts.value.Value as e;

    ghost coded = { Prim.hlevel (codes, e.the_row.coded) };

    ghost view = { λ t. t.facts };

    ghost invariant = { λ t. AllFit t.facts };
}

impl Telling {
    /// Nothing was told. It takes no memory.
    pub(crate) fn new(alloc: Global) -> Telling
        ensures empty { result ≡ [] }
    {
        Telling {
            facts: Sequence::new(alloc),
        }
    }

    /// One fact more was told. An `Err` changes nothing.
    pub(crate) fn push(&mut self, told: Told) -> Result<(), Memory>
        requires fits { IsTrue (rows_fit told.fact) }
        ensures ok { OnOk result (self.new ≡ self.old ++ told ∷ []) }
        ensures err { OnErr result (self.new ≡ self.old) }
    {
        self.facts.push(told)?;
        Ok(())
    }

    /// All of them.
    pub(crate) fn facts(&self) -> &ToldList
        ensures same { result.now ≡ self.now }
        ensures fit { AllFit result.now }
    {
        &self.facts
    }
}
