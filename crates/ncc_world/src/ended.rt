//! The works that have ended.

ghost use Rattle.std.specs.Prelude.{◌≡◌, ◌++◌, ◌∷◌, [], OnOk, OnErr, IsTrue};
ghost use Rattle.ncc_driver.specs.Fitting.{end_fits};
ghost use Rattle.ncc_world.specs.Spellable.{WorksFit};

use crate::seen::{WorkList, WorkSeen};
use ncc_pack::{Memory, Sequence};
use std::alloc::Global;
use std::marker::Model;

/// Works that have ended, the first first, whose rows fit, and whose bookmarks and codes have a spelling. A contract sees the list of them.
#[derive(Drop)]
pub(crate) struct Ended {
    works: WorkList,
}

impl Model for Ended {
    ghost use Rattle.std.specs.Prelude.{List};
    ghost use Rattle.ncc_world.specs.declared.seen.WorkSeen.{WorkSeen};
    ghost use Rattle.ncc_world.specs.Spellable.{WorksFit};

    ghost Value = { List WorkSeen };

    ghost use Rattle.std.specs.Coded.{codes};
    ghost use Rattle.ncc_pack.specs.contracts.value.Value as e;

    ghost coded = { Prim.hlevel (codes, e.the_row.coded) };

    ghost view = { λ t. t.works };

    ghost invariant = { λ t. WorksFit t.works };
}

impl Ended {
    /// None has ended. It takes no memory.
    pub(crate) fn new(alloc: Global) -> Ended
        ensures empty { result ≡ [] }
    {
        Ended {
            works: Sequence::new(alloc),
        }
    }

    /// One work more has ended. An `Err` changes nothing.
    pub(crate) fn push(&mut self, work: WorkSeen) -> Result<(), Memory>
        requires fits { IsTrue (end_fits work.result) }
        ensures ok { OnOk result (self.new ≡ self.old ++ work ∷ []) }
        ensures err { OnErr result (self.new ≡ self.old) }
    {
        self.works.push(work)?;
        Ok(())
    }

    /// All of them.
    pub(crate) fn works(&self) -> &WorkList
        ensures same { result.now ≡ self.now }
        ensures fit { WorksFit result.now }
    {
        &self.works
    }
}
