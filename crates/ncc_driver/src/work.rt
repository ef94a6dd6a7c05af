//! A work: the function that a session runs in transactions.

ghost use Rattle.std.specs.Prelude.{◌≡◌, List, ◌++◌, ◌∷◌, [], Bool, IfOk, IfSome, IfNone, OnErr, IsTrue};
ghost use Rattle.std.specs.List.{list_all};
ghost use Rattle.ncc_pack.specs.declared.value.Value.{Value};
ghost use Rattle.ncc_driver.specs.Work.{Row, rows_fit, step_fits};
ghost use Rattle.ncc_driver.specs.declared.work.WorkStep.{WorkStep};

use ncc_pack::{Dict, Memory, Rows, Text};

/// What a work does next in its transaction.
#[derive(Drop)]
pub enum WorkStep {
    /// Runs a statement, and is told its rows.
    Run {
        /// The statement.
        query: Text,
        /// The values of its parameters.
        params: Dict,
    },
    /// Commits.
    Commit,
}

/// A work: it says step by step what to run, by the rows of the steps before. It may be run again from its start, and need not
/// keep the rows that it was told.
pub trait Work {
    /// Whether it writes.
    ghost writing: { Self → Bool };

    /// The step behind each list of rows, one item for each step before.
    ghost steps: { Self → List (List Row) → WorkStep };

    /// The work stands behind this list of rows.
    ghost stands: { Self → List (List Row) → Type 0 };

    /// Goes back to before the first step. It takes no memory.
    fn start(&mut self)
        ensures stands { stands self.new [] }
        ensures writing { writing self.new ≡ writing self.old }
        ensures steps { steps self.new ≡ steps self.old };

    /// Says whether it writes. It takes no memory.
    fn writes(&self) -> bool
        ensures exact { result ≡ writing self.now };

    /// The next step, by the rows of the step before, if there was one. An `Err` changes nothing.
    fn next(&mut self, rows: Option<&Rows>) -> Result<WorkStep, Memory>
        ensures ok { (told : List (List Row)) → stands self.old told
            → IfNone rows.entry (IfOk result (λ step. step ≡ steps self.old told)) }
        ensures stays { (told : List (List Row)) → stands self.old told
            → IfNone rows.entry (IfOk result (λ _. stands self.new told)) }
        // With rows it stands behind one step more.
        ensures ok_behind { (told : List (List Row)) → stands self.old told
            → IfSome rows.entry (λ r. IfOk result (λ step. step ≡ steps self.old (told ++ r.now ∷ []))) }
        ensures goes_on { (told : List (List Row)) → stands self.old told
            → IfSome rows.entry (λ r. IfOk result (λ _. stands self.new (told ++ r.now ∷ []))) }
        ensures writing { writing self.new ≡ writing self.old }
        ensures steps { steps self.new ≡ steps self.old }
        ensures err { OnErr result (self.new ≡ self.old) };

    /// Where all the rows fit, the step fits.
    ghost fitting: { (work : Self) (told : List (List Row)) → IsTrue (list_all rows_fit told) → IsTrue (step_fits (steps work told)) };
}
