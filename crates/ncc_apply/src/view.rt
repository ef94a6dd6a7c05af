//! What is shown of a history, however it is kept.

ghost use Rattle.std.specs.Prelude.{◌≡◌, ℕ, ◌+◌, ◌≤◌, ◌↔◌, List, [], ◌∷◌, ◌++◌, length, map, Some, IfOk, IsSome};
ghost use Rattle.ncc_store.specs.Answers.{Gives};
ghost use Rattle.ncc_store.specs.Delta.{IsLeast, IsOver, applied};
ghost use Rattle.ncc_store.specs.Exec.{call_of, exec};
ghost use Rattle.ncc_tx.specs.declared.entry.Item.{Item};
ghost use Rattle.ncc_tx.specs.State.{stamp_at, stamps, state};
ghost use Rattle.ncc_apply.specs.View.{Alike, stamp_of};

use ncc_store::{Ran, RunError, Steps};
use ncc_tx::{Stamp, stamps_grow};
use std::alloc::Global;

/// A list of items, of which the length, the stamps and the store that they leave are shown. The items themselves may be gone.
pub trait View {
    /// It stands for this list. What is shown is that of each list that it stands for.
    ghost stands: { Self → List Item → Type 0 };

    /// How many items there are. It takes no memory.
    fn at(&self) -> u64
        ensures length { (h : List Item) → stands self.now h → result ≡ length h };

    /// The stamp of a place: none at 0, where the first item is at 1, and none past the last. It takes no memory.
    fn stamp(&self, place: u64) -> Option<Stamp>
        ensures stamp { (h : List Item) → stands self.now h → result ≡ stamp_of place (stamps h) }
        ensures there { (h : List Item) → stands self.now h → IsSome result ↔ ((1 ≤ place) × (place ≤ length h)) };

    /// Runs steps over the store that the items leave, and changes nothing. It gives one list of rows for each step, and
    /// what the steps would change, or the first fault.
    fn run(&self, alloc: Global, steps: &Steps) -> Result<Ran, RunError>
        // The rows and the store after the last step, or the first fault, are those of the calls over that store.
        ensures exact { (h : List Item) → stands self.now h →
            Gives (λ r. record { rows = r.rows; graph = applied r.delta (state h) }) result (exec (state h) (map call_of steps.now)) }
        // What the steps would change can be put into an equal store.
        ensures over { (h : List Item) → stands self.now h → IfOk result (λ r. IsOver (state h) r.delta) }
        // It is the least: no node in it is as the store has it.
        ensures least { (h : List Item) → stands self.now h → IfOk result (λ r. IsLeast (state h) r.delta) };

    /// Lists that it stands for have equal lengths, equal stamps and equal stores.
    ghost alike: { (view : Self) (g h : List Item) → stands view g → stands view h → Alike g h };
}

/// Lists that a view stands for have equal lengths, equal stamps, and leave equal stores.
pub fn one_meaning<V: View>(view: &V)
    ensures alike { (g h : List Item) → V.stands view.now g → V.stands view.now h → Alike g h }
{
    let _ = view;
}

/// The stamp of a new last item is its own, and the places before it keep theirs.
pub fn stamps_stay()
    ensures last { (h : List Item) (i : Item) → stamp_of (length h + 1) (stamps (h ++ i ∷ [])) ≡ Some (stamp_at (state h) i) }
    ensures earlier { (h : List Item) (i : Item) (place : ℕ) → place ≤ length h →
        stamp_of place (stamps (h ++ i ∷ [])) ≡ stamp_of place (stamps h) }
{
    stamps_grow();
}
