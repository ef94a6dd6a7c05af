//! A backend over a shelf: a member that leads alone.

ghost use Rattle.std.specs.Prelude.{◌≡◌, ◌≢◌, ℕ, ◌+◌, ◌^◌, ◌<◌, ◌≤◌, List, [], ◌∷◌, ◌++◌, length, map, Some, IfOk, OnErr, IsErr};
ghost use Rattle.std.specs.Prelude.{IsErrOf, IsTrue, false};
ghost use Rattle.ncc_base.specs.Faults.{Rose};
ghost use Rattle.ncc_apply.specs.Shelf.{Stands};
ghost use Rattle.ncc_store.specs.Exec.{call_of};
ghost use Rattle.ncc_tx.specs.declared.entry.Item.{Item};
ghost use Rattle.ncc_tx.specs.State.{state, valid};
ghost use Rattle.ncc_session.specs.Core.{question_of};
ghost use Rattle.ncc_session.specs.Question.{ends_writing, fits};
ghost use Rattle.ncc_session.specs.Turns.{MayAsk};
ghost use Rattle.ncc_server.specs.Answered.{TellsMore, IsPast};
ghost use Rattle.ncc_server.specs.Shelved.{answer_of, entered, fact_by, item_of, items_by, last_rows, placed};

use crate::backend::{Backend, BackendError};
use ncc_apply::{Shelf, View, stamps_stay};
use ncc_pack::{Memory, Rows, Sequence};
use ncc_session::{Ask, Fact};
use ncc_store::{RowLists, RunError, Steps};
use ncc_tx::{Entry, Item};
use std::alloc::{AllocError, Global};
use std::marker::Model;

/// An answer that was told.
#[derive(Drop)]
pub struct Told {
    /// The question.
    pub ask: Ask,
    /// Until when it had to be answered, in milliseconds.
    pub deadline: u64,
    /// The answer.
    pub fact: Fact,
}

/// A backend over a shelf. It answers as a member does that leads alone, in term 1: an entry of which some step writes is placed at
/// once. It has no faults and no limit of entries, and tells its answers.
#[derive(Drop)]
pub struct ShelfBackend {
    shelf: Shelf,
    answers: Vec<Told>,
    cluster: u64,
    alloc: Global,
}

impl Model for ShelfBackend {
    ghost use Rattle.std.specs.Prelude.{map};
    ghost use Rattle.ncc_server.specs.Shelved.{Shelved, answer_of};

    ghost Value = { Shelved };

    ghost use Rattle.std.specs.Coded.{codes};
    ghost use Rattle.ncc_pack.specs.contracts.value.Value as e;

    ghost coded = { Prim.hlevel (codes, e.the_row.coded) };

    ghost view = { λ b. record { cluster = b.cluster; shelf = b.shelf; answers = map answer_of b.answers.items } };

    ghost use Rattle.ncc_server.specs.Shelved.{HasHistory};

    ghost invariant = { λ b. HasHistory b.shelf };
}

// Whether the member is as far as the bookmarks say; else it is late at the moment past the deadline.
fn enter(at: u64, need: u64, deadline: u64) -> Fact
    requires { deadline + 1 < 2 ^ 64 }
    ensures { result ≡ entered at need deadline }
{
    if need <= at {
        return Fact::Entered { at };
    }
    Fact::Late {
        need,
        at,
        now: deadline + 1,
    }
}

// The rows of the last step.
fn last_of(alloc: Global, lists: RowLists) -> Rows
    ensures { result ≡ last_rows lists }
{
    let mut lists = lists.into_vec();
    match lists.pop() {
        Some(rows) => rows,
        None => Sequence::new(alloc),
    }
}

fn place(place: u64, valid: bool) -> Fact
    ensures { result ≡ placed place valid }
{
    if valid {
        Fact::Placed { place }
    } else {
        Fact::Stale { place }
    }
}

// The answer to a question that changes nothing.
fn read(alloc: Global, shelf: &Shelf, ask: &Ask, deadline: u64) -> Result<Fact, Memory>
    requires deadline { deadline + 1 < 2 ^ 64 }
    requires reads { ends_writing (question_of ask.now) ≡ false }
    requires may_ask { MayAsk (question_of ask.now) }
    ensures exact { IfOk result (λ fact. (h : List Item) → Stands shelf.now h → fact ≡ fact_by h deadline ask.now) }
{
    let at = shelf.at();
    match ask {
        Ask::Enter { need } => Ok(enter(at, *need, deadline)),
        Ask::Run { steps } => match shelf.run(alloc, steps) {
            Ok(ran) => Ok(Fact::Rows {
                at,
                rows: last_of(alloc, ran.rows),
            }),
            Err(RunError::Fault(fault)) => Ok(Fact::Faulted { at, fault }),
            Err(RunError::Memory) => Err(AllocError),
        },
        Ask::Leave { .. } => Ok(Fact::Done { at }),
        Ask::Route => Ok(Fact::Routed { leader: 1 }),
    }
}

// Places an entry, and says where it stands and whether it is valid there.
fn put(shelf: &mut Shelf, entry: &Entry) -> Result<(u64, bool), Memory>
    ensures ok { IfOk result (λ r. (h : List Item) → Stands shelf.old h →
        Stands shelf.new (h ++ item_of entry.now ∷ []) × (r.0 ≡ length h + 1) × (r.1 ≡ valid (state h) entry.now)) }
    ensures err { OnErr result (shelf.new ≡ shelf.old) }
{
    let item = Item {
        term: 1,
        entry: entry.copy()?,
    };
    shelf.push(&item)?;
    let at = shelf.at();
    let valid = match shelf.stamp(at) {
        Some(stamp) => stamp.valid,
        None => false,
    };
    stamps_stay();
    Ok((at, valid))
}

// The answer, twice, so that nothing can fail behind it.
fn found(alloc: Global, shelf: &mut Shelf, ask: &Ask, deadline: u64) -> Result<(Fact, Fact), Memory>
    requires deadline { deadline + 1 < 2 ^ 64 }
    requires may_ask { MayAsk (question_of ask.now) }
    ensures twice { IfOk result (λ r. r.1 ≡ r.0) }
    ensures exact { IfOk result (λ r. (h : List Item) → Stands shelf.old h →
        (r.0 ≡ fact_by h deadline ask.now) × Stands shelf.new (items_by h ask.now)) }
    ensures err { OnErr result (shelf.new ≡ shelf.old) }
{
    if ask.writes() {
        if let Ask::Leave { entry } = ask {
            let (at, valid) = put(shelf, entry)?;
            return Ok((place(at, valid), place(at, valid)));
        }
    }
    let fact = read(alloc, shelf, ask, deadline)?;
    let told = fact.copy()?;
    Ok((fact, told))
}

impl ShelfBackend {
    /// A backend over a shelf without an item. The number of the cluster changes no answer.
    pub fn new(alloc: Global, cluster: u64) -> Result<ShelfBackend, Memory>
        ensures empty { IfOk result (λ b. Stands b.shelf []) }
        ensures none { IfOk result (λ b. b.answers ≡ []) }
        ensures cluster { IfOk result (λ b. b.cluster ≡ cluster) }
    {
        let shelf = Shelf::new(alloc)?;
        Ok(ShelfBackend {
            shelf,
            answers: Vec::new(alloc),
            cluster,
            alloc,
        })
    }

    /// The number of the cluster.
    pub fn cluster(&self) -> u64
        ensures cluster { result ≡ self.now.cluster }
    {
        self.cluster
    }

    /// The shelf: the state of the member.
    pub fn shelf(&self) -> &Shelf
        ensures shelf { result.now ≡ self.now.shelf }
    {
        &self.shelf
    }
}

impl Backend for ShelfBackend {
    ghost told = { λ b. Some b.answers };

    ghost faults = { λ b. 0 };

    fn answer(&mut self, ask: &Ask, deadline: u64) -> Result<Fact, BackendError>
        requires deadline { deadline + 1 < 2 ^ 64 }
        requires may_ask { MayAsk (question_of ask.now) }
        ensures fits { IfOk result (λ fact. IsTrue (fits (question_of ask.now) fact)) }
        ensures past { IfOk result (λ fact. IsPast deadline fact) }
        ensures told { IfOk result (λ fact. TellsMore (Some self.old.answers) (Some self.new.answers)
            (record { question = question_of ask.now; deadline = deadline; fact = fact } ∷ [])) }
        ensures untold { OnErr result (TellsMore (Some self.old.answers) (Some self.new.answers) []) }
        ensures never_falls { 0 ≤ 0 }
        ensures failed { IsErrOf result BackendError.Failed → Rose 0 0 }
        // It answers by the list of items that the shelf stands for, and stands for the list behind the answer.
        ensures exact { IfOk result (λ fact. (h : List Item) → Stands self.old.shelf h →
            (fact ≡ fact_by h deadline ask.now) × Stands self.new.shelf (items_by h ask.now)) }
        ensures cluster { self.new.cluster ≡ self.old.cluster }
        // Memory alone may be wanting, and then nothing has changed.
        ensures memory { result ≢ Err BackendError.Failed }
        ensures err { OnErr result (self.new ≡ self.old) }
    {
        let Ok(kept) = ask.copy() else {
            return Err(BackendError::Memory);
        };
        if self.answers.reserve(1).is_err() {
            return Err(BackendError::Memory);
        }
        match found(self.alloc, &mut self.shelf, ask, deadline) {
            Ok((fact, told)) => {
                self.answers.push_reserved(Told {
                    ask: kept,
                    deadline,
                    fact: told,
                });
                Ok(fact)
            }
            Err(_) => Err(BackendError::Memory),
        }
    }
}
