//! Three works: one adds to a counter, one puts a pair, and one gets a pair's value.

ghost use Rattle.std.specs.Prelude.{◌≡◌, ◌++◌, ◌∷◌, [], true, false, List, IfOk, OnErr, IsTrue};
ghost use Rattle.ncc_pack.specs.declared.value.Value.TheVariants as v;
ghost use Rattle.ncc_pack.specs.Fits.{fits, fits_i64};
ghost use Rattle.ncc_driver.specs.declared.work.WorkStep.TheVariants as s;
ghost use Rattle.ncc_driver.specs.Work.{Row};
ghost use Rattle.ncc_driver.specs.Works as w;

use crate::requests::{with, with_text};
use crate::work::{Work, WorkStep};
use ncc_pack::{Dict, Memory, Rows, Text, Value};
use std::alloc::Global;

/// Adds to a counter: reads its value, which is 0 where there is none, and sets it to the sum.
#[derive(Drop)]
pub struct Add {
    key: Text,
    by: i64,
    // What was read, and how many steps there were, of which two count.
    found: Value,
    steps: u8,
    alloc: Global,
    ghost keep: { IsTrue (fits (v.Text key)) },
    ghost by_keep: { IsTrue (fits_i64 by) },
}

/// Sets the value of a pair.
#[derive(Drop)]
pub struct Put {
    key: Text,
    value: Text,
    ran: bool,
    alloc: Global,
    ghost keep: { IsTrue (fits (v.Text key)) },
    ghost value_keep: { IsTrue (fits (v.Text value)) },
}

/// Reads the value of a pair.
#[derive(Drop)]
pub struct Get {
    key: Text,
    ran: bool,
    alloc: Global,
    ghost keep: { IsTrue (fits (v.Text key)) },
}

const READS: &str = "MERGE (n:Counter {k: $k}) RETURN n.v";

const RAISES: &str = "MATCH (n:Counter {k: $k}) SET n.v = $old + $d RETURN n.v";

const PUTS: &str = "MERGE (n:Pair {k: $k}) SET n.v = $v";

const GETS: &str = "MATCH (n:Pair {k: $k}) RETURN n.v";

fn run(alloc: Global, query: &str, params: Dict) -> Result<WorkStep, Memory>
    ensures { IfOk result (λ step. step ≡ s.Run query.now params) }
{
    Ok(WorkStep::Run {
        query: Text::from_str(alloc, query)?,
        params,
    })
}

fn with_key(alloc: Global, key: &Text) -> Result<Dict, Memory>
    ensures { IfOk result (λ params. params ≡ w.key_at key.now ∷ []) }
{
    with_text(alloc, Dict::new(alloc), "k", key.as_str())
}

/// The first value of the first row; 0 for null and where there is none.
fn old_in(rows: &Rows) -> Result<Value, Memory>
    ensures { IfOk result (λ old. old ≡ w.old_in rows.now) }
{
    let Some(row) = rows.as_slice().first() else {
        return Ok(Value::Int(0));
    };
    let Some(value) = row.as_slice().first() else {
        return Ok(Value::Int(0));
    };
    match value {
        Value::Null => Ok(Value::Int(0)),
        _ => value.copy(),
    }
}

impl Add {
    /// A work that adds `by` to the counter `key`.
    pub fn new(alloc: Global, key: Text, by: i64) -> Add
        requires fits { IsTrue (fits (v.Text key)) }
        ensures writes { ⟦<Add as Work>⟧.writing result ≡ true }
        ensures steps { ⟦<Add as Work>⟧.steps result ≡ w.add_steps key by }
    {
        Add {
            key,
            by,
            found: Value::Int(0),
            steps: 0,
            alloc,
        }
    }

    fn raise(&self, old: &Value) -> Result<WorkStep, Memory>
        ensures { IfOk result (λ step. step ≡ w.raises_counter self.now.key self.now.by old.now) }
    {
        let params = with_key(self.alloc, &self.key)?;
        let params = with(self.alloc, params, "old", old.copy()?)?;
        let params = with(self.alloc, params, "d", Value::Int(self.by))?;
        run(self.alloc, RAISES, params)
    }

    fn again(&self) -> Result<WorkStep, Memory>
        ensures { (told : List (List Row)) → w.AddStands self.now.steps self.now.found told
            → IfOk result (λ step. step ≡ w.add_steps self.now.key self.now.by told) }
    {
        match self.steps {
            0 => run(self.alloc, READS, with_key(self.alloc, &self.key)?),
            1 => self.raise(&self.found),
            _ => Ok(WorkStep::Commit),
        }
    }

    fn on_rows(&mut self, rows: &Rows) -> Result<WorkStep, Memory>
        ensures ok { (told : List (List Row)) → w.AddStands self.old.steps self.old.found told
            → IfOk result (λ step. step ≡ w.add_steps self.old.key self.old.by (told ++ rows.now ∷ [])) }
        ensures goes_on { (told : List (List Row)) → w.AddStands self.old.steps self.old.found told
            → IfOk result (λ _. w.AddStands self.new.steps self.new.found (told ++ rows.now ∷ [])) }
        ensures same { (self.new.key ≡ self.old.key) × (self.new.by ≡ self.old.by) }
        ensures err { OnErr result (self.new ≡ self.old) }
    {
        if self.steps != 0 {
            self.steps = 2;
            return Ok(WorkStep::Commit);
        }
        let found = old_in(rows)?;
        let step = self.raise(&found)?;
        self.found = found;
        self.steps = 1;
        Ok(step)
    }
}

impl Work for Add {
    ghost writing = { λ _. true };

    ghost steps = { λ a. w.add_steps a.key a.by };

    ghost stands = { λ a told. w.AddStands a.steps a.found told };

    ghost use Rattle.ncc_driver.specs.WorksFit.{add_fits};

    ghost fitting = { λ a told h. add_fits a.key a.by told a.keep a.by_keep h };

    fn start(&mut self) {
        self.steps = 0;
    }

    fn writes(&self) -> bool {
        true
    }

    fn next(&mut self, rows: Option<&Rows>) -> Result<WorkStep, Memory> {
        match rows {
            Some(rows) => self.on_rows(rows),
            None => self.again(),
        }
    }
}

impl Put {
    /// A work that sets the value of the pair `key`.
    pub fn new(alloc: Global, key: Text, value: Text) -> Put
        requires fits { IsTrue (fits (v.Text key)) }
        requires value_fits { IsTrue (fits (v.Text value)) }
        ensures writes { ⟦<Put as Work>⟧.writing result ≡ true }
        ensures steps { ⟦<Put as Work>⟧.steps result ≡ w.put_steps key value }
    {
        Put {
            key,
            value,
            ran: false,
            alloc,
        }
    }
}

impl Work for Put {
    ghost writing = { λ _. true };

    ghost steps = { λ p. w.put_steps p.key p.value };

    ghost stands = { λ p told. w.RanStands p.ran told };

    ghost use Rattle.ncc_driver.specs.WorksFit.{put_fits};

    ghost fitting = { λ p told h. put_fits p.key p.value told p.keep p.value_keep };

    fn start(&mut self) {
        self.ran = false;
    }

    fn writes(&self) -> bool {
        true
    }

    fn next(&mut self, rows: Option<&Rows>) -> Result<WorkStep, Memory> {
        if self.ran || rows.is_some() {
            self.ran = true;
            return Ok(WorkStep::Commit);
        }
        let params = with_key(self.alloc, &self.key)?;
        let params = with_text(self.alloc, params, "v", self.value.as_str())?;
        run(self.alloc, PUTS, params)
    }
}

impl Get {
    /// A work that reads the value of the pair `key`.
    pub fn new(alloc: Global, key: Text) -> Get
        requires fits { IsTrue (fits (v.Text key)) }
        ensures reads { ⟦<Get as Work>⟧.writing result ≡ false }
        ensures steps { ⟦<Get as Work>⟧.steps result ≡ w.get_steps key }
    {
        Get {
            key,
            ran: false,
            alloc,
        }
    }
}

impl Work for Get {
    ghost writing = { λ _. false };

    ghost steps = { λ g. w.get_steps g.key };

    ghost stands = { λ g told. w.RanStands g.ran told };

    ghost use Rattle.ncc_driver.specs.WorksFit.{get_fits};

    ghost fitting = { λ g told h. get_fits g.key told g.keep };

    fn start(&mut self) {
        self.ran = false;
    }

    fn writes(&self) -> bool {
        false
    }

    fn next(&mut self, rows: Option<&Rows>) -> Result<WorkStep, Memory> {
        if self.ran || rows.is_some() {
            self.ran = true;
            return Ok(WorkStep::Commit);
        }
        let params = with_key(self.alloc, &self.key)?;
        run(self.alloc, GETS, params)
    }
}
