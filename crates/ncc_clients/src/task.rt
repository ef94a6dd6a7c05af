//! The works that a session may be given.

ghost use Rattle.ncc_clients.specs.Task.{writing, steps, stands, task_fits};

use ncc_driver::{Add, Get, Put, Work, WorkStep};
use ncc_pack::{Memory, Rows};

/// A work that a session may be given.
#[derive(Drop)]
pub enum Task {
    /// Adds to a counter.
    Add(Add),
    /// Sets the value of a pair.
    Put(Put),
    /// Reads the value of a pair.
    Get(Get),
}

impl Work for Task {
    ghost writing = { writing };

    ghost steps = { steps };

    ghost stands = { stands };

    ghost fitting = { task_fits };

    fn start(&mut self) {
        match self {
            Task::Add(add) => add.start(),
            Task::Put(put) => put.start(),
            Task::Get(get) => get.start(),
        }
    }

    fn writes(&self) -> bool {
        match self {
            Task::Add(add) => add.writes(),
            Task::Put(put) => put.writes(),
            Task::Get(get) => get.writes(),
        }
    }

    fn next(&mut self, rows: Option<&Rows>) -> Result<WorkStep, Memory> {
        match self {
            Task::Add(add) => add.next(rows),
            Task::Put(put) => put.next(rows),
            Task::Get(get) => get.next(rows),
        }
    }
}
