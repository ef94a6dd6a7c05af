//! The works of sessions.

ghost use Rattle.std.specs.Prelude.{◌≡◌, IfOk};
ghost use Rattle.ncc_clients.specs.Task.{job_of};
ghost use Rattle.ncc_world.specs.Events.{MayBegin};
ghost use Rattle.ncc_world.specs.Happening.{meant};

use crate::event::Job;
use ncc_clients::Task;
use ncc_driver::{Add, Get, Put};
use ncc_pack::Memory;
use std::alloc::Global;

/// The work that a job names.
#[tactic(auto, using(crate::proofs::Jobs::word_spelled))]
pub(crate) fn task(alloc: Global, job: &Job) -> Result<Task, Memory>
    requires may { MayBegin job.now }
    ensures exact { IfOk result (λ task. job_of task ≡ meant job.now) }
{
    match job {
        Job::Add { key, by } => Ok(Task::Add(Add::new(alloc, key.copy()?, *by))),
        Job::Put { key, value } => Ok(Task::Put(Put::new(alloc, key.copy()?, value.copy()?))),
        Job::Get { key } => Ok(Task::Get(Get::new(alloc, key.copy()?))),
    }
}
