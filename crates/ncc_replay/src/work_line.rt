//! The lines of works that have ended. Each function appends to what was written before it.
#![tactic(auto, using(std::proofs::lemmas::List::append_assoc))]

ghost use Rattle.std.specs.Prelude.{◌≡◌, ◌++◌, OnOk, IsTrue, codes};
ghost use Rattle.std.specs.List.{flat_map};
ghost use Rattle.ncc_driver.specs.RowText.{text_of};
ghost use Rattle.ncc_driver.specs.Fitting.{end_fits};
ghost use Rattle.ncc_driver.specs.Work as w;
ghost use Rattle.ncc_world.specs.Spellable.{WorksFit};
ghost use Rattle.ncc_replay.specs.Report.{bookmark_text, last_text, done_text, error_text, result_text, work_line};

use crate::number::append_number;
use ncc_driver::row_text;
use ncc_pack::{Bytes, Rows};
use ncc_world::{Last, WorkDone, WorkError, WorkSeen};
use std::alloc::AllocError;

// The place of a bookmark, `-` where it is none of this project's.
fn append_place(place: Option<u64>, into: &mut Bytes) -> Result<(), AllocError>
    ensures { OnOk result (into.new ≡ into.old ++ bookmark_text place) }
{
    match place {
        Some(place) => append_number(place, into),
        None => into.extend(b" -"),
    }
}

// Rows that fit have a text.
fn append_rows(rows: &Rows, into: &mut Bytes) -> Result<(), AllocError>
    requires { IsTrue (w.rows_fit rows.now) }
    ensures { OnOk result (into.new ≡ into.old ++ (codes " " ++ text_of rows.now)) }
{
    let text = row_text(into.allocator(), rows)?;
    into.extend(b" ")?;
    into.extend(text.as_str().as_bytes())
}

// A work that was committed.
fn append_done(done: &WorkDone, into: &mut Bytes) -> Result<(), AllocError>
    requires { IsTrue (w.rows_fit done.now.rows) }
    ensures { OnOk result (into.new ≡ into.old ++ done_text done.now) }
{
    into.extend(b" ok")?;
    append_number(done.attempts, into)?;
    append_place(done.place, into)?;
    append_rows(&done.rows, into)
}

// Why the last attempt failed.
fn append_last(last: &Last, into: &mut Bytes) -> Result<(), AllocError>
    ensures { OnOk result (into.new ≡ into.old ++ last_text last.now) }
{
    match last {
        Last::Code(code) => {
            into.extend(b" ")?;
            into.extend(code.as_str().as_bytes())
        }
        Last::LinkLost => into.extend(b" lost"),
        Last::NoServer { .. } => into.extend(b" noserver"),
    }
}

// A work that was not committed, or is not known to be.
fn append_error(error: &WorkError, into: &mut Bytes) -> Result<(), AllocError>
    ensures { OnOk result (into.new ≡ into.old ++ error_text error.now) }
{
    match error {
        WorkError::RetriesSpent { attempts, last } => {
            into.extend(b" spent")?;
            append_number(*attempts, into)?;
            append_last(last, into)
        }
        WorkError::Refused { attempts, code } => {
            into.extend(b" refused")?;
            append_number(*attempts, into)?;
            into.extend(b" ")?;
            into.extend(code.as_str().as_bytes())
        }
        WorkError::BadReply { message } => {
            into.extend(b" badreply")?;
            append_number(*message, into)
        }
    }
}

// How a work has ended.
fn append_result(ended: &Result<WorkDone, WorkError>, into: &mut Bytes) -> Result<(), AllocError>
    requires { IsTrue (end_fits ended.now) }
    ensures { OnOk result (into.new ≡ into.old ++ result_text ended.now) }
{
    match ended {
        Ok(done) => append_done(done, into),
        Err(error) => append_error(error, into),
    }
}

// The line of a work that has ended.
#[tactic(auto, using(std::proofs::lemmas::List::append_assoc), unfolding(crate::specs::Report::work_line))]
fn append_work(work: &WorkSeen, into: &mut Bytes) -> Result<(), AllocError>
    requires { IsTrue (end_fits work.now.result) }
    ensures { OnOk result (into.new ≡ into.old ++ work_line work.now) }
{
    into.extend(b"work")?;
    append_number(work.line, into)?;
    append_number(work.session, into)?;
    append_result(&work.result, into)?;
    into.extend(b"\n")
}

/// The lines of the works that have ended.
pub(crate) fn append_works(works: &[WorkSeen], into: &mut Bytes) -> Result<(), AllocError>
    requires { WorksFit works.now }
    ensures { OnOk result (into.new ≡ into.old ++ flat_map work_line works.now) }
{
    for work in works {
        append_work(work, into)?;
    }
    Ok(())
}
