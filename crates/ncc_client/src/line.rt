//! The line that a client writes where its work was committed.

ghost use Rattle.std.specs.Prelude.{◌≡◌, IfOk, IsTrue};
ghost use Rattle.ncc_driver.specs.Work.{rows_fit};
ghost use Rattle.ncc_client.specs.Line.{line_of};

use itoa::Buffer;
use ncc_driver::{WorkDone, row_text};
use ncc_pack::{Memory, Text};
use std::alloc::Global;

/// The line of a work that was committed: `ok ATTEMPTS BOOKMARK ROWS` and LF. The rows have to fit, as `rows_fit` says.
#[tactic(auto, using(std::proofs::lemmas::List::append_assoc))]
pub fn done_line(alloc: Global, done: &WorkDone) -> Result<Text, Memory>
    requires fits { IsTrue (rows_fit done.now.rows) }
    ensures exact { IfOk result (λ line. line ≡ line_of done.now) }
{
    let mut buffer = Buffer::new();
    let rows = row_text(alloc, &done.rows)?;
    let mut line = Text::from_str(alloc, "ok ")?;
    line.push_str(buffer.format(done.attempts))?;
    line.push_str(" ")?;
    line.push_str(done.bookmark.as_str())?;
    line.push_str(" ")?;
    line.push_str(rows.as_str())?;
    line.push_str("\n")?;
    Ok(line)
}
