//! What holds of every text.

ghost use Rattle.ncc_replay.specs.Script.{OneEnd};

use ncc_world::every_run_keeps;

/// Each text ends in one way: as one script with one run, at one line that is refused for one cause, or at one limit.
pub fn one_end()
    ensures one { OneEnd }
{
    every_run_keeps();
}
