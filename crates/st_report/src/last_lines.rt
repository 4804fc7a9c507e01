//! The last line of a report.
ghost use Rattle.std.specs.Prelude.{◌≡◌, IfOk};
ghost use Rattle.st_report.specs.Report.{count_line};

use crate::reports::put_counts;
use st_events::{NoMemory, Verdict};
use std::alloc::Global;

/// The last line of the report of a run with these verdicts: how many checks there are, and how many of them hold, fail, or
/// have another verdict.
pub fn last_line(alloc: Global, verdicts: &[Verdict]) -> Result<Vec<u8>, NoMemory>
    ensures { IfOk result (λ line. line.items ≡ count_line verdicts.now) }
{
    let mut line = Vec::new(alloc);
    put_counts(&mut line, alloc, verdicts)?;
    Ok(line)
}
