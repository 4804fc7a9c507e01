//! The launches, the ends and the counts of the JSON report, each as the text of an object.
ghost use Rattle.std.specs.Prelude.{◌≡◌, IfOk};
ghost use Rattle.st_report.specs.Json.{check_json, count_json, name_text as name_text_of, thread_json};

use crate::checks::LaunchedCheck;
use crate::objects::{check_value, count_value, thread_value};
use crate::tallies::{count_fails, count_holds, count_other};
use st_events::{End, NoMemory, Verdict};
use st_texts::{EndText, VerdictText};
use std::alloc::Global;

/// A launched check as an object.
pub(crate) fn check_text(
    alloc: Global,
    thread: &[u8],
    check: LaunchedCheck,
) -> Result<Vec<u8>, NoMemory>
    ensures { IfOk result (λ text. text.items ≡ check_json thread.now check) }
{
    let LaunchedCheck {
        event,
        place,
        verdict,
    } = check;
    let verdict = VerdictText(verdict).to_string(alloc)?;
    let value = check_value(alloc, event, place, name_text(thread), verdict.as_str())?;
    Ok(value.to_vec(alloc)?)
}

/// The end of a thread as an object.
pub(crate) fn thread_text(alloc: Global, thread: &[u8], end: End) -> Result<Vec<u8>, NoMemory>
    ensures { IfOk result (λ text. text.items ≡ thread_json (thread.now, end)) }
{
    let end = EndText(end).to_string(alloc)?;
    let value = thread_value(alloc, end.as_str(), name_text(thread))?;
    Ok(value.to_vec(alloc)?)
}

/// The counts as an object.
pub(crate) fn count_text(alloc: Global, verdicts: &[Verdict]) -> Result<Vec<u8>, NoMemory>
    ensures { IfOk result (λ text. text.items ≡ count_json verdicts.now) }
{
    let checks = verdicts.len();
    let fails = count_fails(verdicts);
    let holds = count_holds(verdicts);
    let other = count_other(verdicts);
    let value = count_value(alloc, checks, fails, holds, other)?;
    Ok(value.to_vec(alloc)?)
}

/// The name of a thread, if it is text; names of a source are.
fn name_text(name: &[u8]) -> &str
    ensures { result.now ≡ name_text_of name.now }
{
    match str::from_utf8(name) {
        Ok(text) => text,
        Err(_) => "",
    }
}
