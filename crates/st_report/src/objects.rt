//! The objects of the JSON report, as values of serde_json.
ghost use Rattle.std.specs.Prelude.{◌≡◌, IfOk};
ghost use Rattle.serde_json.specs.View.{view};
ghost use Rattle.st_report.specs.Json.{check_object, count_object, thread_object};

use serde_json::{Value, json};
use st_events::Site;
use std::alloc::{AllocError, Global};

/// The object of a launched check.
pub(crate) fn check_value(
    alloc: Global,
    event: usize,
    place: Site,
    thread: &str,
    verdict: &str,
) -> Result<Value, AllocError>
    ensures { IfOk result (λ value. view value ≡ check_object event place thread.now verdict.now) }
{
    json!(in alloc; {
        "column": place.column,
        "event": event,
        "line": place.line,
        "thread": thread,
        "verdict": verdict,
    })
}

/// The object of a thread's end.
pub(crate) fn thread_value(alloc: Global, end: &str, name: &str) -> Result<Value, AllocError>
    ensures { IfOk result (λ value. view value ≡ thread_object end.now name.now) }
{
    json!(in alloc; {"end": end, "name": name})
}

/// The object of the counts.
pub(crate) fn count_value(
    alloc: Global,
    checks: usize,
    fails: usize,
    holds: usize,
    other: usize,
) -> Result<Value, AllocError>
    ensures { IfOk result (λ value. view value ≡ count_object checks fails holds other) }
{
    json!(in alloc; {"checks": checks, "fails": fails, "holds": holds, "other": other})
}
