//! What verdicts and ends come to: how many checks hold, fail, or have another verdict, and what decides the status of a run.
ghost use Rattle.std.specs.Prelude.{◌≡◌, count_by};
ghost use Rattle.std.specs.List.{list_any};
ghost use Rattle.st_report.specs.Counts.{is_holds as is_holds_of, is_fails as is_fails_of, is_other_verdict};
ghost use Rattle.st_report.specs.Status.{is_unfinished as is_unfinished_of, is_fault as is_fault_of, is_undecided as is_undecided_of};

use st_events::{End, Plain, Verdict};

/// Whether the check holds.
fn is_holds(verdict: Verdict) -> bool
    ensures { result ≡ is_holds_of verdict }
{
    matches!(verdict, Verdict::Plain(Plain::Holds))
}

/// Whether the check fails.
fn is_fails(verdict: Verdict) -> bool
    ensures { result ≡ is_fails_of verdict }
{
    matches!(verdict, Verdict::Plain(Plain::Fails))
}

/// How many of the checks hold.
pub(crate) fn count_holds(verdicts: &[Verdict]) -> usize
    ensures { result ≡ count_by is_holds_of verdicts.now }
{
    verdicts
        .iter()
        .filter(|verdict| is_holds(**verdict))
        .count()
}

/// How many of the checks fail.
pub(crate) fn count_fails(verdicts: &[Verdict]) -> usize
    ensures { result ≡ count_by is_fails_of verdicts.now }
{
    verdicts
        .iter()
        .filter(|verdict| is_fails(**verdict))
        .count()
}

/// How many of the checks neither hold nor fail.
pub(crate) fn count_other(verdicts: &[Verdict]) -> usize
    ensures { result ≡ count_by is_other_verdict verdicts.now }
{
    verdicts
        .iter()
        .filter(|verdict| !is_holds(**verdict) && !is_fails(**verdict))
        .count()
}

/// Whether a thread does not come to its end.
fn is_unfinished(end: End) -> bool
    ensures { result ≡ is_unfinished_of end }
{
    !matches!(end, End::Finished)
}

/// Whether the check fails, or its evaluation met a null, a division by 0, or a number that does not fit.
fn is_fault(verdict: Verdict) -> bool
    ensures { result ≡ is_fault_of verdict }
{
    match verdict {
        Verdict::Plain(Plain::Fails | Plain::Null(_) | Plain::Divide(_) | Plain::Overflow(_)) => {
            true
        }
        Verdict::Plain(Plain::Holds | Plain::Spent | Plain::Deep) | Verdict::Abandoned { .. } => {
            false
        }
    }
}

/// Whether the check has no answer: its evaluation was cut off, or needed a version that was lost.
fn is_undecided(verdict: Verdict) -> bool
    ensures { result ≡ is_undecided_of verdict }
{
    matches!(
        verdict,
        Verdict::Plain(Plain::Spent | Plain::Deep) | Verdict::Abandoned { .. }
    )
}

/// Whether some thread does not come to its end.
pub(crate) fn some_unfinished(ends: &[End]) -> bool
    ensures { result ≡ list_any is_unfinished_of ends.now }
{
    ends.iter().any(|end| is_unfinished(*end))
}

/// Whether some check is at fault.
pub(crate) fn some_fault(verdicts: &[Verdict]) -> bool
    ensures { result ≡ list_any is_fault_of verdicts.now }
{
    verdicts.iter().any(|verdict| is_fault(*verdict))
}

/// Whether some check has no answer.
pub(crate) fn some_undecided(verdicts: &[Verdict]) -> bool
    ensures { result ≡ list_any is_undecided_of verdicts.now }
{
    verdicts.iter().any(|verdict| is_undecided(*verdict))
}
