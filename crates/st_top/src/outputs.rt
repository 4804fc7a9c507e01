//! The outputs of runs and of audits.
ghost use Rattle.std.specs.Prelude.{◌≡◌, ◌≢◌, ◌<◌, ◌^◌, length, IfOk};
ghost use Rattle.std.specs.List.{All};
ghost use Rattle.st_audit.specs.declared.findings.Finding.TheVariants as found;
ghost use Rattle.st_events.specs.Sizes.{AreWithinLimits};
ghost use Rattle.st_journal.specs.Format.{HasUsedArgs};
ghost use Rattle.st_report.specs.Json.{json_text};
ghost use Rattle.st_report.specs.Report.{report_text};
ghost use Rattle.st_top.specs.Outputs.{text_in, finding_line};
ghost use Rattle.st_top.specs.Programs.{names_of, places_of};

use crate::heads::{collect_names, collect_places};
use st_audit::Finding;
use st_events::{NoMemory, Ran, Sizes};
use st_journal::write;
use st_report::{report, report_json};
use st_texts::PlainText;
use st_types::Typed;
use st_words::Form;
use std::alloc::Global;

/// What is written of a run, in the form that was asked for.
pub(crate) fn make_output(
    alloc: Global,
    form: Form,
    typed: &Typed,
    sizes: &Sizes,
    ran: &Ran,
) -> Result<Vec<u8>, NoMemory>
    requires sizes { AreWithinLimits sizes.now }
    requires args { All HasUsedArgs ran.now.journal }
    requires few_events { length ran.now.journal < 2 ^ 32 }
    requires few_verdicts { length ran.now.verdicts < 2 ^ 32 }
    ensures { IfOk result (λ text. text.items ≡ text_in form typed.now.program sizes.now ran.now) }
{
    match form {
        Form::Text => report_of(alloc, typed, ran),
        Form::Json => json_of(alloc, typed, ran),
        Form::Journal => write(alloc, sizes, &ran.journal, &ran.verdicts),
    }
}

/// The report of a run of a typed program, as lines.
pub fn report_of(alloc: Global, typed: &Typed, ran: &Ran) -> Result<Vec<u8>, NoMemory>
    ensures { IfOk result (λ text. text.items ≡ report_text (names_of typed.now.program) (places_of typed.now.program) ran.now) }
{
    let names = collect_names(alloc, typed)?;
    let places = collect_places(alloc, typed)?;
    report(alloc, &names, &places, ran)
}

/// The report of a run of a typed program, as one line of JSON.
pub fn json_of(alloc: Global, typed: &Typed, ran: &Ran) -> Result<Vec<u8>, NoMemory>
    ensures { IfOk result (λ text. text.items ≡ json_text (names_of typed.now.program) (places_of typed.now.program) ran.now) }
{
    let names = collect_names(alloc, typed)?;
    let places = collect_places(alloc, typed)?;
    report_json(alloc, &names, &places, ran)
}

/// The line of an audit that found nothing.
pub(crate) const NOTHING_FOUND_LINE: &[u8; 9] = b"audit ok\n";

/// The line of a finding.
pub(crate) fn make_finding_line(alloc: Global, finding: Finding) -> Result<Vec<u8>, NoMemory>
    ensures { IfOk result (λ line. line.items ≡ finding_line finding) }
{
    let line = match finding {
        Finding::Memory => format!(in alloc; "no memory\n")?,
        Finding::WrongSizes => format!(in alloc; "audit wrong sizes\n")?,
        Finding::NotLegal { place } => format!(in alloc; "audit not legal {place}\n")?,
        Finding::NotTrace { thread, event } => {
            format!(in alloc; "audit not trace {thread} {event}\n")?
        }
        Finding::VerdictCount { launches, verdicts } => {
            format!(in alloc; "audit verdict count {launches} {verdicts}\n")?
        }
        Finding::WrongVerdict { number, plain } => {
            format!(in alloc; "audit wrong verdict {number} {}\n", PlainText(plain))?
        }
    };
    Ok(line.into_bytes())
}
