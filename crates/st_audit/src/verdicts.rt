//! The first wrong verdict: each check is evaluated when its launch is met, on a heap that is built forwards.
ghost use Rattle.std.specs.Prelude.{◌≡◌, ◌≤◌, ◌<◌, ◌^◌, ℕ, true, false, get_or, slice_get, length, IfOk};
ghost use Rattle.st_events.specs.Heap.{heap_of};
ghost use Rattle.st_events.specs.Terms.{IsLegal, lost_pairs, IsWithinLimits, AreWithinLimits};
ghost use Rattle.st_events.specs.declared.shapes.TheConstants.{MOST_ARGS};
ghost use Rattle.st_resolved.specs.Views.{program_of};
ghost use Rattle.st_resolved.specs.WellFormed.{IsWellFormed};
ghost use Rattle.st_check_meaning.specs.Plain.{cells_read};
ghost use Rattle.st_thread_meaning.specs.Right.{words_of};
ghost use Rattle.st_eval.specs.Evaluations.{IsMadeFor, budget};
ghost use Rattle.st_audit.specs.Evaluations.{AreSmall, IsJudged};
ghost use Rattle.st_audit.specs.Findings.{AreJudged};
ghost use Rattle.st_audit.specs.Judging.{CanJudge, IsJudgedEvent};
ghost use Rattle.st_audit.specs.Marks.{AreMarks};

use crate::evaluations::evaluate;
use crate::heaps::take_in;
use st_eval::Eval;
use st_events::{Args, Event, HeapMap, NoMemory, Plain, Shape, Sizes, Verdict};
use st_resolved::Resolved;
use std::alloc::Global;

/// A check whose verdict is wrong.
#[derive(Clone, Copy, Debug)]
pub(crate) struct Wrong {
    /// Its number, from 1.
    pub(crate) number: u32,
    /// Its plain value.
    pub(crate) plain: Plain,
}

/// The first check whose verdict is wrong. Of each check that claims to be abandoned a mark says whether the version is lost.
pub(crate) fn first_wrong(
    alloc: Global,
    shape: &Shape,
    program: &Resolved,
    sizes: &Sizes,
    events: &[Event],
    verdicts: &[Verdict],
    marks: &[bool],
) -> Result<Option<Wrong>, NoMemory>
    requires well_formed { IsWellFormed shape.now (program_of program.now) }
    requires sizes { AreWithinLimits sizes.now }
    requires legal { IsLegal shape.now sizes.now events.now }
    requires events { length events.now < 2 ^ 32 }
    requires marks { AreMarks verdicts.now (lost_pairs shape.now sizes.now events.now) marks.now }
    ensures { IfOk result (AreJudged shape.now (program_of program.now) sizes.now events.now verdicts.now) }
{
    let mut heap = HeapMap::make(alloc, shape, sizes)?;
    let mut eval = Eval::make(alloc, program, sizes.calls)?;
    for event in events {
        match wrong_launch(&mut eval, program, &heap, verdicts, marks, *event) {
            Some(wrong) => return Ok(Some(wrong)),
            None => {}
        }
        take_in(&mut heap, shape, *event);
    }
    Ok(None)
}

/// The check that the event launches, if it launches one, where its verdict is wrong.
fn wrong_launch(
    eval: &mut Eval,
    program: &Resolved,
    heap: &HeapMap,
    verdicts: &[Verdict],
    marks: &[bool],
    event: Event,
) -> Option<Wrong>
    requires made { IsMadeFor (program_of program.now) eval.old }
    requires event { CanJudge (program_of program.now) (heap_of heap.now) (budget eval.old) event }
    ensures made { IsMadeFor (program_of program.now) eval.new }
    ensures budget { budget eval.new ≡ budget eval.old }
    ensures judged { IsJudgedEvent (program_of program.now) (heap_of heap.now) (budget eval.old) verdicts.now marks.now event result }
{
    match event {
        Event::Launch {
            number,
            site,
            args,
            ..
        } => {
            let index = (number - 1) as usize;
            let verdict = match verdicts.get(index) {
                Some(verdict) => *verdict,
                None => return None,
            };
            let lost = is_marked(marks, index);
            match wrong_value(eval, program, heap, site, args, verdict, lost) {
                Some(plain) => Some(Wrong { number, plain }),
                None => None,
            }
        }
        _ => None,
    }
}

/// Whether there is a mark at the index.
fn is_marked(marks: &[bool], index: usize) -> bool
    ensures { result ≡ get_or marks.now index false }
{
    match marks.get(index) {
        Some(mark) => *mark,
        None => false,
    }
}

/// The plain value of the check, where its verdict is wrong. `lost` says whether the version that it names is lost, where it claims to be abandoned.
fn wrong_value(
    eval: &mut Eval,
    program: &Resolved,
    heap: &HeapMap,
    site: u16,
    args: Args,
    verdict: Verdict,
    lost: bool,
) -> Option<Plain>
    requires made { IsMadeFor (program_of program.now) eval.old }
    requires few { args.count ≤ MOST_ARGS }
    requires small { AreSmall (cells_read (program_of program.now) (heap_of heap.now) site (words_of args) (budget eval.old)) }
    ensures made { IsMadeFor (program_of program.now) eval.new }
    ensures budget { budget eval.new ≡ budget eval.old }
    ensures judged { IsJudged (program_of program.now) (heap_of heap.now) site args (budget eval.old) lost verdict result }
{
    match verdict {
        Verdict::Plain(said) => {
            let found = evaluate(eval, program, heap, site, args, 0);
            if said == found.plain {
                None
            } else {
                Some(found.plain)
            }
        }
        Verdict::Abandoned { obj } => {
            let found = evaluate(eval, program, heap, site, args, obj);
            if lost && found.reads {
                None
            } else {
                Some(found.plain)
            }
        }
    }
}
