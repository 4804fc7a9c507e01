//! Runs, as the words ask for them.
ghost use Rattle.std.specs.Prelude.{◌≡◌, ◌<◌, ◌^◌, ℕ, List, Option, length, unwrap_or, IfOk};
ghost use Rattle.std.specs.List.{All};
ghost use Rattle.st_events.specs.Sizes.{AreWithinLimits};
ghost use Rattle.st_journal.specs.Format.{HasUsedArgs};
ghost use Rattle.st_run_meaning.specs.Runs.{scheduled_run};
ghost use Rattle.st_thread_meaning.specs.Right.{IsRightRun};
ghost use Rattle.st_top.specs.Deeds.{IsRunAs};
ghost use Rattle.st_top.specs.Orders.{sizes_in, demo_sizes, run_order, demo_order};
ghost use Rattle.st_top.specs.Programs.{IsOfSource, mutators_of};
ghost use Rattle.st_types.specs.Rules.{resolution, shape_of};
ghost use Rattle.st_words.specs.Accepted.{HasFittingNumbers};
ghost use Rattle.st_words.specs.declared.words.Words.TheVariants as words_of;

use crate::left::Left;
use crate::limits::{
    DEMO_CALLS, DEMO_COPIES, DEMO_EVENTS, DEMO_LANES, DEMO_OBJECTS, DEMO_SEED, USUAL_SEED,
};
use crate::outputs::make_output;
use st_events::{NoMemory, Ran, Sizes};
use st_report::{last_line, run_status};
use st_sched::run_scheduled;
use st_types::Typed;
use st_words::RunWords;
use std::alloc::Global;

/// What is left of the run that the words ask for.
pub(crate) fn run_as_asked(alloc: Global, typed: &Typed, call: &RunWords) -> Result<Left, NoMemory>
    requires { HasFittingNumbers (words_of.Run call.now) }
    ensures { IfOk result (λ left. (source : Option (List ℕ))
        → IsOfSource source typed.now.program
        → IsRunAs (run_order source call.now) left) }
{
    let sizes = choose_sizes(call, typed);
    let seed = choose_seed(call);
    let ran = run_program(alloc, typed, &sizes, seed)?;
    let output = make_output(alloc, call.form, typed, &sizes, &ran)?;
    let status = run_status(&ran);
    Ok(Left {
        output,
        status,
        ran: Some(ran),
    })
}

/// What is left of a demonstration.
pub(crate) fn run_as_demo(alloc: Global, typed: &Typed) -> Result<Left, NoMemory>
    ensures { IfOk result (λ left. (n : ℕ)
        → IsOfSource (demo_order n).source typed.now.program
        → IsRunAs (demo_order n) left) }
{
    let sizes = choose_demo_sizes(typed);
    let ran = run_program(alloc, typed, &sizes, DEMO_SEED)?;
    let output = last_line(alloc, &ran.verdicts)?;
    let status = run_status(&ran);
    Ok(Left {
        output,
        status,
        ran: Some(ran),
    })
}

/// The seed that the words give, or the usual one.
fn choose_seed(call: &RunWords) -> u64
    ensures { result ≡ unwrap_or call.now.schedule USUAL_SEED }
{
    call.schedule.unwrap_or(USUAL_SEED)
}

/// The sizes that the words give, with a mutator for each thread.
fn choose_sizes(call: &RunWords, typed: &Typed) -> Sizes
    requires { HasFittingNumbers (words_of.Run call.now) }
    ensures asked { result ≡ sizes_in call.now (mutators_of typed.now.program) }
    ensures fits { AreWithinLimits result }
{
    Sizes {
        mutators: typed.threads(),
        lanes: call.lanes,
        objects: call.objects,
        copies: call.copies,
        events: call.events,
        calls: call.calls,
    }
}

/// The sizes of a demonstration, with a mutator for each thread.
fn choose_demo_sizes(typed: &Typed) -> Sizes
    ensures asked { result ≡ demo_sizes (mutators_of typed.now.program) }
    ensures fits { AreWithinLimits result }
{
    Sizes {
        mutators: typed.threads(),
        lanes: DEMO_LANES,
        objects: DEMO_OBJECTS,
        copies: DEMO_COPIES,
        events: DEMO_EVENTS,
        calls: DEMO_CALLS,
    }
}

/// Runs the program with these sizes, as the seed schedules it. What is left has a journal text.
fn run_program(alloc: Global, typed: &Typed, sizes: &Sizes, seed: u64) -> Result<Ran, NoMemory>
    requires sizes { AreWithinLimits sizes.now }
    requires threads { sizes.now.mutators ≡ mutators_of typed.now.program }
    ensures by_seed { IfOk result (λ ran. ran
        ≡ scheduled_run (shape_of typed.now.program) (resolution typed.now.program) sizes.now seed) }
    ensures right { IfOk result (IsRightRun (shape_of typed.now.program) (resolution typed.now.program) sizes.now) }
    ensures args { IfOk result (λ ran. All HasUsedArgs ran.journal) }
    ensures few_events { IfOk result (λ ran. length ran.journal < 2 ^ 32) }
    ensures few_verdicts { IfOk result (λ ran. length ran.verdicts < 2 ^ 32) }
{
    let _numbers = typed.resolved();
    let _shape = typed.shape();
    run_scheduled(alloc, typed, sizes, seed)
}
