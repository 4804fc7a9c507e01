//! The evaluator of checks.
ghost use Rattle.std.specs.Prelude.{◌≡◌, ◌≤◌, ◌+◌, ◌*◌, ℕ, List, length, IfOk};
ghost use Rattle.st_events.specs.Heap.{Heap};
ghost use Rattle.st_resolved.specs.Views.{program_of};
ghost use Rattle.st_check_meaning.specs.Plain.{check_course};
ghost use Rattle.st_check_meaning.specs.Turns.{turn_of};
ghost use Rattle.st_eval.specs.Bodies.{IsCodeOf};
ghost use Rattle.st_eval.specs.Evaluations.{words_of, begun, IsMadeFor, budget, turn_by, IsTurn, IsAfterCells, AnswersInOrder};
ghost use Rattle.st_eval.specs.Room.{IsRunning};
ghost use Rattle.st_eval.specs.Runs.{turn_at, IsRun, IsLeft};

use crate::asks::Ask;
use crate::frames::Span;
use crate::program_codes::{ProgramCode, span_of};
use crate::stacks::Stack;
use crate::steps::step;
use st_check_meaning::MOST_DEPTH;
use st_events::{Args, MOST_ARGS, NoMemory};
use st_resolved::Resolved;
use std::alloc::{AllocError, Global};

/// Evaluates the checks of one program, one at a time, over a heap that it never holds: it asks for one cell at a time. All its
/// memory is taken when it is made.
#[derive(Debug, Drop)]
pub struct Eval {
    pub(crate) code: ProgramCode,
    pub(crate) stack: Stack,
    /// The most predicate calls of one check.
    pub(crate) calls: u32,
    /// How many of them are left.
    pub(crate) units: u32,
}

impl Eval {
    /// An evaluator for a program, in which a check may use at most so many predicate calls.
    pub fn make(alloc: Global, program: &Resolved, calls: u32) -> Result<Eval, NoMemory>
        ensures made { IfOk result (λ e. IsMadeFor (program_of program.now) e) }
        ensures budget { IfOk result (λ e. budget e ≡ calls) }
    {
        let code = ProgramCode::make(alloc, program)?;
        let stack = Stack::make(alloc, words_room(code.most_words)?, MOST_DEPTH)?;
        Ok(Eval {
            code,
            stack,
            calls,
            units: 0,
        })
    }

    /// Begins the evaluation of a check statement, by its site, with the values of its arguments, and drops any other. The first
    /// reply, which is 0, goes for nothing.
    pub fn start(&mut self, program: &Resolved, site: u16, args: Args)
        requires made { IsMadeFor (program_of program.now) self.old }
        requires few { args.count ≤ MOST_ARGS }
        ensures made { IsMadeFor (program_of program.now) self.new }
        ensures budget { budget self.new ≡ budget self.old }
        // The rest of the evaluation is the check's course.
        ensures turn { turn_by (program_of program.now) self.new 0 ≡ turn_of (check_course (program_of program.now) site (words_of args)) (budget self.old) }
        // On every heap, no cell was asked for yet.
        ensures order { (heap : Heap) → IsAfterCells (program_of program.now) heap site (words_of args) (budget self.old) 0 self.new 0 }
    {
        let span = span_of(self.code.checks.as_slice(), usize::from(site));
        self.begin(span, &args.words[..usize::from(args.count)]);
    }

    /// Begins a body alone, with these locals and the whole budget.
    fn begin(&mut self, span: Span, locals: &[u64])
        requires { length locals.now ≤ self.old.stack.words_room }
        ensures { self.new ≡ begun span locals.now self.old }
    {
        self.stack.restart(span, locals);
        self.units = self.calls;
    }

    /// Goes on by the word of the cell that was asked for last, 0 at first, and asks for the next cell, or is done. After that only
    /// `start` says what comes.
    pub fn next(&mut self, program: &Resolved, reply: u64) -> Ask
        requires { IsMadeFor (program_of program.now) self.old }
        ensures made { IsMadeFor (program_of program.now) self.new }
        ensures budget { budget self.new ≡ budget self.old }
        // The answer is what comes first of the rest.
        ensures turn { IsTurn (program_of program.now) (turn_by (program_of program.now) self.old reply) result self.new }
        // For every heap whose words are the replies, the cells asked for are those that the check reads, in order, and the value after
        // the last is the check's plain value.
        ensures order { (heap : Heap) (site : ℕ) (args : List ℕ) (calls k : ℕ)
            → IsAfterCells (program_of program.now) heap site args calls k self.old reply
            → AnswersInOrder (program_of program.now) heap site args calls k result self.new }
    {
        self.stack.push(reply);
        let answer = run(program, &self.code, &mut self.stack, &mut self.units);
        if let Ask::Done(_) = answer {
            self.stack.restart(Span { start: 0, end: 0 }, &[]);
        }
        answer
    }
}

/// Steps until the evaluation asks, or is over.
fn run(program: &Resolved, code: &ProgramCode, stack: &mut Stack, units: &mut u32) -> Ask
    requires code { IsCodeOf (program_of program.now) code.now }
    requires room { IsRunning code.now.instructions code.now.most_words stack.old }
    ensures turn { IsRun (program_of program.now) code.now (turn_at (program_of program.now) code.now stack.old units.old) result stack.new units.new }
    ensures left { IsLeft code.now result stack.new }
{
    'steps: loop {
        match step(
            code.instructions.as_slice(),
            code.preds.as_slice(),
            stack,
            units,
        ) {
            Some(ask) => return ask,
            None => {}
        }
    }
}

/// How many words all bodies that may be open have at most.
fn words_room(most_words: usize) -> Result<usize, AllocError>
    ensures { IfOk result (λ words. words ≡ (MOST_DEPTH + 1) * most_words + MOST_ARGS) }
{
    match most_words.checked_mul(MOST_DEPTH + 1) {
        None => Err(AllocError),
        Some(words) => match words.checked_add(MOST_ARGS) {
            None => Err(AllocError),
            Some(words) => Ok(words),
        },
    }
}
