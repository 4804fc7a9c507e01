//! A check is evaluated on the heap that stands.
ghost use Rattle.std.specs.Prelude.{◌≡◌, ◌≤◌, ◌||◌};
ghost use Rattle.st_events.specs.Heap.{heap_of};
ghost use Rattle.st_events.specs.declared.shapes.TheConstants.{MOST_ARGS};
ghost use Rattle.st_resolved.specs.Views.{program_of};
ghost use Rattle.st_check_meaning.specs.Plain.{plain_value, cells_read, word_found};
ghost use Rattle.st_thread_meaning.specs.Right.{words_of, has_cell_of};
ghost use Rattle.st_eval.specs.Evaluations.{IsMadeFor, budget};
ghost use Rattle.st_audit.specs.Evaluations.{AreSmall};

use st_eval::{Ask, Eval};
use st_events::{Args, HeapMap, Plain};
use st_resolved::Resolved;

/// What the evaluation of a check tells.
#[derive(Clone, Copy, Debug)]
pub(crate) struct Evaluation {
    pub(crate) plain: Plain,
    /// Whether it read a cell of the object that was asked about.
    pub(crate) reads: bool,
}

/// The plain value of the check on the heap, and whether it reads a cell of the object.
pub(crate) fn evaluate(
    eval: &mut Eval,
    program: &Resolved,
    heap: &HeapMap,
    site: u16,
    args: Args,
    about: u32,
) -> Evaluation
    requires made { IsMadeFor (program_of program.now) eval.old }
    requires few { args.count ≤ MOST_ARGS }
    requires small { AreSmall (cells_read (program_of program.now) (heap_of heap.now) site (words_of args) (budget eval.old)) }
    ensures made { IsMadeFor (program_of program.now) eval.new }
    ensures budget { budget eval.new ≡ budget eval.old }
    ensures plain { result.plain ≡ plain_value (program_of program.now) (heap_of heap.now) site (words_of args) (budget eval.old) }
    ensures reads { result.reads ≡ has_cell_of about (cells_read (program_of program.now) (heap_of heap.now) site (words_of args) (budget eval.old)) }
{
    eval.start(program, site, args);
    let mut reply = 0;
    let mut reads = false;
    loop {
        match eval.next(program, reply) {
            Ask::Read { obj, field } => {
                reply = word_found(heap, obj, field);
                reads = either(reads, obj == about);
            }
            Ask::Done(plain) => return Evaluation { plain, reads },
        }
    }
}

/// The word of a cell; 0 where it does not exist.
fn word_found(heap: &HeapMap, obj: u32, field: u8) -> u64
    ensures { result ≡ word_found (heap_of heap.now) obj field }
{
    heap.get(obj, field).unwrap_or(0)
}

/// Whether one of the two holds.
fn either(first: bool, second: bool) -> bool
    ensures { result ≡ (first || second) }
{
    first || second
}
