//! A typed program as the crates of the heap know it: a shape, and which verdicts of its checks are right.
ghost use Rattle.std.specs.Prelude.{◌≡◌};

use st_events::{Judge, Shape};
use st_types::Typed;

/// A typed program, as the judge of its checks.
#[derive(Clone, Copy)]
pub struct TypedJudge<'a> {
    /// The program.
    pub typed: &'a Typed,
}

impl<'a> TypedJudge<'a> {
    /// The judge of a program.
    pub fn of(typed: &'a Typed) -> TypedJudge<'a>
        ensures { result.typed.now ≡ typed.now }
    {
        TypedJudge { typed }
    }
}

/// A verdict is right where it is the plain value of the check on the heap just before its launch, or Abandoned at an
/// object whose version is lost for it and of which it reads a cell on that heap.
impl<'a> Judge for TypedJudge<'a> {
    ghost use Rattle.st_resolved.specs.Views.{program_of};
    ghost use Rattle.st_thread_meaning.specs.Right.{IsRightVerdict};
    ghost use Rattle.st_thread_meaning.proofs.RightLemmas.{verdicts_make_a_judge};

    ghost meant = { λ j. j.typed.now.shape };

    ghost right = { λ j. IsRightVerdict j.typed.now.shape (program_of j.typed.now.resolved) };

    ghost laws = { λ j limits. verdicts_make_a_judge j.typed.now.shape (program_of j.typed.now.resolved) limits };

    fn shape(&self) -> &Shape {
        self.typed.shape()
    }
}
