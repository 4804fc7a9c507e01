//! What the crates of the heap know of a program that they cannot name.
ghost use Rattle.std.specs.Prelude.{◌≡◌, ℕ, List};
ghost use Rattle.st_events.specs.Judge.{IsJudge};
ghost use Rattle.st_events.specs.Shape.{ShapeLists, IsWithinLimits};
ghost use Rattle.st_events.specs.declared.events.Event.{Event};
ghost use Rattle.st_events.specs.declared.limits.Sizes.{Sizes};
ghost use Rattle.st_events.specs.declared.verdicts.Verdict.{Verdict};

use crate::shapes::Shape;

/// A program, as far as the heap, its threads and its checkers know it: a shape, and which verdicts are right.
///
/// Of the relation `right` they use nothing but its laws: only a launched check has a right verdict, and what is right
/// for a legal journal stays right in every legal journal that begins with it.
pub trait Judge {
    /// The shape of the program.
    ghost meant: { Self → ShapeLists };

    /// With these sizes and after these events, this verdict of the check with this number is right.
    ghost right: { Self → Sizes → List Event → ℕ → Verdict → Type 0 };

    /// The shape of the program, which is within the limits.
    fn shape(&self) -> &Shape
        ensures meant { result.now ≡ meant self.now }
        ensures fits { IsWithinLimits result.now };

    /// A value of a type with an invariant may stand in a law without it, so the limits are a premise, which `shape` gives.
    ghost laws: { (judge : Self) → IsWithinLimits (meant judge) → IsJudge (meant judge) (right judge) };
}
