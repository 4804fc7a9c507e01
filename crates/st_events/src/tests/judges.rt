//! The trait `Judge` can be met: by a judge to whom each verdict of a launched check is right.
ghost use Rattle.std.specs.Prelude.{◌≡◌};

use super::shape_of_rows;
use crate::{Judge, Shape};
use std::marker::Model;
use std::test::Fail;

/// Each verdict of a launched check is right.
#[derive(Drop)]
struct Lenient {
    shape: Shape,
}

impl Model for Lenient {
    ghost use Rattle.st_events.specs.Shape.{ShapeLists, IsWithinLimits};

    ghost Value = { ShapeLists };

    ghost view = { λ judge. judge.shape };

    ghost invariant = { λ judge. IsWithinLimits judge.shape };
}

impl Judge for Lenient {
    ghost use Rattle.std.specs.Prelude.{true, ◌||◌};
    ghost use Rattle.std.specs.List.{list_any};
    ghost use Rattle.std.proofs.Common.{◌∙◌, ap};
    ghost use Rattle.std.proofs.lemmas.List.Folds.{list_any-append};
    ghost use Rattle.st_events.specs.History.{has_launch, is_launch_of};

    ghost meant = { λ shape. shape };

    ghost right = { λ shape sizes es number verdict. has_launch number es ≡ true };

    ghost laws = { λ shape limits. record {
      launched = λ sizes es number verdict right. right;
      stays = λ sizes es fs number verdict legal right.
          list_any-append (is_launch_of number) es fs ∙ ap (λ b. b || list_any (is_launch_of number) fs) right;
    } };

    fn shape(&self) -> &Shape {
        &self.shape
    }
}

/// How many classes the program of a judge has.
fn class_count<J: Judge>(judge: &J) -> usize {
    judge.shape().class_count()
}

#[test]
fn a_judge_tells_its_shape(rt: HostRuntime) -> Result<(), Fail> {
    let shape = shape_of_rows(rt.alloc())?;
    assert!(rt; shape.fits());
    let judge = Lenient { shape };
    assert_eq!(rt; class_count(&judge), 3);
    Ok(())
}
