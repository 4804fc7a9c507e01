//! A judge to whom no verdict is right.
ghost use Rattle.std.specs.Prelude.{IfOk};
ghost use Rattle.st_barrier.specs.Counting.{HasNumbers};

use st_events::{Judge, Kind, Shape};
use std::alloc::{AllocError, Global};
use std::marker::Model;
use std::test::Fail;

/// A judge to whom no verdict is right.
#[derive(Drop)]
pub struct Silent {
    shape: Shape,
}

impl Model for Silent {
    ghost use Rattle.st_events.specs.Shape.{ShapeLists, IsWithinLimits};

    ghost Value = { ShapeLists };

    ghost view = { λ judge. judge.shape };

    ghost invariant = { λ judge. IsWithinLimits judge.shape };
}

impl Judge for Silent {
    ghost meant = { λ shape. shape };

    ghost right = { λ shape sizes es number verdict. ⊥ };

    ghost laws = { λ shape limits. record {
      launched = λ sizes es number verdict right. absurd right;
      stays = λ sizes es fs number verdict legal right. absurd right;
    } };

    fn shape(&self) -> &Shape {
        &self.shape
    }
}

/// A class of one number, which the shared object has too.
fn numbers(alloc: Global) -> Result<Shape, AllocError>
    ensures { IfOk result HasNumbers }
{
    Ok(Shape {
        classes: vec![in alloc; vec![in alloc; Kind::Int]?, vec![in alloc; Kind::Int]?]?,
        checks: Vec::new(alloc),
    })
}

/// A judge of a program with these classes and no check.
pub fn judge_of_numbers(alloc: Global) -> Result<Silent, Fail>
    ensures { IfOk result HasNumbers }
{
    let shape = numbers(alloc)?;
    if !shape.fits() {
        return Err(Fail::from("the shape fits"));
    }
    Ok(Silent { shape })
}

/// A judge of a program with no field and no check.
pub fn quiet_judge(alloc: Global) -> Result<Silent, Fail> {
    let mut classes = Vec::new(alloc);
    classes.push(Vec::new(alloc))?;
    let shape = Shape {
        classes,
        checks: Vec::new(alloc),
    };
    if !shape.fits() {
        return Err(Fail::from("the shape fits"));
    }
    Ok(Silent { shape })
}
