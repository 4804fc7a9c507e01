//! A copy of a shape, which a snapshot heap keeps for as long as it lives.
ghost use Rattle.std.specs.Prelude.{◌≡◌, map, IfOk};

use st_events::{Kind, NoMemory, Shape};
use std::alloc::Global;

/// The same shape once more.
pub(crate) fn copy_shape(alloc: Global, shape: &Shape) -> Result<Shape, NoMemory>
    ensures { IfOk result (λ copy. copy ≡ shape.now) }
{
    Ok(Shape {
        classes: copy_lists(alloc, &shape.classes)?,
        checks: copy_lists(alloc, &shape.checks)?,
    })
}

/// The same lists once more.
fn copy_lists(alloc: Global, lists: &[Vec<Kind>]) -> Result<Vec<Vec<Kind>>, NoMemory>
    ensures { IfOk result (λ copies. map (λ kinds. kinds.items) copies.items ≡ map (λ kinds. kinds.items) lists.now) }
{
    let mut copies = Vec::with_capacity(alloc, lists.len())?;
    for kinds in lists {
        copies.push(Vec::from_slice(alloc, kinds)?)?;
    }
    Ok(copies)
}
