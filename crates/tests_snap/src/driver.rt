//! A snapshot heap with the objects and the checks that its caller knows of: each call tests what the heap asks, and says Refused where
//! that does not hold. All fields are numbers, so every word fits every cell.
ghost use Rattle.std.specs.Prelude.{◌≡◌, ℕ, ◌-◌, ◌↔◌, ◌<◌, length, slice_index_or, IfOk, IsOk, IsTrue};
ghost use Rattle.st_snap.specs.Snapshots.{active_now, rows_now, HasCell, has_kind_of};
ghost use Rattle.tests_snap.specs.Drive.{plain_shape, new_driven, object_at, IsRefusedUnless, CanMake, CanAct};

mod acts;
mod checks;
mod passes;

use st_events::{Args, Kind, NoMemory, Shape, Sizes};
use st_snap::{Lane, SnapHeap};
use std::alloc::Global;
use std::marker::Model;

const NO_ARGS: Args = Args {
    count: 0,
    words: [0; 4],
};

/// The heap can't be asked for this: a number is wrong, or room is out.
#[derive(Clone, Copy, Debug)]
pub struct Refused;

/// Why a call that takes memory came to nothing.
#[derive(Clone, Copy, Debug)]
pub enum Failed {
    /// The heap can't be asked for this.
    Refused,
    /// Memory is out.
    NoMemory,
}

impl From<Refused> for Failed {
    ghost use Rattle.tests_snap.specs.declared.driver.Failed.TheVariants as failed;

    ghost from_gives = { λ _ why. why ≡ failed.Refused };

    fn from(_refused: Refused) -> Failed {
        Failed::Refused
    }
}

impl From<NoMemory> for Failed {
    ghost use Rattle.tests_snap.specs.declared.driver.Failed.TheVariants as failed;

    ghost from_gives = { λ _ why. why ≡ failed.NoMemory };

    fn from(_no_memory: NoMemory) -> Failed {
        Failed::NoMemory
    }
}

/// A heap with the objects and the checks that its caller knows of, each by the order in which it came.
#[derive(Drop)]
pub struct Driven {
    heap: SnapHeap,
    sizes: Sizes,
    width: u8,
    /// Each object and how many fields it has; the shared object comes first.
    objects: Vec<(u32, u8)>,
    checks: Vec<Lane>,
}

impl Model for Driven {
    ghost use Rattle.tests_snap.specs.Drive.{DrivenHeap, IsDriven};

    ghost Value = { DrivenHeap };

    ghost view = { λ d. record { heap = d.heap; width = d.width; objects = d.objects.items; checks = d.checks.items } };

    ghost invariant = { λ d. IsDriven d.heap d.sizes d.width d.objects.items d.checks.items };
}

/// One shared number, a class 1 of so many numbers, and one check without arguments.
fn shape_of(alloc: Global, width: u8) -> Result<Shape, NoMemory>
    ensures { IfOk result (λ shape. shape ≡ plain_shape width) }
{
    let mut classes = Vec::new(alloc);
    classes.push(vec![in alloc; Kind::Int; 1]?)?;
    classes.push(vec![in alloc; Kind::Int; width as usize]?)?;
    let mut checks = Vec::new(alloc);
    checks.push(Vec::new(alloc))?;
    Ok(Shape { classes, checks })
}

impl Driven {
    /// A heap for objects of so many fields, before its first event.
    pub fn make(alloc: Global, width: u8, sizes: Sizes) -> Result<Driven, Failed>
        ensures refused { IsRefusedUnless (CanMake width sizes) result }
        ensures made { IfOk result (λ made. made ≡ new_driven width sizes) }
    {
        let shape = shape_of(alloc, width)?;
        if !shape.fits() {
            return Err(Failed::Refused);
        }
        if !sizes.fits() {
            return Err(Failed::Refused);
        }
        let heap = SnapHeap::make(alloc, &shape, &sizes)?;
        let objects = match Vec::from_slice(alloc, &[(1, 1)]) {
            Ok(objects) => objects,
            Err(_) => return Err(Failed::NoMemory),
        };
        Ok(Driven {
            heap,
            sizes,
            width,
            objects,
            checks: Vec::new(alloc),
        })
    }

    /// The number of an object, where the mutator can act on this field of it.
    pub fn cell(&self, m: u8, object: usize, field: u8) -> Result<u32, Refused>
        ensures asked { IsOk result ↔ CanAct self.now m object field }
        ensures number { IfOk result (λ obj. obj ≡ object_at self.now object) }
        ensures cell { IfOk result (λ obj. HasCell self.now.heap obj field) }
        ensures fits { IfOk result (λ obj. (word : ℕ) → IsTrue (has_kind_of self.now.heap obj field word)) }
    {
        if m >= self.sizes.mutators {
            return Err(Refused);
        }
        if object >= self.objects.len() {
            return Err(Refused);
        }
        let (obj, fields) = known_at(self.objects.as_slice(), object);
        if field >= fields {
            return Err(Refused);
        }
        if self.heap.spare() == 0 {
            return Err(Refused);
        }
        Ok(obj)
    }
}

/// The object at a place, and how many fields it has.
fn known_at(objects: &[(u32, u8)], place: usize) -> (u32, u8)
    requires { place < length objects.now }
    ensures { result ≡ slice_index_or objects.now place (0, 0) }
{
    objects[place]
}

impl Driven {
    /// How many copies are free.
    pub fn free(&self) -> u32
        ensures { result ≡ self.now.heap.sizes.copies - length (rows_now self.now.heap) }
    {
        self.heap.free()
    }

    /// How many lanes have no active check.
    pub fn idle(&self) -> u8
        ensures { result ≡ self.now.heap.sizes.lanes - length (active_now self.now.heap) }
    {
        self.heap.idle()
    }

    /// How many events the journal has at the end.
    pub fn into_event_count(self) -> u32
        ensures { result ≡ length self.heap.journal }
    {
        let Driven {
            heap,
            sizes: _,
            width: _,
            objects: _,
            checks: _,
        } = self;
        heap.into_journal().len()
    }
}
