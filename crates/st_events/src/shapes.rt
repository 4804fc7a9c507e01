//! The shape of a program: what its classes and checks look like to the heap.
ghost use Rattle.std.specs.Prelude.{◌≡◌, ◌≤◌, ◌↔◌, IsTrue, All, slice_get, option_map, map, length};
ghost use Rattle.st_events.specs.Kind.{AreKindsWithin, IsDeclaredKind};
ghost use Rattle.st_events.specs.Shape.{IsWithinLimits, lists_of};

use std::marker::Model;

/// The most classes of a shape, class 0 included.
pub const MOST_CLASSES: usize = 255;
/// The most fields of a class, and of the shared object.
pub const MOST_FIELDS: usize = 12;
/// The most check statements of a program.
pub const MOST_CHECKS: usize = 1_024;
/// The most arguments of a check.
pub const MOST_ARGS: usize = 4;

/// The kind of a word.
#[derive(Clone, Copy, Debug, PartialEq, Eq)]
pub enum Kind {
    /// A signed number of 64 bits in two's complement.
    Int,
    /// 0 or 1.
    Bool,
    /// 0 for null, or the number of an object of this class, from 1.
    Ref(u8),
}

/// What the heap knows of a program. Contracts see it as lists.
#[derive(Drop)]
pub struct Shape {
    /// The kinds of the fields of each class; class 0 is the shared object's.
    pub classes: Vec<Vec<Kind>>,
    /// The kinds of the arguments of each check statement, in source order.
    pub checks: Vec<Vec<Kind>>,
}

impl Model for Shape {
    ghost use Rattle.st_events.specs.Shape.{ShapeLists, lists_of};

    ghost Value = { ShapeLists };

    ghost view = { λ s. lists_of s.classes.items s.checks.items };
}

impl Shape {
    ghost use Rattle.st_events.specs.Shape.{kinds_of};

    /// Whether the numbers of classes, fields, check statements and arguments are within their limits, and each class
    /// that a kind names is declared, from 1 on.
    pub fn fits(&self) -> bool
        ensures { IsTrue result ↔ IsWithinLimits self.now }
    {
        lists_within_limits(&self.classes, &self.checks)
    }

    /// How many classes there are, class 0 included.
    pub fn class_count(&self) -> usize
        ensures { result ≡ length self.now.classes }
    {
        self.classes.len()
    }

    /// The kinds of the fields of a class; none where the class is not declared.
    pub fn fields(&self, class: u8) -> &[Kind]
        ensures { result.now ≡ kinds_of self.now class }
    {
        match self.classes.get(class as usize) {
            Some(kinds) => kinds.as_slice(),
            None => &[],
        }
    }

    /// The kinds of the arguments of a check statement, where there is one of this number.
    pub fn check_kinds(&self, site: u16) -> Option<&[Kind]>
        ensures { option_map (λ kinds. kinds.now) result ≡ slice_get self.now.checks site }
    {
        match self.checks.get(site as usize) {
            Some(kinds) => Some(kinds.as_slice()),
            None => None,
        }
    }
}

/// The same of the lists of a shape.
fn lists_within_limits(classes: &[Vec<Kind>], checks: &[Vec<Kind>]) -> bool
    ensures { IsTrue result ↔ IsWithinLimits (lists_of classes.now checks.now) }
{
    if !counts_fit(classes.len(), checks.len()) {
        return false;
    }
    if !lists_fit(classes, MOST_FIELDS, classes.len()) {
        return false;
    }
    lists_fit(checks, MOST_ARGS, classes.len())
}

/// Whether so many classes and check statements are within the limits.
fn counts_fit(classes: usize, checks: usize) -> bool
    ensures { IsTrue result ↔ ((1 ≤ classes) × (classes ≤ MOST_CLASSES) × (checks ≤ MOST_CHECKS)) }
{
    (1..=MOST_CLASSES).contains(&classes) && checks <= MOST_CHECKS
}

/// Whether each list has at most `most` kinds, each of which names a declared class where it names one.
fn lists_fit(lists: &[Vec<Kind>], most: usize, classes: usize) -> bool
    ensures { IsTrue result ↔ All (AreKindsWithin most classes) (map (λ l. l.items) lists.now) }
{
    lists
        .iter()
        .all(|kinds| kinds_fit(kinds.as_slice(), most, classes))
}

/// The same of one list.
fn kinds_fit(kinds: &[Kind], most: usize, classes: usize) -> bool
    ensures { IsTrue result ↔ AreKindsWithin most classes kinds.now }
{
    kinds.len() <= most && kinds.iter().all(|kind| is_declared(*kind, classes))
}

/// Whether the class that the kind names, if it names one, is declared, from 1 on.
fn is_declared(kind: Kind, classes: usize) -> bool
    ensures { IsTrue result ↔ IsDeclaredKind classes kind }
{
    match kind {
        Kind::Int | Kind::Bool => true,
        Kind::Ref(class) => 1 <= class && (class as usize) < classes,
    }
}
