//! What is known of kinds while a tree is walked.
ghost use Rattle.std.specs.Prelude.{◌≡◌, ◌++◌};
ghost use Rattle.st_types.specs.Kinds.{same_kind, goes_with, asked_as, told_as, is_class, asks, kind_told};
ghost use Rattle.st_types.specs.Checked.{verdict};

use crate::errors::{TypeError, Wanted};
use st_events::{Kind, Site};

/// What is known of the kind of an expression, a value or a declared name.
#[derive(Clone, Copy)]
pub enum Found {
    /// Nothing, since it hangs on an unknown name, which is told at its own place.
    Unknown,
    /// It is `null`.
    Null,
    /// Its kind.
    Known(Kind),
}

/// Whether the two kinds are one.
fn same_kind(left: Kind, right: Kind) -> bool
    ensures { result ≡ same_kind left right }
{
    match (left, right) {
        (Kind::Int, Kind::Int) | (Kind::Bool, Kind::Bool) => true,
        (Kind::Ref(left), Kind::Ref(right)) => left == right,
        _ => false,
    }
}

/// Whether the kind is that of a class.
fn is_class(kind: Kind) -> bool
    ensures { result ≡ is_class kind }
{
    matches!(kind, Kind::Ref(_))
}

/// Whether what is found may stand where the other is asked. `null` goes with every class.
fn goes_with(asked: Found, found: Found) -> bool
    ensures { result ≡ goes_with asked found }
{
    match (asked, found) {
        (Found::Unknown, _) | (_, Found::Unknown) | (Found::Null, Found::Null) => true,
        (Found::Null, Found::Known(kind)) | (Found::Known(kind), Found::Null) => is_class(kind),
        (Found::Known(asked), Found::Known(found)) => same_kind(asked, found),
    }
}

/// How a mismatch tells what is asked: any class where it is `null`.
fn asked_as(asked: Found) -> Wanted
    ensures { result ≡ asked_as asked }
{
    match asked {
        Found::Unknown | Found::Null => Wanted::AnyRef,
        Found::Known(kind) => wanted(kind),
    }
}

/// How a mismatch tells what is found.
pub(crate) fn told_as(found: Found) -> Wanted
    ensures { result ≡ told_as found }
{
    match found {
        Found::Unknown | Found::Null => Wanted::Null,
        Found::Known(kind) => wanted(kind),
    }
}

/// A kind as a mismatch tells it.
fn wanted(kind: Kind) -> Wanted
    ensures { result ≡ kind_told kind }
{
    match kind {
        Kind::Int => Wanted::Int,
        Kind::Bool => Wanted::Bool,
        Kind::Ref(class) => Wanted::Ref(class),
    }
}

/// Refuses what does not go with the kind that is asked.
pub(crate) fn ask(asked: Found, at: Site, found: Found) -> Result<(), TypeError>
    ensures { result ≡ verdict (asks asked at found) tt }
{
    if goes_with(asked, found) {
        Ok(())
    } else {
        Err(TypeError::Mismatch {
            at,
            wanted: asked_as(asked),
            found: told_as(found),
        })
    }
}

/// What is asked of an expression or a value, and what is found.
#[derive(Clone, Copy)]
pub(crate) struct Question {
    pub(crate) asked: Found,
    pub(crate) at: Site,
    pub(crate) found: Found,
}

/// Refuses the first of two that does not go with what is asked of it.
#[tactic(auto, using(crate::proofs::CheckedLemmas::verdict_append))]
pub(crate) fn ask_both(first: Question, second: Question) -> Result<(), TypeError>
    ensures { result ≡ verdict (asks first.asked first.at first.found ++ asks second.asked second.at second.found) tt }
{
    ask(first.asked, first.at, first.found)?;
    ask(second.asked, second.at, second.found)
}
