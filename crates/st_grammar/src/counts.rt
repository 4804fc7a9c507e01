//! What a program may have too many of, and its first item that is above its limit.
ghost use Rattle.std.specs.Prelude.{◌≡◌, ◌<◌, None};
ghost use Rattle.st_grammar.specs.Counts as spec;

use st_ast::MOST_SOURCE_CLASSES;
use st_events::{MOST_ARGS, MOST_CHECKS, MOST_FIELDS, MOST_MUTATORS, Site};
use st_resolved::{MOST_LOCALS, MOST_PARAMS, MOST_PREDS, MOST_PROCS};
use std::fmt;

/// What a text has too many of.
#[derive(Clone, Copy, Debug, PartialEq, Eq)]
pub enum What {
    /// Classes, above `MOST_SOURCE_CLASSES`.
    Classes,
    /// Fields of a class, or shared variables, above `MOST_FIELDS`.
    Fields,
    /// Predicates, above `MOST_PREDS`.
    Preds,
    /// Procedures, above `MOST_PROCS`.
    Procs,
    /// Threads, above `MOST_MUTATORS`.
    Threads,
    /// Parameters of a predicate or a procedure, above `MOST_PARAMS`.
    Params,
    /// Locals of a body, parameters included, above `MOST_LOCALS`.
    Locals,
    /// Arguments of a check, above `MOST_ARGS`.
    CheckArgs,
    /// Check statements, above `MOST_CHECKS`.
    Checks,
}

impl fmt::Display for What {
    fn fmt<W: fmt::Write>(&self, f: &mut fmt::Formatter<W>) -> fmt::Result {
        f.write_str(match self {
            What::Classes => "classes",
            What::Fields => "fields",
            What::Preds => "predicates",
            What::Procs => "procedures",
            What::Threads => "threads",
            What::Params => "parameters",
            What::Locals => "locals",
            What::CheckArgs => "arguments",
            What::Checks => "checks",
        })
    }
}

/// What is counted.
#[derive(Clone, Copy)]
pub enum Item {
    /// The count of these begins anew.
    Anew(What),
    /// One of these, at its place.
    One(What, Site),
}

/// The most that there may be.
fn most(what: What) -> usize
    ensures { result ≡ spec.most what }
{
    match what {
        What::Classes => MOST_SOURCE_CLASSES,
        What::Fields => MOST_FIELDS,
        What::Preds => MOST_PREDS,
        What::Procs => MOST_PROCS,
        What::Threads => MOST_MUTATORS as usize,
        What::Params => MOST_PARAMS,
        What::Locals => MOST_LOCALS,
        What::CheckArgs => MOST_ARGS,
        What::Checks => MOST_CHECKS,
    }
}

/// The place of a count among the counts.
fn slot(what: What) -> usize
    ensures value { result ≡ spec.slot what }
    ensures bound { result < 9 }
{
    match what {
        What::Classes => 0,
        What::Fields => 1,
        What::Preds => 2,
        What::Procs => 3,
        What::Threads => 4,
        What::Params => 5,
        What::Locals => 6,
        What::CheckArgs => 7,
        What::Checks => 8,
    }
}

/// What one more item is in excess of, with its place.
fn excess(counts: &[usize; 9], item: Item) -> Option<(What, Site)>
    ensures { result ≡ spec.excess counts.now item }
{
    match item {
        Item::Anew(_) => None,
        Item::One(what, site) => (counts[slot(what)] >= most(what)).then_some((what, site)),
    }
}

/// Counts one more item, which is above no limit.
fn count(counts: &mut [usize; 9], item: Item)
    requires { spec.excess counts.old item ≡ None }
    ensures { counts.new ≡ spec.counted counts.old item }
{
    match item {
        Item::Anew(what) => counts[slot(what)] = 0,
        Item::One(what, _) => counts[slot(what)] += 1,
    }
}

/// The first item above its limit.
#[tactic(auto, unfolding(crate::specs::Counts::first_excess))]
pub fn first_excess(items: &[Item]) -> Option<(What, Site)>
    ensures { result ≡ spec.first_excess items.now }
{
    let mut counts = [0; 9];
    for item in items {
        match excess(&counts, *item) {
            Some(over) => return Some(over),
            None => count(&mut counts, *item),
        }
    }
    None
}
