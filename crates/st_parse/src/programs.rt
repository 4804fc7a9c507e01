//! The program: its declarations in their order.
ghost use Rattle.std.specs.Prelude.{◌≡◌, ◌<◌, ◌≤◌, length, OnOk};
ghost use Rattle.st_grammar_laws.specs.Reading as spec;
ghost use Rattle.st_parse.specs.Reads.{Reads};
ghost use Rattle.st_grammar.specs.declared.sorts.Sort.TheVariants as sort;

use crate::cursors::Cursor;
use crate::declarations::{class, pred, proc, shared_block, thread};
use crate::stops::Stop;
use st_ast::{Class, Items, Pred, Proc, Program, Thread};
use st_grammar::Sort;
use std::alloc::Global;

/// `{ class }`.
fn classes(alloc: Global, cursor: &mut Cursor<'_, '_>) -> Result<Items<Class>, Stop>
    ensures { Reads (λ found. found) (spec.many (spec.is_sort sort.Class) spec.class cursor.old) result cursor.new }
{
    let mut found = Items::new(alloc);
    while cursor.sees(Sort::Class) {
        found.push(class(alloc, cursor)?)?;
    }
    Ok(found)
}

/// `{ pred }`.
fn preds(alloc: Global, cursor: &mut Cursor<'_, '_>) -> Result<Items<Pred>, Stop>
    ensures { Reads (λ found. found) (spec.many (spec.is_sort sort.Pred) spec.pred cursor.old) result cursor.new }
{
    let mut found = Items::new(alloc);
    while cursor.sees(Sort::Pred) {
        found.push(pred(alloc, cursor)?)?;
    }
    Ok(found)
}

/// `{ proc }`.
fn procs(alloc: Global, cursor: &mut Cursor<'_, '_>) -> Result<Items<Proc>, Stop>
    ensures { Reads (λ found. found) (spec.many (spec.is_sort sort.Proc) spec.proc cursor.old) result cursor.new }
{
    let mut found = Items::new(alloc);
    while cursor.sees(Sort::Proc) {
        found.push(proc(alloc, cursor)?)?;
    }
    Ok(found)
}

/// `{ thread }`.
fn threads(alloc: Global, cursor: &mut Cursor<'_, '_>) -> Result<Items<Thread>, Stop>
    ensures { Reads (λ found. found) (spec.many (spec.is_sort sort.Thread) spec.thread cursor.old) result cursor.new }
{
    let mut found = Items::new(alloc);
    while cursor.sees(Sort::Thread) {
        found.push(thread(alloc, cursor)?)?;
    }
    Ok(found)
}

/// The end of the text.
#[tactic(auto, unfolding(st_grammar_laws::specs::Reading::finish))]
fn finish(cursor: &Cursor<'_, '_>) -> Result<(), Stop>
    ensures { Reads (λ x. tt) (spec.finish cursor.now) result cursor.now }
{
    match cursor.next() {
        Some(_) => Err(Stop::Fault),
        None => Ok(()),
    }
}

/// `{ class } [ shared ] { pred } { proc } { thread }`, and then the end.
#[tactic(auto, unfolding(st_grammar_laws::specs::Reading::program))]
pub fn program(alloc: Global, cursor: &mut Cursor<'_, '_>) -> Result<Program, Stop>
    ensures { Reads (λ x. x) (spec.program cursor.old) result cursor.new }
{
    let classes = classes(alloc, cursor)?;
    let shared = shared_block(alloc, cursor)?;
    let preds = preds(alloc, cursor)?;
    let procs = procs(alloc, cursor)?;
    let threads = threads(alloc, cursor)?;
    finish(cursor)?;
    Ok(Program {
        classes,
        shared,
        preds,
        procs,
        threads,
    })
}
