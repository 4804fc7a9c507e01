//! The arguments of a check: the distinct locals that its expression names, in order of first mention.
ghost use Rattle.std.specs.Prelude.{◌≡◌, ◌≤◌, ◌++◌, length, map, slice_get, OnOk, IfOk};
ghost use Rattle.st_types.specs.Names.{find_local};
ghost use Rattle.st_types.specs.Scopes.{local_view};
ghost use Rattle.st_types.specs.Statements.{mentions, with_number, numbers_of, args_of_check, locals_at, if_any};
ghost use Rattle.st_types.specs.Tallies.{distinct_names};
ghost use Rattle.std.specs.List.{flat_map};
ghost use Rattle.st_resolved.specs.declared.limits.TheConstants.{MOST_LOCALS};

use crate::scopes::{Local, find_local};
use st_ast::Expr;
use std::alloc::{AllocError, Global};

/// Adds the number of the local of this name, where it is known and not among them.
fn add_local(numbers: &mut Vec<u8>, locals: &[Local], name: &[u8]) -> Result<(), AllocError>
    requires { length locals.now ≤ MOST_LOCALS }
    ensures { OnOk result (numbers.new.items ≡ with_number numbers.old.items (find_local (map local_view locals.now) name.now)) }
{
    let number = match find_local(locals, name) {
        Some(local) => local.number,
        None => return Ok(()),
    };
    if numbers.contains(&number) {
        return Ok(());
    }
    numbers.push(number)?;
    Ok(())
}

/// Adds the locals that expressions name, from left to right.
#[cycle(mentions)]
fn add_all(numbers: &mut Vec<u8>, locals: &[Local], es: &[Expr]) -> Result<(), AllocError>
    requires { length locals.now ≤ MOST_LOCALS }
    ensures { OnOk result (numbers.new.items ≡ numbers_of (map local_view locals.now) (flat_map mentions es.now) numbers.old.items) }
{
    for e in es {
        add_mentioned(numbers, locals, e)?;
    }
    Ok(())
}

/// Adds the locals that an expression names.
#[cycle(mentions)]
fn add_mentioned(numbers: &mut Vec<u8>, locals: &[Local], e: &Expr) -> Result<(), AllocError>
    requires { length locals.now ≤ MOST_LOCALS }
    ensures { OnOk result (numbers.new.items ≡ numbers_of (map local_view locals.now) (mentions e.now) numbers.old.items) }
{
    match e {
        Expr::Local { name, .. } => add_local(numbers, locals, name.as_slice()),
        Expr::Call { args, .. } => add_all(numbers, locals, args.as_slice()),
        Expr::Field { object, .. } => add_mentioned(numbers, locals, object.get()),
        Expr::Paren { inner, .. } => add_mentioned(numbers, locals, inner.get()),
        Expr::Not { inner, .. } => add_mentioned(numbers, locals, inner.get()),
        Expr::Minus { inner, .. } => add_mentioned(numbers, locals, inner.get()),
        Expr::Binary { left, right, .. } => {
            add_mentioned(numbers, locals, left.get())?;
            add_mentioned(numbers, locals, right.get())
        }
        Expr::Cond { test, yes, no, .. } => {
            add_mentioned(numbers, locals, test.get())?;
            add_mentioned(numbers, locals, yes.get())?;
            add_mentioned(numbers, locals, no.get())
        }
        Expr::Number { .. } | Expr::Truth { .. } | Expr::Null { .. } | Expr::Shared { .. } => Ok(
            (),
        ),
    }
}

/// The arguments of a check, by their numbers in the body.
fn args_of_check(alloc: Global, locals: &[Local], e: &Expr) -> Result<Vec<u8>, AllocError>
    requires { length locals.now ≤ MOST_LOCALS }
    ensures { IfOk result (λ numbers. numbers.items ≡ args_of_check (map local_view locals.now) e.now) }
{
    let mut numbers = Vec::new(alloc);
    add_mentioned(&mut numbers, locals, e)?;
    Ok(numbers)
}

/// Adds the local of this number, if there is one.
fn add_found<'a>(
    found: &mut Vec<Local<'a>>,
    locals: &[Local<'a>],
    number: u8,
) -> Result<(), AllocError>
    ensures { OnOk result (found.new.items ≡ found.old.items ++ if_any (slice_get locals.now number)) }
{
    match locals.get(number as usize) {
        Some(local) => found.push(*local)?,
        None => {}
    }
    Ok(())
}

/// The locals of these numbers.
fn locals_at<'a>(
    alloc: Global,
    locals: &[Local<'a>],
    numbers: &[u8],
) -> Result<Vec<Local<'a>>, AllocError>
    ensures { IfOk result (λ found. found.items ≡ flat_map (λ n. if_any (slice_get locals.now n)) numbers.now) }
{
    let mut found = Vec::new(alloc);
    for number in numbers {
        add_found(&mut found, locals, *number)?;
    }
    Ok(found)
}

/// What a check takes: its arguments by their numbers in the body, and the locals that they are.
#[derive(Drop)]
pub(crate) struct Taken<'a> {
    pub(crate) args: Vec<u8>,
    pub(crate) locals: Vec<Local<'a>>,
}

/// What a check takes: the distinct locals that its expression names, in order of first mention.
pub(crate) fn taken_by<'a>(
    alloc: Global,
    locals: &[Local<'a>],
    e: &Expr,
) -> Result<Taken<'a>, AllocError>
    requires { length locals.now ≤ MOST_LOCALS }
    ensures args { IfOk result (λ t. t.args.items ≡ args_of_check (map local_view locals.now) e.now) }
    ensures locals { IfOk result (λ t. map local_view t.locals.items ≡ locals_at (map local_view locals.now) (args_of_check (map local_view locals.now) e.now)) }
    ensures few { IfOk result (λ t. length t.locals.items ≤ distinct_names e.now) }
{
    let args = args_of_check(alloc, locals, e)?;
    let locals = locals_at(alloc, locals, &args)?;
    Ok(Taken { args, locals })
}
