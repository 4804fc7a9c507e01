//! Statements: their faults in the order of the walk, and themselves with numbers in the place of names.
ghost use Rattle.std.specs.Prelude.{◌≡◌, ◌≤◌, ◌<◌, length, map, true, Ok, IfOk};
ghost use Rattle.st_events.specs.declared.shapes.TheConstants.{MOST_ARGS};
ghost use Rattle.st_resolved.specs.Terms.{an_if, a_while, a_launch};
ghost use Rattle.st_resolved.specs.Views.{command_of, block_of, term_of, check_of};
ghost use Rattle.st_types.specs.Checked.{Gives};
ghost use Rattle.st_types.specs.Names.{HasFewNames};
ghost use Rattle.st_types.specs.Stepwise.{step, step_all, step_block, step_var, step_check, typed_condition, with_check};
ghost use Rattle.st_types.specs.Tallies.{tally, tally_all, distinct_names};
ghost use Rattle.st_types.specs.Scopes.{local_view};
ghost use Rattle.st_types.specs.Typing.{seen_of};
ghost use Rattle.st_types.specs.Walks.{reached_of, stepped_at, stepped_block_at, HasRoom};

use crate::arguments::taken_by;
use crate::assignments::{assignment, procedure_call, store, var_value};
use crate::errors::TypeError;
use crate::expressions::Typing;
use crate::names::kind_of;
use crate::scopes::{Local, Scope};
use crate::values::typed_condition;
use crate::walks::{Walk, kinds_of};
use st_ast::{Expr, Name, Program, TypeName, Value};
use st_events::{Kind, MOST_CHECKS, Site};
use st_resolved::{Boxed, Check, Items, MOST_LOCALS, Stmt};
use std::alloc::{AllocError, Global};

/// A `var`: its value, and then the local.
fn var<'a>(
    alloc: Global,
    program: &'a Program,
    walk: &mut Walk<'a>,
    name: &'a Name,
    kind: &TypeName,
    value: &Value,
    site: Site,
) -> Result<Boxed<Stmt>, TypeError>
    requires names { HasFewNames program.now }
    requires room { length walk.old.locals.items < MOST_LOCALS }
    ensures { Gives (stepped_at walk.new) result (step_var program.now (reached_of walk.old) name.now kind.now value.now site) }
{
    let scope = walk.scope(program);
    let value = var_value(alloc, &scope, name.as_slice(), kind, value, site)?;
    let local = walk.locals.len() as u8;
    walk.declare(name.as_slice(), kind_of(program, kind))?;
    let statement = Stmt::Set {
        local,
        source: value.source.into_inner(),
    };
    Ok(Boxed::new(alloc, statement)?)
}

/// The expression of a check, whose locals are its arguments.
fn check_body(
    alloc: Global,
    program: &Program,
    locals: &[Local],
    body: &Expr,
) -> Result<Typing, TypeError>
    requires names { HasFewNames program.now }
    requires locals { length locals.now ≤ MOST_LOCALS }
    ensures { Gives seen_of result (typed_condition (record { program = program.now; locals = map local_view locals.now; may_call = true }) body.now) }
{
    let scope = Scope {
        program,
        locals,
        may_call: true,
    };
    typed_condition(alloc, &scope, body)
}

/// The launch of a check statement.
fn launch(
    alloc: Global,
    walk: &mut Walk,
    check: Check,
    kinds: Vec<Kind>,
) -> Result<Boxed<Stmt>, AllocError>
    requires { length walk.old.checks.items < MOST_CHECKS }
    ensures { IfOk result (λ s. stepped_at walk.new s ≡ record { command = a_launch (length walk.old.checks.items); reached = with_check (reached_of walk.old) (check_of check) kinds.items }) }
{
    let site = walk.checks.len() as u16;
    walk.launch(check, kinds)?;
    Ok(Boxed::new(alloc, Stmt::Check { site })?)
}

/// A check statement. Its locals are its arguments: the distinct locals that it names, in order of first mention.
fn check(
    alloc: Global,
    program: &Program,
    walk: &mut Walk,
    body: &Expr,
    at: Site,
) -> Result<Boxed<Stmt>, TypeError>
    requires names { HasFewNames program.now }
    requires locals { length walk.old.locals.items ≤ MOST_LOCALS }
    requires checks { length walk.old.checks.items < MOST_CHECKS }
    requires arguments { distinct_names body.now ≤ MOST_ARGS }
    ensures { Gives (stepped_at walk.new) result (step_check program.now (reached_of walk.old) body.now at) }
{
    let taken = taken_by(alloc, &walk.locals, body)?;
    let seen = check_body(alloc, program, &taken.locals, body)?;
    let kinds = kinds_of(alloc, &taken.locals)?;
    let check = Check {
        args: Items::from_vec(taken.args),
        body: seen.expr.into_inner(),
        at,
    };
    Ok(launch(alloc, walk, check, kinds)?)
}

/// Statements, one after another.
#[cycle(statements)]
pub(crate) fn statements_in<'a>(
    alloc: Global,
    program: &'a Program,
    walk: &mut Walk<'a>,
    statements: &'a [st_ast::Stmt],
) -> Result<Items<Stmt>, TypeError>
    requires names { HasFewNames program.now }
    requires room { HasRoom walk.old (tally_all statements.now) }
    ensures { Gives (stepped_block_at walk.new) result (step_all (map (step program.now) statements.now) (reached_of walk.old)) }
{
    let mut done = Vec::new(alloc);
    for statement in statements {
        done.push(typed_statement(alloc, program, walk, statement)?.into_inner())?;
    }
    Ok(Items::from_vec(done))
}

/// A block: its statements. What it declares is known up to its end.
#[cycle(statements)]
fn block<'a>(
    alloc: Global,
    program: &'a Program,
    walk: &mut Walk<'a>,
    statements: &'a [st_ast::Stmt],
) -> Result<Items<Stmt>, TypeError>
    requires names { HasFewNames program.now }
    requires room { HasRoom walk.old (tally_all statements.now) }
    ensures { Gives (stepped_block_at walk.new) result (step_block (map (step program.now) statements.now) (reached_of walk.old)) }
{
    let before = walk.locals.len();
    let done = statements_in(alloc, program, walk, statements)?;
    walk.close(before);
    Ok(done)
}

/// `if`, of its parts.
fn if_statement(
    alloc: Global,
    test: Typing,
    then: Items<Stmt>,
    other: Items<Stmt>,
) -> Result<Boxed<Stmt>, TypeError>
    ensures { Gives command_of result (Ok (an_if (term_of test.expr) (block_of then) (block_of other))) }
{
    let statement = Stmt::If {
        test: test.expr.into_inner(),
        then,
        other,
    };
    Ok(Boxed::new(alloc, statement)?)
}

/// `while`, of its parts.
fn while_statement(alloc: Global, test: Typing, body: Items<Stmt>) -> Result<Boxed<Stmt>, TypeError>
    ensures { Gives command_of result (Ok (a_while (term_of test.expr) (block_of body))) }
{
    let statement = Stmt::While {
        test: test.expr.into_inner(),
        body,
    };
    Ok(Boxed::new(alloc, statement)?)
}

/// A statement.
#[cycle(statements)]
fn typed_statement<'a>(
    alloc: Global,
    program: &'a Program,
    walk: &mut Walk<'a>,
    statement: &'a st_ast::Stmt,
) -> Result<Boxed<Stmt>, TypeError>
    requires names { HasFewNames program.now }
    requires room { HasRoom walk.old (tally statement.now) }
    ensures { Gives (stepped_at walk.new) result (step program.now statement.now (reached_of walk.old)) }
{
    match statement {
        st_ast::Stmt::Var {
            name,
            kind,
            value,
            site,
            ..
        } => var(alloc, program, walk, name, kind, value, *site),
        st_ast::Stmt::Assign { name, value, site } => {
            assignment(alloc, &walk.scope(program), name.as_slice(), value, *site)
        }
        st_ast::Stmt::Put { place, value, .. } => {
            store(alloc, &walk.scope(program), place, value)
        }
        st_ast::Stmt::If {
            cond,
            then,
            other,
            ..
        } => {
            let test = typed_condition(alloc, &walk.scope(program), cond)?;
            let then = block(alloc, program, walk, then.as_slice())?;
            match other {
                Some(other) => {
                    let other = block(alloc, program, walk, other.as_slice())?;
                    if_statement(alloc, test, then, other)
                }
                None => if_statement(alloc, test, then, Items::new(alloc)),
            }
        }
        st_ast::Stmt::While { cond, body, .. } => {
            let test = typed_condition(alloc, &walk.scope(program), cond)?;
            let body = block(alloc, program, walk, body.as_slice())?;
            while_statement(alloc, test, body)
        }
        st_ast::Stmt::Call { name, args, site } => {
            let scope = walk.scope(program);
            procedure_call(alloc, &scope, name.as_slice(), args.as_slice(), *site)
        }
        st_ast::Stmt::Check { body, site } => check(alloc, program, walk, body, *site),
    }
}
