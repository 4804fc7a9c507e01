//! Calls of predicates and procedures: as many arguments as parameters, each of its kind.
ghost use Rattle.std.specs.Prelude.{◌≡◌, ◌<◌, map, length, true, IfOk, IfSome, option_map, Err};
ghost use Rattle.st_ast.specs.declared.expressions.Expr.TheOpen.{Expr-F};
ghost use Rattle.st_types.specs.Checked.{Gives, verdict};
ghost use Rattle.st_types.specs.Judged.{outcome};
ghost use Rattle.st_types.specs.Names.{HasFewNames};
ghost use Rattle.st_types.specs.Names.{pred_number, param_kinds};
ghost use Rattle.st_types.specs.Nodes.{asks_args, asks_each, no_predicate, refuses_call, find_pred, is_callable};
ghost use Rattle.st_types.specs.Scopes.{scope_view, IsSmall};
ghost use Rattle.st_types.specs.Typing.{seen_of};

use crate::errors::TypeError;
use crate::expressions::{Typing, leaf};
use crate::kinds::ask;
use crate::names::{kind_of, pred_number, proc_number};
use crate::scopes::Scope;
use st_ast::{Param, Program};
use st_events::Site;
use st_resolved::{Expr, Items};
use std::alloc::{AllocError, Global};

/// Refuses arguments that do not go with the kinds of the parameters.
fn ask_each(program: &Program, params: &[Param], args: &[Typing]) -> Result<(), TypeError>
    requires names { HasFewNames program.now }
    ensures { result ≡ verdict (asks_each (param_kinds program.now params.now) (map seen_of args.now)) tt }
{
    match (params.split_first(), args.split_first()) {
        (Some((param, params)), Some((arg, args))) => {
            ask(kind_of(program, &param.kind), arg.site, arg.kind)?;
            ask_each(program, params, args)
        }
        _ => Ok(()),
    }
}

/// Refuses arguments that are not as many as the parameters, or not of their kinds.
pub(crate) fn ask_args(
    program: &Program,
    params: &[Param],
    args: &[Typing],
    site: Site,
) -> Result<(), TypeError>
    requires { HasFewNames program.now }
    ensures { result ≡ verdict (asks_args program.now params.now (map seen_of args.now) site) tt }
{
    if args.len() != params.len() {
        return Err(TypeError::WrongCount { at: site });
    }
    ask_each(program, params, args)
}

/// Whether the name is that of a predicate or a procedure.
fn is_callable(program: &Program, name: &[u8]) -> bool
    ensures { result ≡ is_callable program.now name.now }
{
    pred_number(program, name).is_some() || proc_number(program, name).is_some()
}

/// Why no call may stand in an expression of a thread or a procedure.
pub(crate) fn refused_call(program: &Program, name: &[u8], site: Site) -> TypeError
    ensures { verdict (refuses_call program.now name.now site) (tt {0}) ≡ Err result }
{
    if is_callable(program, name) {
        TypeError::NotHere { at: site }
    } else {
        TypeError::UnknownName { at: site }
    }
}

/// Why the name, which is that of no predicate, is not called.
fn no_predicate(program: &Program, name: &[u8], site: Site) -> TypeError
    ensures { verdict (no_predicate program.now name.now site) (tt {0}) ≡ Err result }
{
    match proc_number(program, name) {
        Some(_) => TypeError::NotPure { at: site },
        None => TypeError::UnknownName { at: site },
    }
}

/// The expressions of arguments.
pub(crate) fn exprs_of(alloc: Global, args: Vec<Typing>) -> Result<Items<Expr>, AllocError>
    ensures { IfOk result (λ exprs. exprs ≡ map (λ arg. arg.expr) args.items) }
{
    let exprs: Vec<Expr> = args
        .into_iter()
        .map(|arg| arg.expr.into_inner())
        .collect(alloc)?;
    Ok(Items::from_vec(exprs))
}

/// A call of a predicate.
pub(crate) fn predicate_call(
    alloc: Global,
    scope: &Scope,
    name: &[u8],
    args: Vec<Typing>,
    site: Site,
) -> Result<Typing, TypeError>
    requires small { IsSmall scope.now }
    requires may { scope.now.may_call ≡ true }
    ensures { Gives seen_of result (outcome (scope_view scope.now) (Expr-F.Call name.now (map seen_of args.items) site)) }
{
    let number = match pred_number(scope.program, name) {
        Some(number) => number,
        None => return Err(no_predicate(scope.program, name, site)),
    };
    let pred = match scope.program.preds.get(number) {
        Some(pred) => pred,
        None => return Err(no_predicate(scope.program, name, site)),
    };
    ask_args(scope.program, pred.params.as_slice(), &args, site)?;
    let kind = kind_of(scope.program, &pred.result);
    let expr = Expr::Call {
        pred: number as u8,
        args: exprs_of(alloc, args)?,
    };
    leaf(alloc, kind, expr, site)
}

/// A call in an expression.
pub(crate) fn call(
    alloc: Global,
    scope: &Scope,
    name: &[u8],
    args: Vec<Typing>,
    site: Site,
) -> Result<Typing, TypeError>
    requires { IsSmall scope.now }
    ensures { Gives seen_of result (outcome (scope_view scope.now) (Expr-F.Call name.now (map seen_of args.items) site)) }
{
    if scope.may_call {
        return predicate_call(alloc, scope, name, args, site);
    }
    Err(refused_call(scope.program, name, site))
}
