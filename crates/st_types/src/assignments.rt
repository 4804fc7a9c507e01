//! Statements that give a value to a local or a cell, and calls of procedures.
ghost use Rattle.std.specs.Prelude.{◌≡◌, ◌++◌, map, length, IfSome, Err};
ghost use Rattle.st_resolved.specs.Views.{command_of};
ghost use Rattle.st_types.specs.Checked.{Gives, verdict};
ghost use Rattle.st_types.specs.Scopes.{scope_view, IsSmall};
ghost use Rattle.st_types.specs.Statements.{asks_class, asks_type, asks_new, is_local, asks_proc};
ghost use Rattle.st_types.specs.Stepwise.{var_given, assigned, stored, called, proc_command};
ghost use Rattle.st_types.specs.Names.{proc_number};
ghost use Rattle.st_types.specs.Nodes.{number_or_0};
ghost use Rattle.st_types.specs.Names.{HasFewNames};
ghost use Rattle.st_types.specs.Typing.{given_of, seen_of};
ghost use Rattle.st_types.specs.Scopes.{local_view};
ghost use Rattle.std.specs.List.{list_any};
ghost use Rattle.std.specs.Str.{bytes_eq};

use crate::calls::{ask_args, exprs_of};
use crate::errors::TypeError;
use crate::expressions::{Typing, typed, typed_args};
use crate::kinds::ask;
use crate::names::{class_number, kind_of, pred_number, proc_number};
use crate::scopes::{Local, Scope, find_local};
use crate::values::{TypedValue, target_of, typed_value};
use st_ast::{Expr, Program, TypeName, Value};
use st_events::Site;
use st_resolved::{Boxed, Stmt};
use std::alloc::Global;

/// Refuses a type name that stands for no type.
pub(crate) fn ask_type(program: &Program, name: &TypeName) -> Result<(), TypeError>
    requires { HasFewNames program.now }
    ensures { result ≡ verdict (asks_type program.now name.now) tt }
{
    match name {
        TypeName::Int | TypeName::Bool => Ok(()),
        TypeName::Class(name, site) => match class_number(program, name.as_slice()) {
            Some(_) => Ok(()),
            None => Err(TypeError::UnknownName { at: *site }),
        },
    }
}

/// Refuses a name that is taken.
pub(crate) fn ask_new(is_taken: bool, site: Site) -> Result<(), TypeError>
    ensures { result ≡ verdict (asks_new is_taken site) tt }
{
    if is_taken {
        Err(TypeError::Twice { at: site })
    } else {
        Ok(())
    }
}

/// Whether a local of the list has this name.
fn has_name(locals: &[Local], name: &[u8]) -> bool
    ensures { result ≡ list_any (λ l. bytes_eq l.name.now name.now) locals.now }
{
    locals.iter().any(|local| local.name == name)
}

/// Whether a local of the body has this name.
fn is_local(locals: &[Local], name: &[u8]) -> bool
    ensures { result ≡ is_local (map local_view locals.now) name.now }
{
    has_name(locals, name)
}

/// Refuses a name that is taken, and then a type name that stands for no type.
#[tactic(auto, using(crate::proofs::CheckedLemmas::verdict_append))]
pub(crate) fn ask_declared(
    program: &Program,
    is_taken: bool,
    site: Site,
    kind: &TypeName,
) -> Result<(), TypeError>
    requires { HasFewNames program.now }
    ensures { result ≡ verdict (asks_new is_taken site ++ asks_type program.now kind.now) tt }
{
    ask_new(is_taken, site)?;
    ask_type(program, kind)
}

/// The value of a `var`.
pub(crate) fn var_value(
    alloc: Global,
    scope: &Scope,
    name: &[u8],
    kind: &TypeName,
    value: &Value,
    site: Site,
) -> Result<TypedValue, TypeError>
    requires { IsSmall scope.now }
    ensures { Gives given_of result (var_given (scope_view scope.now) name.now kind.now value.now site) }
{
    ask_declared(scope.program, is_local(scope.locals, name), site, kind)?;
    let value = typed_value(alloc, scope, value)?;
    ask(kind_of(scope.program, kind), value.site, value.kind)?;
    Ok(value)
}

/// An assignment.
pub(crate) fn assignment(
    alloc: Global,
    scope: &Scope,
    name: &[u8],
    value: &Value,
    site: Site,
) -> Result<Boxed<Stmt>, TypeError>
    requires { IsSmall scope.now }
    ensures { Gives command_of result (assigned (scope_view scope.now) name.now value.now site) }
{
    let local = match find_local(scope.locals, name) {
        Some(local) => local,
        None => return Err(TypeError::UnknownName { at: site }),
    };
    let value = typed_value(alloc, scope, value)?;
    ask(local.kind, value.site, value.kind)?;
    let statement = Stmt::Set {
        local: local.number,
        source: value.source.into_inner(),
    };
    Ok(Boxed::new(alloc, statement)?)
}

/// A store.
pub(crate) fn store(
    alloc: Global,
    scope: &Scope,
    place: &Expr,
    value: &Value,
) -> Result<Boxed<Stmt>, TypeError>
    requires { IsSmall scope.now }
    ensures { Gives command_of result (stored (scope_view scope.now) place.now value.now) }
{
    let place = typed(alloc, scope, place)?;
    let value = typed_value(alloc, scope, value)?;
    ask(place.kind, value.site, value.kind)?;
    let statement = Stmt::Put {
        target: target_of(place.expr),
        source: value.source.into_inner(),
    };
    Ok(Boxed::new(alloc, statement)?)
}

/// Refuses a call statement of what is no procedure, or with arguments that do not go with its parameters.
fn ask_proc(program: &Program, name: &[u8], args: &[Typing], site: Site) -> Result<(), TypeError>
    requires { HasFewNames program.now }
    ensures { result ≡ verdict (asks_proc program.now name.now (map seen_of args.now) site) tt }
{
    if pred_number(program, name).is_some() {
        return Err(TypeError::NotHere { at: site });
    }
    let number = match proc_number(program, name) {
        Some(number) => number,
        None => return Err(TypeError::UnknownName { at: site }),
    };
    match program.procs.get(number) {
        Some(procedure) => ask_args(program, procedure.params.as_slice(), args, site),
        None => Err(TypeError::UnknownName { at: site }),
    }
}

/// The number of the procedure of this name, where there is one.
fn called_number(program: &Program, name: &[u8]) -> u8
    requires { HasFewNames program.now }
    ensures { result ≡ number_or_0 (proc_number program.now name.now) }
{
    match proc_number(program, name) {
        Some(number) => number as u8,
        None => 0,
    }
}

/// A call of a procedure, of the arguments that were seen.
fn proc_statement(
    alloc: Global,
    program: &Program,
    name: &[u8],
    args: Vec<Typing>,
    site: Site,
) -> Result<Boxed<Stmt>, TypeError>
    requires { HasFewNames program.now }
    ensures { Gives command_of result (proc_command program.now name.now (map seen_of args.items) site) }
{
    ask_proc(program, name, &args, site)?;
    let procedure = called_number(program, name);
    let args = exprs_of(alloc, args)?;
    let statement = Stmt::Call {
        procedure,
        args,
        at: site,
    };
    Ok(Boxed::new(alloc, statement)?)
}

/// A call of a procedure.
pub(crate) fn procedure_call(
    alloc: Global,
    scope: &Scope,
    name: &[u8],
    args: &[Expr],
    site: Site,
) -> Result<Boxed<Stmt>, TypeError>
    requires { IsSmall scope.now }
    ensures { Gives command_of result (called (scope_view scope.now) name.now args.now site) }
{
    let args = typed_args(alloc, scope, args)?;
    proc_statement(alloc, scope.program, name, args, site)
}
