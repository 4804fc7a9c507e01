//! How far a body was walked: its locals so far, and the check statements of the source so far.
ghost use Rattle.std.specs.Prelude.{◌≡◌, ◌≤◌, length, map, OnOk, IfOk};
ghost use Rattle.st_resolved.specs.Views.{check_of};
ghost use Rattle.st_types.specs.Scopes.{scope_view, local_view};
ghost use Rattle.st_types.specs.Statements.{plain_scope, declare, known_kind, forgotten, closed};
ghost use Rattle.st_types.specs.Stepwise.{with_check};
ghost use Rattle.st_types.specs.Walks.{reached_of};

use crate::kinds::Found;
use crate::scopes::{Local, Scope};
use st_ast::Program;
use st_events::Kind;
use st_resolved::Check;
use std::alloc::{AllocError, Global};

/// A check statement with numbers, and the kinds of its arguments.
#[derive(Drop)]
pub struct Launched {
    pub check: Check,
    pub kinds: Vec<Kind>,
}

/// How far a body was walked.
#[derive(Drop)]
pub(crate) struct Walk<'a> {
    /// Those of the body, in order.
    pub(crate) locals: Vec<Local<'a>>,
    /// Those of the source so far, in order.
    pub(crate) checks: Vec<Launched>,
}

/// A kind, where it is known. In a tree that keeps the rules it is.
pub(crate) fn known_kind(found: Found) -> Kind
    ensures { result ≡ known_kind found }
{
    match found {
        Found::Known(kind) => kind,
        _ => Kind::Int,
    }
}

impl<'a> Walk<'a> {
    /// What an expression of a thread or a procedure stands in here.
    pub(crate) fn scope<'s>(&'s self, program: &'s Program) -> Scope<'s>
        ensures view { scope_view result ≡ plain_scope program.now (reached_of self.now).locals }
        ensures locals { result.locals.now ≡ self.now.locals.items }
        ensures program { result.program.now ≡ program.now }
    {
        Scope {
            program,
            locals: self.locals.as_slice(),
            may_call: false,
        }
    }

    /// Declares a local.
    pub(crate) fn declare(&mut self, name: &'a [u8], kind: Found) -> Result<(), AllocError>
        ensures { OnOk result (reached_of self.new ≡ declare (reached_of self.old) name.now kind) }
    {
        self.locals.push(Local {
            name,
            kind,
            is_known: true,
        })?;
        Ok(())
    }

    /// A check statement more.
    pub(crate) fn launch(&mut self, check: Check, kinds: Vec<Kind>) -> Result<(), AllocError>
        ensures { OnOk result (reached_of self.new ≡ with_check (reached_of self.old) (check_of check) kinds.items) }
    {
        self.checks.push(Launched { check, kinds })?;
        Ok(())
    }

    /// At the end of a block: what was declared after so many locals is known no more.
    pub(crate) fn close(&mut self, before: usize)
        requires { before ≤ length self.old.locals.items }
        ensures { reached_of self.new ≡ closed before (reached_of self.old) }
    {
        forget(&mut self.locals[before..]);
    }
}

/// The locals are known no more.
fn forget(locals: &mut [Local])
    ensures { map local_view locals.new ≡ map forgotten (map local_view locals.old) }
{
    for local in locals.iter_mut() {
        local.is_known = false;
    }
}

/// The kinds of locals.
pub(crate) fn kinds_of(alloc: Global, locals: &[Local]) -> Result<Vec<Kind>, AllocError>
    ensures { IfOk result (λ kinds. kinds.items ≡ map (λ l. known_kind l.kind) locals.now) }
{
    locals
        .iter()
        .map(|local| known_kind(local.kind))
        .collect(alloc)
}
