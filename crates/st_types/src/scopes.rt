//! What an expression stands in: the program around it, the locals, and whether it may call predicates.
ghost use Rattle.std.specs.Prelude.{◌≡◌, ◌≤◌, ◌<◌, length, map, position, IfSome, ◌&&◌};
ghost use Rattle.std.specs.Str.{bytes_eq};
ghost use Rattle.st_types.specs.Names.{find_local};
ghost use Rattle.st_types.specs.Scopes.{local_view};
ghost use Rattle.st_resolved.specs.declared.limits.TheConstants.{MOST_LOCALS};

use crate::kinds::Found;
use crate::names::Named;
use st_ast::Program;

/// A local of a body: a parameter or a `var`. Its number is its index among the locals of the body.
#[derive(Clone, Copy)]
pub(crate) struct Local<'a> {
    pub(crate) name: &'a [u8],
    pub(crate) kind: Found,
    /// Whether it may be named here: a `var` may after its statement, up to the end of its block.
    pub(crate) is_known: bool,
}

/// What an expression stands in.
#[derive(Clone, Copy)]
pub(crate) struct Scope<'a> {
    pub(crate) program: &'a Program,
    pub(crate) locals: &'a [Local<'a>],
    /// Whether predicates may be called: in predicates and checks.
    pub(crate) may_call: bool,
}

/// The index of the known local of this name.
fn local_index(locals: &[Local], name: &[u8]) -> Option<usize>
    ensures value { result ≡ position (λ l. l.is_known && bytes_eq l.name.now name.now) locals.now }
    ensures bound { IfSome result (λ index. index < length locals.now) }
{
    locals
        .iter()
        .position(|local| local.is_known && local.name == name)
}

/// The known local of this name.
pub(crate) fn find_local(locals: &[Local], name: &[u8]) -> Option<Named>
    requires { length locals.now ≤ MOST_LOCALS }
    ensures { result ≡ find_local (map local_view locals.now) name.now }
{
    let index = local_index(locals, name)?;
    let local = locals.get(index)?;
    Some(Named {
        number: index as u8,
        kind: local.kind,
    })
}
