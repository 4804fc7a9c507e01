//! What a name stands for. A name that is declared twice counts as its first declaration.
ghost use Rattle.std.specs.Prelude.{◌≡◌, ◌≤◌, ◌<◌, length, map, position, IfSome};
ghost use Rattle.std.specs.Str.{bytes_eq};
ghost use Rattle.st_types.specs.Names.{class_number, class_kind, kind_of, fields_of, find_field, pred_number, proc_number};
ghost use Rattle.st_types.specs.Names.{HasFewNames};
ghost use Rattle.st_events.specs.declared.shapes.TheConstants.{MOST_FIELDS};

use crate::kinds::Found;
use st_ast::{Field, Program, TypeName};
use st_events::Kind;

/// What a name stands for: its number among its like, and its kind.
#[derive(Clone, Copy)]
pub struct Named {
    /// From 0.
    pub number: u8,
    pub kind: Found,
}

/// The index of the class of this name.
fn class_index(program: &Program, name: &[u8]) -> Option<usize>
    ensures value { result ≡ position (λ class. bytes_eq class.name name.now) program.now.classes }
    ensures bound { IfSome result (λ index. index < length program.now.classes) }
{
    let classes = program.classes.as_slice();
    classes
        .iter()
        .position(|class| class.name.as_slice() == name)
}

/// The number of the class of this name, from 1.
pub(crate) fn class_number(program: &Program, name: &[u8]) -> Option<u8>
    requires { HasFewNames program.now }
    ensures { result ≡ class_number program.now name.now }
{
    match class_index(program, name) {
        Some(index) => Some(index as u8 + 1),
        None => None,
    }
}

/// The kind that a type name stands for.
pub(crate) fn kind_of(program: &Program, name: &TypeName) -> Found
    requires { HasFewNames program.now }
    ensures { result ≡ kind_of program.now name.now }
{
    match name {
        TypeName::Int => Found::Known(Kind::Int),
        TypeName::Bool => Found::Known(Kind::Bool),
        TypeName::Class(name, _) => class_kind(class_number(program, name.as_slice())),
    }
}

/// The kind of the class of this number, if there is one.
pub(crate) fn class_kind(class: Option<u8>) -> Found
    ensures { result ≡ class_kind class }
{
    match class {
        Some(class) => Found::Known(Kind::Ref(class)),
        None => Found::Unknown,
    }
}

/// The fields of a class, by its number, from 1.
pub(crate) fn fields_of(program: &Program, class: u8) -> &[Field]
    requires { HasFewNames program.now }
    ensures value { result.now ≡ fields_of program.now class }
    ensures few { length result.now ≤ MOST_FIELDS }
{
    if class == 0 {
        return &[];
    }
    match program.classes.get(class as usize - 1) {
        Some(class) => class.fields.as_slice(),
        None => &[],
    }
}

/// The index of the first field of this name.
fn field_index(fields: &[Field], name: &[u8]) -> Option<usize>
    ensures value { result ≡ position (λ f. bytes_eq f.name name.now) fields.now }
    ensures bound { IfSome result (λ index. index < length fields.now) }
{
    fields
        .iter()
        .position(|field| field.name.as_slice() == name)
}

/// The first field of this name.
pub(crate) fn find_field(program: &Program, fields: &[Field], name: &[u8]) -> Option<Named>
    requires names { HasFewNames program.now }
    requires fields { length fields.now ≤ MOST_FIELDS }
    ensures { result ≡ find_field program.now fields.now name.now }
{
    let index = field_index(fields, name)?;
    let field = fields.get(index)?;
    Some(Named {
        number: index as u8,
        kind: kind_of(program, &field.kind),
    })
}

/// The number of the predicate of this name, from 0.
pub(crate) fn pred_number(program: &Program, name: &[u8]) -> Option<usize>
    ensures value { result ≡ pred_number program.now name.now }
    ensures bound { IfSome result (λ number. number < length program.now.preds) }
{
    let preds = program.preds.as_slice();
    preds.iter().position(|pred| pred.name.as_slice() == name)
}

/// The number of the procedure of this name, from 0.
pub(crate) fn proc_number(program: &Program, name: &[u8]) -> Option<usize>
    ensures value { result ≡ proc_number program.now name.now }
    ensures bound { IfSome result (λ number. number < length program.now.procs) }
{
    let procs = program.procs.as_slice();
    procs
        .iter()
        .position(|procedure| procedure.name.as_slice() == name)
}
