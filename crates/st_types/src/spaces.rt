//! Declarations: names that are new in their space, and type names that stand for types.
ghost use Rattle.std.specs.Prelude.{◌≡◌, []};
ghost use Rattle.std.specs.List.{list_any};
ghost use Rattle.std.specs.Str.{bytes_eq};
ghost use Rattle.st_types.specs.Checked.{verdict};
ghost use Rattle.st_types.specs.Names.{HasFewNames};
ghost use Rattle.st_types.specs.Rules.{each_with_earlier, field_faults, fields_faults, class_faults, param_faults, params_faults};

use crate::assignments::{ask_declared, ask_new};
use crate::errors::TypeError;
use st_ast::{Class, Field, Param, Program};

/// Whether a field of the list has this name.
fn has_field(fields: &[Field], name: &[u8]) -> bool
    ensures { result ≡ list_any (λ f. bytes_eq f.name name.now) fields.now }
{
    fields.iter().any(|field| field.name.as_slice() == name)
}

/// Refuses a field, or a shared variable, that has the name of an earlier one or no type.
fn ask_field(program: &Program, earlier: &[Field], field: &Field) -> Result<(), TypeError>
    requires { HasFewNames program.now }
    ensures { result ≡ verdict (field_faults program.now earlier.now field.now) tt }
{
    let is_taken = has_field(earlier, field.name.as_slice());
    ask_declared(program, is_taken, field.site, &field.kind)
}

/// Refuses fields, or shared variables, of which one has the name of an earlier one or no type.
pub(crate) fn ask_fields(program: &Program, fields: &[Field]) -> Result<(), TypeError>
    requires { HasFewNames program.now }
    ensures { result ≡ verdict (fields_faults program.now fields.now) tt }
{
    for (i, field) in fields.iter().enumerate() {
        ask_field(program, &fields[..i], field)?;
    }
    Ok(())
}

/// Whether a class of the list has this name.
fn has_class(classes: &[Class], name: &[u8]) -> bool
    ensures { result ≡ list_any (λ c. bytes_eq c.name name.now) classes.now }
{
    classes.iter().any(|class| class.name.as_slice() == name)
}

/// Refuses a class that has the name of an earlier one, or fields that break a rule.
fn ask_class(program: &Program, earlier: &[Class], class: &Class) -> Result<(), TypeError>
    requires { HasFewNames program.now }
    ensures { result ≡ verdict (class_faults program.now earlier.now class.now) tt }
{
    ask_new(has_class(earlier, class.name.as_slice()), class.site)?;
    ask_fields(program, class.fields.as_slice())
}

/// Refuses classes of which one has the name of an earlier one, or fields that break a rule.
pub(crate) fn ask_classes(program: &Program, classes: &[Class]) -> Result<(), TypeError>
    requires { HasFewNames program.now }
    ensures { result ≡ verdict (each_with_earlier (class_faults program.now) [] classes.now) tt }
{
    for (i, class) in classes.iter().enumerate() {
        ask_class(program, &classes[..i], class)?;
    }
    Ok(())
}

/// Whether a parameter of the list has this name.
fn has_param(params: &[Param], name: &[u8]) -> bool
    ensures { result ≡ list_any (λ q. bytes_eq q.name name.now) params.now }
{
    params.iter().any(|param| param.name.as_slice() == name)
}

/// Refuses a parameter that has the name of an earlier one or no type.
fn ask_param(program: &Program, earlier: &[Param], param: &Param) -> Result<(), TypeError>
    requires { HasFewNames program.now }
    ensures { result ≡ verdict (param_faults program.now earlier.now param.now) tt }
{
    let is_taken = has_param(earlier, param.name.as_slice());
    ask_declared(program, is_taken, param.site, &param.kind)
}

/// Refuses parameters of which one has the name of an earlier one or no type.
pub(crate) fn ask_params(program: &Program, params: &[Param]) -> Result<(), TypeError>
    requires { HasFewNames program.now }
    ensures { result ≡ verdict (params_faults program.now params.now) tt }
{
    for (i, param) in params.iter().enumerate() {
        ask_param(program, &params[..i], param)?;
    }
    Ok(())
}
