//! The words of a tree, as the canonical text writes them: each with a blank after it.
ghost use Rattle.std.specs.Prelude.{◌≡◌, ◌∷◌, [], ◌++◌, OnOk};
ghost use Rattle.std.specs.Fmt.{signed_decimal};
ghost use Rattle.std.specs.List.{flat_map};
ghost use Rattle.st_ast.specs.Spaced.{spaced};
ghost use Rattle.st_ast.specs.Words as spec;

use crate::declarations::{Param, TypeName};
use crate::expressions::Expr;
use crate::operators::Op;
use crate::statements::Value;
use std::alloc::{AllocError, Global};

/// Adds a word and the blank after it.
#[tactic(auto, unfolding(crate::specs::Spaced::spaced))]
pub fn add_word(text: &mut Vec<u8>, word: &[u8]) -> Result<(), AllocError>
    ensures { OnOk result (text.new.items ≡ text.old.items ++ spaced (word.now ∷ [])) }
{
    text.extend_from_slice(word)?;
    text.push(b' ')?;
    Ok(())
}

/// The mark of an operator.
fn op_word(op: Op) -> &'static [u8]
    ensures { result.now ≡ spec.op_word op }
{
    match op {
        Op::Add => b"+",
        Op::Sub => b"-",
        Op::Mul => b"*",
        Op::Div => b"/",
        Op::Rem => b"%",
        Op::Less => b"<",
        Op::LessEq => b"<=",
        Op::Greater => b">",
        Op::GreaterEq => b">=",
        Op::Equal => b"==",
        Op::NotEqual => b"!=",
        Op::Both => b"&&",
        Op::Either => b"||",
    }
}

/// The word of a type.
pub fn type_word(kind: &TypeName) -> &[u8]
    ensures { result.now ≡ spec.type_word kind.now }
{
    match kind {
        TypeName::Int => b"int",
        TypeName::Bool => b"bool",
        TypeName::Class(name, _) => name.as_slice(),
    }
}

/// The word of `true` or `false`.
fn truth_word(value: bool) -> &'static [u8]
    ensures { result.now ≡ spec.truth_word value }
{
    if value { b"true" } else { b"false" }
}

/// Adds a number in decimal digits.
fn add_number(alloc: Global, text: &mut Vec<u8>, value: i64) -> Result<(), AllocError>
    ensures { OnOk result (text.new.items ≡ text.old.items ++ spaced (signed_decimal value ∷ [])) }
{
    let digits = value.to_string(alloc)?;
    add_word(text, digits.as_bytes())
}

/// Adds an expression.
#[cycle(expr)]
#[tactic(auto, unfolding(crate::specs::Words::expr_words))]
pub fn add_expr(alloc: Global, text: &mut Vec<u8>, expr: &Expr) -> Result<(), AllocError>
    ensures { OnOk result (text.new.items ≡ text.old.items ++ spaced (spec.expr_words expr.now)) }
{
    match expr {
        Expr::Number { value, .. } => add_number(alloc, text, *value),
        Expr::Truth { value, .. } => add_word(text, truth_word(*value)),
        Expr::Null { .. } => add_word(text, b"null"),
        Expr::Local { name, .. } => add_word(text, name.as_slice()),
        Expr::Call { name, args, .. } => add_call(alloc, text, name.as_slice(), args.as_slice()),
        Expr::Shared { name, .. } => {
            add_word(text, b"shared")?;
            add_word(text, b".")?;
            add_word(text, name.as_slice())
        }
        Expr::Field { object, name, .. } => {
            add_expr(alloc, text, object.get())?;
            add_word(text, b".")?;
            add_word(text, name.as_slice())
        }
        Expr::Paren { inner, .. } => add_in_parens(alloc, text, inner.get()),
        Expr::Not { inner, .. } => {
            add_word(text, b"!")?;
            add_expr(alloc, text, inner.get())
        }
        Expr::Minus { inner, .. } => {
            add_word(text, b"-")?;
            add_expr(alloc, text, inner.get())
        }
        Expr::Binary {
            op,
            left,
            right,
            ..
        } => {
            add_expr(alloc, text, left.get())?;
            add_word(text, op_word(*op))?;
            add_expr(alloc, text, right.get())
        }
        Expr::Cond { test, yes, no, .. } => {
            add_expr(alloc, text, test.get())?;
            add_word(text, b"?")?;
            add_expr(alloc, text, yes.get())?;
            add_word(text, b":")?;
            add_expr(alloc, text, no.get())
        }
    }
}

/// Adds an expression in parentheses.
#[cycle(expr)]
pub fn add_in_parens(alloc: Global, text: &mut Vec<u8>, expr: &Expr) -> Result<(), AllocError>
    ensures { OnOk result (text.new.items ≡ text.old.items ++ spaced (spec.in_parens (spec.expr_words expr.now))) }
{
    add_word(text, b"(")?;
    add_expr(alloc, text, expr)?;
    add_word(text, b")")
}

/// Adds a call.
#[cycle(expr)]
pub fn add_call(
    alloc: Global,
    text: &mut Vec<u8>,
    name: &[u8],
    args: &[Expr],
) -> Result<(), AllocError>
    ensures { OnOk result (text.new.items ≡ text.old.items ++ spaced (spec.call_words name.now args.now)) }
{
    add_word(text, name)?;
    add_word(text, b"(")?;
    add_args(alloc, text, args)?;
    add_word(text, b")")
}

/// Adds the arguments of a call, with a comma before each but the first.
#[cycle(expr)]
fn add_args(alloc: Global, text: &mut Vec<u8>, args: &[Expr]) -> Result<(), AllocError>
    ensures { OnOk result (text.new.items ≡ text.old.items ++ spaced (spec.args_words args.now)) }
{
    match args.split_first() {
        None => Ok(()),
        Some((first, more)) => {
            add_expr(alloc, text, first)?;
            for arg in more {
                add_word(text, b",")?;
                add_expr(alloc, text, arg)?;
            }
            Ok(())
        }
    }
}

/// Adds what stands to the right of `=`.
pub fn add_value(alloc: Global, text: &mut Vec<u8>, value: &Value) -> Result<(), AllocError>
    ensures { OnOk result (text.new.items ≡ text.old.items ++ spaced (spec.value_words value.now)) }
{
    match value {
        Value::Plain(expr) => add_expr(alloc, text, expr),
        Value::New { class, .. } => {
            add_word(text, b"new")?;
            add_word(text, class.as_slice())
        }
        Value::Cas {
            place,
            expect,
            value,
            ..
        } => {
            add_word(text, b"cas")?;
            add_word(text, b"(")?;
            add_expr(alloc, text, place)?;
            add_word(text, b",")?;
            add_expr(alloc, text, expect)?;
            add_word(text, b",")?;
            add_expr(alloc, text, value)?;
            add_word(text, b")")
        }
    }
}

/// Adds a parameter.
fn add_param(text: &mut Vec<u8>, param: &Param) -> Result<(), AllocError>
    ensures { OnOk result (text.new.items ≡ text.old.items ++ spaced (spec.param_words param.now)) }
{
    add_word(text, param.name.as_slice())?;
    add_word(text, b":")?;
    add_word(text, type_word(&param.kind))
}

/// Adds parameters, with a comma before each but the first.
pub fn add_params(text: &mut Vec<u8>, params: &[Param]) -> Result<(), AllocError>
    ensures { OnOk result (text.new.items ≡ text.old.items ++ spaced (spec.params_words params.now)) }
{
    match params.split_first() {
        None => Ok(()),
        Some((first, more)) => {
            add_param(text, first)?;
            for param in more {
                add_word(text, b",")?;
                add_param(text, param)?;
            }
            Ok(())
        }
    }
}
