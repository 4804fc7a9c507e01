//! The code of an expression.
ghost use Rattle.std.specs.Prelude.{◌≡◌, suc, ◌∷◌, ◌++◌, length, OnOk, IfOk};
ghost use Rattle.st_resolved.specs.Views.{term_of, args_of};
ghost use Rattle.st_eval.specs.StraightCode.{code_of, codes_of, count_of};

use crate::instructions::Instruction;
use st_resolved::{Expr, Items};
use std::alloc::{AllocError, Global};

/// The code of an expression, alone.
#[cycle(code)]
pub(crate) fn code_alone(alloc: Global, expr: &Expr) -> Result<Items<Instruction>, AllocError>
    ensures { IfOk result (λ code. code ≡ code_of (term_of expr.now)) }
{
    let mut code = Items::new(alloc);
    add_code(alloc, &mut code, expr)?;
    Ok(code)
}

/// Appends the code of expressions, from left to right.
#[cycle(code)]
fn add_codes(alloc: Global, code: &mut Items<Instruction>, args: &[Expr]) -> Result<(), AllocError>
    ensures { OnOk result (code.new ≡ code.old ++ codes_of (args_of args.now)) }
{
    for arg in args {
        add_code(alloc, code, arg)?;
    }
    Ok(())
}

/// Appends the code of an expression: that of its operands, then what the node does.
#[cycle(code)]
fn add_code(alloc: Global, code: &mut Items<Instruction>, expr: &Expr) -> Result<(), AllocError>
    ensures { OnOk result (code.new ≡ code.old ++ code_of (term_of expr.now)) }
{
    match expr {
        Expr::Number(value) => code.push(Instruction::Push(value.cast_unsigned())),
        Expr::Truth(value) => code.push(Instruction::Push(u64::from(*value))),
        Expr::Null => code.push(Instruction::Push(0)),
        Expr::Local(local) => code.push(Instruction::Local(*local)),
        Expr::Shared(field) => code.push(Instruction::Shared(*field)),
        Expr::Field { object, field, at } => {
            add_code(alloc, code, object.get())?;
            code.push(Instruction::Field {
                field: *field,
                at: *at,
            })
        }
        Expr::Not(inner) => {
            add_code(alloc, code, inner.get())?;
            code.push(Instruction::Not)
        }
        Expr::Minus { inner, at } => {
            add_code(alloc, code, inner.get())?;
            code.push(Instruction::Minus(*at))
        }
        Expr::Binary {
            operator,
            left,
            right,
            at,
        } => {
            add_code(alloc, code, left.get())?;
            add_code(alloc, code, right.get())?;
            code.push(Instruction::Binary {
                operator: *operator,
                at: *at,
            })
        }
        Expr::Both { left, right } => {
            add_code(alloc, code, left.get())?;
            let right = code_alone(alloc, right.get())?;
            code.push(Instruction::Both(right.len()))?;
            code.append(right)
        }
        Expr::Either { left, right } => {
            add_code(alloc, code, left.get())?;
            let right = code_alone(alloc, right.get())?;
            code.push(Instruction::Either(right.len()))?;
            code.append(right)
        }
        Expr::Cond { test, yes, no } => {
            add_code(alloc, code, test.get())?;
            let yes = code_alone(alloc, yes.get())?;
            let no = code_alone(alloc, no.get())?;
            append_branches(code, yes, no)
        }
        Expr::Call { pred, args } => {
            add_codes(alloc, code, args.as_slice())?;
            code.push(Instruction::Call {
                pred: *pred,
                args: count_args(args.as_slice()),
            })
        }
    }
}

/// How many arguments the expressions are.
fn count_args(args: &[Expr]) -> usize
    ensures { result ≡ count_of (args_of args.now) }
{
    args.len()
}

/// Appends a test and both its branches, of which one is passed over.
fn append_branches(
    code: &mut Items<Instruction>,
    yes: Items<Instruction>,
    no: Items<Instruction>,
) -> Result<(), AllocError>
    ensures { OnOk result (code.new ≡ code.old ++ Instruction.Test (suc (length yes)) ∷ (yes ++ Instruction.Skip (length no) ∷ no)) }
{
    code.push(Instruction::Test(yes.len() + 1))?;
    code.append(yes)?;
    code.push(Instruction::Skip(no.len()))?;
    code.append(no)
}
