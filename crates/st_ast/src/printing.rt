//! The canonical text of a tree.
ghost use Rattle.std.specs.Prelude.{◌≡◌, [], ◌∷◌, ◌++◌, OnOk, IfOk};
ghost use Rattle.std.specs.List.{flat_map};
ghost use Rattle.st_ast.specs.Lines as spec;
ghost use Rattle.st_ast.specs.Lines.{lines_text};
ghost use Rattle.st_ast.specs.Spaced.{spaced};

use crate::declarations::{Class, Field, Pred, Proc, Program, Thread};
use crate::lines::{add_block, add_line, add_words, end_line};
use crate::words::{add_expr, add_params, add_word, type_word};
use std::alloc::{AllocError, Global};

/// Adds a field.
fn add_field(text: &mut Vec<u8>, field: &Field) -> Result<(), AllocError>
    ensures { OnOk result (text.new.items ≡ text.old.items ++ lines_text (spec.field_line field.now ∷ [])) }
{
    add_line(
        text,
        1,
        &[field.name.as_slice(), b":", type_word(&field.kind)],
        b";",
    )
}

/// Adds fields, a line each.
fn add_each_field(text: &mut Vec<u8>, fields: &[Field]) -> Result<(), AllocError>
    ensures { OnOk result (text.new.items ≡ text.old.items ++ lines_text (spec.each_field fields.now)) }
{
    for field in fields {
        add_field(text, field)?;
    }
    Ok(())
}

/// Adds fields, a line each, and the closing brace.
fn add_fields(text: &mut Vec<u8>, fields: &[Field]) -> Result<(), AllocError>
    ensures { OnOk result (text.new.items ≡ text.old.items ++ lines_text (spec.fields_lines fields.now)) }
{
    add_each_field(text, fields)?;
    add_line(text, 0, &[], b"}")
}

/// Adds a class.
fn add_class(text: &mut Vec<u8>, class: &Class) -> Result<(), AllocError>
    ensures { OnOk result (text.new.items ≡ text.old.items ++ lines_text (spec.class_lines class.now)) }
{
    add_line(text, 0, &[b"class", class.name.as_slice()], b"{")?;
    add_fields(text, class.fields.as_slice())
}

/// Adds classes.
fn add_classes(text: &mut Vec<u8>, classes: &[Class]) -> Result<(), AllocError>
    ensures { OnOk result (text.new.items ≡ text.old.items ++ lines_text (flat_map spec.class_lines classes.now)) }
{
    for class in classes {
        add_class(text, class)?;
    }
    Ok(())
}

/// Adds the shared block, where it has a variable.
fn add_shared(text: &mut Vec<u8>, fields: &[Field]) -> Result<(), AllocError>
    ensures { OnOk result (text.new.items ≡ text.old.items ++ lines_text (spec.shared_lines fields.now)) }
{
    if fields.is_empty() {
        return Ok(());
    }
    add_line(text, 0, &[b"shared"], b"{")?;
    add_fields(text, fields)
}

/// Adds the words of a predicate, but for the last.
fn add_pred_words(alloc: Global, text: &mut Vec<u8>, pred: &Pred) -> Result<(), AllocError>
    ensures { OnOk result (text.new.items ≡ text.old.items ++ spaced (spec.pred_words pred.now)) }
{
    add_words(text, &[b"pred", pred.name.as_slice(), b"("])?;
    add_params(text, pred.params.as_slice())?;
    add_words(text, &[b")", b":", type_word(&pred.result), b"="])?;
    add_expr(alloc, text, &pred.body)
}

/// Adds a predicate.
fn add_pred(alloc: Global, text: &mut Vec<u8>, pred: &Pred) -> Result<(), AllocError>
    ensures { OnOk result (text.new.items ≡ text.old.items ++ lines_text (spec.pred_lines pred.now)) }
{
    add_pred_words(alloc, text, pred)?;
    end_line(text, b";")
}

/// Adds predicates.
fn add_preds(alloc: Global, text: &mut Vec<u8>, preds: &[Pred]) -> Result<(), AllocError>
    ensures { OnOk result (text.new.items ≡ text.old.items ++ lines_text (flat_map spec.pred_lines preds.now)) }
{
    for pred in preds {
        add_pred(alloc, text, pred)?;
    }
    Ok(())
}

/// Adds the words of the head of a procedure, but for the last.
fn add_proc_words(text: &mut Vec<u8>, proc: &Proc) -> Result<(), AllocError>
    ensures { OnOk result (text.new.items ≡ text.old.items ++ spaced (spec.proc_words proc.now)) }
{
    add_words(text, &[b"proc", proc.name.as_slice(), b"("])?;
    add_params(text, proc.params.as_slice())?;
    add_word(text, b")")
}

/// Adds the head of a procedure.
fn add_proc_head(text: &mut Vec<u8>, proc: &Proc) -> Result<(), AllocError>
    ensures { OnOk result (text.new.items ≡ text.old.items ++ lines_text (spec.proc_head proc.now ∷ [])) }
{
    add_proc_words(text, proc)?;
    end_line(text, b"{")
}

/// Adds a procedure.
fn add_proc(alloc: Global, text: &mut Vec<u8>, proc: &Proc) -> Result<(), AllocError>
    ensures { OnOk result (text.new.items ≡ text.old.items ++ lines_text (spec.proc_lines proc.now)) }
{
    add_proc_head(text, proc)?;
    add_block(alloc, text, 0, proc.body.as_slice())
}

/// Adds procedures.
fn add_procs(alloc: Global, text: &mut Vec<u8>, procs: &[Proc]) -> Result<(), AllocError>
    ensures { OnOk result (text.new.items ≡ text.old.items ++ lines_text (flat_map spec.proc_lines procs.now)) }
{
    for proc in procs {
        add_proc(alloc, text, proc)?;
    }
    Ok(())
}

/// Adds a thread.
fn add_thread(alloc: Global, text: &mut Vec<u8>, thread: &Thread) -> Result<(), AllocError>
    ensures { OnOk result (text.new.items ≡ text.old.items ++ lines_text (spec.thread_lines thread.now)) }
{
    add_line(text, 0, &[b"thread", thread.name.as_slice()], b"{")?;
    add_block(alloc, text, 0, thread.body.as_slice())
}

/// Adds threads.
fn add_threads(alloc: Global, text: &mut Vec<u8>, threads: &[Thread]) -> Result<(), AllocError>
    ensures { OnOk result (text.new.items ≡ text.old.items ++ lines_text (flat_map spec.thread_lines threads.now)) }
{
    for thread in threads {
        add_thread(alloc, text, thread)?;
    }
    Ok(())
}

/// The canonical text of a tree: the tokens of a head, a statement or a field on a line, with single blanks between them,
/// two blanks of indentation for each open brace, and byte 10 at the end of each line. A head's line ends with its opening brace,
/// a closing brace stands alone, and an empty shared block is not written. The only error is want of memory.
pub fn print(alloc: Global, program: &Program) -> Result<Vec<u8>, AllocError>
    ensures { IfOk result (λ text. text.items ≡ spec.canonical_text program.now) }
{
    let mut text = Vec::new(alloc);
    add_classes(&mut text, program.classes.as_slice())?;
    add_shared(&mut text, program.shared.as_slice())?;
    add_preds(alloc, &mut text, program.preds.as_slice())?;
    add_procs(alloc, &mut text, program.procs.as_slice())?;
    add_threads(alloc, &mut text, program.threads.as_slice())?;
    Ok(text)
}
