//! The values that statements give.
ghost use Rattle.std.specs.Prelude.{◌≡◌, ◌<◌, ◌≤◌, length, OnOk};
ghost use Rattle.st_grammar_laws.specs.Reading as spec;
ghost use Rattle.st_parse.specs.Reads.{Reads};

use crate::cursors::Cursor;
use crate::expressions::expression;
use crate::places::place;
use crate::stops::Stop;
use st_ast::Value;
use st_grammar::Sort;
use std::alloc::Global;

/// `"new" name`.
#[tactic(auto, unfolding(st_grammar_laws::specs::Reading::new_value))]
fn new_value(alloc: Global, cursor: &mut Cursor<'_, '_>) -> Result<Value, Stop>
    ensures reads { Reads (λ v. v) (spec.new_value cursor.old) result cursor.new }
    ensures shorter { OnOk result (length cursor.new < length cursor.old) }
{
    let word = cursor.expect(Sort::New)?;
    let name = cursor.expect(Sort::Name)?;
    Ok(Value::New {
        class: name.name(alloc)?,
        site: word.site(),
    })
}

/// `"cas" "(" place "," expr "," expr ")"`.
#[tactic(auto, unfolding(st_grammar_laws::specs::Reading::cas_value))]
fn cas_value(alloc: Global, cursor: &mut Cursor<'_, '_>) -> Result<Value, Stop>
    ensures reads { Reads (λ v. v) (spec.cas_value cursor.old) result cursor.new }
    ensures shorter { OnOk result (length cursor.new < length cursor.old) }
{
    let word = cursor.expect(Sort::Cas)?;
    cursor.expect(Sort::OpenParen)?;
    let place = place(alloc, cursor)?;
    cursor.expect(Sort::Comma)?;
    let expect = expression(alloc, cursor)?;
    cursor.expect(Sort::Comma)?;
    let value = expression(alloc, cursor)?;
    cursor.expect(Sort::CloseParen)?;
    Ok(Value::Cas {
        place,
        expect,
        value,
        site: word.site(),
    })
}

/// A value; its first token tells which.
#[tactic(auto, unfolding(st_grammar_laws::specs::Reading::value_here))]
fn value_here(alloc: Global, cursor: &mut Cursor<'_, '_>) -> Result<Value, Stop>
    ensures reads { Reads (λ v. v) (spec.value_here cursor.old) result cursor.new }
    ensures shorter { OnOk result (length cursor.new < length cursor.old) }
{
    match cursor.next_sort() {
        Sort::New => new_value(alloc, cursor),
        Sort::Cas => cas_value(alloc, cursor),
        _ => Ok(Value::Plain(expression(alloc, cursor)?)),
    }
}

/// `"=" value ";"`.
#[tactic(auto, unfolding(st_grammar_laws::specs::Reading::assigned))]
pub fn assigned(alloc: Global, cursor: &mut Cursor<'_, '_>) -> Result<Value, Stop>
    ensures reads { Reads (λ v. v) (spec.assigned cursor.old) result cursor.new }
    ensures shorter { OnOk result (length cursor.new < length cursor.old) }
{
    cursor.expect(Sort::Assign)?;
    let value = value_here(alloc, cursor)?;
    cursor.expect(Sort::Semicolon)?;
    Ok(value)
}
