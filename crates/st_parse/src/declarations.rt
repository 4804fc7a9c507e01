//! Declarations and the program, one function for each rule.
ghost use Rattle.std.specs.Prelude.{◌≡◌, ◌<◌, ◌≤◌, length, OnOk};
ghost use Rattle.st_grammar_laws.specs.Reading as spec;
ghost use Rattle.st_parse.specs.Reads.{Reads};
ghost use Rattle.st_grammar.specs.declared.sorts.Sort.TheVariants as sort;

use crate::blocks::body_block;
use crate::cursors::Cursor;
use crate::expressions::expression;
use crate::places::typed;
use crate::stops::Stop;
use st_ast::{Class, Field, Items, Param, Pred, Proc, Thread};
use st_grammar::Sort;
use std::alloc::Global;

/// `name ":" type ";"`.
#[tactic(auto, unfolding(st_grammar_laws::specs::Reading::field))]
fn field(alloc: Global, cursor: &mut Cursor<'_, '_>) -> Result<Field, Stop>
    ensures reads { Reads (λ x. x) (spec.field cursor.old) result cursor.new }
    ensures shorter { OnOk result (length cursor.new < length cursor.old) }
{
    let name = cursor.expect(Sort::Name)?;
    let kind = typed(alloc, cursor)?;
    cursor.expect(Sort::Semicolon)?;
    Ok(Field {
        name: name.name(alloc)?,
        kind,
        site: name.site(),
    })
}

/// `{ field }`.
fn fields(alloc: Global, cursor: &mut Cursor<'_, '_>) -> Result<Items<Field>, Stop>
    ensures reads { Reads (λ found. found) (spec.many (spec.is_sort sort.Name) spec.field cursor.old) result cursor.new }
    ensures no_longer { OnOk result (length cursor.new ≤ length cursor.old) }
{
    let mut found = Items::new(alloc);
    while cursor.sees(Sort::Name) {
        found.push(field(alloc, cursor)?)?;
    }
    Ok(found)
}

/// `"{" { field } "}"`.
#[tactic(auto, unfolding(st_grammar_laws::specs::Reading::fields))]
fn braced_fields(alloc: Global, cursor: &mut Cursor<'_, '_>) -> Result<Items<Field>, Stop>
    ensures reads { Reads (λ found. found) (spec.fields cursor.old) result cursor.new }
    ensures shorter { OnOk result (length cursor.new < length cursor.old) }
{
    cursor.expect(Sort::OpenBrace)?;
    let found = fields(alloc, cursor)?;
    cursor.expect(Sort::CloseBrace)?;
    Ok(found)
}

/// `"class" name "{" { field } "}"`.
#[tactic(auto, unfolding(st_grammar_laws::specs::Reading::class))]
pub fn class(alloc: Global, cursor: &mut Cursor<'_, '_>) -> Result<Class, Stop>
    ensures reads { Reads (λ x. x) (spec.class cursor.old) result cursor.new }
    ensures shorter { OnOk result (length cursor.new < length cursor.old) }
{
    cursor.expect(Sort::Class)?;
    let name = cursor.expect(Sort::Name)?;
    let fields = braced_fields(alloc, cursor)?;
    Ok(Class {
        name: name.name(alloc)?,
        fields,
        site: name.site(),
    })
}

/// `[ shared ]`.
#[tactic(auto, unfolding(st_grammar_laws::specs::Reading::shared_block))]
pub fn shared_block(alloc: Global, cursor: &mut Cursor<'_, '_>) -> Result<Items<Field>, Stop>
    ensures reads { Reads (λ found. found) (spec.shared_block cursor.old) result cursor.new }
    ensures no_longer { OnOk result (length cursor.new ≤ length cursor.old) }
{
    if !cursor.sees(Sort::Shared) {
        return Ok(Items::new(alloc));
    }
    cursor.expect(Sort::Shared)?;
    braced_fields(alloc, cursor)
}

/// `name ":" type`.
#[tactic(auto, unfolding(st_grammar_laws::specs::Reading::param))]
fn param(alloc: Global, cursor: &mut Cursor<'_, '_>) -> Result<Param, Stop>
    ensures reads { Reads (λ x. x) (spec.param cursor.old) result cursor.new }
    ensures shorter { OnOk result (length cursor.new < length cursor.old) }
{
    let name = cursor.expect(Sort::Name)?;
    let kind = typed(alloc, cursor)?;
    Ok(Param {
        name: name.name(alloc)?,
        kind,
        site: name.site(),
    })
}

/// `"," name ":" type`.
fn next_param(alloc: Global, cursor: &mut Cursor<'_, '_>) -> Result<Param, Stop>
    ensures reads { Reads (λ x. x) (spec.after_comma spec.param cursor.old) result cursor.new }
    ensures shorter { OnOk result (length cursor.new < length cursor.old) }
{
    cursor.expect(Sort::Comma)?;
    param(alloc, cursor)
}

/// `name ":" type { "," name ":" type }`.
fn listed_params(alloc: Global, cursor: &mut Cursor<'_, '_>) -> Result<Items<Param>, Stop>
    ensures reads { Reads (λ found. found) (spec.listed spec.param cursor.old) result cursor.new }
    ensures shorter { OnOk result (length cursor.new < length cursor.old) }
{
    let mut found = Items::new(alloc);
    found.push(param(alloc, cursor)?)?;
    while cursor.sees(Sort::Comma) {
        found.push(next_param(alloc, cursor)?)?;
    }
    Ok(found)
}

/// `"(" [ params ] ")"`.
#[tactic(auto, unfolding(st_grammar_laws::specs::Reading::params, st_grammar_laws::specs::Reading::enclosed))]
fn params(alloc: Global, cursor: &mut Cursor<'_, '_>) -> Result<Items<Param>, Stop>
    ensures reads { Reads (λ found. found) (spec.params cursor.old) result cursor.new }
    ensures shorter { OnOk result (length cursor.new < length cursor.old) }
{
    cursor.expect(Sort::OpenParen)?;
    let found = if cursor.sees(Sort::CloseParen) {
        Items::new(alloc)
    } else {
        listed_params(alloc, cursor)?
    };
    cursor.expect(Sort::CloseParen)?;
    Ok(found)
}

/// `"pred" name "(" [ params ] ")" ":" type "=" expr ";"`.
#[tactic(auto, unfolding(st_grammar_laws::specs::Reading::pred))]
pub fn pred(alloc: Global, cursor: &mut Cursor<'_, '_>) -> Result<Pred, Stop>
    ensures reads { Reads (λ x. x) (spec.pred cursor.old) result cursor.new }
    ensures shorter { OnOk result (length cursor.new < length cursor.old) }
{
    cursor.expect(Sort::Pred)?;
    let name = cursor.expect(Sort::Name)?;
    let params = params(alloc, cursor)?;
    let result = typed(alloc, cursor)?;
    cursor.expect(Sort::Assign)?;
    let body = expression(alloc, cursor)?;
    cursor.expect(Sort::Semicolon)?;
    Ok(Pred {
        name: name.name(alloc)?,
        params,
        result,
        body,
        site: name.site(),
    })
}

/// `"proc" name "(" [ params ] ")" block`.
#[tactic(auto, unfolding(st_grammar_laws::specs::Reading::proc))]
pub fn proc(alloc: Global, cursor: &mut Cursor<'_, '_>) -> Result<Proc, Stop>
    ensures reads { Reads (λ x. x) (spec.proc cursor.old) result cursor.new }
    ensures shorter { OnOk result (length cursor.new < length cursor.old) }
{
    cursor.expect(Sort::Proc)?;
    let name = cursor.expect(Sort::Name)?;
    let params = params(alloc, cursor)?;
    let body = body_block(alloc, cursor)?;
    Ok(Proc {
        name: name.name(alloc)?,
        params,
        body,
        site: name.site(),
    })
}

/// `"thread" name block`.
#[tactic(auto, unfolding(st_grammar_laws::specs::Reading::thread))]
pub fn thread(alloc: Global, cursor: &mut Cursor<'_, '_>) -> Result<Thread, Stop>
    ensures reads { Reads (λ x. x) (spec.thread cursor.old) result cursor.new }
    ensures shorter { OnOk result (length cursor.new < length cursor.old) }
{
    cursor.expect(Sort::Thread)?;
    let name = cursor.expect(Sort::Name)?;
    let body = body_block(alloc, cursor)?;
    Ok(Thread {
        name: name.name(alloc)?,
        body,
        site: name.site(),
    })
}
