//! What a program has: its declarations, parameters, locals, checks and their arguments, as a list in the order of the text.
ghost use Rattle.std.specs.Prelude.{◌≡◌, [], ◌++◌, OnOk, IfOk};
ghost use Rattle.std.specs.List.{flat_map};
ghost use Rattle.st_grammar.specs.Counts as spec;
ghost use Rattle.st_grammar.specs.Mentions.{mention_view, mention_views};

use crate::counts::{Item, What};
use crate::mentions::{Mention, add_mentions, is_named};
use st_ast::{Class, Expr, Field, Param, Pred, Proc, Program, Stmt, Thread};
use st_events::Site;
use std::alloc::{AllocError, Global};

/// Adds fields.
fn add_fields(items: &mut Vec<Item>, fields: &[Field]) -> Result<(), AllocError>
    ensures { OnOk result (items.new.items ≡ items.old.items ++ flat_map spec.field_items fields.now) }
{
    for field in fields {
        items.push(Item::One(What::Fields, field.site))?;
    }
    Ok(())
}

/// Adds classes with their fields.
fn add_classes(items: &mut Vec<Item>, classes: &[Class]) -> Result<(), AllocError>
    ensures { OnOk result (items.new.items ≡ items.old.items ++ flat_map spec.class_items classes.now) }
{
    for class in classes {
        items.push(Item::One(What::Classes, class.site))?;
        items.push(Item::Anew(What::Fields))?;
        add_fields(items, class.fields.as_slice())?;
    }
    Ok(())
}

/// Adds parameters, each of which is a local, too.
fn add_params(items: &mut Vec<Item>, params: &[Param]) -> Result<(), AllocError>
    ensures { OnOk result (items.new.items ≡ items.old.items ++ flat_map spec.param_items params.now) }
{
    for param in params {
        items.push(Item::One(What::Params, param.site))?;
        items.push(Item::One(What::Locals, param.site))?;
    }
    Ok(())
}

/// Adds what begins a body with parameters.
fn add_head(items: &mut Vec<Item>, params: &[Param]) -> Result<(), AllocError>
    ensures { OnOk result (items.new.items ≡ items.old.items ++ spec.head_items params.now) }
{
    items.push(Item::Anew(What::Params))?;
    items.push(Item::Anew(What::Locals))?;
    add_params(items, params)
}

/// Adds predicates with their parameters.
fn add_preds(items: &mut Vec<Item>, preds: &[Pred]) -> Result<(), AllocError>
    ensures { OnOk result (items.new.items ≡ items.old.items ++ flat_map spec.pred_items preds.now) }
{
    for pred in preds {
        items.push(Item::One(What::Preds, pred.site))?;
        add_head(items, pred.params.as_slice())?;
    }
    Ok(())
}

/// Adds procedures with their parameters and bodies.
fn add_procs(alloc: Global, items: &mut Vec<Item>, procs: &[Proc]) -> Result<(), AllocError>
    ensures { OnOk result (items.new.items ≡ items.old.items ++ flat_map spec.proc_items procs.now) }
{
    for proc in procs {
        items.push(Item::One(What::Procs, proc.site))?;
        add_head(items, proc.params.as_slice())?;
        add_stmts(alloc, items, proc.body.as_slice())?;
    }
    Ok(())
}

/// Adds threads with their bodies.
fn add_threads(alloc: Global, items: &mut Vec<Item>, threads: &[Thread]) -> Result<(), AllocError>
    ensures { OnOk result (items.new.items ≡ items.old.items ++ flat_map spec.thread_items threads.now) }
{
    for thread in threads {
        items.push(Item::One(What::Threads, thread.site))?;
        items.push(Item::Anew(What::Locals))?;
        add_stmts(alloc, items, thread.body.as_slice())?;
    }
    Ok(())
}

/// Adds the statements of a block.
#[cycle(stmts)]
fn add_stmts(alloc: Global, items: &mut Vec<Item>, stmts: &[Stmt]) -> Result<(), AllocError>
    ensures { OnOk result (items.new.items ≡ items.old.items ++ flat_map spec.stmt_items stmts.now) }
{
    for stmt in stmts {
        add_stmt(alloc, items, stmt)?;
    }
    Ok(())
}

/// Adds a statement with the blocks in it.
#[cycle(stmts)]
#[tactic(auto, unfolding(crate::specs::Counts::stmt_items))]
fn add_stmt(alloc: Global, items: &mut Vec<Item>, stmt: &Stmt) -> Result<(), AllocError>
    ensures { OnOk result (items.new.items ≡ items.old.items ++ spec.stmt_items stmt.now) }
{
    match stmt {
        Stmt::Var { name_site, .. } => {
            items.push(Item::One(What::Locals, *name_site))?;
            Ok(())
        }
        Stmt::Assign { .. } | Stmt::Put { .. } | Stmt::Call { .. } => Ok(()),
        Stmt::If { then, other, .. } => {
            add_stmts(alloc, items, then.as_slice())?;
            match other {
                Some(other) => add_stmts(alloc, items, other.as_slice()),
                None => Ok(()),
            }
        }
        Stmt::While { body, .. } => add_stmts(alloc, items, body.as_slice()),
        Stmt::Check { body, site } => add_check(alloc, items, body, *site),
    }
}

/// Adds a check statement and its arguments.
#[tactic(auto, unfolding(crate::specs::Counts::check_items))]
fn add_check(
    alloc: Global,
    items: &mut Vec<Item>,
    body: &Expr,
    site: Site,
) -> Result<(), AllocError>
    ensures { OnOk result (items.new.items ≡ items.old.items ++ spec.check_items body.now site) }
{
    items.push(Item::One(What::Checks, site))?;
    items.push(Item::Anew(What::CheckArgs))?;
    let mut mentions = Vec::new(alloc);
    add_mentions(&mut mentions, body)?;
    add_arguments(items, &mentions)
}

/// Adds a mention whose name stands in none before it.
#[tactic(auto, using(crate::proofs::ItemLemmas::is_named_of_views))]
fn add_argument(
    items: &mut Vec<Item>,
    before: &[Mention<'_>],
    mention: Mention<'_>,
) -> Result<(), AllocError>
    ensures { OnOk result (items.new.items ≡ items.old.items ++ spec.argument_item (mention_views before.now) (mention_view mention.entry)) }
{
    if is_named(before, mention.name) {
        return Ok(());
    }
    items.push(Item::One(What::CheckArgs, mention.site))?;
    Ok(())
}

/// Adds the first mention of each name.
#[tactic(auto, using(crate::proofs::ItemLemmas::next_argument))]
fn add_arguments(items: &mut Vec<Item>, mentions: &[Mention<'_>]) -> Result<(), AllocError>
    ensures { OnOk result (items.new.items ≡ items.old.items ++ spec.argument_items [] (mention_views mentions.now)) }
{
    for at in 0..mentions.len() {
        add_argument(items, &mentions[..at], mentions[at])?;
    }
    Ok(())
}

/// What is counted in a program, in the order of the text.
#[tactic(auto, unfolding(crate::specs::Counts::items_of))]
pub fn items_of(alloc: Global, program: &Program) -> Result<Vec<Item>, AllocError>
    ensures { IfOk result (λ list. list.items ≡ spec.items_of program.now) }
{
    let mut items = Vec::new(alloc);
    add_classes(&mut items, program.classes.as_slice())?;
    items.push(Item::Anew(What::Fields))?;
    add_fields(&mut items, program.shared.as_slice())?;
    add_preds(&mut items, program.preds.as_slice())?;
    add_procs(alloc, &mut items, program.procs.as_slice())?;
    add_threads(alloc, &mut items, program.threads.as_slice())?;
    Ok(items)
}
