//! The names of locals in an expression.
ghost use Rattle.std.specs.Prelude.{◌≡◌, ◌++◌, map, OnOk};
ghost use Rattle.std.specs.List.{flat_map, list_any};
ghost use Rattle.std.specs.Str.{bytes_eq};
ghost use Rattle.st_grammar.specs.Counts as spec;
ghost use Rattle.st_grammar.specs.Mentions.{mention_views};

use st_ast::Expr;
use st_events::Site;
use std::alloc::AllocError;

/// A name of a local in an expression.
#[derive(Clone, Copy)]
pub struct Mention<'a> {
    /// The name.
    pub name: &'a [u8],
    /// Its place.
    pub site: Site,
}

/// Adds the names of locals in an expression, from left to right.
#[cycle(mentions)]
#[tactic(auto, unfolding(crate::specs::Counts::mentions))]
pub fn add_mentions<'a>(found: &mut Vec<Mention<'a>>, expr: &'a Expr) -> Result<(), AllocError>
    ensures { OnOk result (mention_views found.new.items ≡ mention_views found.old.items ++ spec.mentions expr.now) }
{
    match expr {
        Expr::Number { .. } | Expr::Truth { .. } | Expr::Null { .. } | Expr::Shared { .. } => Ok(
            (),
        ),
        Expr::Local { name, site } => {
            found.push(Mention {
                name: name.as_slice(),
                site: *site,
            })?;
            Ok(())
        }
        Expr::Call { args, .. } => add_mentions_of_all(found, args.as_slice()),
        Expr::Field { object, .. } => add_mentions(found, object.get()),
        Expr::Paren { inner, .. } | Expr::Not { inner, .. } | Expr::Minus { inner, .. } => {
            add_mentions(found, inner.get())
        }
        Expr::Binary { left, right, .. } => {
            add_mentions(found, left.get())?;
            add_mentions(found, right.get())
        }
        Expr::Cond { test, yes, no, .. } => {
            add_mentions(found, test.get())?;
            add_mentions(found, yes.get())?;
            add_mentions(found, no.get())
        }
    }
}

/// Adds the names of locals in each of the expressions.
#[cycle(mentions)]
fn add_mentions_of_all<'a>(
    found: &mut Vec<Mention<'a>>,
    exprs: &'a [Expr],
) -> Result<(), AllocError>
    ensures { OnOk result (mention_views found.new.items ≡ mention_views found.old.items ++ flat_map spec.mentions exprs.now) }
{
    for expr in exprs {
        add_mentions(found, expr)?;
    }
    Ok(())
}

/// Whether one of them names a local so.
pub fn is_named(mentions: &[Mention<'_>], name: &[u8]) -> bool
    ensures { result ≡ list_any (λ m. bytes_eq m.name.now name.now) mentions.now }
{
    mentions.iter().any(|mention| mention.name == name)
}
