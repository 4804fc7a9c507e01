//! Which tokens are operators, and at which levels.
ghost use Rattle.std.specs.Prelude.{◌≡◌};
ghost use Rattle.st_grammar.specs.Operators as spec;

use crate::sorts::Sort;
use st_ast::Op;

/// The levels at which operators follow one another, from the loosest.
#[derive(Clone, Copy)]
pub enum Chain {
    /// `||`
    Either,
    /// `&&`
    Both,
    /// `+` and `-`
    Sum,
    /// `*`, `/` and `%`
    Product,
}

impl Chain {
    /// The operator of this level that a token is.
    pub fn operator(self, sort: Sort) -> Option<Op>
        ensures { result ≡ spec.chained self sort }
    {
        match (self, sort) {
            (Chain::Either, Sort::Either) => Some(Op::Either),
            (Chain::Both, Sort::Both) => Some(Op::Both),
            (Chain::Sum, Sort::Plus) => Some(Op::Add),
            (Chain::Sum, Sort::Minus) => Some(Op::Sub),
            (Chain::Product, Sort::Star) => Some(Op::Mul),
            (Chain::Product, Sort::Slash) => Some(Op::Div),
            (Chain::Product, Sort::Percent) => Some(Op::Rem),
            _ => None,
        }
    }
}

/// The comparison that a token is.
pub fn comparison(sort: Sort) -> Option<Op>
    ensures { result ≡ spec.compared sort }
{
    match sort {
        Sort::Equal => Some(Op::Equal),
        Sort::NotEqual => Some(Op::NotEqual),
        Sort::Less => Some(Op::Less),
        Sort::LessEq => Some(Op::LessEq),
        Sort::Greater => Some(Op::Greater),
        Sort::GreaterEq => Some(Op::GreaterEq),
        _ => None,
    }
}
