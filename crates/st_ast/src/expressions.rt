//! Expressions.
ghost use Rattle.std.specs.Prelude.{◌≡◌};
ghost use Rattle.st_ast.specs.Sites.{site_of_expr};

use crate::names::Name;
use crate::operators::Op;
use sqlite_items::{Boxed, Items};
use st_events::Site;

/// An expression. A place, as statements write to it, is a `Field` or a `Shared`.
#[derive(Drop)]
pub enum Expr {
    /// A number.
    Number {
        /// What its digits say; never below 0.
        value: i64,
        /// Its token.
        site: Site,
    },
    /// `true` or `false`.
    Truth {
        value: bool,
        /// Its token.
        site: Site,
    },
    /// `null`.
    Null {
        /// Its token.
        site: Site,
    },
    /// A parameter or a `var`.
    Local {
        name: Name,
        /// Its token.
        site: Site,
    },
    /// `name(args)`.
    Call {
        name: Name,
        /// The arguments, from left to right.
        args: Items<Expr>,
        /// The name.
        site: Site,
    },
    /// `shared.name`.
    Shared {
        name: Name,
        /// The `.` before the name.
        site: Site,
    },
    /// `object.name`.
    Field {
        object: Boxed<Expr>,
        name: Name,
        /// The `.` before the name.
        site: Site,
    },
    /// `(inner)`.
    Paren {
        inner: Boxed<Expr>,
        /// The `(`.
        site: Site,
    },
    /// `!inner`.
    Not {
        inner: Boxed<Expr>,
        /// The `!`.
        site: Site,
    },
    /// `-inner`.
    Minus {
        inner: Boxed<Expr>,
        /// The `-`.
        site: Site,
    },
    /// `left op right`.
    Binary {
        op: Op,
        left: Boxed<Expr>,
        right: Boxed<Expr>,
        /// The mark of the operator.
        site: Site,
    },
    /// `test ? yes : no`.
    Cond {
        test: Boxed<Expr>,
        yes: Boxed<Expr>,
        no: Boxed<Expr>,
        /// The `?`.
        site: Site,
    },
}

impl Expr {
    /// The place of the token that the expression is known by.
    pub fn site(&self) -> Site
        ensures { result ≡ site_of_expr self.now }
    {
        match self {
            Expr::Number { site, .. }
            | Expr::Truth { site, .. }
            | Expr::Null { site }
            | Expr::Local { site, .. }
            | Expr::Call { site, .. }
            | Expr::Shared { site, .. }
            | Expr::Field { site, .. }
            | Expr::Paren { site, .. }
            | Expr::Not { site, .. }
            | Expr::Minus { site, .. }
            | Expr::Binary { site, .. }
            | Expr::Cond { site, .. } => *site,
        }
    }
}
