//! The trees of a source: programs, declarations, statements and expressions. Every node has the place of its token.
//! Trees are plain data: contracts see each list as a list, each box as its value and each name as its bytes.
#![tactic(auto)]

mod declarations;
mod expressions;
mod limits;
mod lines;
mod names;
mod operators;
mod printing;
mod statements;
mod words;

pub use declarations::{Class, Field, Param, Pred, Proc, Program, Thread, TypeName};
pub use expressions::Expr;
pub use limits::{MOST_OPEN_BRACES, MOST_SOURCE_CLASSES};
pub use names::Name;
pub use operators::Op;
pub use printing::print;
pub use sqlite_items::{Boxed, Items};
pub use statements::{Stmt, Value};
