//! The resolved program: what a source says, with numbers in the place of names. Checks and threads have their meaning here.
//! Plain data: contracts see each list as a list and each box as its value.
#![tactic(auto)]

mod expressions;
mod limits;
mod programs;
mod statements;

pub use expressions::{Expr, Operator};
pub use limits::{MOST_LOCALS, MOST_PARAMS, MOST_PREDS, MOST_PROCS};
pub use programs::{Body, Check, Pred, Resolved};
pub use sqlite_items::{Boxed, Items};
pub use statements::{Source, Stmt, Target};
