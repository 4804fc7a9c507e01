//! Types: which trees are programs.
#![tactic(auto)]

mod arguments;
mod assignments;
mod calls;
mod checking;
mod errors;
mod expressions;
mod kinds;
mod laws;
mod names;
mod operators;
mod predicates;
mod routines;
mod scopes;
mod spaces;
mod statements;
mod typed_programs;
mod values;
mod walks;

pub use checking::check_types;
pub use errors::{TypeError, Wanted};
pub use kinds::Found;
pub use laws::{first_fault_of_expressions, known_behind_its_var};
pub use names::Named;
pub use typed_programs::{Counts, Typed};
pub use walks::Launched;
