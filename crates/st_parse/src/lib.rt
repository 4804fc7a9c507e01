//! From the tokens of a source to its tree.
#![tactic(auto)]

mod arguments;
mod blocks;
mod chains;
mod cursors;
mod declarations;
mod errors;
mod expressions;
mod laws;
mod parser;
mod places;
mod primaries;
mod programs;
mod statements;
mod stops;
mod values;

pub use errors::ParseError;
pub use laws::one_answer;
pub use parser::parse;
pub use st_grammar::What;
