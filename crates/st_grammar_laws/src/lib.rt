//! Reading a source from the front, as functions of definitions alone: what each rule of the grammar makes of the tokens
//! (specs `Reading`), that this is the grammar, and what follows of it. The code is in st_parse.
#![tactic(auto)]

mod laws;
mod levels;

pub use laws::{one_fault, one_tree};
pub use levels::Level;
