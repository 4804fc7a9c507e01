//! The evaluator of checks: it asks for one cell of the heap at a time, and takes no memory after it is made. Expressions are
//! straight code: instructions for a stack of words, in which a branch is a count of instructions that are passed over.
#![tactic(auto)]

mod asks;
mod compiling;
mod evals;
mod frames;
mod instructions;
mod laws;
mod operators;
mod program_codes;
mod stacks;
mod steps;

pub use asks::Ask;
pub use evals::Eval;
pub use instructions::Instruction;
pub use laws::{laws_of_code, laws_of_evaluations};
