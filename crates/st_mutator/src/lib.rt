//! What a thread of a program does, as a machine that asks for one step of the heap at a time: it holds no heap. Whoever runs it
//! replies. All its memory is taken when it is made.
#![tactic(auto)]

mod asking;
mod bodies;
mod calling;
mod dispatching;
mod faults;
mod laying;
mod locals;
mod machines;
mod mutators;
mod nodes;
mod running;
mod stacks;
mod steps;
mod wants;

pub use mutators::Mutator;
pub use wants::Want;
