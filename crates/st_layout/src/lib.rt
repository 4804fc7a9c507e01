//! Numbers of the words of the shared table. Each word has a name, and distinct names have distinct words.
//! Arithmetic alone: nothing here holds a table. The crates that make the table and step on it call it.
#![tactic(auto)]

mod board_words;
mod limits;
mod object_words;
mod packing;
mod plans;
mod words;

pub use limits::{MOST_COPIES, MOST_FIELDS, MOST_LANES, MOST_MUTATORS, MOST_OBJECTS, MOST_ROWS};
pub use packing::{hi, lo, pack};
pub use plans::Plan;
pub use words::{CELL_WORDS, COPY_WORDS, MOST_WORDS, ROW_WORDS};
