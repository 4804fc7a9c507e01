//! The words of a call: a command of the program with its names, numbers and flags.
#![tactic(auto)]

mod choices;
mod command;
mod errors;
mod limits;
mod numbers;
mod options;
mod reading;
mod words;

pub use errors::WordsError;
pub use limits::{MOST_CHECKERS, MOST_TURNS, USUAL_CHECKERS};
pub use reading::read_words;
pub use words::{FileName, Form, RunWords, Words};
