//! Cuts a source text into names, keywords, numbers and marks, or tells the first place at which none of these stands.
//! The definition of the tokens of a text stands in `specs/Tokens.antt`; `tokens` gives exactly that list.
#![tactic(auto)]

mod bytes;
mod cursors;
mod errors;
mod kinds;
mod laws;
mod lexer;
mod limits;
mod numbers;
mod pieces;
mod words;

pub use errors::LexError;
pub use kinds::{Token, TokenKind};
pub use laws::{neighbours, one_reading};
pub use lexer::tokens;
pub use limits::{LARGEST_NUMBER, MOST_SOURCE_BYTES};

#[cfg(test)]
mod tests;
