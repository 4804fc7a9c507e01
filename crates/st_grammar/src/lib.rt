//! What a source is spelled like: its tokens as the grammar sees them, the grammar as a relation (specs `Grammar`), the
//! limits on tokens and on counts, and where a text first goes wrong.
#![tactic(auto)]

mod counts;
mod items;
mod lexemes;
mod limits;
mod mentions;
mod operators;
mod sorts;
mod token_limits;

pub use counts::{Item, What, first_excess};
pub use items::items_of;
pub use lexemes::{Lexeme, sort_in};
pub use limits::MOST_TOKENS_BETWEEN;
pub use operators::{Chain, comparison};
pub use sorts::{Sort, same_sort};
pub use token_limits::{Over, first_over};
