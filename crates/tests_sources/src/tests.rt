//! Worked rows over texts.

mod parses;
mod rules;
mod sources;
