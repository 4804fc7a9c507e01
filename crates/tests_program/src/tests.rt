//! Worked rows of the program.

mod calling;
mod commands;
mod devices;
mod runs;
mod texts;
