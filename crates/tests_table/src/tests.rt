//! Rows of the table of the threads.

mod counting;
mod gates;
mod judges;
mod seats;
