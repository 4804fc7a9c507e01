//! Tests of the snapshot heap.

mod long_row;
mod rows;
mod steps;
