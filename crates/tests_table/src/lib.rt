//! Rows of the shared table: a seat that goes in and out, the gate by one thread and by three, and four threads that count one word up.
//! Tests alone; they stand apart from st_rule, st_gate and st_barrier, since a crate is proved again whole with its tests.
#![tactic(auto)]

#[cfg(test)]
mod tests;
