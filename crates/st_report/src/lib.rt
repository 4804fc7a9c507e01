//! What a run writes: its report, the same as JSON, and the status that it ends with.
#![tactic(auto)]

mod as_json;
mod checks;
mod json_objects;
mod last_lines;
mod objects;
mod reports;
mod statuses;
mod tallies;

pub use as_json::report_json;
pub use last_lines::last_line;
pub use reports::report;
pub use statuses::{
    STATUS_CHECK_FAILS, STATUS_HOLDS, STATUS_UNDECIDED, STATUS_UNFINISHED, run_status,
};
