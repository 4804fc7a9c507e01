//! Cases of the program as text. Each file that the command line names holds cases; each is a call of the top call over files
//! and a sink in memory. One that differs is told with what was wanted and what was found, and then the process ends with
//! status 1. A file that cannot be read, or holds no cases, is told too, and ends it with status 2.
#![tactic(auto)]

mod cases;
mod drafts;
mod orders;
mod running;
mod tallies;
mod telling;
mod troubles;

use crate::tallies::Tally;
use crate::telling::try_files;
use std::process::ExitCode;

fn main(rt: HostRuntime) -> ExitCode {
    match try_files(&rt) {
        Ok(tally) => ExitCode::from(tally.status()),
        Err(trouble) => {
            let text = trouble.text();
            match println!(rt; "{text}") {
                Ok(()) | Err(_) => ExitCode::from(2),
            }
        }
    }
}
