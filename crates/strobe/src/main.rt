//! The program `strobe`: the words of the command line, the files of the system, and the standard output.
#![tactic(auto)]

ghost use Rattle.std.specs.Prelude.{◌≡◌};
ghost use Rattle.std.specs.Process.{exit_status};

#[cfg(test)]
mod tests;
mod words;

use crate::words::command_words;
use st_io::{NoPace, RealFiles, RealSink};
use st_top::{Outcome, refuse_without_memory, strobe};
use std::process::ExitCode;
use std::rt::Runtime;
use std::sync::Wait;
use std::thread::Threads;

/// The status that the process ends with is that of the call.
fn final_status(outcome: &Outcome) -> ExitCode
    ensures { exit_status result ≡ outcome.now.status }
{
    ExitCode::from(outcome.status)
}

/// Does what the command line says.
fn run<R: Runtime + AllocGlobal + Threads + Wait + Sync>(rt: &R) -> Outcome {
    let mut out = RealSink::make(rt);
    match command_words(rt) {
        Ok(words) => {
            let mut files = RealFiles::make(rt);
            strobe(rt, rt.alloc(), &words, &mut files, &mut out, &NoPace)
        }
        Err(_) => refuse_without_memory(&mut out),
    }
}

fn main(rt: HostRuntime) -> ExitCode {
    final_status(&run(&rt))
}
