//! Files of cases, tried and told.

use crate::drafts::read_cases;
use crate::running::{Ending, Trial, run_case};
use crate::tallies::Tally;
use crate::troubles::Trouble;
use st_io::{Files, RealFiles};
use std::alloc::{AllocGlobal, Global};
use std::rt::Runtime;
use std::sync::Wait;
use std::thread::Threads;
use std::{env, io};

/// The most bytes of a file of cases.
const MOST_BYTES: u32 = 16_777_216;

/// Tries the cases of each file that the command line names, and tells how many agree, by file and in all.
pub(crate) fn try_files<R: Runtime + AllocGlobal + Threads + Wait + Sync>(
    rt: &R,
) -> Result<Tally, Trouble> {
    let mut all = Tally::NONE;
    for name in env::args(rt)?.skip(1) {
        let tally = try_file(rt, rt.alloc(), &name)?;
        tell_tally(rt, &name, tally)?;
        all.add(tally);
    }
    tell_tally(rt, "in all", all)?;
    Ok(all)
}

/// Tries the cases of a file, and tells those that differ.
fn try_file<R: Runtime + Threads + Wait + Sync>(
    rt: &R,
    alloc: Global,
    name: &str,
) -> Result<Tally, Trouble> {
    let mut text = Vec::new(alloc);
    RealFiles::make(rt).read_whole(name, MOST_BYTES, &mut text)?;
    let mut tally = Tally::NONE;
    for case in read_cases(alloc, &text)? {
        let trial = run_case(rt, alloc, case)?;
        let agrees = trial.agrees();
        if !agrees {
            tell_difference(rt, alloc, &trial)?;
        }
        tally.count(agrees);
    }
    Ok(tally)
}

/// Tells how many cases agree.
fn tell_tally<R: Print>(rt: &R, name: &str, tally: Tally) -> io::Result<()> {
    let Tally { cases, agree } = tally;
    println!(rt; "{name}: {cases} cases, {agree} agree")
}

/// Tells a case that differs.
fn tell_difference<R: Print>(rt: &R, alloc: Global, trial: &Trial) -> Result<(), Trouble> {
    let name = trial.name.as_str();
    println!(rt; "differs: {name}")?;
    tell_ending(rt, alloc, "wanted", &trial.wanted)?;
    tell_ending(rt, alloc, "found", &trial.found)
}

/// Tells what is written, and the status.
fn tell_ending<R: Print>(
    rt: &R,
    alloc: Global,
    what: &str,
    ending: &Ending,
) -> Result<(), Trouble> {
    let status = ending.status;
    let text = String::from_utf8_lossy(alloc, &ending.out)?;
    println!(rt; "{what} status {status}, and")?;
    println!(rt; "{text}")?;
    Ok(())
}
