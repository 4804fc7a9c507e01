//! Runs of source texts.
ghost use Rattle.std.specs.Prelude.{};

use super::amounts::Amounts;
use super::errors::Unrun;
use st_events::Ran;
use st_sched::run_scheduled;
use st_source::read_source;
use std::alloc::Global;

/// What a run of the text leaves, as the seed schedules it.
pub fn run_text(alloc: Global, text: &[u8], amounts: Amounts, seed: u64) -> Result<Ran, Unrun> {
    let typed = read_source(alloc, text)?;
    let sizes = amounts.sizes(typed.threads());
    if !sizes.fits() {
        return Err(Unrun::TooLarge);
    }
    Ok(run_scheduled(alloc, &typed, &sizes, seed)?)
}
