//! The source of a number.
ghost use Rattle.std.specs.Prelude.{◌≡◌, ◌≤◌, IfOk};
ghost use Rattle.st_gen.specs.Source.{source_text};

use crate::pieces::{AFTER_PLANTS, BEFORE_PLANTS, BEFORE_PUSHED, BEFORE_PUSHES};
use st_events::NoMemory;
use std::alloc::Global;

/// The most turns of each thread of a generated source.
pub const MOST_TURNS: u32 = 1_000;

const _: () = prove!(MOST_TURNS == 1_000);

/// The source whose two threads turn `n` times each.
#[tactic(auto, using(crate::proofs::SourceLemmas::pieces_are_the_source))]
pub fn generate(alloc: Global, n: u32) -> Result<Vec<u8>, NoMemory>
    requires some { 1 ≤ n }
    requires few { n ≤ MOST_TURNS }
    ensures { IfOk result (λ source. source.items ≡ source_text n) }
{
    let source = format!(in alloc;
        "{BEFORE_PUSHES}{n}{BEFORE_PUSHED}{n}{BEFORE_PLANTS}{n}{AFTER_PLANTS}"
    )?;
    Ok(source.into_bytes())
}
