//! The start of a table.
ghost use Rattle.std.specs.Prelude.{◌≡◌, IfOk};
ghost use Rattle.st_events.specs.Sizes.{AreWithinLimits};
ghost use Rattle.st_layout.specs.Limits.{IsWithinLimits};
ghost use Rattle.st_rule.specs.Board.{Displays, first_board, plan_of};
ghost use Rattle.st_rule.specs.Rule.{first_view};
ghost use Rattle.st_rule.specs.Seats.{IsSeatOf, terms_of, judge_of, sizes_of};

use crate::keys::Key;
use crate::seats::MutSeat;
use crate::tables::Shared;
use atomic_table::Table;
use st_events::{Judge, NoMemory, Sizes};
use st_layout::Plan;
use std::alloc::Global;
use std::snapshot::Snapshot;

/// The plan of the table for these sizes.
fn plan_for(sizes: &Sizes) -> Plan
    requires { AreWithinLimits sizes.now }
    ensures plan { result ≡ plan_of sizes.now }
    ensures limits { IsWithinLimits result }
{
    Plan {
        mutators: sizes.mutators,
        lanes: sizes.lanes,
        objects: sizes.objects,
        copies: sizes.copies,
        rows: u32::from(sizes.mutators) * (sizes.events / 2),
    }
}

/// The words at the start: the free list has all copies.
fn first_words(alloc: Global, plan: Plan) -> Result<Vec<u64>, NoMemory>
    requires { IsWithinLimits plan }
    ensures { IfOk result (λ words. Displays plan words.items (first_board plan)) }
{
    let mut words = Vec::from_elem(alloc, 0u64, plan.words() as usize)?;
    let row = words.as_mut_slice();
    row[plan.available_word() as usize] = u64::from(plan.copies);
    for copy in 0..plan.copies {
        row[plan.free_word(copy) as usize] = u64::from(copy);
    }
    Ok(words)
}

impl<J: Judge> Shared<J> {
    /// The table of a run, and the seat of its main thread, which is Outside. The rule speaks of the judge's shape and relation
    /// from then on. Memory is taken here for all words, twice over until the call returns.
    pub fn make(
        alloc: Global,
        judge: &J,
        sizes: &Sizes,
    ) -> Result<(Shared<J>, MutSeat<J>), NoMemory>
        requires { AreWithinLimits sizes.now }
        ensures judge { IfOk result (λ made. judge_of made.0 ≡ judge.now) }
        ensures sizes { IfOk result (λ made. sizes_of made.0 ≡ sizes.now) }
        ensures table { IfOk result (λ made. IsSeatOf J.meant made.0 made.1) }
        ensures view { IfOk result (λ made. made.1.view ≡ first_view (terms_of J.meant made.0)) }
    {
        // The shape of every judge is within the limits.
        let _shape = judge.shape();
        let plan = plan_for(sizes);
        let words = first_words(alloc, plan)?;
        let key = Key {
            sizes: *sizes,
            judge: Snapshot::of(judge),
        };
        let (table, seat) = Table::of_words(alloc, words.as_slice(), &key)?;
        let shared = Shared::of(table, *sizes, plan);
        let main = MutSeat::of(seat, sizes.mutators, 0, 0, Vec::new(alloc));
        Ok((shared, main))
    }
}
