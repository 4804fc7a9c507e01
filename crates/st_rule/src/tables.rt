//! The table and its rule.
ghost use Rattle.std.specs.Prelude.{◌≡◌};
ghost use Rattle.st_events.specs.Sizes.{AreWithinLimits};
ghost use Rattle.st_layout.specs.Layout.{words_of};
ghost use Rattle.st_rule.specs.Board.{plan_of};

use crate::keys::Key;
use crate::views::View;
use atomic_table::{Table, TableRule};
use st_events::{Judge, Sizes};
use st_layout::Plan;
use std::alloc::Global;
use std::marker::PhantomData;

/// The rule, for the judge's shape and its relation.
pub struct Ruled<J> {
    judge: PhantomData<J>,
}

impl<J: Judge> TableRule<(), View, Key<J>> for Ruled<J> {
    ghost use Rattle.st_rule.specs.declared.views.View.TheVariants.{Mut};
    ghost use Rattle.st_rule.specs.Rule.{IsSoundTable, first_view};
    ghost use Rattle.st_rule.specs.Keys.{terms_by, told_by};

    ghost holds = { λ key. IsSoundTable (told_by J.meant J.right key) };

    ghost first = { λ key. Mut (first_view (terms_by J.meant key)) };
}

/// The words that threads share, under the rule of the shared table.
#[derive(Drop)]
pub struct Shared<J: Judge> {
    pub(crate) table: Table<(), View, Key<J>, Ruled<J>, Global>,
    pub(crate) sizes: Sizes,
    pub(crate) plan: Plan,
    ghost sizes_are: { sizes ≡ table.shared.key.sizes },
    ghost plan_is: { plan ≡ plan_of table.shared.key.sizes },
    ghost fits: { AreWithinLimits table.shared.key.sizes },
    ghost counted: { table.shared.table_id.words ≡ words_of plan },
    ghost no_slots: { table.shared.table_id.slots ≡ 0 },
}

impl<J: Judge> Shared<J> {
    /// A table that was just made.
    pub(crate) fn of(
        table: Table<(), View, Key<J>, Ruled<J>, Global>,
        sizes: Sizes,
        plan: Plan,
    ) -> Shared<J>
        requires sizes { sizes ≡ table.shared.key.sizes }
        requires plan { plan ≡ plan_of table.shared.key.sizes }
        requires fits { AreWithinLimits table.shared.key.sizes }
        requires counted { table.shared.table_id.words ≡ words_of plan }
        requires no_slots { table.shared.table_id.slots ≡ 0 }
        ensures { result.table ≡ table }
    {
        Shared { table, sizes, plan }
    }
}
