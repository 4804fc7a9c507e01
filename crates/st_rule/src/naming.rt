//! Which table a type speaks of. Nothing is known of a value behind a lock but what its type keeps; so a type whose seats lie behind one says by a
//! parameter which table they are of, and a function that is generic in it passes that on.
ghost use Rattle.std.specs.Prelude.{Option, None};
ghost use Rattle.atomic_table.specs.Seated.{TableId};
ghost use Rattle.st_events.specs.declared.limits.Sizes.{Sizes};
ghost use Rattle.st_rule.specs.Named.{no_table, no_sizes};

use std::marker::Brand;

/// A table by name, for proofs alone. The call that makes a table passes it on to a function that is generic in `N: Naming<J>`, and picks there
/// which table `N` names; `IsNamedTable` says that a table is the one, and `IsNamedSeat` that a seat is of it.
pub trait Naming<J> {
    /// The table.
    ghost table: { TableId };
    /// The judge of its checks.
    ghost judge: { Option J };
    /// The sizes of its run.
    ghost sizes: { Sizes };
}

/// Names no table until it is picked.
impl<J> Naming<J> for Brand {
    ghost table = { no_table };

    ghost judge = { None };

    ghost sizes = { no_sizes };
}
