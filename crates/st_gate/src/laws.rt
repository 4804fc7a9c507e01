//! What holds as long as a thread is alone. Nothing is computed: the call states a fact, by its clause.
ghost use Rattle.st_gate.specs.Exclusion.{ExcludesOthers};
ghost use Rattle.st_rule.specs.Seats.{told_of};

use crate::kinds::Alone;
use st_events::Judge;
use st_rule::Shared;

impl<J: Judge> Alone<J> {
    /// While this value lives, no other seat of the table is Inside or Alone.
    pub fn excludes_others(&self, shared: &Shared<J>)
        ensures { ExcludesOthers (told_of J.meant J.right shared.now) self.now.seat }
    {}
}
