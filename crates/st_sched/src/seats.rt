//! A thread of the program at its place in a run.
ghost use Rattle.std.specs.Prelude.{◌≡◌, ℕ, List, [], ◌∷◌, ◌++◌, IfOk};
ghost use Rattle.st_events.specs.declared.limits.Sizes.{Sizes};
ghost use Rattle.st_resolved.specs.Terms.{Program};
ghost use Rattle.st_resolved.specs.Views.{program_of};
ghost use Rattle.st_run_meaning.specs.Agents.{can_turn as turn_is_possible};
ghost use Rattle.st_mutator.specs.Mutators.{HasFewLocals, turn_of_want};

use st_events::{NoMemory, Sizes};
use st_mutator::{Mutator, Want};
use st_resolved::Resolved;
use std::alloc::Global;

/// A thread, and what it asks for next.
#[derive(Drop)]
pub(crate) struct Seat {
    pub thread: Mutator,
    pub want: Want,
}

impl Seat {
    ghost use Rattle.st_sched.specs.Seats.{HasReplies};

    /// Thread `m` of the program before its first step.
    pub fn make(alloc: Global, program: &Resolved, m: u8, sizes: &Sizes) -> Result<Seat, NoMemory>
        requires { HasFewLocals (program_of program.now) }
        ensures { IfOk result (λ seat. HasReplies (program_of program.now) sizes.now m [] seat) }
    {
        let mut thread = Mutator::make(alloc, program, m, sizes.objects, sizes.events)?;
        let want = thread.next(0);
        Ok(Seat { thread, want })
    }

    /// The thread goes on by the reply to what it asked for.
    pub fn reply(&mut self, word: u64)
        ensures { (p : Program) (sizes : Sizes) (m : ℕ) (replies : List ℕ) → HasReplies p sizes m replies self.old → HasReplies p sizes m (replies ++ word ∷ []) self.new }
    {
        self.want = self.thread.next(word);
    }

    /// Whether the thread can take a turn: not after its end, and a launch only where there is room for it.
    pub fn can_turn(&self, room: bool) -> bool
        ensures { result ≡ turn_is_possible (turn_of_want self.now.want) room }
    {
        match self.want {
            Want::New { .. } => true,
            Want::Load { .. } => true,
            Want::Store { .. } => true,
            Want::Cas { .. } => true,
            Want::Launch { .. } => room,
            Want::End(_) => false,
        }
    }
}
