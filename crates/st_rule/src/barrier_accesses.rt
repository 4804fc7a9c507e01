//! The accesses that the write barrier makes, each with the word that it may write. Here each is proved to keep the rule.
//!
//! Why an old version is kept for each active check that needs it, whatever the other threads do:
//! - Which checks need it, their holder knows at the draw: it has loaded the lane words, which stay as they are while it is inside. Those above
//!   the stamp of the object have no forwarding word there yet, since no forwarding word has an epoch above its object's stamp.
//! - The ticket and the copy's index are drawn at one step. So which copies are kept and which versions are lost is told by the order of the
//!   journal, and one index serves all lanes: a change needs one copy, whoever reads it.
//! - The index reaches a free copy exactly where it is below the length of the free list. Indexes differ and the list names each copy once,
//!   so nobody else writes the copy, and no check is told of it before it is complete.
//! - The copy's words are the fields as they still stand in the object: the field is overwritten only once no lane waits any more. So a check
//!   that reads the new word finds its forwarding word there.
//! - A lane's forwarding word is written once for a check: it is then of the check's epoch, and the lane is no longer owed one.
ghost use Rattle.std.specs.Prelude.{◌≡◌};
ghost use Rattle.st_rule.specs.Needs.{AwaitsCopyWord, AwaitsForward};
ghost use Rattle.st_rule.specs.Seats.{IsSeatOf, IsSameSeat, IsFair};
ghost use Rattle.st_rule.specs.Turns.{copy_stored, forwarded};

use crate::plays::{CopyStore, ForwardStore};
use crate::seats::MutSeat;
use crate::tables::Shared;
use st_events::Judge;

impl<J: Judge> Shared<J> {
    /// Stores to the next word of the copy that the seat builds, which must be the version's.
    pub(crate) fn store_copy(&self, seat: &mut MutSeat<J>, copy: u32, k: u8, value: u64)
        requires table { IsSeatOf J.meant self.now seat.old }
        requires flight { AwaitsCopyWord seat.old.view copy k value }
        ensures seat { IsSameSeat seat.old seat.new }
        ensures fair { IsFair seat.new }
        ensures view { seat.new.view ≡ copy_stored seat.old.view }
    {
        let word = self.copy_place(copy, k);
        self.table
            .shared
            .store::<CopyStore>(&mut seat.seat, word, value);
    }

    /// Stores to the forwarding word of a lane at the held object, which must name the complete copy or say that the version is lost.
    pub(crate) fn store_forward(&self, seat: &mut MutSeat<J>, obj: u32, lane: u8, value: u64)
        requires table { IsSeatOf J.meant self.now seat.old }
        requires flight { AwaitsForward seat.old.view obj lane value }
        ensures seat { IsSameSeat seat.old seat.new }
        ensures fair { IsFair seat.new }
        ensures view { seat.new.view ≡ forwarded lane seat.old.view }
    {
        seat.is_fair();
        let word = self.forward_place(obj, lane);
        self.table
            .shared
            .store::<ForwardStore>(&mut seat.seat, word, value);
    }
}
