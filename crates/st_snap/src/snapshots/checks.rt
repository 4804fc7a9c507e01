//! The calls of checks: a launch gives a lane, reads go by it, and a retire takes it back.
ghost use Rattle.std.specs.Prelude.{◌≡◌, ◌≢◌, ◌+◌, ◌<◌, ◌≤◌, ◌↔◌, length, Some, IsTrue, IfOk, IfErr, IsErr, OnErr};
ghost use Rattle.st_events.specs.declared.events.Event.{Event};
ghost use Rattle.st_snap.specs.Snapshots.{world_of, active_now, IsLegalHeap, with_event, HasSpare, IsLaneOf, IsActive, HasNoLane, IsOnlyLane};
ghost use Rattle.st_snap.specs.Snapshots.{are_args_of, HadCell, word_at_launch, is_lost_for};
ghost use Rattle.st_snap.specs.declared.lanes.Lane.{Lane};

use super::{SnapHeap, append};
use crate::lanes::Lane;
use st_events::{Args, Event, Lost, NoLane};

impl SnapHeap {
    /// Launches the next check on the heap as it stands. With every lane active the answer is NoLane.
    pub fn launch(&mut self, m: u8, site: u16, args: Args) -> Result<Lane, NoLane>
        requires thread { m < self.old.sizes.mutators }
        requires site { site < length self.old.shape.checks }
        requires args { IsTrue (are_args_of self.old site args) }
        requires spare { HasSpare self.old }
        ensures no_lane { IsErr result ↔ (length (active_now self.old) ≡ self.old.sizes.lanes) }
        ensures err { OnErr result (self.new ≡ self.old) }
        ensures number { IfOk result (λ lane. lane.number ≡ (world_of self.old).epoch + 1) }
        ensures event { IfOk result (λ lane. self.new ≡ with_event self.old (Event.Launch m site lane.number args)) }
        ensures legal { IsLegalHeap self.new }
        ensures lane { IfOk result (λ lane. IsLaneOf self.new lane) }
        ensures fresh { IfOk result (λ lane. HasNoLane self.old lane.number) }
        ensures others { (other : Lane) → IsLaneOf self.old other → IsLaneOf self.new other }
    {
        let lane = match self.table.launch() {
            Some(lane) => lane,
            None => return Err(NoLane),
        };
        let number = lane.number;
        append(
            &mut self.journal,
            Event::Launch {
                m,
                number,
                site,
                args,
            },
        );
        Ok(lane)
    }

    /// The word of the heap at the check's launch, unless that version was lost.
    pub fn read(&self, lane: &Lane, obj: u32, field: u8) -> Result<u64, Lost>
        requires lane { IsLaneOf self.now lane.now }
        requires cell { HadCell self.now lane.now.number obj field }
        ensures word { IfOk result (λ word. word_at_launch self.now lane.now.number obj field ≡ Some word) }
        ensures lost { IsErr result ↔ IsTrue (is_lost_for self.now obj lane.now.number) }
        ensures object { IfErr result (λ lost. lost.obj ≡ obj) }
        ensures active { IsActive self.now lane.now.number }
        ensures only { IsOnlyLane self.now lane.now }
    {
        match self.table.read(lane, obj, field) {
            Some(word) => Ok(word),
            None => Err(Lost { obj }),
        }
    }

    /// Ends a check; copies that only it read are free again.
    pub fn retire(&mut self, m: u8, lane: Lane)
        requires thread { m ≤ self.old.sizes.mutators }
        requires lane { IsLaneOf self.old lane }
        requires spare { HasSpare self.old }
        ensures event { self.new ≡ with_event self.old (Event.Retire m lane.number) }
        ensures legal { IsLegalHeap self.new }
        ensures active { IsActive self.old lane.number }
        ensures only { IsOnlyLane self.old lane }
        ensures gone { HasNoLane self.new lane.number }
        ensures others { (other : Lane) → other.number ≢ lane.number → IsLaneOf self.old other → IsLaneOf self.new other }
    {
        let number = lane.number;
        self.table.retire(lane);
        append(&mut self.journal, Event::Retire { m, number });
    }
}
