//! What a caller asks before a call: how many copies, objects, events and lanes are left.
ghost use Rattle.std.specs.Prelude.{◌≡◌, ◌-◌, ◌<◌, length};
ghost use Rattle.st_snap.specs.Snapshots.{world_of, active_now, rows_now, event_room};

use super::SnapHeap;

impl SnapHeap {
    /// How many copies are free.
    pub fn free(&self) -> u32
        ensures { result ≡ self.now.sizes.copies - length (rows_now self.now) }
    {
        self.table.pool.free()
    }

    /// How many more objects the mutator may make.
    pub fn room(&self, m: u8) -> u32
        requires { m < self.now.sizes.mutators }
        ensures { result ≡ self.now.sizes.objects - (world_of self.now).made m }
    {
        self.sizes.objects - self.table.made_by(m)
    }

    /// How many more events fit.
    pub fn spare(&self) -> u32
        ensures { result ≡ event_room self.now.sizes - length self.now.journal }
    {
        self.sizes.mutators as u32 * self.sizes.events - self.journal.len()
    }

    /// How many lanes have no active check.
    pub fn idle(&self) -> u8
        ensures { result ≡ self.now.sizes.lanes - length (active_now self.now) }
    {
        self.table.lanes.count_idle() as u8
    }
}
