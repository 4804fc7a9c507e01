//! A sink for bytes.
ghost use Rattle.std.specs.Prelude.{◌≤◌, OnOk, OnErr};
ghost use Rattle.st_io.specs.Counts.{RoseBy};
ghost use Rattle.st_io.specs.Growth.{Grows, GrowsByFront};
ghost use Rattle.st_io.specs.States.{SinkState};

use crate::errors::SinkFault;

/// A sink that bytes are put into, a piece at a time. Its count is kept in 64 bits, and stands still at the last value.
pub trait Sink {
    /// The bytes written, where they are told, and how many faults came.
    ghost state: { Self → SinkState };

    /// Appends all of `bytes`, without taking memory. At `Failed`, which comes only where a write failed, a front of
    /// them was appended.
    fn put(&mut self, bytes: &[u8]) -> Result<(), SinkFault>
        ensures appended { OnOk result (Grows (state self.old).written bytes.now (state self.new).written) }
        ensures cut { OnErr result (GrowsByFront (state self.old).written bytes.now (state self.new).written) }
        ensures failed { OnErr result (RoseBy 1 (state self.old).faults (state self.new).faults) }
        ensures faults { (state self.old).faults ≤ (state self.new).faults };
}
