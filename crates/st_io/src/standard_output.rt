//! The standard output of the process.
ghost use Rattle.std.specs.Prelude.{◌≡◌, ◌≤◌, OnOk, OnErr, None, is_ok, if◌then◌else◌};
ghost use Rattle.st_io.specs.Counts.{RoseBy, raised};
ghost use Rattle.st_io.specs.Growth.{Grows, GrowsByFront};
ghost use Rattle.std.specs.Io.KnownBytes.{Appends};

use crate::errors::SinkFault;
use crate::writing::Sink;
use std::io;
use std::io::Write;
use std::marker::Model;

/// The standard output. It tells no content. Contracts see how many puts have failed.
#[derive(Drop)]
pub struct RealSink<'a, R> {
    rt: &'a R,
    faults: u64,
}

impl<'a, R> Model for RealSink<'a, R> {
    ghost use Rattle.std.specs.Prelude.{ℕ};

    ghost Value = { ℕ };

    ghost view = { λ sink. sink.faults };
}

impl<'a, R: Print> RealSink<'a, R> {
    /// The standard output that `rt` reaches.
    pub fn make(rt: &'a R) -> RealSink<'a, R>
        ensures { result ≡ 0 }
    {
        RealSink { rt, faults: 0 }
    }
}

// Writes all of the bytes, and leaves none in a buffer.
fn write_through<W: Write>(writer: &mut W, bytes: &[u8]) -> io::Result<()>
    ensures { OnOk result (Appends (W.contents writer.old) (W.contents writer.new) bytes.now) }
{
    writer.write_all(bytes)?;
    writer.flush()
}

impl<R: Print> Sink for RealSink<'_, R> {
    ghost use Rattle.std.specs.Prelude.{None};

    ghost state = { λ sink. record { written = None; faults = sink } };

    fn put(&mut self, bytes: &[u8]) -> Result<(), SinkFault>
        ensures appended { OnOk result (Grows None bytes.now None) }
        ensures cut { OnErr result (GrowsByFront None bytes.now None) }
        ensures failed { OnErr result (RoseBy 1 self.old self.new) }
        ensures faults { self.old ≤ self.new }

        // Each failure is counted.
        ensures counted { self.new ≡ (if is_ok result then self.old else raised 1 self.old) }
    {
        match write_through(&mut io::writer(self.rt), bytes) {
            Ok(()) => Ok(()),
            Err(_) => {
                self.faults = self.faults.saturating_add(1);
                Err(SinkFault::Failed)
            }
        }
    }
}
