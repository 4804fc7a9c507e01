//! A sink in memory, for tests.
ghost use Rattle.std.specs.Prelude.{◌≡◌, ◌+◌, ◌^◌, ◌<◌, ◌≤◌, ◌++◌, ◌↔◌, [], length};
ghost use Rattle.std.specs.Prelude.{if◌then◌else◌, nat_lt, take, vec_len, vec_capacity, IfOk, OnOk, OnErr, IsErr, IsSome, Some};
ghost use Rattle.st_io.specs.Counts.{RoseBy};
ghost use Rattle.st_io.specs.Growth.{Grows, GrowsByFront};
ghost use Rattle.st_io.specs.MemorySink.{listed_cut, cut_of_put, sink_after};

use crate::errors::SinkFault;
use crate::writing::Sink;
use st_events::NoMemory;
use std::alloc::Global;
use std::marker::Model;

/// A sink in memory. Contracts see the bytes written, how many fit, the puts that are to fail, and the counts.
#[derive(Drop)]
pub struct MemSink {
    bytes: Vec<u8>,
    room: u32,
    failing: Vec<(u32, u32)>,
    puts: u64,
    faults: u64,
}

impl Model for MemSink {
    ghost use Rattle.std.specs.Prelude.{◌≤◌, vec_capacity};
    ghost use Rattle.st_io.specs.MemorySink.{Held};

    ghost Value = { Held };

    ghost view = { λ m. record {
      bytes = m.bytes.items;
      room = m.room;
      failing = m.failing.items;
      puts = m.puts;
      faults = m.faults;
    } };

    ghost invariant = { λ m. m.room ≤ vec_capacity m.bytes };
}

impl MemSink {
    /// An empty sink, with room for `room` bytes reserved. Each pair of `failing` is the number, from 1, of a put that
    /// is to fail, and how many bytes of its piece it appends first, at most the whole piece. Of pairs with one number
    /// the first counts.
    pub fn with_room(
        alloc: Global,
        room: u32,
        failing: Vec<(u32, u32)>,
    ) -> Result<MemSink, NoMemory>
        ensures empty { IfOk result (λ sink. sink.bytes ≡ []) }
        ensures room { IfOk result (λ sink. sink.room ≡ room) }
        ensures failing { IfOk result (λ sink. sink.failing ≡ failing.items) }
        ensures counts { IfOk result (λ sink. (sink.puts ≡ 0) × (sink.faults ≡ 0)) }
    {
        Ok(MemSink {
            bytes: Vec::with_capacity(alloc, room as usize)?,
            room,
            failing,
            puts: 0,
            faults: 0,
        })
    }

    /// The bytes written.
    pub fn bytes(&self) -> &[u8]
        ensures { result.now ≡ self.now.bytes }
    {
        self.bytes.as_slice()
    }
}

// How many bytes the put with this number appends before it fails, if it is to fail.
#[tactic(auto, unfolding(crate::specs::MemorySink::listed_cut))]
fn find_cut(failing: &[(u32, u32)], put: u64) -> Option<u32>
    ensures { result ≡ listed_cut failing.now put }
{
    failing
        .iter()
        .find(|entry| u64::from(entry.0) == put)
        .map(|entry| entry.1)
}

// How many bytes of a piece of `size` bytes go into a sink of `held` bytes before the put fails, if it fails.
fn decide_cut(held: usize, room: u32, failing: &[(u32, u32)], put: u64, size: usize) -> Option<u32>
    requires held { held < 2 ^ 63 }
    requires size { size < 2 ^ 63 }
    ensures { result ≡ (if nat_lt room (held + size) then Some 0 else listed_cut failing.now put) }
{
    if (room as usize) < held + size {
        Some(0)
    } else {
        find_cut(failing, put)
    }
}

// Appends a piece for which there is room.
fn append(bytes: &mut Vec<u8>, piece: &[u8])
    requires { vec_len bytes.old + length piece.now ≤ vec_capacity bytes.old }
    ensures items { bytes.new.items ≡ bytes.old.items ++ piece.now }
    ensures capacity { vec_capacity bytes.old ≤ vec_capacity bytes.new }
{
    match bytes.extend_from_slice(piece) {
        Ok(()) => {}
        Err(_) => unreachable!(),
    }
}

impl Sink for MemSink {
    ghost use Rattle.std.specs.Prelude.{Some};

    ghost state = { λ sink. record { written = Some sink.bytes; faults = sink.faults } };

    fn put(&mut self, bytes: &[u8]) -> Result<(), SinkFault>
        ensures appended { OnOk result (Grows (Some self.old.bytes) bytes.now (Some self.new.bytes)) }
        ensures cut { OnErr result (GrowsByFront (Some self.old.bytes) bytes.now (Some self.new.bytes)) }
        ensures failed { OnErr result (RoseBy 1 self.old.faults self.new.faults) }
        ensures faults { self.old.faults ≤ self.new.faults }

        // It fails exactly where the put is listed or past the room, after exactly so many bytes.
        ensures fails { IsErr result ↔ IsSome (cut_of_put self.old bytes.now) }
        ensures counted { self.new ≡ sink_after self.old bytes.now }
    {
        self.puts = self.puts.saturating_add(1);
        match decide_cut(
            self.bytes.len(),
            self.room,
            &self.failing,
            self.puts,
            bytes.len(),
        ) {
            None => {
                append(&mut self.bytes, bytes);
                Ok(())
            }
            Some(count) => {
                let front = bytes.len().min(count as usize);
                append(&mut self.bytes, &bytes[..front]);
                self.faults = self.faults.saturating_add(1);
                Err(SinkFault::Failed)
            }
        }
    }
}
