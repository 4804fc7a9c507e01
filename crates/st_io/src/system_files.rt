//! Files of the system.
ghost use Rattle.std.specs.Prelude.{◌≡◌, ◌≢◌, ℕ, ◌+◌, ◌<◌, ◌≤◌, ◌↔◌, List, [], length, IfSome, OnOk, OnErr, if◌then◌else◌, is_ok};
ghost use Rattle.st_io.specs.Counts.{RoseBy, raised};
ghost use Rattle.st_io.specs.Device.{untold};

use crate::errors::FilesFault;
use crate::reading::Files;
use crate::taking::take_whole;
use std::fs;
use std::marker::Model;
use std::rt::Files as FileSystem;

/// Files of the system. They tell no content. Contracts see how many calls were refused, which are their faults, and how
/// many bytes were taken.
#[derive(Drop)]
pub struct RealFiles<'a, R> {
    rt: &'a R,
    faults: u64,
    taken: u64,
}

impl<'a, R> Model for RealFiles<'a, R> {
    ghost use Rattle.st_io.specs.Device.{Counted};

    ghost Value = { Counted };

    ghost view = { λ files. record { faults = files.faults; taken = files.taken } };
}

impl<'a, R: FileSystem> RealFiles<'a, R> {
    /// The files that `rt` reaches.
    pub fn make(rt: &'a R) -> RealFiles<'a, R>
        ensures { result ≡ record { faults = 0; taken = 0 } }
    {
        RealFiles {
            rt,
            faults: 0,
            taken: 0,
        }
    }
}

// Reads the file `name` of the system to its end, and counts the bytes taken: no more than one past the limit.
fn read_file<R: FileSystem>(
    rt: &R,
    name: &str,
    limit: u32,
    taken: &mut u64,
    into: &mut Vec<u8>,
) -> Result<(), FilesFault>
    requires { into.old.items ≡ [] }
    ensures within { OnOk result (length into.new.items ≤ limit) }
    ensures too_long { result ≡ Err FilesFault.TooLong → RoseBy (limit + 1) taken.old taken.new }
    ensures counted { OnOk result (taken.new ≡ raised (length into.new.items) taken.old) }
    ensures at_most { taken.new ≤ raised (limit + 1) taken.old }
    ensures grows { taken.old ≤ taken.new }
{
    // No effect at run time. The proof learns from this use that the count fits its type.
    let _before = *taken;
    match fs::open(rt, name) {
        Ok(mut file) => take_whole(&mut file, limit, taken, into),
        Err(_) => Err(FilesFault::Failed),
    }
}

impl<R: FileSystem> Files for RealFiles<'_, R> {
    ghost state = { λ files. record { told = untold; faults = files.faults; taken = files.taken } };

    fn read_whole(&mut self, name: &str, limit: u32, into: &mut Vec<u8>) -> Result<(), FilesFault>
        requires { into.old.items ≡ [] }
        ensures whole { OnOk result (IfSome (untold name.now) (λ bytes. into.new.items ≡ bytes)) }
        ensures within { OnOk result (length into.new.items ≤ limit) }
        ensures emptied { OnErr result (into.new.items ≡ []) }
        ensures failed { result ≡ Err FilesFault.Failed → RoseBy 1 self.old.faults self.new.faults }
        ensures too_long { result ≡ Err FilesFault.TooLong → RoseBy (limit + 1) self.old.taken self.new.taken }
        ensures longer { IfSome (untold name.now) (λ bytes. (result ≡ Err FilesFault.TooLong)
            ↔ ((limit < length bytes) × (result ≢ Err FilesFault.Failed))) }
        ensures files { (file : List ℕ) → untold file ≡ untold file }
        ensures faults { self.old.faults ≤ self.new.faults }
        ensures taken { self.old.taken ≤ self.new.taken }

        // Each refusal is counted. Every byte that was taken is given, and no more than one past the limit is taken.
        ensures counted { self.new.faults
            ≡ (if is_ok result then self.old.faults else raised 1 self.old.faults) }
        ensures given { OnOk result (self.new.taken ≡ raised (length into.new.items) self.old.taken) }
        ensures at_most { self.new.taken ≤ raised (limit + 1) self.old.taken }
    {
        let result = read_file(self.rt, name, limit, &mut self.taken, into);
        if result.is_err() {
            into.clear();
            self.faults = self.faults.saturating_add(1);
        }
        result
    }
}
