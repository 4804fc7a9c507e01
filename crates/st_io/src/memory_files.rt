//! Files that are held in memory, for tests.
ghost use Rattle.std.specs.Prelude.{◌≡◌, ◌≢◌, ℕ, ◌+◌, ◌<◌, ◌≤◌, ◌↔◌, List, [], length, IfSome, OnOk, OnErr, None, if◌then◌else◌};
ghost use Rattle.std.specs.Option.{option_copied};
ghost use Rattle.st_io.specs.Counts.{RoseBy};
ghost use Rattle.st_io.specs.MemoryFiles.{named_files, is_listed, content_of, given_bytes, shelf_after};

use crate::errors::FilesFault;
use crate::giving::give;
use crate::reading::Files;
use std::marker::Model;

/// Files that are held in memory. Contracts see the names with their bytes, the numbers of the calls that are to fail,
/// and the counts.
#[derive(Drop)]
pub struct MemFiles {
    files: Vec<(String, Vec<u8>)>,
    failing: Vec<u32>,
    calls: u64,
    faults: u64,
    taken: u64,
}

impl Model for MemFiles {
    ghost use Rattle.st_io.specs.MemoryFiles.{Shelf, named_files};

    ghost Value = { Shelf };

    ghost view = { λ m. record {
      files = named_files m.files.items;
      failing = m.failing.items;
      calls = m.calls;
      faults = m.faults;
      taken = m.taken;
    } };
}

impl MemFiles {
    /// These names with their bytes, of which the first counts where a name is given twice. The calls of `read_whole`
    /// that `failing` numbers, from 1, fail.
    pub fn make(files: Vec<(String, Vec<u8>)>, failing: Vec<u32>) -> MemFiles
        ensures files { result.files ≡ named_files files.items }
        ensures failing { result.failing ≡ failing.items }
        ensures counts { (result.calls ≡ 0) × (result.faults ≡ 0) × (result.taken ≡ 0) }
    {
        MemFiles {
            files,
            failing,
            calls: 0,
            faults: 0,
            taken: 0,
        }
    }
}

// Whether this call is to fail.
#[tactic(auto, unfolding(crate::specs::MemoryFiles::is_listed))]
fn is_listed(failing: &[u32], call: u64) -> bool
    ensures { result ≡ is_listed failing.now call }
{
    failing.iter().any(|number| u64::from(*number) == call)
}

// The bytes of the first file of this name.
fn find_content<'a>(files: &'a [(String, Vec<u8>)], name: &str) -> Option<&'a [u8]>
    ensures { option_copied result
        ≡ content_of (named_files files.now) name.now }
{
    for (held, bytes) in files {
        if held.as_str() == name {
            return Some(bytes.as_slice());
        }
    }
    None
}

// The bytes that this call gives.
fn choose_content<'a>(
    files: &'a [(String, Vec<u8>)],
    failing: &[u32],
    call: u64,
    name: &str,
) -> Option<&'a [u8]>
    ensures { option_copied result
        ≡ (if is_listed failing.now call
        then None
        else content_of (named_files files.now) name.now) }
{
    if is_listed(failing, call) {
        None
    } else {
        find_content(files, name)
    }
}

impl Files for MemFiles {
    ghost state = { λ files. record { told = content_of files.files; faults = files.faults; taken = files.taken } };

    fn read_whole(&mut self, name: &str, limit: u32, into: &mut Vec<u8>) -> Result<(), FilesFault>
        requires { into.old.items ≡ [] }
        ensures whole { OnOk result (IfSome (content_of self.old.files name.now) (λ bytes. into.new.items ≡ bytes)) }
        ensures within { OnOk result (length into.new.items ≤ limit) }
        ensures emptied { OnErr result (into.new.items ≡ []) }
        ensures failed { result ≡ Err FilesFault.Failed → RoseBy 1 self.old.faults self.new.faults }
        ensures too_long { result ≡ Err FilesFault.TooLong → RoseBy (limit + 1) self.old.taken self.new.taken }
        ensures longer { IfSome (content_of self.old.files name.now) (λ bytes. (result ≡ Err FilesFault.TooLong)
            ↔ ((limit < length bytes) × (result ≢ Err FilesFault.Failed))) }
        ensures files { (file : List ℕ) → content_of self.new.files file ≡ content_of self.old.files file }
        ensures faults { self.old.faults ≤ self.new.faults }
        ensures taken { self.old.taken ≤ self.new.taken }

        // It fails exactly where the call is listed or the name is lacking. The call is counted, with its fault or with
        // the bytes that it took.
        ensures fails { (result ≡ Err FilesFault.Failed) ↔ (given_bytes self.old name.now ≡ None) }
        ensures counted { self.new ≡ shelf_after self.old name.now limit }
    {
        self.calls = self.calls.saturating_add(1);
        match choose_content(&self.files, &self.failing, self.calls, name) {
            Some(bytes) => give(bytes, limit, &mut self.taken, into),
            None => {
                self.faults = self.faults.saturating_add(1);
                Err(FilesFault::Failed)
            }
        }
    }
}
