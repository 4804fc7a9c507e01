//! Files that are read whole.
ghost use Rattle.std.specs.Prelude.{◌≡◌, ◌≢◌, ℕ, ◌+◌, ◌<◌, ◌≤◌, ◌↔◌, List, [], length, IfSome, OnOk, OnErr};
ghost use Rattle.st_io.specs.Counts.{RoseBy};
ghost use Rattle.st_io.specs.States.{FilesState};

use crate::errors::FilesFault;

/// Files that are read whole, each by its name. Their counts are kept in 64 bits, and stand still at the last value.
pub trait Files {
    /// The bytes of the file of a name, where they are told; how many faults came; and how many bytes were taken from the
    /// files, also for calls that were refused.
    ghost state: { Self → FilesState };

    /// Reads the file `name` to its end into `into`, where it has at most `limit` bytes.
    ///
    /// `Failed` comes where the file is lacking or a read of it failed, `TooLong` where more than `limit` bytes were
    /// read of it, `Memory` where there was none for its bytes.
    fn read_whole(&mut self, name: &str, limit: u32, into: &mut Vec<u8>) -> Result<(), FilesFault>
        requires { into.old.items ≡ [] }
        ensures whole { OnOk result (IfSome ((state self.old).told name.now) (λ bytes. into.new.items ≡ bytes)) }
        ensures within { OnOk result (length into.new.items ≤ limit) }
        ensures emptied { OnErr result (into.new.items ≡ []) }

        // Each refusal has its cause. A file that is told is too long exactly where it is, unless a read failed.
        ensures failed { result ≡ Err FilesFault.Failed → RoseBy 1 (state self.old).faults (state self.new).faults }
        ensures too_long { result ≡ Err FilesFault.TooLong → RoseBy (limit + 1) (state self.old).taken (state self.new).taken }
        ensures longer { IfSome ((state self.old).told name.now) (λ bytes. (result ≡ Err FilesFault.TooLong)
            ↔ ((limit < length bytes) × (result ≢ Err FilesFault.Failed))) }

        // Whatever is answered, every file is as it was, and no count fell.
        ensures files { (file : List ℕ) → (state self.new).told file ≡ (state self.old).told file }
        ensures faults { (state self.old).faults ≤ (state self.new).faults }
        ensures taken { (state self.old).taken ≤ (state self.new).taken };
}
