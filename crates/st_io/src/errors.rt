//! Why a file was not read, and why bytes were not written.
ghost use Rattle.std.specs.Prelude.{◌≡◌};
ghost use Rattle.st_io.specs.declared.errors.FilesFault.TheVariants.{Memory};

use std::alloc::AllocError;

/// Why a file was not read.
#[derive(Clone, Copy, Debug, PartialEq, Eq)]
pub enum FilesFault {
    /// There was no memory for the file's bytes.
    Memory,
    /// The file could not be read to its end: it is lacking, or reading it failed.
    Failed,
    /// The file has more bytes than the limit.
    TooLong,
}

/// Why bytes were not written.
#[derive(Clone, Copy, Debug, PartialEq, Eq)]
pub enum SinkFault {
    /// Not all of the bytes could be written.
    Failed,
}

impl From<AllocError> for FilesFault {
    ghost from_gives = { λ _ fault. fault ≡ Memory };

    fn from(_error: AllocError) -> FilesFault {
        FilesFault::Memory
    }
}
