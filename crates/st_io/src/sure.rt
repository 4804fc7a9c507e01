//! Files that are always there and a sink that takes everything, for tests and for runs over a text in memory. Their
//! counts of faults are always 0.
ghost use Rattle.std.specs.Prelude.{◌≡◌};

use crate::errors::{FilesFault, SinkFault};
use crate::giving::give;
use crate::reading::Files;
use crate::writing::Sink;
use std::marker::Model;

/// One text for every name. Contracts see the text, and how many bytes of it were taken.
#[derive(Drop)]
pub struct SureFiles {
    text: Vec<u8>,
    taken: u64,
}

impl Model for SureFiles {
    ghost use Rattle.st_io.specs.SureFiles.{Sure};

    ghost Value = { Sure };

    ghost view = { λ files. record { text = files.text.items; taken = files.taken } };
}

impl SureFiles {
    /// Gives `text` for every name.
    pub fn make(text: Vec<u8>) -> SureFiles
        ensures text { result.text ≡ text.items }
        ensures taken { result.taken ≡ 0 }
    {
        SureFiles { text, taken: 0 }
    }
}

impl Files for SureFiles {
    ghost use Rattle.std.specs.Prelude.{Some};

    ghost state = { λ files. record { told = λ _. Some files.text; faults = 0; taken = files.taken } };

    fn read_whole(
        &mut self,
        _name: &str,
        limit: u32,
        into: &mut Vec<u8>,
    ) -> Result<(), FilesFault> {
        give(&self.text, limit, &mut self.taken, into)
    }
}

/// A sink that takes all bytes, keeps none and tells none.
#[derive(Clone, Copy)]
pub struct SureSink;

impl Sink for SureSink {
    ghost use Rattle.std.specs.Prelude.{None};

    ghost state = { λ _. record { written = None; faults = 0 } };

    fn put(&mut self, _bytes: &[u8]) -> Result<(), SinkFault> {
        Ok(())
    }
}
