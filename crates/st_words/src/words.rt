//! What words say.
ghost use Rattle.std.specs.Prelude.{◌≡◌, ℕ, List, IfOk, string_bytes};

use std::alloc::{AllocError, Global};
use std::marker::Model;

/// The name of a file, as it stands among the words. Contracts see its bytes.
#[derive(Drop)]
pub struct FileName {
    text: String,
}

impl Model for FileName {
    ghost Value = { List ℕ };

    ghost view = { λ name. string_bytes name.text };
}

impl FileName {
    /// A copy of the word.
    pub fn copy_of(alloc: Global, word: &str) -> Result<FileName, AllocError>
        ensures { IfOk result (λ name. name ≡ word.now) }
    {
        let text = String::from_str(alloc, word)?;
        Ok(FileName { text })
    }

    /// The word.
    pub fn as_str(&self) -> &str
        ensures { result.now ≡ self.now }
    {
        self.text.as_str()
    }
}

/// What is written of a run.
#[derive(Clone, Copy, Debug, PartialEq, Eq)]
pub enum Form {
    /// The report, a line for each check and each thread.
    Text,
    /// The report as one line of JSON.
    Json,
    /// The journal of all events, with the verdicts.
    Journal,
}

/// What `run` is asked to do. Its numbers are within the table of limits.
#[derive(Drop)]
pub struct RunWords {
    /// The file of the source.
    pub file: FileName,
    /// How many checking threads there are; 2 where nothing else is asked for.
    pub checkers: u8,
    /// How many checks may be active at a time.
    pub lanes: u8,
    /// How many objects each thread may make.
    pub objects: u32,
    /// How many copies of old versions can be kept at a time.
    pub copies: u32,
    /// The charge of each thread.
    pub events: u32,
    /// The budget of predicate calls of each check.
    pub calls: u32,
    /// The seed of a scheduled run. Without one the source runs on threads.
    pub schedule: Option<u64>,
    /// What is written.
    pub form: Form,
}

/// What the program is asked to do.
#[derive(Drop)]
pub enum Words {
    /// `run FILE`: runs the source.
    Run(RunWords),
    /// `check FILE`: reads and types the source.
    Check {
        /// The file of the source.
        file: FileName,
    },
    /// `audit FILE JOURNAL`: audits a journal against its source.
    Audit {
        /// The file of the source.
        file: FileName,
        /// The file of the journal.
        journal: FileName,
    },
    /// `gen N`: writes the source of a number.
    Gen {
        /// How many turns each of its threads makes, from 1 to 1,000.
        n: u32,
    },
    /// `demo N`: runs that source.
    Demo {
        /// How many turns each of its threads makes, from 1 to 1,000.
        n: u32,
    },
}
