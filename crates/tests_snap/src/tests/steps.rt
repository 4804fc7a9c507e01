//! The steps of a row: what is called, and what it is to give.

use crate::{Driven, Failed, Refused};

/// One call, and what it is to give. Objects and checks are named by the order in which they came.
#[derive(Clone, Copy, Debug)]
pub(super) enum Step {
    New {
        gives: u32,
    },
    Load {
        object: usize,
        gives: u64,
    },
    Store {
        object: usize,
        value: u64,
    },
    Cas {
        object: usize,
        expect: u64,
        value: u64,
        gives: bool,
    },
    Launch {
        gives: Option<u32>,
    },
    Read {
        check: usize,
        object: usize,
        gives: u64,
    },
    Lost {
        check: usize,
        object: usize,
        gives: u32,
    },
    Retire {
        check: usize,
    },
    Free {
        gives: u32,
    },
    Idle {
        gives: u8,
    },
}

impl Driven {
    /// Makes the call, of mutator 0 and in field 0, and answers whether it gave what it was to give.
    fn plays(&mut self, step: Step) -> Result<bool, Failed> {
        match step {
            Step::New { gives } => Ok(self.new(0)? == gives),
            Step::Load { object, gives } => Ok(self.load(0, object, 0)? == gives),
            Step::Store { object, value } => {
                self.store(0, object, 0, value)?;
                Ok(true)
            }
            Step::Cas {
                object,
                expect,
                value,
                gives,
            } => Ok(self.cas(0, object, 0, expect, value)? == gives),
            Step::Launch { gives } => Ok(self.launch(0)? == gives),
            Step::Read {
                check,
                object,
                gives,
            } => Ok(self.reads(check, object, gives)?),
            Step::Lost {
                check,
                object,
                gives,
            } => Ok(self.loses(check, object, gives)?),
            Step::Retire { check } => {
                self.retire(0, check)?;
                Ok(true)
            }
            Step::Free { gives } => Ok(self.free() == gives),
            Step::Idle { gives } => Ok(self.idle() == gives),
        }
    }

    pub(super) fn reads(&self, check: usize, object: usize, gives: u64) -> Result<bool, Refused> {
        match self.read(check, object, 0)? {
            Ok(word) => Ok(word == gives),
            Err(_) => Ok(false),
        }
    }

    fn loses(&self, check: usize, object: usize, gives: u32) -> Result<bool, Refused> {
        match self.read(check, object, 0)? {
            Ok(_) => Ok(false),
            Err(lost) => Ok(lost.obj == gives),
        }
    }

    /// Makes the calls in order, up to the first that gives something else; whether there is none.
    pub(super) fn plays_all(&mut self, steps: &[Step]) -> Result<bool, Failed> {
        for step in steps {
            if !self.plays(*step)? {
                return Ok(false);
            }
        }
        Ok(true)
    }
}
