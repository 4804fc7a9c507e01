//! The words that reach the top call.

use crate::words::command_words;
use std::alloc::{Alloc, Global};
use std::env::FillError;
use std::rt::Env;
use std::test::Fail;

// A process whose name is not UTF-8, with twenty words, `00` to `19`.
#[derive(Drop)]
struct Twenty {
    alloc: Global,
}

impl Env for Twenty {
    fn arg(&self, i: usize, buf: &mut [u8]) -> Result<usize, FillError> {
        let text: [u8; 2] = match i {
            0 => [255, 255],
            1..=20 => [b'0' + ((i - 1) / 10) as u8, b'0' + ((i - 1) % 10) as u8],
            _ => return Err(FillError::NotPresent),
        };
        if buf.len() < 2 {
            return Err(FillError::TooLong);
        }
        buf[0] = text[0];
        buf[1] = text[1];
        Ok(2)
    }

    fn var(&self, _name: &str, _buf: &mut [u8]) -> Result<usize, FillError> {
        Err(FillError::NotPresent)
    }

    fn var_at(&self, _i: usize, _buf: &mut [u8]) -> Result<usize, FillError> {
        Err(FillError::NotPresent)
    }
}

impl Alloc for Twenty {
    type A = Global;

    fn alloc(&self) -> Global {
        self.alloc
    }
}

#[test]
fn each_word_but_the_name_is_taken(rt: HostRuntime) -> Result<(), Fail> {
    let words = command_words(&Twenty { alloc: rt.alloc() })?;
    let mut all = String::new(rt.alloc());
    for word in &words {
        all.push_str(word.as_str())?;
        all.push(' ')?;
    }
    assert_eq!(rt;
        all.as_str(),
        "00 01 02 03 04 05 06 07 08 09 10 11 12 13 14 15 16 17 18 19 "
    );
    Ok(())
}
