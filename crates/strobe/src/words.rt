//! The words of the command line, without the program's name.

use std::alloc::{Alloc, AllocError, AllocGlobal};
use std::env;
use std::env::FillError;
use std::io::ErrorKind;
use std::rt::Env;

/// The words of the command line, without the program's name. Where the system cannot give them, or one of them is not
/// UTF-8, there are none, which are wrong words. The error is that there is no memory for them.
pub(crate) fn command_words<R: Env + AllocGlobal>(rt: &R) -> Result<Vec<String>, AllocError> {
    let mut words = Vec::new(rt.alloc());
    match env::args(&WithoutName { rt }) {
        Ok(given) => {
            for word in given {
                words.push(word)?;
            }
            Ok(words)
        }
        Err(error) if error.kind() == ErrorKind::OutOfMemory => Err(AllocError),
        Err(_) => Ok(words),
    }
}

/// The process's arguments from the second on. The first is the program's name, which need not be UTF-8.
#[derive(Drop)]
struct WithoutName<'a, R> {
    rt: &'a R,
}

impl<R: Env> Env for WithoutName<'_, R> {
    fn arg(&self, i: usize, buf: &mut [u8]) -> Result<usize, FillError> {
        match i.checked_add(1) {
            Some(place) => self.rt.arg(place, buf),
            None => Err(FillError::NotPresent),
        }
    }

    fn var(&self, name: &str, buf: &mut [u8]) -> Result<usize, FillError> {
        self.rt.var(name, buf)
    }

    fn var_at(&self, i: usize, buf: &mut [u8]) -> Result<usize, FillError> {
        self.rt.var_at(i, buf)
    }
}

impl<R: Alloc> Alloc for WithoutName<'_, R> {
    type A = R::A;

    fn alloc(&self) -> R::A {
        self.rt.alloc()
    }
}
