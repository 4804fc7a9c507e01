//! Where the reading stands in a text.
ghost use Rattle.std.specs.Prelude.{◌≡◌, ◌+◌, ◌<◌, ◌^◌};

use crate::kinds::{Token, TokenKind};
use st_events::Site;

/// An offset in a text, with its place.
#[derive(Clone, Copy)]
pub struct Cursor {
    /// How many bytes stand before it.
    pub offset: usize,
    /// Its line and column.
    pub place: Site,
}

impl Cursor {
    /// The start of a text: offset 0, line 1, column 1.
    pub fn start() -> Cursor
        ensures { result ≡ record { offset = 0; place = record { line = 1; column = 1 } } }
    {
        Cursor {
            offset: 0,
            place: Site { line: 1, column: 1 },
        }
    }

    /// Goes past the byte that ends the line.
    pub fn next_line(&mut self)
        requires offset { self.old.offset + 1 < 2 ^ 32 }
        requires line { self.old.place.line + 1 < 2 ^ 32 }
        ensures { self.new ≡ record { offset = self.old.offset + 1; place = record { line = self.old.place.line + 1; column = 1 } } }
    {
        self.offset += 1;
        self.place = Site {
            line: self.place.line + 1,
            column: 1,
        };
    }

    /// Goes past bytes of the line.
    pub fn skip(&mut self, len: usize)
        requires offset { self.old.offset + len < 2 ^ 32 }
        requires column { self.old.place.column + len < 2 ^ 32 }
        ensures { self.new ≡ record { offset = self.old.offset + len; place = record { line = self.old.place.line; column = self.old.place.column + len } } }
    {
        self.offset += len;
        self.place.column += len as u32;
    }

    /// The token of so many bytes that begins here.
    pub fn token(&self, kind: TokenKind, len: usize) -> Token
        requires { self.now.offset + len < 2 ^ 32 }
        ensures { result ≡ record { kind = kind; start = self.now.offset; end = self.now.offset + len; site = self.now.place } }
    {
        Token {
            kind,
            start: self.offset as u32,
            end: (self.offset + len) as u32,
            site: self.place,
        }
    }
}
