//! The tokens of a text, in one pass.
ghost use Rattle.std.specs.Prelude.{◌≡◌, ◌≤◌, ℕ, length, IfOk, IsErrOf};
ghost use Rattle.st_events.specs.declared.events.Site.{Site};
ghost use Rattle.st_lex.specs.Errors.{StopsAt};
ghost use Rattle.st_lex.specs.Reading.{GivesRead, read_tokens};
ghost use Rattle.st_lex.specs.Tokens.{IsTokensOf};
ghost use Rattle.st_lex.specs.declared.errors.Fault.TheVariants as fault;

use crate::cursors::Cursor;
use crate::errors::LexError;
use crate::kinds::Token;
use crate::limits::MOST_SOURCE_BYTES;
use crate::pieces::{Piece, front_piece};
use std::alloc::Global;

/// The tokens of a source text of at most `MOST_SOURCE_BYTES` bytes, in order.
///
/// `BadByte` and `LongNumber` tell the first place at which no token stands: a byte with which none begins, or the first
/// digit of a number above `LARGEST_NUMBER`. `Memory` comes where memory was refused. Each text has one list of tokens
/// or one such place, and not both: see `one_reading`.
pub fn tokens(alloc: Global, text: &[u8]) -> Result<Vec<Token>, LexError>
    requires { length text.now ≤ MOST_SOURCE_BYTES }
    ensures tokens { IfOk result (λ list. IsTokensOf text.now list.items) }
    ensures bad_byte { (at : Site) → IsErrOf result (LexError.BadByte at) → StopsAt text.now fault.BadByte at }
    ensures long_number { (at : Site) → IsErrOf result (LexError.LongNumber at) → StopsAt text.now fault.LongNumber at }
{
    read_all(alloc, text)
}

/// Reads the text piece by piece. Each byte is looked at a bounded number of times.
fn read_all(alloc: Global, text: &[u8]) -> Result<Vec<Token>, LexError>
    requires { length text.now ≤ MOST_SOURCE_BYTES }
    ensures { GivesRead (λ list. list.items) text.now result (read_tokens text.now) }
{
    let mut list = Vec::new(alloc);
    let mut cursor = Cursor::start();
    while cursor.offset < text.len() {
        match front_piece(&text[cursor.offset..]) {
            Piece::Newline => cursor.next_line(),
            Piece::Gap(len) => cursor.skip(len),
            Piece::Found(kind, len) => {
                list.push(cursor.token(kind, len))?;
                cursor.skip(len);
            }
            Piece::Wrong(fault) => return Err(fault.at(cursor.place)),
        }
    }
    Ok(list)
}
