//! The lines of a text.
ghost use Rattle.std.specs.Prelude.{◌<◌, length, IfOk};
ghost use Rattle.st_journal.specs.Lines.{lines};
ghost use Rattle.st_journal.specs.Reading.{IsAsRead, line_or_bad};

use crate::errors::JournalError;
use crate::numbers::cut;

/// The first line of a text, without its end, and the text after it. It has the number `line`.
pub(crate) fn first_line(text: &[u8], line: u32) -> Result<(&[u8], &[u8]), JournalError>
    ensures parts { IsAsRead (λ parts. (parts.0.now, lines parts.1.now)) result (line_or_bad line (lines text.now)) }
    ensures shorter { IfOk result (λ parts. length parts.1.now < length text.now) }
{
    match cut(text, b'\n') {
        Some((content, rest)) => Ok((content, rest)),
        None => Err(JournalError::BadLine { line }),
    }
}
