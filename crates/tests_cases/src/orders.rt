//! The lines of a text of cases that are orders.

use crate::troubles::Trouble;

/// An order: a line that begins with two percent signs and a blank.
#[derive(Clone, Copy)]
pub(crate) enum Order<'a> {
    /// A case of this name begins.
    Case(&'a str),
    /// Words of the call, with blanks between them.
    Words(&'a str),
    /// One word of the call, with its blanks.
    Word(&'a str),
    /// A file of this name, whose lines follow.
    File(&'a str),
    /// The last line of the file or of the output ends without a newline.
    NoNewline,
    /// This read fails.
    FailingRead(u32),
    /// This put fails, after so many bytes of its piece.
    FailingPut(u32, u32),
    /// The output, whose lines follow.
    Out,
    /// The status, which ends the case.
    Status(u8),
}

/// The order that a line is, if it begins as one.
pub(crate) fn order_of_line(line: &[u8]) -> Result<Option<Order<'_>>, Trouble> {
    let Ok(text) = str::from_utf8(line) else {
        return Ok(None);
    };
    match text.strip_prefix("%% ") {
        Some(order) => match read_order(order) {
            Some(order) => Ok(Some(order)),
            None => Err(Trouble::NoOrder),
        },
        None => Ok(None),
    }
}

/// The order of this text, if it is one.
fn read_order(text: &str) -> Option<Order<'_>> {
    let (verb, rest) = match text.split_once(' ') {
        Some((verb, rest)) => (verb, rest),
        None => (text, ""),
    };
    match verb {
        "case" => Some(Order::Case(rest)),
        "words" => Some(Order::Words(rest)),
        "word" => Some(Order::Word(rest)),
        "file" => Some(Order::File(rest)),
        "no" if rest == "newline" => Some(Order::NoNewline),
        "failing" => read_failing(rest),
        "out" if rest.is_empty() => Some(Order::Out),
        "status" => rest.parse::<u8>().ok().map(|status| Order::Status(status)),
        _ => None,
    }
}

/// The order that says which read or put fails.
fn read_failing(text: &str) -> Option<Order<'_>> {
    let (device, rest) = text.split_once(' ')?;
    match device {
        "read" => Some(Order::FailingRead(rest.parse::<u32>().ok()?)),
        "put" => read_failing_put(rest),
        _ => None,
    }
}

/// The order that says which put fails, and after how many bytes.
fn read_failing_put(text: &str) -> Option<Order<'_>> {
    let (number, bytes) = match text.split_once(" after ") {
        Some((number, bytes)) => (number, bytes),
        None => (text, "0"),
    };
    let number = number.parse::<u32>().ok()?;
    let bytes = bytes.parse::<u32>().ok()?;
    Some(Order::FailingPut(number, bytes))
}
