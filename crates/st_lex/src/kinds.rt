//! A token: its kind, where its bytes begin and end, and its place.

use st_events::Site;

/// What a token is. Its bytes tell which name, keyword or mark.
#[derive(Clone, Copy, Debug, PartialEq, Eq)]
pub enum TokenKind {
    /// A name: a letter or `_`, then letters, digits or `_`, and no keyword.
    Word,
    /// A keyword, which no name may be.
    Key,
    /// A number in decimal digits, with its value.
    Number(i64),
    /// A mark of one or two bytes, as `{` or `<=`.
    Mark,
}

/// A token of a text: the bytes from offset `start` up to `end`. An offset is the number of bytes before it.
#[derive(Clone, Copy, Debug, PartialEq, Eq)]
pub struct Token {
    /// What it is.
    pub kind: TokenKind,
    /// The offset of its first byte.
    pub start: u32,
    /// The offset after its last byte, above `start`.
    pub end: u32,
    /// The place of its first byte: line and column, from 1.
    pub site: Site,
}
