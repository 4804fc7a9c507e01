//! The keywords and the marks.

/// The keywords.
pub const KEYWORDS: [&[u8]; 22] = [
    b"class", b"shared", b"pred", b"proc", b"thread", b"var", b"if", b"else", b"while", b"check",
    b"new", b"cas", b"null", b"true", b"false", b"int", b"bool", b"mark", b"old", b"lock", b"set",
    b"array",
];
/// The marks of one byte.
pub const SINGLE_MARKS: [u8; 18] = *b"{}();:,.=<>+-*/%!?";
/// The marks of two bytes.
pub const DOUBLE_MARKS: [[u8; 2]; 6] = [*b"==", *b"!=", *b"<=", *b">=", *b"&&", *b"||"];
