//! What stands at the front of a text.
ghost use Rattle.std.specs.Prelude.{◌≡◌, ◌<◌, IsTrue, length};
ghost use Rattle.std.specs.List.{prefix_len, list_all};
ghost use Rattle.st_lex.specs.Bytes.{is_name_byte, is_digit, is_comment_byte};
ghost use Rattle.st_lex.specs.Bytes as starts;
ghost use Rattle.st_lex.specs.Reading as spec;
ghost use Rattle.st_lex.specs.Spellings as spelling;

use crate::bytes::{is_blank, is_letter, is_name_byte, is_newline};
use crate::errors::Fault;
use crate::kinds::TokenKind;
use crate::numbers::number_of;
use crate::words::{DOUBLE_MARKS, KEYWORDS, SINGLE_MARKS};

/// What stands at the front of a text, with its length in bytes.
#[derive(Clone, Copy)]
pub enum Piece {
    /// The byte that ends a line.
    Newline,
    /// A blank within a line, or a comment up to its newline or the end.
    Gap(usize),
    /// The longest token.
    Found(TokenKind, usize),
    /// No token.
    Wrong(Fault),
}

/// What stands at the front of a text.
#[tactic(auto, unfolding(crate::specs::Reading::front_piece))]
pub fn front_piece(text: &[u8]) -> Piece
    requires { 0 < length text.now }
    ensures { result ≡ spec.front_piece text.now }
{
    let first = text[0];
    if is_newline(first) {
        Piece::Newline
    } else if is_blank(first) {
        Piece::Gap(1)
    } else if opens_comment(text) {
        Piece::Gap(comment_len(text))
    } else {
        token_piece(text)
    }
}

/// The token at the front of a text, where no blank and no comment stands there.
#[tactic(auto, using(crate::proofs::Runs::run_passes), unfolding(crate::specs::Reading::token_piece))]
fn token_piece(text: &[u8]) -> Piece
    requires { 0 < length text.now }
    ensures { result ≡ spec.token_piece text.now }
{
    if is_letter(text[0]) {
        word_piece(&text[..name_len(text)])
    } else if text[0].is_ascii_digit() {
        number_piece(&text[..digits_len(text)])
    } else {
        mark_piece(text)
    }
}

/// Whether the text begins with `//`.
fn opens_comment(text: &[u8]) -> bool
    ensures { result ≡ starts.opens_comment text.now }
{
    matches!(text, [b'/', b'/', ..])
}

/// How many bytes the comment at the front has. The newline that ends it is no part of it.
fn comment_len(text: &[u8]) -> usize
    ensures { result ≡ prefix_len is_comment_byte text.now }
{
    text.iter().take_while(|byte| !is_newline(**byte)).count()
}

/// How many bytes at the front may stand in a name.
fn name_len(text: &[u8]) -> usize
    ensures { result ≡ prefix_len is_name_byte text.now }
{
    text.iter().take_while(|byte| is_name_byte(**byte)).count()
}

/// How many digits stand at the front.
fn digits_len(text: &[u8]) -> usize
    ensures { result ≡ prefix_len is_digit text.now }
{
    text.iter().take_while(|byte| byte.is_ascii_digit()).count()
}

#[tactic(auto, unfolding(crate::specs::Spellings::is_keyword))]
fn is_keyword(word: &[u8]) -> bool
    ensures { result ≡ spelling.is_keyword word.now }
{
    KEYWORDS.contains(&word)
}

/// The keyword or name of these bytes.
fn word_piece(word: &[u8]) -> Piece
    ensures { result ≡ spec.word_piece word.now }
{
    let kind = if is_keyword(word) {
        TokenKind::Key
    } else {
        TokenKind::Word
    };
    Piece::Found(kind, word.len())
}

/// The number of these digits.
fn number_piece(digits: &[u8]) -> Piece
    requires { IsTrue (list_all is_digit digits.now) }
    ensures { result ≡ spec.number_piece digits.now }
{
    match number_of(digits) {
        Some(value) => Piece::Found(TokenKind::Number(value), digits.len()),
        None => Piece::Wrong(Fault::LongNumber),
    }
}

/// The mark at the front, two bytes long where it can be.
fn mark_piece(text: &[u8]) -> Piece
    ensures { result ≡ spec.mark_piece text.now }
{
    match text {
        [first, second, ..] if is_double_mark(*first, *second) => Piece::Found(TokenKind::Mark, 2),
        [first, ..] if is_single_mark(*first) => Piece::Found(TokenKind::Mark, 1),
        _ => Piece::Wrong(Fault::BadByte),
    }
}

#[tactic(auto, unfolding(crate::specs::Spellings::is_single_mark))]
fn is_single_mark(byte: u8) -> bool
    ensures { result ≡ spelling.is_single_mark byte }
{
    SINGLE_MARKS.contains(&byte)
}

#[tactic(auto, unfolding(crate::specs::Spellings::is_double_mark))]
fn is_double_mark(first: u8, second: u8) -> bool
    ensures { result ≡ spelling.is_double_mark first second }
{
    DOUBLE_MARKS.contains(&[first, second])
}
