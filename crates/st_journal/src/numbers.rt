//! Words of a line, and the numbers that they write.
ghost use Rattle.std.specs.Prelude.{◌≡◌, ◌<◌, ◌^◌, length, map, option_map, IfOk, IfSome};
ghost use Rattle.std.specs.Char.{is_ascii_digit};
ghost use Rattle.std.specs.List.{list_all, position, slice_split};
ghost use Rattle.std.specs.Str.{bytes_eq};
ghost use Rattle.st_journal.specs.Words.{below, cut as cut_of, is_byte, is_number as is_number_of, number_in, numbers_in, Parses};

use crate::errors::LineFault;
use std::alloc::{AllocError, Global};

/// The parts of a text before and after the first such byte, if it has one.
pub(crate) fn cut(text: &[u8], byte: u8) -> Option<(&[u8], &[u8])>
    ensures { option_map (λ parts. (parts.0.now, parts.1.now)) result ≡ cut_of byte text.now }
{
    match position_of(text, byte) {
        Some(at) => Some((&text[..at], &text[at + 1..])),
        None => None,
    }
}

/// The first place of such a byte.
fn position_of(text: &[u8], byte: u8) -> Option<usize>
    ensures value { result ≡ position (is_byte byte) text.now }
    ensures bound { IfSome result (λ at. at < length text.now) }
{
    text.iter().position(|b| *b == byte)
}

/// Whether a word is this one.
pub(crate) fn is_word(word: &[u8], text: &[u8]) -> bool
    ensures { result ≡ bytes_eq word.now text.now }
{
    word == text
}

/// The words of a line: the parts between its blanks.
pub(crate) fn split_words(alloc: Global, line: &[u8]) -> Result<Vec<&[u8]>, AllocError>
    ensures { IfOk result (λ words. map (λ word. word.now) words.items ≡ slice_split (is_byte 32) line.now) }
{
    line.split(|b| *b == b' ').collect(alloc)
}

/// Whether a word is a decimal number without leading zeros.
pub(crate) fn is_number(word: &[u8]) -> bool
    ensures { result ≡ is_number_of word.now }
{
    match word {
        [] => false,
        [b'0', _, ..] => false,
        _ => are_digits(word),
    }
}

/// Whether each byte is a decimal digit.
fn are_digits(word: &[u8]) -> bool
    ensures { result ≡ list_all is_ascii_digit word.now }
{
    word.iter().all(|b| b.is_ascii_digit())
}

/// The number that a word writes, without leading zeros and below 2 to the 64th.
pub(crate) fn parse_number(word: &[u8]) -> Option<u64>
    ensures { result ≡ number_in word.now }
{
    if !is_number(word) {
        return None;
    }
    match str::from_utf8(word) {
        Ok(digits) => digits.parse::<u64>().ok(),
        Err(_) => None,
    }
}

/// The numbers that the words write.
pub(crate) fn parse_numbers(alloc: Global, words: &[&[u8]]) -> Result<Vec<u64>, LineFault>
    ensures { Parses (λ numbers. numbers.items) result (numbers_in (map (λ word. word.now) words.now)) }
{
    let mut numbers = Vec::new(alloc);
    for word in words {
        match parse_number(word) {
            Some(number) => numbers.push(number)?,
            None => return Err(LineFault::Bad),
        }
    }
    Ok(numbers)
}

/// The number, if it has at most 8 bits.
pub(crate) fn as_byte(number: u64) -> Option<u8>
    ensures { result ≡ below (2 ^ 8) number }
{
    u8::try_from(number).ok()
}

/// The number, if it has at most 16 bits.
pub(crate) fn as_short(number: u64) -> Option<u16>
    ensures { result ≡ below (2 ^ 16) number }
{
    u16::try_from(number).ok()
}

/// The number, if it has at most 32 bits.
pub(crate) fn as_half(number: u64) -> Option<u32>
    ensures { result ≡ below (2 ^ 32) number }
{
    u32::try_from(number).ok()
}
