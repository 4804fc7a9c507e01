//! Numbers of words.
ghost use Rattle.std.specs.Prelude.{◌≡◌, ◌≤◌, IfSome};
ghost use Rattle.std.specs.Char.{is_ascii_digit};
ghost use Rattle.std.specs.List.{list_all};
ghost use Rattle.st_words.specs.Numbers.{is_numeral as is_numeral_of, number_in as number_told, within as within_range};

use crate::limits::MOST_DIGITS;

/// The number that the word tells, where it is one to twenty decimal digits and within the range, both ends included.
pub(crate) fn number_in(word: &str, least: u64, most: u64) -> Option<u64>
    ensures { result ≡ number_told least most word.now }
{
    if !is_numeral(word) {
        return None;
    }
    match word.parse::<u64>() {
        Ok(number) => within(number, least, most),
        Err(_) => None,
    }
}

/// The number, if it is within the range.
fn within(number: u64, least: u64, most: u64) -> Option<u64>
    ensures { result ≡ within_range least most number }
{
    if least <= number && number <= most {
        Some(number)
    } else {
        None
    }
}

/// The same for a range of smaller numbers.
pub(crate) fn small_number_in(word: &str, least: u32, most: u32) -> Option<u32>
    ensures told { result ≡ number_told least most word.now }
    ensures within { IfSome result (λ n. (least ≤ n) × (n ≤ most)) }
{
    let number = number_in(word, least as u64, most as u64)?;
    Some(number as u32)
}

/// Whether the word is one to twenty decimal digits.
fn is_numeral(word: &str) -> bool
    ensures { result ≡ is_numeral_of word.now }
{
    1 <= word.len() && word.len() <= MOST_DIGITS && are_digits(word.as_bytes())
}

/// Whether each byte is a decimal digit.
fn are_digits(bytes: &[u8]) -> bool
    ensures { result ≡ list_all is_ascii_digit bytes.now }
{
    bytes.iter().all(|byte| byte.is_ascii_digit())
}
