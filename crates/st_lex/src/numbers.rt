//! The value of decimal digits.
ghost use Rattle.std.specs.Prelude.{◌≡◌, ◌<◌, ◌≤◌, IsTrue, MatchOption, pos};
ghost use Rattle.std.specs.List.{list_all};
ghost use Rattle.st_lex.specs.Bytes.{is_digit};
ghost use Rattle.st_lex.specs.Spellings.{decimal};

use crate::limits::LARGEST_NUMBER;

/// The value of decimal digits, or nothing where it is above the largest number.
pub fn number_of(digits: &[u8]) -> Option<i64>
    requires { IsTrue (list_all is_digit digits.now) }
    ensures { MatchOption result (LARGEST_NUMBER < decimal digits.now)
        (λ value. (value ≡ pos (decimal digits.now)) × (decimal digits.now ≤ LARGEST_NUMBER)) }
{
    let mut value: u64 = 0;
    for byte in digits {
        let digit = u64::from(*byte - b'0');
        if value > (LARGEST_NUMBER - digit) / 10 {
            return None;
        }
        value = 10 * value + digit;
    }
    Some(value as i64)
}
