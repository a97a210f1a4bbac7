//! The numbers in a text.

ghost use Rattle.std.specs.Prelude.{◌≡◌};
ghost use Rattle.std.specs.Str.{all_ascii_digits};
ghost use Rattle.text_lines.specs.Number.{fitting, number_of, index_of};

/// The longest number that is read.
const MAX_DIGITS: usize = 20;

/// A number of 1 to 20 digits that is a `u64`.
pub fn number(word: &[u8]) -> Option<u64>
    ensures { result ≡ number_of word.now }
{
    if word.is_empty() || MAX_DIGITS < word.len() || !are_digits(word) {
        return None;
    }
    let mut value: u128 = 0;
    for digit in word {
        value = value * 10 + u128::from(*digit - b'0');
    }
    fitting(value)
}

fn fitting(value: u128) -> Option<u64>
    ensures { result ≡ fitting value }
{
    if value <= u128::from(u64::MAX) {
        Some(value as u64)
    } else {
        None
    }
}

fn are_digits(word: &[u8]) -> bool
    ensures { result ≡ all_ascii_digits word.now }
{
    word.iter().all(|byte| byte.is_ascii_digit())
}

/// The number from 0 of a team or a round, which texts count from 1. If it can't be one it is 255, which no team and no
/// round has.
pub fn index(number: u64) -> u8
    ensures { result ≡ index_of number }
{
    match number {
        1..=255 => (number - 1) as u8,
        _ => u8::MAX,
    }
}
