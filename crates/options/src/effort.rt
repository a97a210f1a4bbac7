//! The effort of an improvement, in thousandths of a million moves. clap takes any text for it.

ghost use Rattle.std.specs.Prelude.{◌≡◌, ◌≤◌, ◌<◌, IfSome, length};
ghost use Rattle.clap.specs.Words.{found_of, rows_of};
ghost use Rattle.options.specs.Effort.{decimals_at, decimals_of, in_range, max_thousandths, thousandths_from};
ghost use Rattle.options.specs.Effort.{thousandths_in, thousandths_of_text};

use clap::ArgMatches;
use text_lines::{byte_index, number, rest_after};

/// The most millions of moves.
pub(crate) const MAX_MILLIONS: u64 = 1_000_000;

/// The most thousandths of a million.
const MAX_THOUSANDTHS: u64 = 1_000 * MAX_MILLIONS;

/// The thousandths of a million that are asked for, unless their text is wrong.
pub(crate) fn thousandths_in(values: &ArgMatches) -> Option<u64>
    ensures value { result ≡ thousandths_in (rows_of (found_of values.now)) }
    ensures range { IfSome result (λ n. (1 ≤ n) × (n ≤ max_thousandths)) }
{
    match values.get_str("effort") {
        Some(text) => thousandths_of_text(text),
        None => None,
    }
}

/// The thousandths in `10`, `2.5` or `0.001`.
pub(crate) fn thousandths_of_text(text: &str) -> Option<u64>
    ensures value { result ≡ thousandths_of_text text.now }
    ensures range { IfSome result (λ n. (1 ≤ n) × (n ≤ max_thousandths)) }
{
    let bytes = text.as_bytes();
    let point = byte_index(bytes, b'.');
    let (whole, _rest) = bytes.split_at(point);
    thousandths_of(number(whole), decimals_at(bytes, point))
}

fn thousandths_of(whole: Option<u64>, decimals: Option<u64>) -> Option<u64>
    ensures value { result ≡ thousandths_from whole decimals }
    ensures range { IfSome result (λ n. (1 ≤ n) × (n ≤ max_thousandths)) }
{
    match (whole, decimals) {
        (Some(whole), Some(decimals)) => {
            in_range(u128::from(whole) * 1_000 + u128::from(decimals))
        }
        _ => None,
    }
}

fn in_range(thousandths: u128) -> Option<u64>
    ensures value { result ≡ in_range thousandths }
    ensures range { IfSome result (λ n. (1 ≤ n) × (n ≤ max_thousandths)) }
{
    if 1 <= thousandths && thousandths <= u128::from(MAX_THOUSANDTHS) {
        Some(thousandths as u64)
    } else {
        None
    }
}

/// The decimals behind the point that stands here, and nothing if the text ends here.
fn decimals_at(text: &[u8], point: usize) -> Option<u64>
    requires { point ≤ length text.now }
    ensures { result ≡ decimals_at point text.now }
{
    if point == text.len() {
        Some(0)
    } else {
        decimals_of(rest_after(text, point))
    }
}

/// One to three digits behind a point, in thousandths.
fn decimals_of(digits: &[u8]) -> Option<u64>
    ensures { result ≡ decimals_of digits.now }
{
    let value = number(digits)?;
    match digits.len() {
        1 => Some(value * 100),
        2 => Some(value * 10),
        3 => Some(value),
        _ => None,
    }
}
