//! The parts of a text before and after a byte.

ghost use Rattle.std.specs.Prelude.{◌≡◌, ◌+◌, ◌==◌, ◌≤◌, drop, length};
ghost use Rattle.std.specs.List.{position_or_len};
ghost use Rattle.text_lines.specs.Number.{after_dash, before_dash};

use crate::input::rest_from;
use crate::numerals::number;

/// The numbers before and after the first dash.
pub fn numbers_at_dash(text: &[u8]) -> (Option<u64>, Option<u64>)
    ensures before { result.0 ≡ before_dash text.now }
    ensures after { result.1 ≡ after_dash text.now }
{
    let dash = byte_index(text, b'-');
    let (front, _rest) = text.split_at(dash);
    (number(front), number(rest_after(text, dash)))
}

/// Where the byte first stands, or how long the text is.
pub fn byte_index(text: &[u8], byte: u8) -> usize
    ensures index { result ≡ position_or_len (λ b. b == byte) text.now }
    ensures within { result ≤ length text.now }
{
    text.iter()
        .position(|other| *other == byte)
        .unwrap_or(text.len())
}

/// The rest behind the byte at this index.
pub fn rest_after(text: &[u8], index: usize) -> &[u8]
    requires { index ≤ length text.now }
    ensures { result.now ≡ drop (index + 1) text.now }
{
    if index < text.len() {
        rest_from(text, index + 1)
    } else {
        &[]
    }
}
