//! The distance that a cell gives.

ghost use Rattle.std.specs.Prelude.{◌≡◌, ◌+◌, ◌≤◌, length};
ghost use Rattle.std.specs.Char.{is_ascii_digit};
ghost use Rattle.std.specs.List.{list_all};
ghost use Rattle.league_csv.specs.Measures.{are_noughts, decimal_measure, is_point, measure_between, near, number_measure, own_measure};
ghost use Rattle.league_csv.specs.Measures.{point_of, rounded_up};

use crate::fault::DistanceCellFault;
use league::limits::MAX_DISTANCE;
use schedule_csv::unmarked;
use text_lines::{number, rest_after};

/// A distance, and whether its cell had another number, which was rounded.
#[derive(Clone, Copy, Debug, Drop)]
pub(crate) struct Measure {
    pub(crate) distance: u32,
    pub(crate) is_rounded: bool,
}

/// The distance between two teams in its cell: from a team to itself it may be empty, and is 0.
pub(crate) fn measure_between(
    separator: u8,
    team: usize,
    other: usize,
    cell: &[u8],
) -> Result<Measure, DistanceCellFault>
    ensures { result ≡ measure_between separator team other cell.now }
{
    if team == other {
        own_measure(separator, cell)
    } else {
        number_measure(separator, cell)
    }
}

/// The distance of a team to itself, if the cell has it.
pub(crate) fn own_measure(separator: u8, cell: &[u8]) -> Result<Measure, DistanceCellFault>
    ensures { result ≡ own_measure separator cell.now }
{
    if unmarked(cell).is_empty() {
        return Ok(Measure {
            distance: 0,
            is_rounded: false,
        });
    }
    match number_measure(separator, cell) {
        Ok(own) if own.distance == 0 => Ok(own),
        _ => Err(DistanceCellFault::NotZero),
    }
}

/// A number as a distance, rounded if it is a decimal.
fn number_measure(separator: u8, cell: &[u8]) -> Result<Measure, DistanceCellFault>
    ensures { result ≡ number_measure separator cell.now }
{
    let text = unmarked(cell);
    let point = point_of(separator, text);
    let (whole, _) = text.split_at(point);
    decimal_measure(number(whole), rest_after(text, point))
}

fn point_of(separator: u8, text: &[u8]) -> usize
    ensures value { result ≡ point_of separator text.now }
    ensures within { result ≤ length text.now }
{
    text.iter()
        .position(|byte| is_point(separator, *byte))
        .unwrap_or(text.len())
}

/// Whether the byte is a point, or a comma where no comma stands between cells.
fn is_point(separator: u8, byte: u8) -> bool
    ensures { result ≡ is_point separator byte }
{
    byte == b'.' || (byte == b',' && separator != b',')
}

/// A whole number and the digits behind its point.
fn decimal_measure(whole: Option<u64>, digits: &[u8]) -> Result<Measure, DistanceCellFault>
    ensures { result ≡ decimal_measure whole digits.now }
{
    let whole = whole.ok_or(DistanceCellFault::NoNumber)?;
    if are_digits(digits) {
        near(whole, rounded_up(digits), !are_noughts(digits))
    } else {
        Err(DistanceCellFault::NoNumber)
    }
}

fn near(whole: u64, up: u64, is_rounded: bool) -> Result<Measure, DistanceCellFault>
    requires { up ≤ 1 }
    ensures { result ≡ near (whole + up) is_rounded }
{
    if whole > MAX_DISTANCE - up {
        return Err(DistanceCellFault::TooFar);
    }
    Ok(Measure {
        distance: (whole + up) as u32,
        is_rounded,
    })
}

/// Half up, by the first digit behind the point.
fn rounded_up(digits: &[u8]) -> u64
    ensures value { result ≡ rounded_up digits.now }
    ensures one { result ≤ 1 }
{
    u64::from(matches!(digits, [digit, ..] if *digit >= b'5'))
}

fn are_digits(text: &[u8]) -> bool
    ensures { result ≡ list_all is_ascii_digit text.now }
{
    text.iter().all(|byte| byte.is_ascii_digit())
}

fn are_noughts(digits: &[u8]) -> bool
    ensures { result ≡ are_noughts digits.now }
{
    digits.iter().all(|digit| *digit == b'0')
}
