//! The last sheet of a text.

ghost use Rattle.std.specs.Prelude.{◌≡◌};
ghost use Rattle.text_lines.specs.Words.{words_of};
ghost use Rattle.std.specs.Str.Lines.{lines};
ghost use Rattle.schedule_texts.specs.LastSheet.{begins_sheet, has_round_line, is_of_round, last_sheet};
ghost use Rattle.schedule_texts.specs.within.LastSheet.{IsLastSheet};

use crate::schedule_text::ScheduleLine;
use text_lines::{next_line, next_word};

/// The text behind its last line whose first word is `league`, or all of it if there is none.
#[derive(Clone, Copy)]
pub(crate) struct LastSheet<'a> {
    pub(crate) text: &'a [u8],
    /// How many lines of the text stand before it.
    pub(crate) before: u64,
}

impl<'a> LastSheet<'a> {
    /// Finds it in a text.
    pub(crate) fn of(text: &'a [u8]) -> LastSheet<'a>
        ensures { IsLastSheet text.now result }
    {
        let mut sheet = LastSheet { text, before: 0 };
        let mut rest = text;
        let mut number = 0;
        while let Some(line) = next_line(&mut rest) {
            number += 1;
            if begins_sheet(line) {
                sheet = LastSheet {
                    text: rest,
                    before: number,
                };
            }
        }
        sheet
    }
}

/// Whether the line's first word is `league`.
fn begins_sheet(line: &[u8]) -> bool
    ensures { result ≡ begins_sheet (words_of line.now) }
{
    let mut rest = line;
    match next_word(&mut rest) {
        Some(word) => word == b"league".as_slice(),
        None => false,
    }
}

/// Whether the last sheet of a text has a line whose first word is `round`. Takes no memory.
pub fn has_round_line(text: &[u8]) -> bool
    ensures { result ≡ has_round_line (last_sheet (lines text.now)) }
{
    let mut rest = LastSheet::of(text).text;
    while let Some(line) = next_line(&mut rest) {
        if ScheduleLine::of(line).is_of_round() {
            return true;
        }
    }
    false
}

impl ScheduleLine {
    /// Whether the line's first word is `round`.
    fn is_of_round(self) -> bool
        ensures { result ≡ is_of_round self }
    {
        !matches!(self, ScheduleLine::Other)
    }
}
