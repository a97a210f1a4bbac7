//! The cells of a line of a table.

ghost use Rattle.std.specs.Prelude.{◌≡◌, [], ◌∷◌, IfNone, IfSome, ◌≤◌, false, length, option_map};
ghost use Rattle.text_lines.specs.Words.{is_blank};
ghost use Rattle.schedule_csv.specs.Cells.{cell_at, cells, cells_left, is_empty_row, trimmed, unmarked};
ghost use Rattle.schedule_csv.specs.within.Cells.{cell_length};
ghost use Rattle.schedule_csv.specs.Cells.{without_end, without_front};

/// The byte that stands around a cell in which a separator may stand.
pub const MARK: u8 = b'"';

/// Takes the first cell off what is left of a line, without the blanks at its ends.
pub fn next_cell<'a>(rest: &mut Option<&'a [u8]>, separator: u8) -> Option<&'a [u8]>
    ensures none { IfNone result (cells_left separator rest.old ≡ []) }
    ensures some { IfSome result (λ cell. cells_left separator rest.old ≡ cell.now ∷ cells_left separator rest.new) }
{
    let line = (*rest)?;
    let length = cell_length(line, separator);
    *rest = if length < line.len() {
        Some(line.split_at(length + 1).1)
    } else {
        None
    };
    Some(trimmed(&line[..length]))
}

/// How long the first cell is: up to the first separator that isn't inside quotation marks, or all of the line.
fn cell_length(line: &[u8], separator: u8) -> usize
    ensures value { result ≡ cell_length separator false line.now }
    ensures within { result ≤ length line.now }
{
    let mut length = 0;
    let mut inside = false;
    let mut rest = line;
    while let [byte, later @ ..] = rest {
        if !inside && *byte == separator {
            return length;
        }
        if *byte == MARK {
            inside = !inside;
        }
        length += 1;
        rest = later;
    }
    length
}

/// The bytes without blanks at their ends.
fn trimmed(bytes: &[u8]) -> &[u8]
    ensures { result.now ≡ trimmed bytes.now }
{
    without_end(without_front(bytes))
}

fn without_front(bytes: &[u8]) -> &[u8]
    ensures { result.now ≡ without_front bytes.now }
{
    let mut rest = bytes;
    while let [byte, later @ ..] = rest {
        if !is_blank(*byte) {
            return rest;
        }
        rest = later;
    }
    rest
}

fn without_end(bytes: &[u8]) -> &[u8]
    ensures { result.now ≡ without_end (length bytes.now) bytes.now }
{
    let mut length = bytes.len();
    while length > 0 {
        if !is_blank(bytes[length - 1]) {
            return &bytes[..length];
        }
        length -= 1;
    }
    &bytes[..length]
}

fn is_blank(byte: u8) -> bool
    ensures { result ≡ is_blank byte }
{
    matches!(byte, b' ' | b'\t')
}

/// The cell of this index, if the line has so many.
pub fn cell_at(line: &[u8], separator: u8, index: usize) -> Option<&[u8]>
    ensures { option_map (λ cell. cell.now) result ≡ cell_at (cells separator line.now) index }
{
    let mut rest = Some(line);
    for _ in 0..index {
        next_cell(&mut rest, separator)?;
    }
    next_cell(&mut rest, separator)
}

/// The text between the quotation marks at both ends of a cell, if they are there.
pub fn unmarked(cell: &[u8]) -> &[u8]
    ensures { result.now ≡ unmarked cell.now }
{
    match cell {
        [MARK, inner @ .., MARK] => inner,
        _ => cell,
    }
}

/// Whether the row has nothing in its cells.
pub fn is_empty_row(line: &[u8], separator: u8) -> bool
    ensures { result ≡ is_empty_row separator line.now }
{
    line.iter().all(|byte| *byte == separator || is_blank(*byte) || *byte == MARK)
}
