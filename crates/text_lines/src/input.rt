//! The two parts of an input, a league and a script, and the lines of the script.

ghost use Rattle.std.specs.Prelude.{◌≡◌, [], IfNone, IfSome, drop, ◌<◌, ◌≤◌, length, option_map};
ghost use Rattle.std.specs.Str.Lines.{lines, strip_carriage_return};
ghost use Rattle.text_lines.specs.Input.{TakesLine, first_ending, league_text, lines_after, script_lines, text_before};

use crate::splits::byte_index;

/// Cuts an input at the first line that is the word: the text before that line, and the text after it. If there is no
/// such line, all of the input is the text before it.
pub fn split_at_line<'a>(input: &'a [u8], word: &[u8]) -> (&'a [u8], Option<&'a [u8]>)
    requires { 0 < length word.now }
    ensures before { result.0.now ≡ text_before word.now input.now }
    ensures after { option_map (λ rest. lines rest.now) result.1 ≡ lines_after word.now input.now }
{
    let mut rest = input;
    let mut start = 0;
    while let Some(line) = next_line(&mut rest) {
        if line == word {
            return (&input[..start], Some(rest));
        }
        start = input.len() - rest.len();
    }
    (input, None)
}

/// The league's text, which runs up to the first line that is `script`, and the script after that line.
/// If there is no such line, all is the league's text.
pub fn split_input(input: &[u8]) -> (&[u8], &[u8])
    ensures league { result.0.now ≡ league_text input.now }
    ensures script { lines result.1.now ≡ script_lines input.now }
{
    let (league, script) = split_at_line(input, b"script");
    match script {
        Some(script) => (league, script),
        None => (league, &[]),
    }
}

/// The number, from 1, of the first line that ends with these bytes.
pub fn line_ending_with(text: &[u8], ending: &[u8]) -> Option<usize>
    ensures { result ≡ first_ending ending.now 1 (lines text.now) }
{
    let mut rest = text;
    let mut number = 0;
    while let Some(line) = next_line(&mut rest) {
        number += 1;
        if line.ends_with(ending) {
            return Some(number);
        }
    }
    None
}

/// Takes the first line off a text. A line loses its line end, and one carriage return before that.
pub fn next_line<'a>(text: &mut &'a [u8]) -> Option<&'a [u8]>
    ensures none { IfNone result (text.old.now ≡ []) }
    ensures same { IfNone result (text.new.now ≡ []) }
    ensures some { IfSome result (λ line. TakesLine text.old.now line.now text.new.now) }
{
    let whole = *text;
    if whole.is_empty() {
        return None;
    }
    let length = byte_index(whole, b'\n');
    if length == whole.len() {
        *text = rest_from(whole, length);
        return Some(whole);
    }
    *text = rest_from(whole, length + 1);
    Some(without_carriage_return(&whole[..length]))
}

fn without_carriage_return(line: &[u8]) -> &[u8]
    ensures { result.now ≡ strip_carriage_return line.now }
{
    match line {
        [front @ .., b'\r'] => front,
        _ => line,
    }
}

/// The rest behind the first `count` bytes.
pub(crate) fn rest_from(text: &[u8], count: usize) -> &[u8]
    requires { count ≤ length text.now }
    ensures { result.now ≡ drop count text.now }
{
    text.split_at(count).1
}
