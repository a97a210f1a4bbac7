//! The words of a line.

ghost use Rattle.std.specs.Prelude.{◌≡◌, [], ◌∷◌, IfNone, IfSome, not, length, true};
ghost use Rattle.std.specs.List.{position_or_len};
ghost use Rattle.text_lines.specs.Words.{is_blank, is_word, words_of};

use crate::input::rest_from;

/// Takes the first word off a line.
pub fn next_word<'a>(line: &mut &'a [u8]) -> Option<&'a [u8]>
    ensures none { IfNone result (words_of line.old.now ≡ []) }
    ensures same { IfNone result (line.new.now ≡ line.old.now) }
    ensures some { IfSome result (λ word. words_of line.old.now ≡ word.now ∷ words_of line.new.now) }
    ensures word { IfSome result (λ word. is_word word.now ≡ true) }
{
    let whole = *line;
    let text = rest_from(whole, blanks(whole));
    if text.is_empty() {
        return None;
    }
    let length = word_length(text);
    *line = rest_from(text, length);
    Some(&text[..length])
}

fn is_blank(byte: u8) -> bool
    ensures { result ≡ is_blank byte }
{
    matches!(byte, b' ' | b'\t')
}

/// How many blanks the line begins with.
fn blanks(line: &[u8]) -> usize
    ensures { result ≡ position_or_len (λ b. not (is_blank b)) line.now }
{
    line.iter()
        .position(|byte| !is_blank(*byte))
        .unwrap_or(line.len())
}

/// How many bytes stand before the first blank.
fn word_length(text: &[u8]) -> usize
    ensures { result ≡ position_or_len is_blank text.now }
{
    text.iter()
        .position(|byte| is_blank(*byte))
        .unwrap_or(text.len())
}
