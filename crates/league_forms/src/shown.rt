//! How a control byte is shown.

ghost use Rattle.std.specs.Prelude.{◌≡◌};
ghost use Rattle.league_forms.specs.Shown.{shown_byte};

/// A question mark for a control byte.
pub fn shown_byte(byte: u8) -> u8
    ensures { result ≡ shown_byte byte }
{
    if byte >= 32 && byte != 127 {
        byte
    } else {
        b'?'
    }
}

/// The bytes of a character.
pub(crate) fn shown_character(character: char) -> char
    ensures { result ≡ shown_byte character }
{
    if character >= ' ' && character != '\u{7f}' {
        character
    } else {
        '?'
    }
}
