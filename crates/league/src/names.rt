//! Names, and the other texts of a league.

ghost use Rattle.std.specs.Prelude.{◌≡◌};
ghost use Rattle.std.specs.List.{list_all};
ghost use Rattle.league.specs.Names.{is_name_byte, is_text_within};

fn has_name_bytes(name: &[u8]) -> bool
    ensures { result ≡ list_all is_name_byte name.now }
{
    name.iter().all(|b| *b >= 32 && *b != 127)
}

/// Whether a text has one byte to `most`, none of them a control byte.
pub fn is_text_within(text: &[u8], most: usize) -> bool
    ensures { result ≡ is_text_within most text.now }
{
    (1..=most).contains(&text.len()) && has_name_bytes(text)
}
