//! Pieces of a page: markup, names and numbers.

ghost use Rattle.std.specs.Prelude.{◌≡◌, ◌++◌, decimal, OnOk};
ghost use Rattle.report_page.specs.Pieces.{escape_of, escaped};
ghost use Rattle.report_page.specs.within.Pieces.{text_of_piece, text_of_pieces};

use std::alloc::AllocError;

/// A piece of a page.
#[derive(Clone, Copy)]
pub(crate) enum PagePiece<'a> {
    /// As it is.
    Raw(&'a [u8]),
    /// A text that stands for itself, whatever it holds.
    Name(&'a [u8]),
    /// In decimal.
    Number(u64),
}

/// Adds the pieces, one after another.
pub(crate) fn push_pieces(page: &mut Vec<u8>, pieces: &[PagePiece<'_>]) -> Result<(), AllocError>
    ensures { OnOk result (page.new.items ≡ page.old.items ++ text_of_pieces pieces.now) }
{
    let mut rest = pieces;
    while let [piece, later @ ..] = rest {
        push_piece(page, *piece)?;
        rest = later;
    }
    Ok(())
}

fn push_piece(page: &mut Vec<u8>, piece: PagePiece<'_>) -> Result<(), AllocError>
    ensures { OnOk result (page.new.items ≡ page.old.items ++ text_of_piece piece.entry) }
{
    match piece {
        PagePiece::Raw(text) => page.extend_from_slice(text),
        PagePiece::Name(text) => push_escaped(page, text),
        PagePiece::Number(number) => push_number(page, number),
    }
}

fn push_number(page: &mut Vec<u8>, number: u64) -> Result<(), AllocError>
    ensures { OnOk result (page.new.items ≡ page.old.items ++ decimal number) }
{
    let mut digits = itoa::Buffer::new();
    page.extend_from_slice(digits.format(number).as_bytes())
}

/// Adds the text with its marks escaped, so that no markup begins or ends in it.
fn push_escaped(page: &mut Vec<u8>, text: &[u8]) -> Result<(), AllocError>
    ensures { OnOk result (page.new.items ≡ page.old.items ++ escaped text.now) }
{
    let mut rest = text;
    while let [byte, later @ ..] = rest {
        push_byte(page, *byte)?;
        rest = later;
    }
    Ok(())
}

fn push_byte(page: &mut Vec<u8>, byte: u8) -> Result<(), AllocError>
    ensures { OnOk result (page.new.items ≡ page.old.items ++ escape_of byte) }
{
    match byte {
        b'&' => page.extend_from_slice(b"&amp;"),
        b'<' => page.extend_from_slice(b"&lt;"),
        b'>' => page.extend_from_slice(b"&gt;"),
        b'"' => page.extend_from_slice(b"&quot;"),
        b'\'' => page.extend_from_slice(b"&#39;"),
        _ => page.extend_from_slice(&[byte]),
    }
}
