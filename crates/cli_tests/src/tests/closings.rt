//! The end of a play text or of a search text: the history, the sheet and the best version.

/// The text after `history ` up to the line `end`, and the text after that line.
pub(crate) fn closing(text: &[u8]) -> Option<(&str, &str)> {
    let text = str::from_utf8(text).ok()?;
    let (_, closing) = text.split_once("history ")?;
    closing.split_once("\nend\n")
}

/// The history's lines, which are a script that leads to it.
pub(crate) fn script(history: &str) -> &str {
    match history.split_once("\n") {
        Some((_, script)) => script,
        None => "",
    }
}
