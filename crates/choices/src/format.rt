//! The formats of a report.

/// In which form a report is written.
#[derive(Clone, Copy, Debug, PartialEq, Eq)]
pub enum Format {
    /// Lines of text: the sheet, the cost and its parts.
    Text,
    /// A head line and a line for each game, as CSV.
    Csv(CsvForm),
    /// A page for a browser, which needs nothing beside it.
    Html,
    /// The games in words, by round.
    Names,
    /// A line of JSON: the league, the games, the cost, and what it is made of.
    Json,
}

/// How a table of games is written as CSV.
#[derive(Clone, Copy, Debug, PartialEq, Eq)]
pub struct CsvForm {
    /// The byte that parts the cells of a line.
    pub separator: Separator,
    /// Whether a byte order mark stands before the head line.
    pub has_mark: bool,
}

/// The byte that parts the cells of a line.
#[derive(Clone, Copy, Debug, PartialEq, Eq)]
pub enum Separator {
    Comma,
    Semicolon,
    Tab,
}
