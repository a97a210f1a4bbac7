//! The games that a text gives, in its lines whose first word is `round`.

ghost use Rattle.std.specs.Prelude.{◌≡◌, ◌++◌, map, IfOk, OnOk};
ghost use Rattle.std.specs.Str.Lines.{lines};
ghost use Rattle.text_lines.specs.Words.{words_of};
ghost use Rattle.schedule_texts.specs.Given.{placed};
ghost use Rattle.schedule_texts.specs.ScheduleText.{are_games, game_of_numbers, game_of_word, games_of_words, has_bad_line};
ghost use Rattle.schedule_texts.specs.ScheduleText.{line_of, round_line, round_of_word, written_games, games_of_line, numbered_line};

use fixtures::Game;
use std::alloc::{AllocError, Global};
use text_lines::{index, next_line, next_word, number, numbers_at_dash};

/// A game as it is written: teams and rounds are numbered from 1, and may be any numbers.
#[derive(Clone, Copy, Debug, PartialEq, Eq)]
pub struct WrittenGame {
    pub round: u64,
    pub home: u64,
    pub away: u64,
}

impl WrittenGame {
    /// The game with numbers from 0, in which 255 stands for one that no team and no round has.
    pub fn placed(self) -> Game
        ensures { result ≡ placed self }
    {
        Game {
            round: index(self.round),
            home: index(self.home),
            away: index(self.away),
        }
    }
}

/// The meaning of a line of a text for a schedule.
#[derive(Clone, Copy, Debug, PartialEq, Eq)]
pub enum ScheduleLine {
    /// Nothing: its first word isn't `round`.
    Other,
    /// Its first word is `round`, and what follows isn't a number with a colon and games.
    Bad,
    /// The games of the round of this number.
    Round(u64),
}

impl ScheduleLine {
    /// Reads a line without its line end.
    pub fn of(line: &[u8]) -> ScheduleLine
        ensures { result ≡ line_of line.now }
    {
        let mut rest = line;
        let Some(word) = next_word(&mut rest) else {
            return ScheduleLine::Other;
        };
        if word == b"round".as_slice() {
            round_line(rest)
        } else {
            ScheduleLine::Other
        }
    }
}

fn round_line(words: &[u8]) -> ScheduleLine
    ensures { result ≡ round_line (words_of words.now) }
{
    let mut rest = words;
    match next_word(&mut rest) {
        Some(word) => numbered_line(round_of_word(word), rest),
        None => ScheduleLine::Bad,
    }
}

fn numbered_line(round: Option<u64>, words: &[u8]) -> ScheduleLine
    ensures { result ≡ numbered_line round (words_of words.now) }
{
    match round {
        Some(round) => {
            if are_games(round, words) {
                ScheduleLine::Round(round)
            } else {
                ScheduleLine::Bad
            }
        }
        None => ScheduleLine::Bad,
    }
}

/// The number before the colon that ends the word.
fn round_of_word(word: &[u8]) -> Option<u64>
    ensures { result ≡ round_of_word word.now }
{
    match word {
        [digits @ .., b':'] => number(digits),
        _ => None,
    }
}

fn are_games(round: u64, words: &[u8]) -> bool
    ensures { result ≡ are_games round (words_of words.now) }
{
    let mut rest = words;
    while let Some(word) = next_word(&mut rest) {
        if game(round, word).is_none() {
            return false;
        }
    }
    true
}

/// The game `H-A` of the round.
fn game(round: u64, word: &[u8]) -> Option<WrittenGame>
    ensures { result ≡ game_of_word round word.now }
{
    let (home, away) = numbers_at_dash(word);
    game_of_numbers(round, home, away)
}

fn game_of_numbers(round: u64, home: Option<u64>, away: Option<u64>) -> Option<WrittenGame>
    ensures { result ≡ game_of_numbers round home away }
{
    match (home, away) {
        (Some(home), Some(away)) => Some(WrittenGame { round, home, away }),
        _ => None,
    }
}

/// The games that the lines of the text give, in their order. A bad line gives none.
pub(crate) fn written_games(alloc: Global, text: &[u8]) -> Result<Vec<WrittenGame>, AllocError>
    ensures { IfOk result (λ games. games.items ≡ written_games (lines text.now)) }
{
    let mut games = Vec::new(alloc);
    let mut rest = text;
    while let Some(line) = next_line(&mut rest) {
        push_line(&mut games, line)?;
    }
    Ok(games)
}

fn push_line(games: &mut Vec<WrittenGame>, line: &[u8]) -> Result<(), AllocError>
    ensures { OnOk result (games.new.items ≡ games.old.items ++ games_of_line (line_of line.now) (words_of line.now)) }
{
    match ScheduleLine::of(line) {
        ScheduleLine::Round(round) => push_words(games, round, line),
        _ => Ok(()),
    }
}

/// Adds the games of the round among the words of the line.
fn push_words(games: &mut Vec<WrittenGame>, round: u64, line: &[u8]) -> Result<(), AllocError>
    ensures { OnOk result (games.new.items ≡ games.old.items ++ games_of_words round (words_of line.now)) }
{
    let mut rest = line;
    while let Some(word) = next_word(&mut rest) {
        if let Some(game) = game(round, word) {
            games.push(game)?;
        }
    }
    Ok(())
}

/// Whether one of the text's lines is bad.
pub(crate) fn has_bad_line(text: &[u8]) -> bool
    ensures { result ≡ has_bad_line (lines text.now) }
{
    let mut rest = text;
    while let Some(line) = next_line(&mut rest) {
        if matches!(ScheduleLine::of(line), ScheduleLine::Bad) {
            return true;
        }
    }
    false
}

/// The games with numbers from 0.
pub(crate) fn placed_games(alloc: Global, games: &[WrittenGame]) -> Result<Vec<Game>, AllocError>
    ensures { IfOk result (λ placed_games. placed_games.items ≡ map placed games.now) }
{
    games.iter().map(|game| game.placed()).collect(alloc)
}
