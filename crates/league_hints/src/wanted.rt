//! What is wanted at a place in a league's text.

ghost use Rattle.std.specs.Prelude.{◌≡◌, Some};
ghost use Rattle.std.specs.Fmt.{WritesOnOk};
ghost use Rattle.league_hints.specs.Lines.{list_words, wanted_words};

use std::fmt;

/// The form that is wanted at a place.
#[derive(Clone, Copy, Drop)]
pub enum Wanted {
    /// An object.
    Object,
    /// An array of objects.
    Objects,
    /// The name of a team.
    Name,
    /// An array of names.
    Names,
    /// An array of numbers.
    Numbers,
    /// An array of arrays of numbers.
    Table,
    /// `"plain"` or `"fide"`.
    Order,
    /// `true` or `false`.
    Truth,
    /// This number.
    Exactly(usize),
    /// A whole number from the first to the second.
    Number(u64, u64),
    /// A number that isn't below `min`.
    FromMin,
    /// The name of a class.
    Class,
    /// `"hard"` or `"soft"`.
    Kind,
    /// `"H"` or `"A"`.
    HomeOrAway,
    /// `"H"`, `"A"` or `"HA"`.
    Side,
    /// `"EVERY"` or `"GLOBAL"`.
    SlotChoice,
    /// Numbers of teams, of which there are so many.
    Teams(u8),
    /// Numbers of rounds, of which there are so many.
    Rounds(u8),
    /// Pairs of teams, of which there are so many.
    Games(u8),
    /// Numbers or names of teams, of which there are so many.
    Listed(u8),
    /// Pairs of teams, by number or name, of which there are so many.
    ListedGames(u8),
    /// The name of a league.
    Title,
    /// A short name for each team.
    ShortNames,
    /// A text for each round.
    RoundTexts,
    /// `"forbidden"` or `"free"`.
    Repeats,
}

/// Writes what the line has for it, as `a whole number from 1 to 6`.
impl fmt::Display for Wanted {
    ghost output = { λ wanted. Some (wanted_words wanted) };

    fn fmt<W: fmt::Write>(&self, f: &mut fmt::Formatter<W>) -> fmt::Result {
        match *self {
            Wanted::Object => f.write_str("an object"),
            Wanted::Objects => f.write_str("an array of objects"),
            Wanted::Name => f.write_str("a string of 1 to 40 bytes without control bytes"),
            Wanted::Names => f.write_str("an array of strings"),
            Wanted::Numbers => f.write_str("an array of numbers"),
            Wanted::Table => f.write_str("an array of arrays of numbers"),
            Wanted::Order => f.write_str("\"plain\" or \"fide\""),
            Wanted::Truth => f.write_str("true or false"),
            Wanted::Exactly(number) => write!(f, "{number}"),
            Wanted::Number(least, most) => write!(f, "a whole number from {least} to {most}"),
            Wanted::FromMin => f.write_str("a number not below \"min\""),
            Wanted::Class => {
                f.write_str("CA1, CA2, CA3, CA4, GA1, BR1, BR2, SE1 or, in format 2, FA2")
            }
            Wanted::Kind => f.write_str("\"hard\" or \"soft\""),
            Wanted::HomeOrAway => f.write_str("\"H\" or \"A\""),
            Wanted::Side => f.write_str("\"H\", \"A\" or \"HA\""),
            Wanted::SlotChoice => f.write_str("\"EVERY\" or \"GLOBAL\""),
            Wanted::Teams(teams) => write_list(f, "team numbers", teams),
            Wanted::Rounds(rounds) => write_list(f, "round numbers", rounds),
            Wanted::Listed(teams) => write_list(f, "team names, or numbers", teams),
            Wanted::ListedGames(teams) => write_list(
                f,
                "pairs of distinct teams, by name or by number",
                teams,
            ),
            Wanted::Title => f.write_str("a string of 1 to 80 bytes without control bytes"),
            Wanted::ShortNames => {
                f.write_str("an array of a string of 1 to 6 bytes for each team")
            }
            Wanted::RoundTexts => {
                f.write_str("an array of a string of 1 to 20 bytes for each round")
            }
            Wanted::Repeats => f.write_str("\"forbidden\" or \"free\""),
            Wanted::Games(teams) => write_list(f, "pairs of distinct team numbers", teams),
        }
    }
}

/// Writes that an array of such is wanted, numbered up to so many.
fn write_list<W: fmt::Write>(f: &mut fmt::Formatter<W>, items: &str, most: u8) -> fmt::Result
    ensures { WritesOnOk W.write_str_gives f.old result (list_words items.now most) f.new }
{
    write!(f, "an array of {items} from 1 to {most}")
}
