//! A place in a league's text.

ghost use Rattle.std.specs.Prelude.{◌≡◌, Some};
ghost use Rattle.league_hints.specs.Lines.{place_words, rule_member_name};

use league::Field;
use std::fmt;

/// A place in a league's text.
#[derive(Clone, Copy, Drop)]
pub enum Place {
    /// The text as a whole.
    Whole,
    /// This member of the league.
    League(Field),
    /// The rule of this number.
    Rule(usize),
    /// The name of this team.
    Team(usize),
    /// This row of the distances.
    Row(usize),
    /// The distance in this row and column.
    Distance(usize, usize),
    /// This member of the rule of this number.
    Member(u16, RuleMember),
}

/// A member of a rule's text.
#[derive(Clone, Copy, Drop)]
pub enum RuleMember {
    Class,
    Kind,
    Weight,
    Teams,
    Teams1,
    Teams2,
    Slots,
    Mode,
    Mode2,
    Max,
    Min,
    Intp,
    Games,
}

impl RuleMember {
    /// The member's JSON name.
    pub fn name(self) -> &'static str
        ensures { result.now ≡ rule_member_name self }
    {
        match self {
            RuleMember::Class => "class",
            RuleMember::Kind => "kind",
            RuleMember::Weight => "weight",
            RuleMember::Teams => "teams",
            RuleMember::Teams1 => "teams1",
            RuleMember::Teams2 => "teams2",
            RuleMember::Slots => "slots",
            RuleMember::Mode => "mode",
            RuleMember::Mode2 => "mode2",
            RuleMember::Max => "max",
            RuleMember::Min => "min",
            RuleMember::Intp => "intp",
            RuleMember::Games => "games",
        }
    }
}

/// Writes what the line has for it, as `distances: row 3`.
impl fmt::Display for Place {
    ghost output = { λ place. Some (place_words place) };

    fn fmt<W: fmt::Write>(&self, f: &mut fmt::Formatter<W>) -> fmt::Result {
        match *self {
            Place::Whole => f.write_str("the text: it"),
            Place::League(field) => write!(f, "the league: member \"{field}\""),
            Place::Rule(rule) => write!(f, "rule {rule}: it"),
            Place::Team(team) => write!(f, "teams: number {team}"),
            Place::Row(row) => write!(f, "distances: row {row}"),
            Place::Distance(row, column) => write!(f, "distances: row {row}, column {column}"),
            Place::Member(rule, member) => {
                let name = member.name();
                write!(f, "rule {rule}: member \"{name}\"")
            }
        }
    }
}
