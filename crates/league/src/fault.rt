//! Why there is no league.

ghost use Rattle.std.specs.Prelude.{◌≡◌, ◌+◌, Some};
ghost use Rattle.league.specs.declared.fault.LeagueFault.TheVariants.{Memory};
ghost use Rattle.league.specs.Messages.{member_name, wrong_kind_message};

use std::alloc::{AllocError, AllocFailed};
use std::fmt;
use thiserror::Error;

/// A member of a league's text, or the text as a whole.
#[derive(Clone, Copy, Debug, PartialEq, Eq)]
pub enum Field {
    Whole,
    Format,
    Teams,
    Distances,
    AtMost,
    HardWeight,
    Rules,
    Start,
    Phased,
    Name,
    Short,
    Rounds,
    Repeats,
}

impl Field {
    /// The member's JSON name.
    pub fn name(self) -> &'static str
        ensures { result.now ≡ member_name self }
    {
        match self {
            Field::Whole => "text",
            Field::Format => "format",
            Field::Teams => "teams",
            Field::Distances => "distances",
            Field::AtMost => "at_most",
            Field::HardWeight => "hard_weight",
            Field::Rules => "rules",
            Field::Start => "start",
            Field::Phased => "phased",
            Field::Name => "name",
            Field::Short => "short",
            Field::Rounds => "rounds",
            Field::Repeats => "repeats",
        }
    }
}

/// Writes the member's JSON name.
impl fmt::Display for Field {
    ghost output = { λ field. Some (member_name field) };

    fn fmt<W: fmt::Write>(&self, f: &mut fmt::Formatter<W>) -> fmt::Result {
        f.write_str(self.name())
    }
}

/// Why there is no league. Indexes of rules count from 0, and from 1 in the messages.
#[derive(Clone, Copy, Debug, Drop, PartialEq, Eq, Error)]
pub enum LeagueFault {
    /// The bytes are not UTF-8, are not JSON, or nest more than 127 levels.
    #[error("league is not JSON")]
    NotJson,
    /// A member that has to be there is absent.
    #[error("league lacks {0}")]
    MissingField(Field),
    /// A member is not of its form, or the whole text is no object.
    #[error("{}", Wrong(*.0))]
    WrongKind(Field),
    /// The number of teams is odd, below 4 or above 40.
    #[error("team count must be even, 4 to 40")]
    TeamCount,
    /// The distances aren't one row for each team, each with one number for each team.
    #[error("distances are not n rows of n")]
    DistanceShape,
    /// A distance is above 1,000,000.
    #[error("a distance is over 1000000")]
    DistanceRange,
    /// A team is not at distance 0 from itself.
    #[error("a distance from a team to itself is not 0")]
    Diagonal,
    /// The distance from one team to another is not the one back.
    #[error("distances are not symmetric")]
    Asymmetric,
    /// There are more than 256 rules.
    #[error("more than 256 rules")]
    TooManyRules,
    /// The rule at this index names no known class.
    #[error("rule {} has no known class", rule_number(.0))]
    RuleClass(u8),
    /// The rule at this index has a known class, and lacks a member or has one that is not of its form.
    #[error("rule {} has a wrong value", rule_number(.0))]
    RuleValue(u8),
    /// Memory ran out.
    #[error("out of memory")]
    Memory,
}

impl From<AllocError> for LeagueFault {
    ghost from_gives = { λ _ fault. fault ≡ Memory };

    fn from(_: AllocError) -> LeagueFault {
        LeagueFault::Memory
    }
}

impl<T: Drop> From<AllocFailed<T>> for LeagueFault {
    ghost from_gives = { λ _ fault. fault ≡ Memory };

    fn from(_: AllocFailed<T>) -> LeagueFault {
        LeagueFault::Memory
    }
}

// What is wrong if a field is not of its form.
#[derive(Clone, Copy)]
struct Wrong(Field);

impl fmt::Display for Wrong {
    ghost output = { λ wrong. Some (wrong_kind_message wrong.0) };

    fn fmt<W: fmt::Write>(&self, f: &mut fmt::Formatter<W>) -> fmt::Result {
        match self.0 {
            Field::Whole => f.write_str("league is no object"),
            member => write!(f, "league member {member} is wrong"),
        }
    }
}

// The number of a rule, counted from 1.
fn rule_number(index: &u8) -> u16
    ensures { result ≡ index.now + 1 }
{
    u16::from(*index) + 1
}
