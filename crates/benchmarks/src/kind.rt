//! The kinds of moves, and the moves of a kind in an order.

ghost use Rattle.std.specs.Prelude.{◌≤◌};

use moves::Move;
use std::fmt;
use std::fmt::Write;

/// The kind of a move, without its numbers.
#[derive(Clone, Copy, Debug, PartialEq, Eq)]
pub enum Kind {
    Homes,
    Rounds,
    Teams,
    PartRounds,
    PartTeams,
}

impl Kind {
    pub const ALL: [Kind; 5] = [
        Kind::Homes,
        Kind::Rounds,
        Kind::Teams,
        Kind::PartRounds,
        Kind::PartTeams,
    ];

    /// The moves of this kind, one for each index: all pairs of what the move exchanges, and then the same pairs with
    /// the next team or round in the third place.
    pub fn nth(self, index: u32, teams: u8, rounds: u8) -> Move
        requires teams { 2 ≤ teams }
        requires rounds { 2 ≤ rounds }
    {
        let (i, j) = pair(index, teams);
        let (k, l) = pair(index, rounds);
        match self {
            Kind::Homes => Move::Homes { i, j },
            Kind::Rounds => Move::Rounds { k, l },
            Kind::Teams => Move::Teams { i, j },
            Kind::PartRounds => Move::PartRounds {
                i: third(index, rounds, teams),
                k,
                l,
            },
            Kind::PartTeams => Move::PartTeams {
                i,
                j,
                k: third(index, teams, rounds),
            },
        }
    }
}

impl fmt::Display for Kind {
    fn fmt<W: Write>(&self, f: &mut fmt::Formatter<W>) -> fmt::Result {
        f.write_str(match self {
            Kind::Homes => "homes",
            Kind::Rounds => "rounds",
            Kind::Teams => "teams",
            Kind::PartRounds => "part-rounds",
            Kind::PartTeams => "part-teams",
        })
    }
}

/// Two distinct numbers below `bound`. The first goes round, and after each round its distance to the second grows.
fn pair(index: u32, bound: u8) -> (u8, u8)
    requires { 2 ≤ bound }
{
    let bound = u32::from(bound);
    let first = index % bound;
    let apart = 1 + index / bound % (bound - 1);
    (first as u8, ((first + apart) % bound) as u8)
}

/// A number below `bound` that goes on by one after all pairs of numbers below `paired`.
fn third(index: u32, paired: u8, bound: u8) -> u8
    requires paired { 2 ≤ paired }
    requires bound { 2 ≤ bound }
{
    let paired = u32::from(paired);
    (index / (paired * (paired - 1)) % u32::from(bound)) as u8
}
