//! Numbers and moves that a linear congruence draws.

ghost use Rattle.std.specs.Prelude.{◌<◌};

use moves::Move;

/// The word after this one.
pub(crate) fn next_word(word: u64) -> u64 {
    word.wrapping_mul(6364136223846793005)
        .wrapping_add(1442695040888963407)
}

/// A number below `end` that the word gives from a bit on.
pub(crate) fn part(word: u64, bit: u32, end: u8) -> u8
    requires { (bit < 64) × (0 < end) }
{
    ((word >> bit) % u64::from(end)) as u8
}

/// A number below `bound`, by the next word.
pub(crate) fn drawn(state: &mut u64, bound: u8) -> u8 {
    *state = next_word(*state);
    part(*state, 33, bound.max(1))
}

/// One of the numbers, or 0 where there are none.
pub(crate) fn among(state: &mut u64, numbers: &[u64]) -> u64 {
    let at = drawn(state, numbers.len().min(255) as u8);
    numbers.get(usize::from(at)).copied().unwrap_or(0)
}

/// A move of drawn numbers, of each kind in turn.
pub(crate) fn drawn_move(state: &mut u64, teams: u8) -> Move {
    let rounds = teams.saturating_mul(2).saturating_sub(2);
    let (i, j) = (drawn(state, teams), drawn(state, teams));
    let (k, l) = (drawn(state, rounds), drawn(state, rounds));
    match drawn(state, 5) {
        0 => Move::Homes { i, j },
        1 => Move::Rounds { k, l },
        2 => Move::Teams { i, j },
        3 => Move::PartRounds { i, k, l },
        _ => Move::PartTeams { i, j, k },
    }
}
