//! The first moves that workers draw.

ghost use Rattle.std.specs.Prelude.{◌≤◌};
ghost use Rattle.league.specs.Limits.{max_teams};

use crate::tests::checks::check_same;
use draws::draw;
use moves::Move;
use rand_pcg::Lcg64Xsh32;
use std::process::Abort;

/// The next moves of the generator of a seed and a worker are these.
fn check_moves(rt: &impl Abort, seed: u64, worker: u64, teams: u8, moves: &[Move])
    requires two { 2 ≤ teams }
    requires most { teams ≤ max_teams }
{
    let mut generator = Lcg64Xsh32::new(seed, worker);
    for mv in moves {
        check_same(rt, &draw(&mut generator, teams), mv);
    }
}

const OF_FIRST: &[Move] = &[
    Move::PartTeams { i: 0, j: 3, k: 0 },
    Move::Teams { i: 2, j: 2 },
    Move::PartRounds { i: 3, k: 3, l: 2 },
    Move::Rounds { k: 4, l: 1 },
    Move::Homes { i: 1, j: 0 },
];

const OF_LAST: &[Move] = &[
    Move::PartTeams {
        i: 36,
        j: 32,
        k: 46,
    },
    Move::Rounds { k: 32, l: 58 },
    Move::Homes { i: 33, j: 34 },
    Move::Teams { i: 17, j: 25 },
    Move::PartRounds {
        i: 33,
        k: 31,
        l: 36,
    },
];

const OF_GREATEST_SEED: &[Move] = &[
    Move::PartTeams { i: 0, j: 2, k: 9 },
    Move::Homes { i: 5, j: 6 },
    Move::Rounds { k: 12, l: 0 },
    Move::Teams { i: 3, j: 6 },
    Move::PartTeams { i: 9, j: 8, k: 12 },
];

/// The expected moves are those of `scripts/oracle worker-steps`, a program written apart from the definitions of PCG-XSH-RR 64/32
/// (O'Neill 2014) and of Canon's method.
#[test]
fn first_moves_of_workers(rt: HostRuntime) {
    check_moves(&rt, 1, 0, 4, OF_FIRST);
    check_moves(&rt, 2026, 15, 40, OF_LAST);
    check_moves(&rt, u64::MAX, 7, 10, OF_GREATEST_SEED);
}
