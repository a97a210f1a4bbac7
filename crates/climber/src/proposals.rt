//! The proposals of a climber.

ghost use Rattle.std.specs.Prelude.{◌<◌, ◌≤◌};
ghost use Rattle.league.specs.Limits.{max_teams};

use fixture_board::Proposal;
use league::limits::round_count;
use moves::Move;
use rand::RngExt;
use rand_pcg::Lcg64Xsh32;

/// The draws of a climber. Each climber has a stream of its own.
pub(crate) fn generator(climber: u64) -> Lcg64Xsh32 {
    Lcg64Xsh32::new(1, climber)
}

/// A drawn move: a partial exchange of two teams in three of four cases, else of two rounds of a team. A score that rises is
/// refused.
pub(crate) fn proposal(version: u64, generator: &mut Lcg64Xsh32, teams: u8) -> Proposal
    requires least { 2 ≤ teams }
    requires most { teams ≤ max_teams }
{
    let rounds = round_count(teams);
    let (i, k) = (below(generator, teams), below(generator, rounds));
    let mv = if below(generator, 4) < 3 {
        let j = below(generator, teams);
        Move::PartTeams { i, j, k }
    } else {
        let l = below(generator, rounds);
        Move::PartRounds { i, k, l }
    };
    Proposal {
        version,
        mv,
        claim: None,
        slack: 0,
    }
}

/// A number below the bound.
fn below(generator: &mut Lcg64Xsh32, bound: u8) -> u8
    requires { 0 < bound }
    ensures { result < bound }
{
    let number: u32 = generator.random_range(0..u32::from(bound));
    number as u8
}
