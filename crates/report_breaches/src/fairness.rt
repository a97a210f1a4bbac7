//! Numbers of pairs of teams: the rounds between their two games, and how far their numbers of home games are apart.

ghost use Rattle.std.specs.Prelude.{◌≡◌, ◌<◌, ◌≤◌, if◌then◌else◌};
ghost use Rattle.league.specs.Limits.{max_rounds};
ghost use Rattle.league.specs.Sets.{has};
ghost use Rattle.fixtures.specs.Games.{round_count, IsPair};
ghost use Rattle.rules.specs.Deviations.{home_games, gap, rounds_between, worst_gap};
ghost use Rattle.report_breaches.specs.Breaches.{worst_round};

use crate::place_counts::over;
use fixtures::Schedule;
use league::SlotSet;

/// How many rounds lie strictly between the two games of the pair.
#[tactic(auto, unfolding(rules::specs::Deviations::rounds_between))]
pub(crate) fn rounds_between(schedule: &Schedule, i: u8, j: u8) -> u32
    requires { IsPair schedule.now.teams i j }
    ensures { result ≡ rounds_between schedule.now i j }
{
    let first = schedule.round_of(i, j);
    let second = schedule.round_of(j, i);
    (first.max(second) - first.min(second))
        .saturating_sub(1)
        .into()
}

/// How far two teams' numbers of home games are apart over the most, and the first round in which they are.
#[derive(Clone, Copy, Drop)]
pub(crate) struct Gap {
    pub by: u32,
    pub round: u8,
}

/// The largest gap of two teams in the slots.
#[tactic(auto, unfolding(rules::specs::Deviations::worst_gap))]
pub(crate) fn worst_gap(schedule: &Schedule, slots: SlotSet, most: u32, low: u8, high: u8) -> Gap
    requires low { low < high }
    requires high { high < schedule.now.teams }
    ensures by { result.by ≡ worst_gap schedule.now (has slots) most low high }
    ensures round { result.round ≡ worst_round schedule.now (has slots) most low high }
    ensures in_range { result.round < round_count schedule.now.teams }
{
    let mut worst = Gap { by: 0, round: 0 };
    for round in 0..schedule.rounds() {
        let by = gap_in(schedule, slots, most, (low, high), round);
        if by > worst.by {
            worst = Gap { by, round };
        }
    }
    worst
}

#[tactic(auto, unfolding(rules::specs::Deviations::gap))]
/// The gap of two teams up to and with a round, if it is one of the slots.
fn gap_in(schedule: &Schedule, slots: SlotSet, most: u32, pair: (u8, u8), round: u8) -> u32
    requires low { pair.0 < schedule.now.teams }
    requires high { pair.1 < schedule.now.teams }
    requires round { round < round_count schedule.now.teams }
    requires season { round_count schedule.now.teams ≤ max_rounds }
    ensures { result ≡ (if has slots round then gap schedule.now most pair.0 pair.1 round else 0) }
{
    if !slots.has(round) {
        return 0;
    }
    let low = home_games(schedule, pair.0, round);
    let high = home_games(schedule, pair.1, round);
    over(low.abs_diff(high), most)
}

/// The home games of the team up to and with the round.
fn home_games(schedule: &Schedule, team: u8, round: u8) -> u32
    requires team { team < schedule.now.teams }
    requires round { round < round_count schedule.now.teams }
    requires season { round_count schedule.now.teams ≤ max_rounds }
    ensures { result ≡ home_games schedule.now team round }
{
    SlotSet::below(round + 1)
        .intersection(schedule.home_rounds(team))
        .len()
}
