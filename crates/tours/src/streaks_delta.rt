//! The change of the streaks by an exchange, predicted on the schedule before it.

ghost use Rattle.std.specs.Prelude.{◌≡◌, ◌≢◌, ◌+◌, ◌*◌, ◌<◌, ◌≤◌, true, false, if◌then◌else◌};
ghost use Rattle.league.specs.League.{teams};
ghost use Rattle.league.specs.Limits.{max_teams, max_rounds};
ghost use Rattle.league.specs.Sets.{has};
ghost use Rattle.fixtures.specs.Games.{round_count, round_of, IsDoubleRoundRobin};
ghost use Rattle.fixtures.specs.Edits.{rounds_exchanged, teams_exchanged};
ghost use Rattle.fixtures.specs.Closed.{IsClosed, plays_in, shares_opponent};
ghost use Rattle.fixtures.specs.Changes.{flips};
ghost use Rattle.tours.specs.Streaks.{streaks_of, runs_over};

use crate::clip::teams_in;
use crate::delta::CountDelta;
use crate::streaks::streaks_in;
use fixtures::Schedule;
use league::{League, SlotSet, TeamSet};

/// The streaks of the teams that change sides if rounds `k` and `l` are exchanged for the teams of the set, which has the
/// opponents of its teams in the two rounds.
pub(crate) fn streaks_of_rounds(
    schedule: &Schedule,
    league: &League,
    k: u8,
    l: u8,
    among: TeamSet,
) -> CountDelta
    requires same { teams league.now ≡ schedule.now.teams }
    requires k { k < round_count schedule.now.teams }
    requires l { l < round_count schedule.now.teams }
    requires distinct { k ≢ l }
    requires closed { IsClosed (plays_in schedule.now k l) (has among) }
    ensures balance { runs_over (rounds_exchanged schedule.now k l (has among)) league.now.at_most + result.before ≡
        runs_over schedule.now league.now.at_most + result.after }
    ensures within { result.before ≤ runs_over schedule.now league.now.at_most }
    ensures before_limit { result.before ≤ max_teams * max_rounds }
    ensures after_limit { result.after ≤ max_teams * max_rounds }
{
    let teams = teams_in(schedule, among);
    let at_most = league.at_most();
    let mut before = 0;
    let mut after = 0;
    for team in teams {
        let streaks = flipped_streaks(schedule, at_most, k, l, team);
        before += streaks.before;
        after += streaks.after;
    }
    CountDelta { before, after }
}

/// The streaks of a team, if it is on different sides in the two rounds.
fn flipped_streaks(schedule: &Schedule, at_most: u8, k: u8, l: u8, team: u8) -> CountDelta
    requires round_robin { IsDoubleRoundRobin schedule.now }
    requires least { 1 ≤ at_most }
    requires limit { at_most ≤ max_rounds }
    requires k { k < round_count schedule.now.teams }
    requires l { l < round_count schedule.now.teams }
    requires distinct { k ≢ l }
    requires team { team < schedule.now.teams }
    ensures before { result.before ≡ (if flips schedule.now k l team then streaks_of schedule.now at_most team else 0) }
    ensures after { result.after ≡ (if flips schedule.now k l team
        then streaks_of (rounds_exchanged schedule.now k l (λ _. true)) at_most team else 0) }
    ensures before_limit { result.before ≤ max_rounds }
    ensures after_limit { result.after ≤ max_rounds }
{
    let rounds = schedule.rounds();
    let home = schedule.home_rounds(team);
    // two cells are read in fewer instructions than two members of a set
    if schedule.game_at(team, k).home == schedule.game_at(team, l).home {
        return CountDelta {
            before: 0,
            after: 0,
        };
    }
    let flipped = home.symmetric_difference(SlotSet::empty().with(k).with(l));
    CountDelta {
        before: streaks_in(home, rounds, at_most),
        after: streaks_in(flipped, rounds, at_most),
    }
}

/// The streaks of teams `i` and `j` if they are exchanged in the games of the rounds of the set. In none of them the two
/// meet, and if one of them meets a team in a round of the set, so does the other.
pub(crate) fn streaks_of_teams(
    schedule: &Schedule,
    league: &League,
    i: u8,
    j: u8,
    among: SlotSet,
) -> CountDelta
    requires same { teams league.now ≡ schedule.now.teams }
    requires i { i < schedule.now.teams }
    requires j { j < schedule.now.teams }
    requires distinct { i ≢ j }
    requires first_out { has among (round_of schedule.now i j) ≡ false }
    requires second_out { has among (round_of schedule.now j i) ≡ false }
    requires closed { IsClosed (shares_opponent schedule.now i j) (has among) }
    ensures balance { runs_over (teams_exchanged schedule.now i j (has among)) league.now.at_most + result.before ≡
        runs_over schedule.now league.now.at_most + result.after }
    ensures within { result.before ≤ runs_over schedule.now league.now.at_most }
    ensures before_limit { result.before ≤ 2 * max_rounds }
    ensures after_limit { result.after ≤ 2 * max_rounds }
{
    prove_eq!(league.teams(), schedule.teams());
    let at_most = league.at_most();
    let rounds = schedule.rounds();
    let of_i = schedule.home_rounds(i);
    let of_j = schedule.home_rounds(j);
    let flipped = of_i.symmetric_difference(of_j).intersection(among);
    let new_i = of_i.symmetric_difference(flipped);
    let new_j = of_j.symmetric_difference(flipped);
    CountDelta {
        before: streaks_in(of_j, rounds, at_most) + streaks_in(of_i, rounds, at_most),
        after: streaks_in(new_j, rounds, at_most) + streaks_in(new_i, rounds, at_most),
    }
}
