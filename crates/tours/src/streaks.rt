//! Long stretches at home or away: the runs of a report.

ghost use Rattle.std.specs.Prelude.{◌≡◌, ℕ, ◌+◌, ◌*◌, ◌<◌, ◌≤◌, ◌&&◌, nat_lt};
ghost use Rattle.league.specs.League.{teams};
ghost use Rattle.league.specs.Limits.{max_teams, max_rounds};
ghost use Rattle.league.specs.Sets.{has, IsBelow};
ghost use Rattle.league.specs.Sums.{sum_where, count_where};
ghost use Rattle.fixtures.specs.Games.{Games, round_count, IsDoubleRoundRobin};
ghost use Rattle.tours.specs.Streaks.{windows, is_streak, streaks_of, runs_over};
ghost use Rattle.tours.specs.Parts.{runs_part};
ghost use Rattle.tours.specs.within.Delta.{HasHomes, HasStreaks};

use crate::clip::teams_in;
use fixtures::{Schedule, Touched};
use league::limits::MAX_ROUNDS;
use league::{League, SlotSet, TeamSet};

/// How many windows of consecutive rounds, one more than the league allows, a team spends at home throughout or
/// away throughout, summed over the teams. There is no window if it would be longer than the season.
pub fn runs_over(schedule: &Schedule, league: &League) -> u64
    requires same { teams league.now ≡ schedule.now.teams }
    ensures value { result ≡ runs_over schedule.now league.now.at_most }
    ensures limit { result ≤ max_teams * max_rounds }
{
    let at_most = league.at_most();
    let all = TeamSet::below(schedule.teams());
    let starts = SlotSet::below(schedule.rounds());
    streaks_from(schedule, at_most, all, starts)
}

/// The streaks of touched teams that have a touched round in their window.
pub fn runs_part(schedule: &Schedule, league: &League, touched: Touched) -> u64
    requires same { teams league.now ≡ schedule.now.teams }
    ensures value { result ≡ runs_part schedule.now league.now.at_most (has touched.teams) (has touched.rounds) }
    ensures limit { result ≤ max_teams * max_rounds }
{
    streaks_near(schedule, league.at_most(), touched.teams, touched.rounds)
}

fn streaks_near(schedule: &Schedule, at_most: u8, set: TeamSet, rounds: SlotSet) -> u64
    requires least { 1 ≤ at_most }
    requires limit { at_most ≤ max_rounds }
    ensures value { result ≡ runs_part schedule.now at_most (has set) (has rounds) }
    ensures limit { result ≤ max_teams * max_rounds }
{
    let among = teams_in(schedule, set);
    let starts = rounds.starts_meeting(at_most + 1);
    streaks_from(schedule, at_most, among, starts)
}

/// The windows of one round more than `at_most`, with these first rounds, that teams of the set spend at home
/// throughout or away throughout.
fn streaks_from(schedule: &Schedule, at_most: u8, among: TeamSet, starts: SlotSet) -> u64
    requires least { 1 ≤ at_most }
    requires limit { at_most ≤ max_rounds }
    requires round_robin { IsDoubleRoundRobin schedule.now }
    requires below { IsBelow schedule.now.teams among }
    ensures value { result ≡ sum_where schedule.now.teams (has among) (λ t.
        count_where (windows schedule.now (at_most + 1)) (λ first. has starts first &&
        is_streak schedule.now t first (at_most + 1))) }
    ensures limit { result ≤ max_teams * max_rounds }
{
    let mut total = 0;
    for team in among {
        total += streaks_of_team(schedule, at_most, starts, team);
    }
    total
}

fn streaks_of_team(schedule: &Schedule, at_most: u8, starts: SlotSet, team: u8) -> u64
    requires least { 1 ≤ at_most }
    requires limit { at_most ≤ max_rounds }
    requires team { team < schedule.now.teams }
    ensures value { result ≡
        count_where (windows schedule.now (at_most + 1)) (λ first. has starts first &&
        is_streak schedule.now team first (at_most + 1)) }
    ensures limit { result ≤ max_rounds }
{
    prove!(schedule.rounds() <= MAX_ROUNDS);
    let streaks = windows_spent(schedule, at_most + 1, team);
    // most teams have none, and a test takes fewer instructions than a count
    if streaks.intersects(starts) {
        let counted = streaks.intersection(starts);
        u64::from(counted.len())
    } else {
        0
    }
}

/// How many streaks a team has that is at home in these rounds of a season.
pub(crate) fn streaks_in(home: SlotSet, rounds: u8, at_most: u8) -> u64
    requires least { 1 ≤ at_most }
    requires limit { at_most ≤ max_rounds }
    requires season { rounds ≤ max_rounds }
    ensures value { (g : Games) (t : ℕ) → round_count g.teams ≡ rounds → HasHomes g t home → result ≡ streaks_of g at_most t }
    ensures limit { result ≤ max_rounds }
{
    let streaks = streak_starts(home, rounds, at_most + 1);
    // most have none, and a test takes fewer instructions than a count
    if streaks == SlotSet::empty() {
        0
    } else {
        u64::from(streaks.len())
    }
}

/// The first rounds of the windows of so many consecutive rounds that a team spends at home throughout or away throughout.
pub fn windows_spent(schedule: &Schedule, length: u8, team: u8) -> SlotSet
    requires least { 2 ≤ length }
    requires limit { length ≤ max_rounds + 1 }
    requires team { team < schedule.now.teams }
    ensures { (first : ℕ) → has result first ≡
        (nat_lt first (windows schedule.now length) && is_streak schedule.now team first length) }
{
    streak_starts(schedule.home_rounds(team), schedule.rounds(), length)
}

/// The first rounds of the windows of so many rounds that a team spends at home throughout or away throughout, if it is at
/// home in these rounds of a season.
fn streak_starts(home: SlotSet, rounds: u8, length: u8) -> SlotSet
    requires least { 2 ≤ length }
    requires limit { length ≤ max_rounds + 1 }
    requires season { rounds ≤ max_rounds }
    ensures members { (g : Games) (t : ℕ) → round_count g.teams ≡ rounds → HasHomes g t home → HasStreaks g t length result }
{
    let like_next = home.like_next_below(rounds);
    // each round of a streak but the last is as the next one is
    like_next.starts_within(length - 1)
}
