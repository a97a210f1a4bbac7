//! CA4: at most so many games of all the teams, against some opponents, in each of some rounds or in all of them.

ghost use Rattle.std.specs.Prelude.{◌≡◌, ℕ, nat_lt, IfSome};
ghost use Rattle.league.specs.Sets.{has, IsBelow};
ghost use Rattle.league.specs.Sums.{sum_where};
ghost use Rattle.league.specs.declared.rule.RuleBody.TheVariants as RuleBody;
ghost use Rattle.fixtures.specs.Games.{round_count, IsDoubleRoundRobin};
ghost use Rattle.rules.specs.Deviations.{over, games_in_round, deviation};
ghost use Rattle.rules.specs.Parts.{changing_terms};

use crate::around::{Around, teams_otherwise};
use crate::counted_games::{
    CountedGames, games_in_round, games_of_team, games_on_side, number_of, over, rounds_on_side,
};
use crate::round_numbers::RoundNumbers;
use fixtures::Schedule;
use league::{SlotSet, TeamSet};

/// Up to so many slots are counted one by one, which takes fewer instructions there.
const FEW_SLOTS: u32 = 6;

/// At most so many games in some slots: in each of them, or in all of them together.
#[derive(Clone, Copy, Drop)]
pub(crate) struct Capacity {
    pub slots: SlotSet,
    pub each: bool,
    pub most: u32,
}

impl Capacity {
    pub(crate) fn new(slots: SlotSet, each: bool, most: u32) -> Self
        ensures { result ≡ record { slots = slots; each = each; most = most } }
    {
        Capacity { slots, each, most }
    }
}

/// The games of all the teams that count, over the most: in each of the slots, or in all of them together.
pub(crate) fn ca4(schedule: &Schedule, games: &CountedGames, capacity: &Capacity) -> u64
    requires round_robin { IsDoubleRoundRobin schedule.now }
    requires teams { IsBelow schedule.now.teams games.now.teams }
    requires slots { IsBelow (round_count schedule.now.teams) capacity.now.slots }
    ensures { result ≡ deviation schedule.now (RuleBody.Ca4 games.now.teams games.now.side games.now.opponents
        capacity.now.slots capacity.now.each capacity.now.most) }
{
    if capacity.each {
        over_in_slots(schedule, games, capacity.slots, capacity.most)
    } else {
        over(games_of_all(schedule, games, capacity.slots), capacity.most)
    }
}

/// The part of `ca4` that the change can alter: all of it over all slots together, if one of the teams may have other games.
pub(crate) fn ca4_part(
    schedule: &Schedule,
    games: &CountedGames,
    change: &Around,
    capacity: &Capacity,
    known: Option<u64>,
) -> u64
    requires round_robin { IsDoubleRoundRobin schedule.now }
    requires teams { IsBelow schedule.now.teams games.now.teams }
    requires slots { IsBelow (round_count schedule.now.teams) capacity.now.slots }
    requires known { IfSome known (λ whole. whole ≡
        deviation schedule.now (RuleBody.Ca4 games.now.teams games.now.side games.now.opponents
        capacity.now.slots capacity.now.each capacity.now.most)) }
    ensures { result ≡ changing_terms schedule.now change.now.main change.now.rounds change.now.sides
        (RuleBody.Ca4 games.now.teams games.now.side games.now.opponents
        capacity.now.slots capacity.now.each capacity.now.most) }
{
    let otherwise = teams_otherwise(schedule, change, games.teams, games.opponents);
    if !otherwise.intersects(games.teams) {
        return 0;
    }
    if capacity.each {
        let slots = capacity.slots.intersection(change.rounds);
        return over_in_slots(schedule, games, slots, capacity.most);
    }
    match known {
        Some(whole) => whole,
        None => over(games_of_all(schedule, games, capacity.slots), capacity.most),
    }
}

/// The games of all the teams that count in each of the slots, over the most.
fn over_in_slots(schedule: &Schedule, games: &CountedGames, slots: SlotSet, most: u32) -> u64
    requires round_robin { IsDoubleRoundRobin schedule.now }
    requires teams { IsBelow schedule.now.teams games.now.teams }
    requires slots { IsBelow (round_count schedule.now.teams) slots }
    ensures { result ≡
        sum_where (round_count schedule.now.teams) (has slots)
        (λ r. over (games_in_round schedule.now games.now.side (has games.now.teams)
        (has games.now.opponents) r) most) }
{
    if slots.len() > FEW_SLOTS && games.opponents == TeamSet::below(schedule.teams()) {
        return over_in_many_slots(schedule, games, slots, most);
    }
    let mut total = 0;
    for round in slots {
        total += over(games_in_round(schedule, games, round), most);
    }
    total
}

/// Counts all the slots at once, team by team, if all teams are opponents.
fn over_in_many_slots(schedule: &Schedule, games: &CountedGames, slots: SlotSet, most: u32) -> u64
    requires round_robin { IsDoubleRoundRobin schedule.now }
    requires teams { IsBelow schedule.now.teams games.now.teams }
    requires slots { IsBelow (round_count schedule.now.teams) slots }
    requires opponents { (t : ℕ) → has games.now.opponents t ≡ nat_lt t schedule.now.teams }
    ensures { result ≡
        sum_where (round_count schedule.now.teams) (has slots)
        (λ r. over (games_in_round schedule.now games.now.side (has games.now.teams)
        (has games.now.opponents) r) most) }
{
    if most >= schedule.teams().into() {
        return 0;
    }
    // a slot's number is over 64 by as much as its games are over the most
    let mut numbers = RoundNumbers::new(slots, 64 - most as u8);
    for team in games.teams {
        numbers.add(rounds_on_side(schedule, games.side, team).intersection(slots));
    }
    numbers.over_64()
}

/// How many games of the teams count in the slots.
fn games_of_all(schedule: &Schedule, games: &CountedGames, slots: SlotSet) -> u32
    requires round_robin { IsDoubleRoundRobin schedule.now }
    requires teams { IsBelow schedule.now.teams games.now.teams }
    ensures { result ≡
        sum_where (round_count schedule.now.teams) (has slots) (games_in_round schedule.now games.now.side
        (has games.now.teams) (has games.now.opponents)) }
{
    if games.opponents == TeamSet::below(schedule.teams()) {
        return games_on_sides(schedule, games, slots);
    }
    let opponents = number_of(schedule, games.opponents);
    let mut count = 0;
    for team in games.teams {
        count += games_of_team(schedule, games, opponents, slots, team);
    }
    count
}

/// Counts the windows if all teams are opponents.
fn games_on_sides(schedule: &Schedule, games: &CountedGames, slots: SlotSet) -> u32
    requires round_robin { IsDoubleRoundRobin schedule.now }
    requires teams { IsBelow schedule.now.teams games.now.teams }
    requires opponents { (t : ℕ) → has games.now.opponents t ≡ nat_lt t schedule.now.teams }
    ensures { result ≡
        sum_where (round_count schedule.now.teams) (has slots) (games_in_round schedule.now games.now.side
        (has games.now.teams) (has games.now.opponents)) }
{
    let mut count = 0;
    for team in games.teams {
        count += games_on_side(schedule, games, slots, team);
    }
    count
}
