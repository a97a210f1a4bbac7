//! The games that the breaches of rules name.

ghost use Rattle.std.specs.Prelude.{◌≡◌, ◌&&◌, ◌||◌, ◌==◌, ◌<◌, ◌≤◌, ℕ, nat_lt, false, IfOk, OnOk};
ghost use Rattle.std.specs.List.{list_any};
ghost use Rattle.league.specs.League.{teams};
ghost use Rattle.league.specs.Limits.{max_rounds, max_teams};
ghost use Rattle.league.specs.RuleLimits.{IsBodyFor};
ghost use Rattle.league.specs.Sets.{has};
ghost use Rattle.fixtures.specs.Games.{round_count};
ghost use Rattle.report_breaches.specs.Cells.{is_marked, names, names_cell};
ghost use Rattle.report_page.specs.within.BrokenGames.{has_game, is_of, may_name, AreBroken};

use fixtures::Schedule;
use league::limits::MAX_TEAMS;
use league::{League, Rule, RuleBody, SlotSet};
use report_breaches::{Breach, Place, breaches_of, names_cell};
use std::alloc::{AllocError, Global};
use std::marker::Model;

const ROWS: usize = MAX_TEAMS as usize;

/// A set of games of teams, each of a team and a round. Contracts see the rounds of each team.
#[derive(Drop)]
pub(crate) struct BrokenGames {
    rounds: [SlotSet; ROWS],
}

impl Model for BrokenGames {
    ghost use Rattle.std.specs.Prelude.{List, ℕ};

    ghost Value = { List ℕ };

    ghost view = { λ games. games.rounds };
}

impl BrokenGames {
    /// Whether the team's game in the round is in the set.
    pub(crate) fn has(&self, team: u8, round: u8) -> bool
        requires team { team < max_teams }
        requires round { round < max_rounds }
        ensures { result ≡ has_game self.now team round }
    {
        self.rounds[usize::from(team)].has(round)
    }

    fn none() -> Self
        ensures { (t r : ℕ) → has_game result t r ≡ false }
    {
        BrokenGames {
            rounds: [SlotSet::empty(); ROWS],
        }
    }

    /// Adds the team's games in the rounds.
    fn add(&mut self, team: u8, rounds: SlotSet)
        requires { team < max_teams }
        ensures { (t r : ℕ) → has_game self.new t r ≡ ((t == team && has rounds r) || has_game self.old t r) }
    {
        let row = self.rounds[usize::from(team)].union(rounds);
        self.rounds[usize::from(team)] = row;
    }

    /// Adds the games that breaches of the rule name.
    fn add_rule(
        &mut self,
        alloc: Global,
        schedule: &Schedule,
        rule: &Rule,
    ) -> Result<(), AllocError>
        requires { IsBodyFor schedule.now.teams rule.now.body }
        ensures { OnOk result ((t r : ℕ) → t < schedule.now.teams → r < round_count schedule.now.teams →
            has_game self.new t r ≡ (has_game self.old t r || is_marked schedule.now rule.now.body t r)) }
    {
        let breaches = breaches_of(alloc, schedule, rule)?;
        for team in 0..schedule.teams() {
            self.add(team, rounds_named(schedule, &rule.body, &breaches, team));
        }
        Ok(())
    }
}

/// The games that the breaches of the league's rules name.
pub(crate) fn broken_games(
    alloc: Global,
    league: &League,
    schedule: &Schedule,
) -> Result<BrokenGames, AllocError>
    requires { schedule.now.teams ≡ teams league.now }
    ensures { IfOk result (λ games. AreBroken league.now schedule.now games) }
{
    let mut games = BrokenGames::none();
    for i in 0..league.rule_count() {
        games.add_rule(alloc, schedule, league.rule(i))?;
    }
    Ok(games)
}

/// The rounds of the team's games that one of the breaches names.
fn rounds_named(schedule: &Schedule, body: &RuleBody, breaches: &[Breach], team: u8) -> SlotSet
    requires body { IsBodyFor schedule.now.teams body.now }
    requires team { team < schedule.now.teams }
    ensures { (r : ℕ) → r < round_count schedule.now.teams →
        has result r ≡ list_any (names schedule.now body.now team r) breaches.now }
{
    let mut rounds = SlotSet::empty();
    let mut rest = breaches;
    while let [breach, later @ ..] = rest {
        rounds = rounds.union(rounds_at(schedule, body, breach.place, team));
        rest = later;
    }
    rounds
}

/// Whether a breach at the place can name a game of the team.
fn may_name(body: &RuleBody, place: Place, team: u8) -> bool
    ensures { result ≡ may_name body.now place team }
{
    match body {
        RuleBody::Ga1 { .. } | RuleBody::Br2 { .. } => true,
        _ => is_of(place, team),
    }
}

/// Whether games of the team are at the place.
fn is_of(place: Place, team: u8) -> bool
    ensures { result ≡ is_of place team }
{
    match place {
        Place::GamesOf { team: of }
        | Place::BreaksOf { team: of }
        | Place::Window { team: of, .. } => team == of,
        Place::Round { .. } | Place::Together | Place::GamesOver | Place::GamesUnder => true,
        Place::Pair { low, high } => team == low || team == high,
        Place::PairIn { .. } => false,
    }
}

/// The rounds of the team's games that a breach at the place names.
fn rounds_at(schedule: &Schedule, body: &RuleBody, place: Place, team: u8) -> SlotSet
    requires body { IsBodyFor schedule.now.teams body.now }
    requires team { team < schedule.now.teams }
    ensures { (r : ℕ) → r < round_count schedule.now.teams → has result r ≡ names_cell schedule.now body.now place team r }
{
    let mut rounds = SlotSet::empty();
    if !may_name(body, place, team) {
        return rounds;
    }
    for round in 0..schedule.rounds() {
        if names_cell(schedule, body, place, team, round) {
            rounds = rounds.with(round);
        }
    }
    rounds
}
