//! The index of a league's rules.

ghost use Rattle.std.specs.Prelude.{◌≡◌, ℕ, List, length};
ghost use Rattle.league.specs.Limits.{max_teams, max_rounds};
ghost use Rattle.league.specs.Sets.{has, IsBelow};
ghost use Rattle.league.specs.declared.rule.Rule.{Rule as LeagueRule};
ghost use Rattle.rule_index.specs.Alterable.{is_alterable_at};
ghost use Rattle.rule_index.specs.Index.{IsIndexOf};
ghost use Rattle.rule_index.specs.within.Unions.{AreRulesAround, AreRulesWithin};

use crate::rows::{ROUNDS, TEAMS, TeamRules, round_rows, team_rows};
use fixtures::Touched;
use league::{League, RuleSet, SlotSet, TeamSet};
use std::marker::Model;

/// For each team and each round the rules that look at it. A change finds the rules that it can alter by its teams and rounds.
#[derive(Clone, Copy, Debug, Drop)]
pub struct RuleIndex {
    teams: [TeamRules; TEAMS],
    rounds: [RuleSet; ROUNDS],
}

impl Model for RuleIndex {
    ghost use Rattle.std.specs.Prelude.{◌≡◌, length};
    ghost use Rattle.league.specs.Limits.{max_teams, max_rounds};
    ghost use Rattle.rule_index.specs.Index.{IndexRows};

    ghost Value = { IndexRows };

    ghost view = { λ s. record { teams = s.teams; rounds = s.rounds } };

    ghost inverse = { λ v. record { teams = v.teams; rounds = v.rounds } };

    ghost invariant = { λ s. (length s.teams ≡ max_teams) × (length s.rounds ≡ max_rounds) };
}

impl RuleIndex {
    /// The index of the league's rules.
    pub fn new(league: &League) -> RuleIndex
        ensures { IsIndexOf league.now.rules result }
    {
        RuleIndex {
            teams: team_rows(league),
            rounds: round_rows(league),
        }
    }

    /// The rules whose deviation a change around the main teams in the rounds can alter: those that don't look past these teams
    /// ([`looks_past`](rules::looks_past)) and look at one of the rounds ([`looks_at_round`](rules::looks_at_round)). Any other rule
    /// keeps its deviation ([`nothing_else_alters`](crate::nothing_else_alters)).
    pub fn alterable(&self, main: Touched) -> RuleSet
        ensures members { (rules : List LeagueRule) → IsIndexOf rules self.now →
            (i : ℕ) → has result i ≡ is_alterable_at rules main.teams main.rounds i }
        ensures below { (rules : List LeagueRule) → IsIndexOf rules self.now → IsBelow (length rules) result }
    {
        let around = self.around(main.teams);
        let among_others = around.opponent.intersection(around.stranger);
        around
            .own
            .union(among_others)
            .intersection(self.within(main.rounds))
    }

    /// The rules of each kind that look at one of the teams.
    fn around(&self, teams: TeamSet) -> TeamRules
        ensures found { (rules : List LeagueRule) → IsIndexOf rules self.now → AreRulesAround rules teams result }
        ensures below { IsBelow max_teams teams }
    {
        let mut own = RuleSet::empty();
        let mut opponent = RuleSet::empty();
        let mut stranger = RuleSet::empty();
        for team in teams {
            let row = self.teams[usize::from(team)];
            own = own.union(row.own);
            opponent = opponent.union(row.opponent);
            stranger = stranger.union(row.stranger);
        }
        TeamRules {
            own,
            opponent,
            stranger,
        }
    }

    /// The rules that look at one of the rounds.
    fn within(&self, rounds: SlotSet) -> RuleSet
        ensures found { (rules : List LeagueRule) → IsIndexOf rules self.now → AreRulesWithin rules rounds result }
        ensures below { IsBelow max_rounds rounds }
    {
        let mut found = RuleSet::empty();
        for round in rounds {
            let row = self.rounds[usize::from(round)];
            found = found.union(row);
        }
        found
    }
}
