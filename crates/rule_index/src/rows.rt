//! The rules that look at a team, and those that look at a round.

ghost use Rattle.std.specs.Prelude.{◌≡◌, ℕ, ◌<◌, ◌&&◌, ◌||◌, ◌==◌, length};
ghost use Rattle.league.specs.Limits.{max_teams, max_rounds, max_rules};
ghost use Rattle.league.specs.Sets.{has};
ghost use Rattle.rule_index.specs.Index.{opponents_of, has_opponent, has_stranger, IsTeamRow, IsRoundRow, AreTeamRows, AreRoundRows};

use league::limits::{MAX_ROUNDS, MAX_TEAMS};
use league::{League, Rule, RuleBody, RuleSet, SlotSet, TeamSet};
use rules::{looks_at_round, looks_past};

/// A row for each of the most teams, whatever a league's size.
pub(crate) const TEAMS: usize = MAX_TEAMS as usize;

/// And for each of the most rounds.
pub(crate) const ROUNDS: usize = MAX_ROUNDS as usize;

/// The rules that look at a team.
#[derive(Clone, Copy, Debug, Drop)]
pub(crate) struct TeamRules {
    /// The rules that look at the team's games.
    pub(crate) own: RuleSet,
    /// The rules that count games against some opponents, of which it is one.
    pub(crate) opponent: RuleSet,
    /// The rules that count games against some opponents, of which it is none.
    pub(crate) stranger: RuleSet,
}

impl TeamRules {
    /// No rules.
    fn none() -> Self {
        TeamRules {
            own: RuleSet::empty(),
            opponent: RuleSet::empty(),
            stranger: RuleSet::empty(),
        }
    }
}

/// The rows of all teams.
pub(crate) fn team_rows(league: &League) -> [TeamRules; TEAMS]
    ensures count { length result ≡ max_teams }
    ensures rows { AreTeamRows league.now.rules result }
{
    let mut rows = [TeamRules::none(); TEAMS];
    for team in 0..MAX_TEAMS {
        rows[usize::from(team)] = team_row(league, team);
    }
    rows
}

/// The rows of all rounds.
pub(crate) fn round_rows(league: &League) -> [RuleSet; ROUNDS]
    ensures count { length result ≡ max_rounds }
    ensures rows { AreRoundRows league.now.rules result }
{
    let mut rows = [RuleSet::empty(); ROUNDS];
    for round in 0..MAX_ROUNDS {
        rows[usize::from(round)] = round_row(league, round);
    }
    rows
}

/// A rule looks at the team's games if it doesn't look past the team alone.
fn team_row(league: &League, team: u8) -> TeamRules
    requires { team < max_teams }
    ensures { IsTeamRow league.now.rules team result }
{
    let alone = TeamSet::empty().with(team);
    let mut own = RuleSet::empty();
    let mut opponent = RuleSet::empty();
    let mut stranger = RuleSet::empty();
    for i in 0..league.rule_count() {
        let rule = league.rule(i);
        own = with_if(own, i, !looks_past(rule, alone));
        opponent = with_if(opponent, i, has_opponent(rule, team));
        stranger = with_if(stranger, i, has_stranger(rule, team));
    }
    TeamRules {
        own,
        opponent,
        stranger,
    }
}

fn round_row(league: &League, round: u8) -> RuleSet
    requires { round < max_rounds }
    ensures { IsRoundRow league.now.rules round result }
{
    let alone = SlotSet::empty().with(round);
    let mut found = RuleSet::empty();
    for i in 0..league.rule_count() {
        let rule = league.rule(i);
        found = with_if(found, i, looks_at_round(rule, alone));
    }
    found
}

/// The set with the rule added, if it belongs there.
fn with_if(rules: RuleSet, rule: usize, belongs: bool) -> RuleSet
    requires { rule < max_rules }
    ensures { (r : ℕ) → has result r ≡ ((r == rule && belongs) || has rules r) }
{
    if belongs { rules.with(rule) } else { rules }
}

/// Whether the team is one of the opponents against which the rule counts games.
#[tactic(auto, unfolding(crate::specs::Index::has_opponent))]
fn has_opponent(rule: &Rule, team: u8) -> bool
    requires { team < max_teams }
    ensures { result ≡ has_opponent team rule.now.body }
{
    match opponents(rule) {
        Some(opponents) => opponents.has(team),
        None => false,
    }
}

/// Whether the rule counts games against some opponents, and the team is none of them.
#[tactic(auto, unfolding(crate::specs::Index::has_stranger))]
fn has_stranger(rule: &Rule, team: u8) -> bool
    requires { team < max_teams }
    ensures { result ≡ has_stranger team rule.now.body }
{
    match opponents(rule) {
        Some(opponents) => !opponents.has(team),
        None => false,
    }
}

/// The opponents against which the rule counts games, if its class has some.
fn opponents(rule: &Rule) -> Option<TeamSet>
    ensures { result ≡ opponents_of rule.now.body }
{
    match &rule.body {
        RuleBody::Ca2 { teams2, .. } => Some(*teams2),
        RuleBody::Ca3 { teams2, .. } => Some(*teams2),
        RuleBody::Ca4 { teams2, .. } => Some(*teams2),
        _ => None,
    }
}
