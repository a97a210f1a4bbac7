//! Rules that a change around some teams leaves as they are.

ghost use Rattle.std.specs.Prelude.{◌≡◌, ◌<◌, ◌||◌};
ghost use Rattle.league.specs.Limits.{max_teams};
ghost use Rattle.league.specs.Sets.{has};
ghost use Rattle.rules.specs.LooksPast.{has_team_outside, has_game_of, takes_all_or_none, looks_past};

use league::{GameList, Pairing, Rule, RuleBody, TeamSet};

/// Whether the rule looks at the games of none of these teams, and counts as opponents all of them or none. A change
/// in which only they get other games, and other teams meet one of them in place of another, then leaves a schedule
/// as far from the rule as it was ([`nothing_to_alter`](crate::nothing_to_alter)).
#[tactic(auto, unfolding(crate::specs::LooksPast::looks_past, crate::specs::Touches::has_touched_team))]
pub fn looks_past(rule: &Rule, changed: TeamSet) -> bool
    ensures { result ≡ looks_past changed rule.now.body }
{
    match &rule.body {
        RuleBody::Ca1 { teams, .. } => !teams.intersects(changed),
        RuleBody::Ca2 { teams1, teams2, .. } => {
            !teams1.intersects(changed) && takes_all_or_none(changed, *teams2)
        }
        RuleBody::Ca3 { teams1, teams2, .. } => {
            !teams1.intersects(changed) && takes_all_or_none(changed, *teams2)
        }
        RuleBody::Ca4 { teams1, teams2, .. } => {
            !teams1.intersects(changed) && takes_all_or_none(changed, *teams2)
        }
        RuleBody::Ga1 { games, .. } => !has_game_of(games, changed),
        RuleBody::Br1 { teams, .. } => !teams.intersects(changed),
        RuleBody::Br2 { teams, .. } => !teams.intersects(changed),
        RuleBody::Se1 { teams, .. } => !teams.intersects(changed),
        RuleBody::Fa2 { teams, .. } => !teams.intersects(changed),
    }
}

/// Whether the opponents have all of the teams, or none of them.
#[tactic(auto, unfolding(crate::specs::LooksPast::takes_all_or_none, crate::specs::Touches::has_touched_team))]
pub(crate) fn takes_all_or_none(teams: TeamSet, opponents: TeamSet) -> bool
    ensures { result ≡ takes_all_or_none teams opponents }
{
    !teams.intersects(opponents) || !has_team_outside(teams, opponents)
}

/// Whether one of the teams isn't in the set.
fn has_team_outside(teams: TeamSet, set: TeamSet) -> bool
    ensures { result ≡ has_team_outside teams (has set) }
{
    let outside = teams.difference(set);
    outside.intersects(teams)
}

/// Whether a team of one of the games is in the set.
#[tactic(auto, using(crate::proofs::counted::GameCounts::IsPair_game), unfolding(crate::specs::LooksPast::has_game_of))]
fn has_game_of(games: &GameList, teams: TeamSet) -> bool
    ensures { result ≡ has_game_of games.now (has teams) }
{
    for i in 0..games.len() {
        let game = games.at(i);
        if is_game_of(game, teams) {
            return true;
        }
    }
    false
}

/// Whether a team of the game is in the set.
fn is_game_of(game: Pairing, teams: TeamSet) -> bool
    requires home { game.home < max_teams }
    requires away { game.away < max_teams }
    ensures { result ≡ (has teams game.home || has teams game.away) }
{
    teams.has(game.home) || teams.has(game.away)
}
