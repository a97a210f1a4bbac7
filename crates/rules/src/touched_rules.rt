//! Which rules a change can touch.

ghost use Rattle.std.specs.Prelude.{◌≡◌};
ghost use Rattle.league.specs.Sets.{has};
ghost use Rattle.rules.specs.Touches.{has_touched_slot, has_touched_round, has_touched_game, has_touched_until};
ghost use Rattle.rules.specs.Touches.{or_before, looks_at_team, looks_at_round, touches};
ghost use Rattle.rules.specs.Parts.{lacks_one, tells_apart, can_alter};

use fixtures::Touched;
use league::limits::MAX_ROUNDS;
use league::{GameList, Rule, RuleBody, SlotSet, TeamSet};

/// Whether a change of these cells can alter how far a schedule is from the rule: the rule looks at a touched team
/// in a touched round. If it is false, schedules that differ in these cells alone are equally far from the rule
/// ([`untouched_stays`](crate::untouched_stays)).
#[tactic(auto, unfolding(crate::specs::Touches::touches))]
pub fn touches(rule: &Rule, touched: Touched) -> bool
    ensures { result ≡ touches rule.now.body (has touched.teams) (has touched.rounds) }
{
    looks_at_team(rule, touched.teams) && looks_at_round(rule, touched.rounds)
}

/// Whether the rule looks at games of the teams.
#[tactic(auto, unfolding(crate::specs::Touches::looks_at_team, crate::specs::Touches::has_touched_team))]
fn looks_at_team(rule: &Rule, teams: TeamSet) -> bool
    ensures { result ≡ looks_at_team rule.now.body (has teams) }
{
    match &rule.body {
        RuleBody::Ca1 { teams: own, .. } => own.intersects(teams),
        RuleBody::Ca2 { teams1, .. } => teams1.intersects(teams),
        RuleBody::Ca3 { teams1, .. } => teams1.intersects(teams),
        RuleBody::Ca4 { teams1, .. } => teams1.intersects(teams),
        RuleBody::Ga1 { games, .. } => has_touched_game(games, teams),
        RuleBody::Br1 { teams: own, .. } => own.intersects(teams),
        RuleBody::Br2 { teams: own, .. } => own.intersects(teams),
        RuleBody::Se1 { teams: own, .. } => own.intersects(teams),
        RuleBody::Fa2 { teams: own, .. } => own.intersects(teams),
    }
}

/// Whether the rule looks at one of the rounds.
#[tactic(auto, unfolding(crate::specs::Touches::looks_at_round, crate::specs::Touches::has_touched_slot))]
pub fn looks_at_round(rule: &Rule, rounds: SlotSet) -> bool
    ensures { result ≡ looks_at_round rule.now.body (has rounds) }
{
    match &rule.body {
        RuleBody::Ca1 { slots, .. } => slots.intersects(rounds),
        RuleBody::Ca2 { slots, .. } => slots.intersects(rounds),
        RuleBody::Ca3 { .. } => has_touched_round(rounds),
        RuleBody::Ca4 { slots, .. } => slots.intersects(rounds),
        RuleBody::Ga1 { slots, .. } => slots.intersects(rounds),
        RuleBody::Br1 { slots, .. } => has_touched_break(*slots, rounds),
        RuleBody::Br2 { slots, .. } => has_touched_break(*slots, rounds),
        RuleBody::Se1 { .. } => has_touched_round(rounds),
        RuleBody::Fa2 { slots, .. } => has_touched_until(*slots, rounds),
    }
}

/// Whether a change in the rounds can alter how far a schedule is from the rule.
#[inline]
#[tactic(auto, unfolding(crate::specs::Parts::can_alter))]
pub(crate) fn can_alter(rule: &Rule, rounds: SlotSet) -> bool
    ensures { result ≡ can_alter rule.now.body (has rounds) }
{
    looks_at_round(rule, rounds) && tells_apart(rule, rounds)
}

/// Whether the rule tells the rounds apart: one that counts games in all slots together does if the slots lack one of them.
#[tactic(auto, unfolding(crate::specs::Parts::tells_apart))]
fn tells_apart(rule: &Rule, rounds: SlotSet) -> bool
    ensures { result ≡ tells_apart rule.now.body (has rounds) }
{
    match &rule.body {
        RuleBody::Ca1 { slots, .. } => lacks_one(*slots, rounds),
        RuleBody::Ca2 { slots, .. } => lacks_one(*slots, rounds),
        RuleBody::Ca4 { slots, each, .. } => *each || lacks_one(*slots, rounds),
        RuleBody::Ga1 { slots, .. } => lacks_one(*slots, rounds),
        _ => true,
    }
}

/// Whether the slots lack one of the rounds.
fn lacks_one(slots: SlotSet, rounds: SlotSet) -> bool
    ensures { result ≡ lacks_one slots (has rounds) }
{
    let lacked = rounds.difference(slots);
    lacked.intersects(rounds)
}

/// Whether any round is touched.
#[tactic(auto, unfolding(crate::specs::Touches::has_touched_round))]
fn has_touched_round(touched: SlotSet) -> bool
    ensures { result ≡ has_touched_round (has touched) }
{
    SlotSet::below(MAX_ROUNDS).intersects(touched)
}

/// Whether one of the slots is touched, or the round before it.
#[tactic(auto, unfolding(crate::specs::Touches::has_touched_slot))]
fn has_touched_break(slots: SlotSet, touched: SlotSet) -> bool
    ensures { result ≡ has_touched_slot slots (or_before (has touched)) }
{
    slots.intersects(touched.with_next_below(MAX_ROUNDS))
}

/// Whether a round up to one of the slots is touched: if one of the slots isn't before the first touched round.
fn has_touched_until(slots: SlotSet, touched: SlotSet) -> bool
    ensures { result ≡ has_touched_until slots (has touched) }
{
    match touched.into_iter().next() {
        Some(first) => {
            let earlier = SlotSet::below(first);
            SlotSet::below(MAX_ROUNDS)
                .difference(earlier)
                .intersects(slots)
        }
        None => false,
    }
}

/// Whether the home team of one of the games is touched.
#[tactic(auto, using(crate::proofs::counted::GameCounts::IsPair_game), unfolding(crate::specs::Touches::has_touched_game))]
fn has_touched_game(games: &GameList, touched: TeamSet) -> bool
    ensures { result ≡ has_touched_game games.now (has touched) }
{
    for i in 0..games.len() {
        let game = games.at(i);
        if touched.has(game.home) {
            return true;
        }
    }
    false
}
