//! The labels of all walks from home, by their games and the team at which they end.

ghost use Rattle.std.specs.Prelude.{◌≡◌, ◌≢◌, ℕ, ◌<◌, ◌≤◌, ◌+◌, ◌*◌, length};
ghost use Rattle.sets.specs.Limits.{max_teams};
ghost use Rattle.bounds.specs.within.Tables.{IsOpponent, leg_at, walk_at, label_at, to_of, AreWalks};
ghost use Rattle.bounds.specs.within.Lengths.{table_length};

use crate::labels::Label;
use crate::limits::entry;
use crate::travellers::Traveller;

/// Writes the labels of walks with up to as many games as a trip may have.
pub(crate) fn label_walks(traveller: Traveller, legs: &[u64], labels: &mut [Label])
    requires legs { length legs.now ≡ table_length }
    requires labels { length labels.old ≡ table_length }
    ensures { AreWalks traveller.teams traveller.home traveller.most (leg_at legs.now) (walk_at labels.new) }
{
    label_first(traveller, legs, labels);
    for games in 1..traveller.most {
        label_next(traveller, games, legs, labels);
    }
}

/// The walks with one game.
fn label_first(traveller: Traveller, legs: &[u64], labels: &mut [Label])
    requires legs { length legs.now ≡ table_length }
    requires labels { length labels.old ≡ table_length }
    ensures { (j x : ℕ) → j < traveller.teams → x ≢ traveller.home →
        walk_at labels.new 1 j x ≤ leg_at legs.now traveller.home j }
{
    for j in 0..traveller.teams {
        let leg = legs[entry(j, traveller.home)];
        labels[entry(1, j)] = Label::blank().with(leg, traveller.home);
    }
}

/// The walks with one game more.
fn label_next(traveller: Traveller, games: u8, legs: &[u64], labels: &mut [Label])
    requires legs { length legs.now ≡ table_length }
    requires labels { length labels.old ≡ table_length }
    requires games { games + 1 < traveller.teams }
    ensures kept { (g j : ℕ) → g ≤ games → j < max_teams → label_at labels.new g j ≡ label_at labels.old g j }
    ensures next { (j e x : ℕ) → IsOpponent traveller.teams traveller.home j → e < traveller.teams → j ≢ e → x ≢ j →
        walk_at labels.new (games + 1) e x ≤ walk_at labels.old games j e + leg_at legs.now j e }
{
    for end in 0..traveller.teams {
        labels[entry(games + 1, end)] = label_of_next(traveller, games, end, legs, labels);
    }
}

/// Of the walks with one game more that end at this team.
fn label_of_next(traveller: Traveller, games: u8, end: u8, legs: &[u64], labels: &[Label]) -> Label
    requires legs { length legs.now ≡ table_length }
    requires labels { length labels.now ≡ table_length }
    requires games { games < max_teams }
    requires end { end < traveller.teams }
    ensures { (j x : ℕ) → IsOpponent traveller.teams traveller.home j → j ≢ end → x ≢ j →
        to_of result x ≤ walk_at labels.now games j end + leg_at legs.now j end }
{
    let mut label = Label::blank();
    for j in 0..traveller.teams {
        if j != traveller.home && j != end {
            let walk = labels[entry(games, j)].to(end);
            label = label.with(walk.saturating_add(legs[entry(end, j)]), j);
        }
    }
    label
}
