//! Sets of numbers from 0.

use league::limits::{MAX_ROUNDS, MAX_TEAMS};
use league::{SlotSet, TeamSet};

/// The set of these teams, without those that are none.
pub(crate) fn teams_of(teams: &[u8]) -> TeamSet {
    let mut set = TeamSet::empty();
    for &team in teams {
        if team < MAX_TEAMS {
            set = set.with(team);
        }
    }
    set
}

/// The set of these rounds, without those that are none.
pub(crate) fn rounds_of(rounds: &[u8]) -> SlotSet {
    let mut set = SlotSet::empty();
    for &round in rounds {
        if round < MAX_ROUNDS {
            set = set.with(round);
        }
    }
    set
}
