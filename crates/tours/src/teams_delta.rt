//! The change of the travel by an exchange of two teams, predicted on the schedule before it.

ghost use Rattle.std.specs.Prelude.{◌≡◌, ◌≢◌, ◌+◌, ◌*◌, ◌<◌, ◌≤◌, false};
ghost use Rattle.league.specs.League.{teams};
ghost use Rattle.league.specs.Limits.{max_rounds, max_distance};
ghost use Rattle.league.specs.Sets.{has};
ghost use Rattle.fixtures.specs.Games.{round_of};
ghost use Rattle.fixtures.specs.Edits.{teams_exchanged};
ghost use Rattle.fixtures.specs.Closed.{IsClosed, shares_opponent};
ghost use Rattle.tours.specs.Tours.{travel};

mod exchange;
mod own;
mod visits;

use crate::clip::rounds_in;
use crate::delta::TravelDelta;
use exchange::TeamExchange;
use fixtures::Schedule;
use league::{League, SlotSet};

/// The legs that change if teams `i` and `j` are exchanged in the games of the rounds of the set. In none of them the
/// two meet, and if one of them meets a team in a round of the set, so does the other.
pub(crate) fn legs_of_teams(
    schedule: &Schedule,
    league: &League,
    i: u8,
    j: u8,
    among: SlotSet,
) -> TravelDelta
    requires same { teams league.now ≡ schedule.now.teams }
    requires i { i < schedule.now.teams }
    requires j { j < schedule.now.teams }
    requires distinct { i ≢ j }
    requires first_out { has among (round_of schedule.now i j) ≡ false }
    requires second_out { has among (round_of schedule.now j i) ≡ false }
    requires closed { IsClosed (shares_opponent schedule.now i j) (has among) }
    ensures balance { travel league.now (teams_exchanged schedule.now i j (has among)) + result.before ≡
        travel league.now schedule.now + result.after }
    ensures before_limit { result.before ≤ (8 * max_rounds + 2) * max_distance }
    ensures after_limit { result.after ≤ (8 * max_rounds + 2) * max_distance }
{
    prove_eq!(league.teams(), schedule.teams());
    let exchange = TeamExchange {
        schedule,
        league,
        i,
        j,
        rounds: rounds_in(schedule, among),
    };
    let own = exchange.own_legs();
    let of_i = exchange.guests_legs(i);
    let of_j = exchange.guests_legs(j);
    TravelDelta {
        before: own.before + (of_j.before + of_i.before),
        after: own.after + (of_j.after + of_i.after),
    }
}
