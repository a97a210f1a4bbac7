//! Tries of moves, as a search makes them: a move that can be made is kept if the score rises by no more than the slack.
//! Otherwise the schedule is as it was, and the move counts as withdrawn.

ghost use Rattle.std.specs.Prelude.{◌≡◌, ◌≤◌};
ghost use Rattle.costs.specs.Evaluators.{IsEvaluatorAt};
ghost use Rattle.league.specs.League.{teams};
ghost use Rattle.league.specs.Limits.{max_teams};
ghost use Rattle.search.specs.within.Steps.{IsCopyCost};

use crate::kind::Kind;
use crate::plan::Plan;
use costs::{Attempt, Cost, Evaluator, Weights, cost_of, make_within};
use draws::draw;
use fixtures::Schedule;
use league::League;
use league::limits::round_count;
use moves::{Move, check, exchange};
use rand_pcg::Lcg64Xsh32;
use std::fmt;
use std::fmt::Write;

/// The state that the generator starts with.
pub const SEED: u64 = 1;

/// Which moves are tried.
#[derive(Clone, Copy, Debug, PartialEq, Eq)]
pub enum Tried {
    /// Moves as a search draws them.
    Drawn,
    /// The moves of a kind, in its order.
    Of(Kind),
}

impl Tried {
    pub const ALL: [Tried; 6] = [
        Tried::Drawn,
        Tried::Of(Kind::Homes),
        Tried::Of(Kind::Rounds),
        Tried::Of(Kind::Teams),
        Tried::Of(Kind::PartRounds),
        Tried::Of(Kind::PartTeams),
    ];

    /// The move of a try.
    fn nth(self, generator: &mut Lcg64Xsh32, index: u32, teams: u8) -> Move
        requires two { 2 ≤ teams }
        requires most { teams ≤ max_teams }
    {
        match self {
            Tried::Drawn => draw(generator, teams),
            Tried::Of(kind) => kind.nth(index, teams, round_count(teams)),
        }
    }
}

impl fmt::Display for Tried {
    fn fmt<W: Write>(&self, f: &mut fmt::Formatter<W>) -> fmt::Result {
        match self {
            Tried::Drawn => f.write_str("drawn"),
            Tried::Of(kind) => write!(f, "{kind}"),
        }
    }
}

/// The results of the tries.
#[derive(Clone, Copy, Debug, Default, PartialEq, Eq)]
pub struct Tries {
    pub kept: u32,
    pub withdrawn: u32,
    pub refused: u32,
}

/// The cost and the score of the schedule.
#[derive(Clone, Copy)]
struct Known {
    cost: Cost,
    score: u64,
}

/// A move, and by how much the score may rise with it.
#[derive(Clone, Copy)]
struct Trial {
    mv: Move,
    slack: u64,
}

/// The result of one try.
enum TryEnd {
    Kept,
    Withdrawn,
    Refused,
}

/// Tries so many moves. They are the same at each call, since the generator is.
#[inline(never)]
pub fn try_moves(schedule: &mut Schedule, league: &League, tried: Tried, plan: Plan) -> Tries
    requires { teams league.now ≡ schedule.old.teams }
{
    let teams = schedule.teams();
    let mut generator = Lcg64Xsh32::new(SEED, 0);
    let cost = cost_of(schedule, league);
    let score = cost.score(league);
    let mut known = Known { cost, score };
    let mut evaluator = Evaluator::new(league);
    let mut kept = 0;
    let mut withdrawn = 0;
    for index in 0..plan.count {
        let trial = Trial {
            mv: tried.nth(&mut generator, index, teams),
            slack: plan.slack_at(index),
        };
        match try_move(schedule, league, &mut evaluator, trial, &mut known) {
            TryEnd::Kept => kept += 1,
            TryEnd::Withdrawn => withdrawn += 1,
            TryEnd::Refused => {}
        }
    }
    Tries {
        kept,
        withdrawn,
        refused: plan.count - kept - withdrawn,
    }
}

/// Tries a move on a schedule of known cost.
fn try_move(
    schedule: &mut Schedule,
    league: &League,
    evaluator: &mut Evaluator,
    trial: Trial,
    known: &mut Known,
) -> TryEnd
    requires same_size { teams league.now ≡ schedule.old.teams }
    requires evaluator { IsEvaluatorAt league.now schedule.old evaluator.old }
    requires known { IsCopyCost league.now schedule.old known.old.cost known.old.score }
    ensures evaluator { IsEvaluatorAt league.now schedule.new evaluator.new }
    ensures same_size { schedule.new.teams ≡ schedule.old.teams }
    ensures known { IsCopyCost league.now schedule.new known.new.cost known.new.score }
{
    let Trial { mv, slack } = trial;
    if check(schedule, mv).is_err() {
        return TryEnd::Refused;
    }
    let exchange = exchange(schedule, mv);
    let attempt = Attempt {
        exchange: &exchange,
        known: known.cost,
        weights: Weights::alike(league.hard_weight()),
        limit: known.score.saturating_add(slack),
    };
    let Some(cost) = make_within(schedule, league, evaluator, &attempt) else {
        return TryEnd::Withdrawn;
    };
    let score = cost.score(league);
    *known = Known { cost, score };
    TryEnd::Kept
}
