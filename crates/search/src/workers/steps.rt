//! One step of a worker.

ghost use Rattle.std.specs.Prelude.{◌≡◌, ◌+◌, ◌^◌, ◌<◌, MatchOption};
ghost use Rattle.league.specs.League.{teams};
ghost use Rattle.costs.specs.Evaluators.{IsEvaluatorAt};
ghost use Rattle.fixtures.specs.Exchanges.{exchanged_by, IsExchange};
ghost use Rattle.search.specs.within.Steps.{IsAllowedExchange, IsAnswered, IsCopyCost, IsLeftOut, IsProposed, IsScoring};
ghost use Rattle.search.specs.within.Steps.{IsResultOf, accepted_count, asked_of, least_with, proposal_of};

use crate::Door;
use costs::{Attempt, Cost, Evaluator, Weights, cost_of, make_within};
use draws::Gate;
use fixture_board::{Proposal, Reply, Why};
use fixtures::{Exchange, Schedule};
use league::League;
use moves::{Move, check, exchange};
use std::sync::Wait;

/// The league by which costs are counted.
#[derive(Clone, Copy)]
pub(crate) struct Scoring<'a> {
    pub(crate) league: &'a League,
    /// Each board that the door may have is known to be of this league.
    pub(crate) of_boards: bool,
}

/// The context of a worker.
#[derive_where(Clone, Copy)]
pub(crate) struct Context<'a, R, G> {
    pub(crate) rt: &'a R,
    /// The gate that its proposals pass.
    pub(crate) gate: &'a G,
    pub(crate) scoring: Scoring<'a>,
}

/// The cost of a worker's copy.
#[derive(Clone, Copy)]
pub(crate) struct CopyCost {
    /// The board's version that it is a copy of.
    pub(crate) version: u64,
    pub(crate) cost: Cost,
    pub(crate) score: u64,
}

/// The state of a worker beside its copy, from one step to the next.
#[derive(Drop)]
pub(crate) struct WorkerState {
    pub(crate) copy_cost: CopyCost,
    pub(crate) evaluator: Evaluator,
}

/// The move that a step tries, and how many proposals the worker made before.
#[derive(Clone, Copy)]
pub(crate) struct Candidate {
    pub(crate) worker: u32,
    pub(crate) made: u32,
    pub(crate) slack: u64,
    pub(crate) mv: Move,
}

/// The result of a step: no proposal, or the board's answer.
#[derive(Clone, Copy)]
pub(crate) enum StepResult {
    Nothing,
    /// Accepted, and the cost of the version that it made.
    Accepted(Cost),
    Refused,
    /// Refused, and the board's history has no room.
    Full,
}

/// An exchange that is made on the copy, and what the copy is with it.
#[derive(Clone, Copy)]
struct Proposed<'a> {
    exchange: &'a Exchange,
    cost: Cost,
    score: u64,
}

/// Looks. What the copy costs is what the look showed if the board is of this league, and is counted otherwise.
pub(crate) fn refresh<R: Wait, D: Door>(
    rt: &R,
    door: &mut D,
    scoring: Scoring<'_>,
    copy: &mut Schedule,
) -> CopyCost
    requires same_size { teams scoring.league.now ≡ copy.old.teams }
    requires scoring { IsScoring scoring.of_boards scoring.league.now (D.may_have door.old) }
    ensures same_size { copy.new.teams ≡ copy.old.teams }
    ensures copy_cost { IsCopyCost scoring.entry.league.now copy.new result.cost result.score }
    ensures counted { D.granted door.new ≡ D.granted door.old }
    ensures stays { D.stays door.old door.new }
{
    let Scoring { league, of_boards } = scoring;
    prove_eq!(league.teams(), copy.teams());
    let seen = door.look(rt, copy);
    let cost = if of_boards {
        seen.cost
    } else {
        cost_of(copy, league)
    };
    CopyCost {
        version: seen.version,
        cost,
        score: cost.score(league),
    }
}

impl WorkerState {
    ghost use Rattle.std.specs.Prelude.{◌≡◌};
    ghost use Rattle.league.specs.League.{teams};
    ghost use Rattle.costs.specs.Evaluators.{IsEvaluatorAt, IsEvaluatorOf};
    ghost use Rattle.search.specs.within.Steps.{IsCopyCost, IsScoring};

    /// Looks. What was counted of the copy before serves no more.
    fn refresh<R: Wait, D: Door>(
        &mut self,
        rt: &R,
        door: &mut D,
        scoring: Scoring<'_>,
        copy: &mut Schedule,
    )
        requires same_size { teams scoring.league.now ≡ copy.old.teams }
        requires scoring { IsScoring scoring.of_boards scoring.league.now (D.may_have door.old) }
        requires evaluator { IsEvaluatorOf scoring.league.now.rules self.old.evaluator }
        ensures same_size { copy.new.teams ≡ copy.old.teams }
        ensures copy_cost { IsCopyCost scoring.entry.league.now copy.new self.new.copy_cost.cost self.new.copy_cost.score }
        ensures evaluator { IsEvaluatorAt scoring.entry.league.now copy.new self.new.evaluator }
        ensures counted { D.granted door.new ≡ D.granted door.old }
        ensures stays { D.stays door.old door.new }
    {
        self.evaluator.forget();
        self.copy_cost = refresh(rt, door, scoring, copy);
    }
}

/// Tries a move, and proposes it if the slack lets it pass and the copy is still the board's schedule.
pub(crate) fn step<R: Wait, D: Door, G: Gate>(
    context: Context<'_, R, G>,
    door: &mut D,
    copy: &mut Schedule,
    state: &mut WorkerState,
    candidate: Candidate,
) -> StepResult
    requires same_size { teams context.scoring.league.now ≡ copy.old.teams }
    requires scoring { IsScoring context.scoring.of_boards context.scoring.league.now (D.may_have door.old) }
    requires copy_cost { IsCopyCost context.scoring.league.now copy.old state.old.copy_cost.cost state.old.copy_cost.score }
    requires evaluator { IsEvaluatorAt context.scoring.league.now copy.old state.old.evaluator }
    requires granted { D.granted door.old < 2 ^ 63 }
    ensures same_size { copy.new.teams ≡ copy.old.teams }
    ensures copy_cost { IsCopyCost context.entry.scoring.league.now copy.new state.new.copy_cost.cost state.new.copy_cost.score }
    ensures evaluator { IsEvaluatorAt context.entry.scoring.league.now copy.new state.new.evaluator }
    ensures counted { D.granted door.new ≡ D.granted door.old + accepted_count result }
    ensures heard { IsProposed result → IsAnswered (G.heard context.entry.gate.now candidate.worker candidate.made)
        (D.may_have door.old) (D.caller door.old) (D.seen door.old)
        (asked_of context.entry.scoring.league.now copy.old state.old.copy_cost.version candidate) result }
    ensures stays { D.stays door.old door.new }
{
    let Context { rt, gate, scoring } = context;
    let Some(exchange) = allowed_exchange(copy, scoring.league, candidate.mv) else {
        return StepResult::Nothing;
    };
    let attempt = Attempt {
        exchange: &exchange,
        known: state.copy_cost.cost,
        weights: Weights::alike(scoring.league.hard_weight()),
        limit: state.copy_cost.score.saturating_add(candidate.slack),
    };
    let Some(cost) = make_within(copy, scoring.league, &mut state.evaluator, &attempt) else {
        return StepResult::Nothing;
    };
    let proposed = Proposed {
        exchange: &exchange,
        cost,
        score: cost.score(scoring.league),
    };
    if door.front(rt) != state.copy_cost.version {
        exchange.make(copy);
        state.refresh(rt, door, scoring, copy);
        return StepResult::Nothing;
    }
    gate.enter(rt, candidate.worker, candidate.made);
    let reply = door.propose(rt, proposal_of(state.copy_cost, candidate, proposed.score));
    gate.left(rt, candidate.worker, candidate.made, reply);
    settle(context, door, copy, state, proposed, reply)
}

fn proposal_of(copy_cost: CopyCost, candidate: Candidate, score: u64) -> Proposal
    ensures { result ≡ proposal_of copy_cost.version candidate score }
{
    Proposal {
        version: copy_cost.version,
        mv: candidate.mv,
        claim: Some(score),
        slack: candidate.slack,
    }
}

/// The exchange that a drawn move is, unless it can't be made or would give a game another round that the league keeps.
// a call would copy the exchange, in each step
#[inline(always)]
fn allowed_exchange(copy: &Schedule, league: &League, mv: Move) -> Option<Exchange>
    requires { teams league.now ≡ copy.now.teams }
    ensures { MatchOption result (IsLeftOut league.now copy.now mv) (IsAllowedExchange league.now copy.now mv) }
{
    if let Err(_) = check(copy, mv) {
        return None;
    }
    let exchange = exchange(copy, mv);
    if exchange.moves_one_of(copy, league.kept()) {
        return None;
    }
    Some(exchange)
}

/// Keeps the move that was proposed, or withdraws it, and looks if the board has gone on.
fn settle<R: Wait, D: Door, G>(
    context: Context<'_, R, G>,
    door: &mut D,
    copy: &mut Schedule,
    state: &mut WorkerState,
    proposed: Proposed<'_>,
    reply: Reply,
) -> StepResult
    requires same_size { teams context.scoring.league.now ≡ copy.old.teams }
    requires scoring { IsScoring context.scoring.of_boards context.scoring.league.now (D.may_have door.old) }
    requires again { IsExchange copy.old proposed.exchange.now }
    requires proposed { IsCopyCost context.scoring.league.now copy.old proposed.cost proposed.score }
    requires before { IsCopyCost context.scoring.league.now (exchanged_by copy.old proposed.exchange.now) state.old.copy_cost.cost state.old.copy_cost.score }
    requires evaluator { IsEvaluatorAt context.scoring.league.now copy.old state.old.evaluator }
    ensures same_size { copy.new.teams ≡ copy.old.teams }
    ensures copy_cost { IsCopyCost context.entry.scoring.league.now copy.new state.new.copy_cost.cost state.new.copy_cost.score }
    ensures evaluator { IsEvaluatorAt context.entry.scoring.league.now copy.new state.new.evaluator }
    ensures by_reply { IsResultOf reply result }
    ensures counted { D.granted door.new ≡ D.granted door.old }
    ensures stays { D.stays door.old door.new }
{
    let Context { rt, scoring, .. } = context;
    match reply {
        Reply::Done { at, cost } => {
            if state.copy_cost.version.checked_add(1) == Some(at) {
                state.copy_cost = CopyCost {
                    version: at,
                    cost: proposed.cost,
                    score: proposed.score,
                };
            } else {
                state.refresh(rt, door, scoring, copy);
            }
            StepResult::Accepted(cost)
        }
        Reply::No { at, why } => {
            proposed.exchange.make(copy);
            state.evaluator.forget();
            if why == Why::Full {
                return StepResult::Full;
            }
            if at != state.copy_cost.version {
                state.refresh(rt, door, scoring, copy);
            }
            StepResult::Refused
        }
    }
}

/// The least total of the feasible versions so far, with one more version's cost.
pub(crate) fn least_with(least: Option<u64>, cost: Cost) -> Option<u64>
    ensures { result ≡ least_with least cost }
{
    if !cost.is_feasible() {
        return least;
    }
    let total = cost.travel.saturating_add(cost.soft);
    match least {
        Some(least) => Some(least.min(total)),
        None => Some(total),
    }
}
