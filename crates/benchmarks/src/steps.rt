//! Steps of one worker of a search.

ghost use Rattle.search.specs.within.RunParts.{IsFresh};

use crate::plan::Plan;
use crate::tries::SEED;
use draws::NoGate;
use fixture_board::Board;
use fixtures::Schedule;
use league::League;
use search::{OwnDoor, Report, SeatDoor, WorkerPlan, worker};
use std::sync::Wait;

/// The steps of a worker that has the board for itself.
#[inline(never)]
pub fn own_steps<R: Wait>(
    rt: &R,
    league: &League,
    board: Board,
    copy: &mut Schedule,
    plan: Plan,
) -> Report {
    let mut door = OwnDoor {
        board,
        caller: 0,
        dones: 0,
    };
    worker(rt, &mut door, &NoGate, league, worker_plan(plan), copy)
}

/// The steps of a worker with the only seat of a shared board.
pub fn seat_steps<R: Wait>(
    rt: &R,
    league: &League,
    mut door: SeatDoor<'_>,
    copy: &mut Schedule,
    plan: Plan,
) -> Report
    requires { IsFresh door.shared.now door.seat }
{
    worker(rt, &mut door, &NoGate, league, worker_plan(plan), copy)
}

fn worker_plan(plan: Plan) -> WorkerPlan {
    WorkerPlan {
        worker: 0,
        seed: SEED,
        steps: plan.count,
        slack: u64::from(plan.slack),
    }
}
