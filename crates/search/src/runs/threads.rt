//! The threads of a run: their seats, their start, and what comes back from them.

ghost use Rattle.std.specs.Prelude.{◌≡◌, ◌+◌, ◌≤◌, [], length, map, All, IfOk, IfSome, vec_len, vec_capacity};
ghost use Rattle.std.specs.List.{range_with_len};
ghost use Rattle.std.specs.List.Sorted.{IsStrictlyIncreasing};
ghost use Rattle.search.specs.within.RunParts.{AreStarted, CanStart, InputIn, IsBack, IsFresh, IsHandle, IsOfInput, IsWorkerInput};
ghost use Rattle.search.specs.within.RunParts.{IsScoringFor, handle_input, handle_number, input_copy, input_number, input_worker, plan_of};
ghost use Rattle.search.specs.Outcomes.{AreCredited, accepted_in};
ghost use Rattle.search.specs.Heard.{AreOf};
ghost use Rattle.search.specs.Reports.{IsReport};

use crate::SeatDoor;
use crate::workers::{Context, Report, Scoring, WorkerPlan, take_steps};
use choices::SearchPlan;
use draws::Gate;
use fixtures::Schedule;
use league::League;
use shared_board::{Seat, Shared, SplitFault};
use std::snapshot::Snapshot;
use std::sync::Wait;
use std::thread::{Promise, PromisedHandle, Scope, Threads};
use std::{mem, thread};

/// The parts of a run that its threads share.
#[derive_where(Clone, Copy)]
pub(crate) struct Run<'a, R, G> {
    pub(crate) context: Context<'a, R, G>,
    pub(crate) shared: &'a Shared,
    pub(crate) plan: SearchPlan,
}

/// The input of a worker's thread.
#[derive(Drop)]
pub(crate) struct WorkerInput {
    worker: u32,
    seat: Seat,
    copy: Schedule,
}

/// The report and the seat that a worker's thread gives back.
#[derive(Drop)]
pub(crate) struct Ended {
    report: Report,
    seat: Seat,
}

/// The promise of a worker's thread: it works by the plan and the input that it was given, and its report counts the replies that the
/// gate heard.
pub(crate) struct WorkerTask<G> {
    plan: SearchPlan,
    input: Snapshot<WorkerInput>,
    league: Snapshot<League>,
    gate: Snapshot<G>,
}

impl<G: Gate> Promise<Ended> for WorkerTask<G> {
    ghost use Rattle.search.specs.within.RunParts.{IsBack};

    ghost kept_by = { λ p e. IsBack (G.heard p.gate.value) (G.was_reported p.gate.value) p.league.value p.plan p.input.value e.report e.seat };
}

impl<G> Drop for WorkerTask<G> {
    fn drop(self) {
        let WorkerTask {
            plan: _,
            input: _,
            league: _,
            gate: _,
        } = self;
    }
}

pub(crate) type Handle<G> = PromisedHandle<Ended, WorkerTask<G>>;

/// An input for each copy, in the order of the workers. Each seat is split from the one before, so their numbers rise. The
/// last one stays with the run.
pub(crate) fn seat_all<R: Wait>(
    rt: &R,
    shared: &Shared,
    seat: &mut Seat,
    copies: Vec<Schedule>,
    mut inputs: Vec<WorkerInput>,
) -> Result<Vec<WorkerInput>, SplitFault>
    requires seat { IsFresh shared.now seat.old }
    requires none { inputs.items ≡ [] }
    requires room { vec_len copies ≤ vec_capacity inputs }
    requires few { vec_len copies ≤ 16 }
    ensures table { seat.new.table ≡ shared.now }
    ensures setting { seat.new.setting ≡ seat.old.setting }
    ensures workers { IfOk result (λ v. map input_worker v.items ≡ range_with_len 0 (vec_len copies)) }
    ensures copies { IfOk result (λ v. map input_copy v.items ≡ copies.items) }
    ensures in_setting { IfOk result (λ v. All (InputIn seat.old.setting) v.items) }
    ensures inputs { IfOk result (λ v. All (IsWorkerInput shared.now) v.items) }
    ensures many { IfOk result (λ v. vec_len v ≡ vec_len copies) }
    ensures rising { IfOk result (λ v. IsStrictlyIncreasing (map input_number v.items)) }
{
    for copy in copies {
        let worker = inputs.len() as u32;
        let next = shared.split(rt, seat)?;
        let input = WorkerInput {
            worker,
            seat: mem::replace(seat, next),
            copy,
        };
        inputs.push_reserved(input);
    }
    Ok(inputs)
}

/// Starts a thread for each input, until one can't be started, and waits until all that were started have ended. Tells
/// whether all were.
pub(crate) fn launch<R: Threads + Wait + Sync, G: Gate + Sync>(
    run: Run<'_, R, G>,
    inputs: Vec<WorkerInput>,
    handles: Vec<Handle<G>>,
) -> (bool, Vec<Handle<G>>)
    requires { CanStart run.context.scoring.of_boards run.context.scoring.league.now run.shared.now inputs handles }
    ensures { AreStarted run.entry.context.gate.now run.entry.context.scoring.league.now run.entry.plan run.entry.shared.now inputs result.0 result.1 }
{
    thread::scope(
        thread::scope_env(),
        run.context.rt,
        move |scope| -> (bool, Vec<Handle<G>>)
            requires { CanStart run.context.scoring.of_boards run.context.scoring.league.now run.shared.now inputs handles }
            ensures { AreStarted run.entry.context.gate.now run.entry.context.scoring.league.now run.entry.plan run.entry.shared.now inputs result.0 result.1 }
        { start_all(scope, run, inputs, handles) },
    )
}

/// Starts a thread for each input, until one can't be started. Tells whether all were.
fn start_all<'s, E, R: Wait + Sync, G: Gate + Sync>(
    scope: &Scope<'s, E>,
    run: Run<'s, R, G>,
    inputs: Vec<WorkerInput>,
    mut handles: Vec<Handle<G>>,
) -> (bool, Vec<Handle<G>>)
    requires { CanStart run.context.scoring.of_boards run.context.scoring.league.now run.shared.now inputs handles }
    ensures { AreStarted run.entry.context.gate.now run.entry.context.scoring.league.now run.entry.plan run.entry.shared.now inputs result.0 result.1 }
{
    for input in inputs {
        let Some(handle) = start(scope, run, input) else {
            return (false, handles);
        };
        handles.push_reserved(handle);
    }
    (true, handles)
}

/// Starts a worker's thread. If that fails, its seat is lost.
fn start<'s, E, R: Wait + Sync, G: Gate + Sync>(
    scope: &Scope<'s, E>,
    run: Run<'s, R, G>,
    input: WorkerInput,
) -> Option<Handle<G>>
    requires fresh { IsWorkerInput run.shared.now input }
    requires scoring { IsScoringFor run.context.scoring.of_boards run.context.scoring.league.now input }
    ensures handle { IfSome result (IsHandle run.entry.context.gate.now run.entry.context.scoring.league.now run.entry.plan run.entry.shared.now) }
    ensures input { IfSome result (λ h. handle_input h ≡ input) }
{
    let Run {
        context,
        shared,
        plan,
    } = run;
    let Context { rt, gate, scoring } = context;
    let Scoring { league, of_boards } = scoring;
    let given = WorkerTask {
        plan,
        input: Snapshot::of(&input),
        league: Snapshot::of(league),
        gate: Snapshot::of(gate),
    };
    // what the thread promises is proved of captured references, not of a captured record of them
    scope
        .spawn_with(
            given,
            move || -> Ended
                requires fresh { IsWorkerInput shared.now input }
                requires scoring { IsScoringFor of_boards league.now input }
                ensures { IsBack (G.heard gate.entry.now) (G.was_reported gate.entry.now) league.entry.now plan input result.report result.seat }
            {
                let scoring = Scoring { league, of_boards };
                let context = Context { rt, gate, scoring };
                let run = Run {
                    context,
                    shared,
                    plan,
                };
                work(run, input)
            },
        )
        .ok()
}

fn work<R: Wait, G: Gate>(run: Run<'_, R, G>, input: WorkerInput) -> Ended
    requires fresh { IsWorkerInput run.shared.now input }
    requires scoring { IsScoringFor run.context.scoring.of_boards run.context.scoring.league.now input }
    ensures { IsBack (G.heard run.entry.context.gate.now) (G.was_reported run.entry.context.gate.now)
        run.entry.context.scoring.league.now run.entry.plan input result.report result.seat }
{
    let Run {
        context,
        shared,
        plan,
    } = run;
    let plan = plan_of(plan, &input);
    let WorkerInput { seat, mut copy, .. } = input;
    let mut door = SeatDoor { shared, seat };
    let report = take_steps(context, &mut door, plan, &mut copy);
    let SeatDoor { shared: _, seat } = door;
    Ended { report, seat }
}

fn plan_of(plan: SearchPlan, input: &WorkerInput) -> WorkerPlan
    ensures { result ≡ plan_of plan input.now.worker }
{
    WorkerPlan {
        worker: input.worker,
        seed: plan.seed,
        steps: plan.steps,
        slack: plan.slack,
    }
}

/// Takes in the seats of the threads, tells the gate that all have ended, and gives their reports, in order.
pub(crate) fn gather<R: Threads + Wait, G: Gate>(
    run: Run<'_, R, G>,
    seat: &mut Seat,
    handles: Vec<Handle<G>>,
    mut reports: Vec<Report>,
) -> Vec<Report>
    requires table { seat.old.table ≡ run.shared.now }
    requires handles { All (IsHandle run.context.gate.now run.context.scoring.league.now run.plan run.shared.now) handles.items }
    requires none { reports.items ≡ [] }
    requires room { vec_len handles ≤ vec_capacity reports }
    ensures table { seat.new.table ≡ run.entry.shared.now }
    ensures setting { seat.new.setting ≡ seat.old.setting }
    ensures many { vec_len result ≡ vec_len handles }
    ensures each { All (IsReport run.entry.plan.steps) result.items }
    ensures heard { AreOf (IsOfInput (G.heard run.entry.context.gate.now) (G.was_reported run.entry.context.gate.now)
        run.entry.context.scoring.league.now run.entry.plan) (map handle_input handles.items) result.items }
    ensures credits { AreCredited (map handle_number handles.items) result.items seat.new.seen }
{
    for handle in handles {
        let ended = handle.join(run.context.rt);
        prove!(ended.report.made <= run.plan.steps);
        run.shared.absorb(seat, ended.seat);
        reports.push_reserved(ended.report);
    }
    run.context.gate.ended(run.context.rt);
    reports
}

/// How many proposals were accepted in all.
pub(crate) fn accepted_in(reports: &[Report]) -> u64
    requires { length reports.now ≤ 16 }
    ensures { result ≡ accepted_in reports.now }
{
    reports.iter().map(|r| u64::from(r.accepted)).sum()
}
