//! A worker: it draws moves, tries them on its copy of the schedule, and proposes those that the slack lets pass.

ghost use Rattle.std.specs.Prelude.{◌≡◌, ◌+◌, ◌^◌, ◌<◌};
ghost use Rattle.league.specs.League.{teams};
ghost use Rattle.search.specs.Heard.{IsHeard, ReportsSteps};
ghost use Rattle.search.specs.Reports.{IsReport};
ghost use Rattle.search.specs.within.Steps.{IsReported, IsReportedBefore, IsScoring, generator_of, progress_with, report_with, slack_of};

mod steps;

use crate::Door;
use costs::Evaluator;
use draws::{Gate, Progress, draw};
use fixtures::Schedule;
use league::League;
use rand_pcg::Lcg64Xsh32;
use std::sync::Wait;
pub(crate) use steps::{Context, Scoring};
use steps::{Candidate, StepResult, WorkerState, least_with, refresh, step};

/// The plan of a worker.
#[derive(Clone, Copy, Debug, PartialEq, Eq)]
pub struct WorkerPlan {
    /// Its number among the workers, from 0.
    pub worker: u32,
    /// The generator's first state. The number of the worker chooses its stream.
    pub seed: u64,
    /// How many moves it draws.
    pub steps: u32,
    /// By how much the score may rise at the first step. It falls in a line, from each step to the next by one part of
    /// as many as there are steps.
    pub slack: u64,
}

/// How many proposals a worker made, and what the board answered.
#[derive(Clone, Copy, Debug, PartialEq, Eq)]
pub struct Report {
    /// The proposals in all.
    pub made: u32,
    /// The proposals that were granted.
    pub accepted: u32,
    /// The proposals that were refused, for whatever reason.
    pub refused: u32,
}

impl Report {
    /// The report with one more step.
    fn with(self, step_result: StepResult) -> Self
        requires whole { self.made ≡ self.accepted + self.refused }
        requires few { self.made + 1 < 2 ^ 32 }
        ensures { result ≡ report_with self step_result }
    {
        match step_result {
            StepResult::Nothing => self,
            StepResult::Accepted(_) => Report {
                made: self.made + 1,
                accepted: self.accepted + 1,
                ..self
            },
            StepResult::Refused | StepResult::Full => Report {
                made: self.made + 1,
                refused: self.refused + 1,
                ..self
            },
        }
    }
}

/// Looks, and takes the plan's steps, or fewer if the board gets full. The copy may be any schedule of the league's
/// teams; with another one no step is taken. The league has to be the board's own, since the claims are counted with it:
/// with another one most proposals are refused for a wrong claim. Takes no memory.
///
/// A step draws a move. If the move can be made, gives no game another round that the league keeps, and the score after it is
/// above the copy's by no more than the slack, it is made on the copy. If the board has another version than the copy by then, the move is withdrawn, and the worker
/// looks again. Otherwise the move is proposed for the copy's version, with the score as claim and with the slack. After
/// the reply the copy is the board's schedule as far as the worker can tell: if the version isn't the one that it
/// expects, it looks.
///
/// The report counts the replies that the gate heard. The steps that are reported to it add up to those that the worker took: all, unless it heard
/// that the board is full.
pub fn worker<R: Wait, D: Door, G: Gate>(
    rt: &R,
    door: &mut D,
    gate: &G,
    league: &League,
    plan: WorkerPlan,
    copy: &mut Schedule,
) -> Report
    requires { D.granted door.old < 2 ^ 62 }
    ensures report { IsReport plan.steps result }
    ensures heard { IsHeard (G.heard gate.now plan.worker) result }
    ensures reported { copy.old.teams ≡ teams league.now →
        ReportsSteps (G.was_reported gate.now plan.worker) (G.heard gate.now plan.worker) plan.steps }
    ensures counted { D.granted door.new ≡ D.granted door.old + result.accepted }
    ensures stays { D.stays door.old door.new }
    ensures other_size { ¬ (copy.old.teams ≡ teams league.now) →
        (result.made ≡ 0) × (copy.new ≡ copy.old) × (door.new ≡ door.old) }
{
    let scoring = Scoring {
        league,
        of_boards: false,
    };
    let context = Context { rt, gate, scoring };
    take_steps(context, door, plan, copy)
}

/// Takes a worker's steps, as [`worker`] says.
pub(crate) fn take_steps<R: Wait, D: Door, G: Gate>(
    context: Context<'_, R, G>,
    door: &mut D,
    plan: WorkerPlan,
    copy: &mut Schedule,
) -> Report
    requires few { D.granted door.old < 2 ^ 62 }
    requires scoring { IsScoring context.scoring.of_boards context.scoring.league.now (D.may_have door.old) }
    ensures report { IsReport plan.steps result }
    ensures heard { IsHeard (G.heard context.entry.gate.now plan.worker) result }
    ensures reported { copy.old.teams ≡ teams context.entry.scoring.league.now →
        ReportsSteps (G.was_reported context.entry.gate.now plan.worker) (G.heard context.entry.gate.now plan.worker) plan.steps }
    ensures counted { D.granted door.new ≡ D.granted door.old + result.accepted }
    ensures stays { D.stays door.old door.new }
    ensures other_size { ¬ (copy.old.teams ≡ teams context.entry.scoring.league.now) →
        (result.made ≡ 0) × (copy.new ≡ copy.old) × (door.new ≡ door.old) }
{
    let mut report = Report {
        made: 0,
        accepted: 0,
        refused: 0,
    };
    let teams = context.scoring.league.teams();
    if copy.teams() == teams {
        let mut generator = generator_of(plan);
        let mut state = WorkerState {
            copy_cost: refresh(context.rt, door, context.scoring, copy),
            evaluator: Evaluator::new(context.scoring.league),
        };
        let mut progress = Progress {
            steps: 0,
            least: least_with(None, state.copy_cost.cost),
        };
        context.gate.begun(context.rt, plan.worker);
        for s in 0..plan.steps {
            let candidate = Candidate {
                worker: plan.worker,
                made: report.made,
                slack: slack_at(plan, s),
                mv: draw(&mut generator, teams),
            };
            let step_result = step(context, door, copy, &mut state, candidate);
            report = report.with(step_result);
            progress = progress_after(progress, step_result);
            if let StepResult::Full = step_result {
                break;
            }
            progress = report_when_due(context, plan.worker, progress);
        }
        report_rest(context, plan.worker, progress);
    }
    report
}

/// The generator of a worker, which has the stream of its number.
fn generator_of(plan: WorkerPlan) -> Lcg64Xsh32
    ensures { result ≡ generator_of plan.seed plan.worker }
{
    Lcg64Xsh32::new(plan.seed, u64::from(plan.worker))
}

/// How far the worker is after one more step.
fn progress_after(progress: Progress, step_result: StepResult) -> Progress
    requires { progress.steps + 1 < 2 ^ 32 }
    ensures { result ≡ progress_with progress step_result }
{
    let least = match step_result {
        StepResult::Accepted(cost) => least_with(progress.least, cost),
        _ => progress.least,
    };
    Progress {
        steps: progress.steps + 1,
        least,
    }
}

/// Reports to the gate how far the worker is, if that is due. What was reported is not reported again.
fn report_when_due<R: Wait, G: Gate>(
    context: Context<'_, R, G>,
    worker: u32,
    progress: Progress,
) -> Progress
    ensures { IsReportedBefore (G.was_reported context.entry.gate.now worker) progress result }
{
    if progress.steps < context.gate.pause() {
        return progress;
    }
    context.gate.reported(context.rt, worker, progress);
    Progress {
        steps: 0,
        ..progress
    }
}

/// Reports to the gate how far the worker is at its end, if it took a step since it last reported.
fn report_rest<R: Wait, G: Gate>(context: Context<'_, R, G>, worker: u32, progress: Progress)
    ensures { IsReported (G.was_reported context.entry.gate.now worker) progress }
{
    if 0 < progress.steps {
        context.gate.reported(context.rt, worker, progress);
    }
}

/// The slack of a step, from 0.
fn slack_at(plan: WorkerPlan, s: u32) -> u64
    requires { s < plan.steps }
    ensures { result ≡ slack_of plan.slack plan.steps s }
{
    let steps = u64::from(plan.steps);
    let left = u64::from(plan.steps - s);
    // the slack times the steps left may need 128 bits, and its quotient and remainder need 64 each
    plan.slack / steps * left + plan.slack % steps * left / steps
}
