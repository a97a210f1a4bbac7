//! A run: workers in threads, on one shared board.

ghost use Rattle.std.specs.Prelude.{◌≡◌, ◌<◌, [], Some, length, slice_index_or, All, IfOk, IfErr, IsTrue};
ghost use Rattle.std.specs.List.{range_with_len};
ghost use Rattle.league.specs.League.{teams};
ghost use Rattle.shared_board.specs.Setting.{board_at};
ghost use Rattle.search.specs.Outcomes.{Credits, IsAlike, IsOutcome, IsRefusal, IsWorkers};
ghost use Rattle.search.specs.Heard.{AreOf, IsOfWorker};
ghost use Rattle.search.specs.declared.runs.RunFault.TheVariants.{Receipts};
ghost use Rattle.search.specs.within.RunParts.{HasRoom, IsFresh};
ghost use Rattle.search.specs.Reports.{IsReport};
ghost use Rattle.search.specs.declared.workers.Report.{Report};

mod buffers;
mod threads;

use crate::workers::{Context, Report, Scoring};
use buffers::RunBuffers;
use choices::{MAX_WORKERS, SearchPlan};
use draws::{Gate, NoGate, RunContext};
use fixture_board::Board;
use league::League;
use shared_board::{Closed, Seat, Shared};
use std::alloc::Global;
use std::marker::Model;
use std::sync::Wait;
use std::thread::Threads;
use thiserror::Error;
use threads::{Handle, Run, accepted_in, gather, launch, seat_all};

/// The reports of a run's workers, in their order. Contracts see the list.
#[derive(Drop)]
pub struct Reports {
    reports: Vec<Report>,
}

impl Model for Reports {
    ghost use Rattle.std.specs.Prelude.{List};
    ghost use Rattle.search.specs.declared.workers.Report.{Report};

    ghost Value = { List Report };

    ghost view = { λ r. r.reports.items };
}

impl Reports {
    /// How many workers there were.
    pub fn len(&self) -> usize
        ensures { result ≡ length self.now }
    {
        self.reports.len()
    }

    /// The report of a worker, from 0.
    pub fn at(&self, worker: usize) -> Report
        requires { worker < length self.now }
        ensures { (d : Report) → result ≡ slice_index_or self.now worker d }
    {
        self.reports[worker]
    }
}

/// The outcome of a run.
#[derive(Drop)]
pub struct Outcome {
    /// The board after the run, with each accepted change in its history.
    pub board: Board,
    /// One for each worker, in their order.
    pub reports: Reports,
    /// The plan of the run.
    pub plan: SearchPlan,
}

/// Why a run came to nothing.
#[derive(Clone, Copy, Debug, PartialEq, Eq, Error)]
pub enum RunFault {
    /// The number of workers is not 1 to 16.
    #[error("the number of workers is not 1 to 16")]
    Workers,
    /// A worker couldn't be started. Those that were started ended first.
    #[error("a worker could not be started")]
    Spawn,
    /// The accepted proposals of the reports are not the board's entries.
    #[error("the reports do not add up to the board's history")]
    Receipts,
    /// Memory ran out before the first worker was started.
    #[error("out of memory")]
    Memory,
}

/// Why a run came to nothing, and the board. After Workers and Memory it is as it was, or there is none if the shared
/// board itself got no memory.
#[derive(Drop)]
pub struct RunRefused {
    /// The fault.
    pub why: RunFault,
    /// The board, if there is one.
    pub board: Option<Board>,
}

/// Has the plan's workers search on the board, each in a thread of its own. The league has to be the board's own: with
/// another one most proposals are refused for a wrong claim.
pub fn run<R: Threads + Wait + Sync>(
    rt: &R,
    alloc: Global,
    league: &League,
    board: Board,
    plan: SearchPlan,
) -> Result<Outcome, RunRefused>
    requires { board.history ≡ [] }
    ensures done { IfOk result (IsOutcome plan board) }
    ensures refused { IfErr result (IsRefusal plan board) }
{
    let gate = &NoGate;
    run_with(RunContext { rt, alloc, gate }, league, board, plan)
}

/// As `run`, in a run's context, whose gate the workers pass. The league has to be the board's own here too. Each report counts the replies
/// that the gate heard to all proposals of its worker, and each step is reported to the gate, if the league has as many teams as the board's.
pub fn run_with<R: Threads + Wait + Sync, G: Gate + Sync>(
    run_context: RunContext<'_, R, G>,
    league: &League,
    board: Board,
    plan: SearchPlan,
) -> Result<Outcome, RunRefused>
    requires { board.history ≡ [] }
    ensures done { IfOk result (IsOutcome plan board) }
    ensures heard { IfOk result (λ o. AreOf (IsOfWorker (G.heard run_context.entry.gate.now) (G.was_reported run_context.entry.gate.now)
        (teams board.league ≡ teams league.now) plan.steps) (range_with_len 0 plan.workers) o.reports) }
    ensures refused { IfErr result (IsRefusal plan board) }
{
    let RunContext { rt, alloc, gate } = run_context;
    let (buffers, board) = buffers_for(alloc, board, plan)?;
    let of_boards = league.is_same(board.league());
    let scoring = Scoring { league, of_boards };
    let Ok((shared, seat)) = Shared::new(alloc, board) else {
        let why = RunFault::Memory;
        return Err(RunRefused { why, board: None });
    };
    let context = Context { rt, gate, scoring };
    search(context, shared, seat, buffers, plan)
}

/// The buffers of a plan, beside the board. If there are none, the board comes back as it was.
fn buffers_for<H: Drop>(
    alloc: Global,
    board: Board,
    plan: SearchPlan,
) -> Result<(RunBuffers<H>, Board), RunRefused>
    ensures buffers { IfOk result (λ r. HasRoom (teams board.league) plan.workers r.0) }
    ensures same { IfOk result (λ r. r.1 ≡ board) }
    ensures workers { IfOk result (λ _. IsWorkers plan) }
    ensures refused { IfErr result (IsRefusal plan board) }
    ensures back { IfErr result (λ e. e.board ≡ Some board) }
{
    if plan.workers < 1 || MAX_WORKERS < plan.workers {
        let why = RunFault::Workers;
        let board = Some(board);
        return Err(RunRefused { why, board });
    }
    match RunBuffers::new(alloc, board.schedule(), plan.workers) {
        Ok(buffers) => Ok((buffers, board)),
        Err(_) => {
            let why = RunFault::Memory;
            let board = Some(board);
            Err(RunRefused { why, board })
        }
    }
}

/// Has the workers search on a shared board that has no other seat yet, and closes it.
fn search<R: Threads + Wait + Sync, G: Gate + Sync>(
    context: Context<'_, R, G>,
    shared: Shared,
    mut seat: Seat,
    buffers: RunBuffers<Handle<G>>,
    plan: SearchPlan,
) -> Result<Outcome, RunRefused>
    requires seat { IsFresh shared seat }
    requires scoring { IsTrue context.scoring.of_boards → seat.setting.league ≡ context.scoring.league.now }
    requires buffers { HasRoom (teams seat.setting.league) plan.workers buffers }
    requires workers { IsWorkers plan }
    ensures done { IfOk result (IsOutcome plan (board_at seat.setting [])) }
    ensures heard { IfOk result (λ o. AreOf (IsOfWorker (G.heard context.entry.gate.now) (G.was_reported context.entry.gate.now)
        (teams seat.setting.league ≡ teams context.entry.scoring.league.now) plan.steps) (range_with_len 0 plan.workers) o.reports) }
    ensures refused { IfErr result (IsRefusal plan (board_at seat.setting [])) }
{
    let rt = context.rt;
    let RunBuffers {
        copies,
        inputs,
        handles,
        reports,
    } = buffers;
    let Ok(inputs) = seat_all(rt, &shared, &mut seat, copies, inputs) else {
        let why = RunFault::Spawn;
        let board = Some(shared.close(rt, seat).board);
        return Err(RunRefused { why, board });
    };
    let run = Run {
        context,
        shared: &shared,
        plan,
    };
    let (all, handles) = launch(run, inputs, handles);
    let reports = gather(run, &mut seat, handles, reports);
    let closed = shared.close(rt, seat);
    if !all {
        let why = RunFault::Spawn;
        let board = Some(closed.board);
        return Err(RunRefused { why, board });
    }
    conclude(plan, closed, reports)
}

/// The outcome, if the board is whole and the accepted proposals of the reports are its entries.
fn conclude(plan: SearchPlan, closed: Closed, reports: Vec<Report>) -> Result<Outcome, RunRefused>
    requires workers { IsWorkers plan }
    requires many { length reports.items ≡ plan.workers }
    requires each { All (IsReport plan.steps) reports.items }
    requires credits { IsTrue closed.whole → Credits reports.items closed.board.history }
    ensures done { IfOk result (IsOutcome plan closed.board) }
    ensures reports { IfOk result (λ o. o.reports ≡ reports.items) }
    ensures refused { IfErr result (λ e. (e.why ≡ Receipts) × IsAlike closed.board e.board) }
{
    let accepted = accepted_in(&reports);
    let Closed { board, whole } = closed;
    if !whole || accepted != board.version() {
        let why = RunFault::Receipts;
        let board = Some(board);
        return Err(RunRefused { why, board });
    }
    let reports = Reports { reports };
    Ok(Outcome {
        board,
        reports,
        plan,
    })
}
