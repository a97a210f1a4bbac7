//! The improvement of a league's schedule.

ghost use Rattle.std.specs.Prelude.{◌≡◌, ◌+◌, ◌<◌, ◌≤◌, ◌^◌, List, [], ◌∷◌, All, IfOk, OnOk, IfNone, IfSome, None};
ghost use Rattle.policy.specs.Limits.{max_effort};
ghost use Rattle.byte_streams.specs.declared.buffered.BufferedSink.{BufferedSink};
ghost use Rattle.byte_streams.specs.Writing.{Writes, waiting_in};
ghost use Rattle.league.specs.League.{IsLeague, teams};
ghost use Rattle.draws.specs.Draws.{AreRoundsOf};
ghost use Rattle.improvement.specs.Legs.{IsWorkers, LegRun, room_of};
ghost use Rattle.improvement.specs.within.Chains.{IsInLeague};
ghost use Rattle.improvement.specs.within.Lines.{CanEnd, IsLine, IsRunning, left_in, assigned_steps};
ghost use Rattle.improvement.specs.Outcome.{Improves};
ghost use Rattle.improvement.specs.within.Settings.{IsSetting};
ghost use Rattle.improvement.specs.within.UnderWay.{EndsBy, HasTold, HasWritten, IsUnderWay, end_text, run_of};

use crate::broken::write_broken;
use crate::field::Entrant;
use crate::leg_text::write_leg;
use crate::legs::{Assignment, RunningLeg};
use crate::line::LegQueue;
use crate::plan::{ImproveFault, ImprovePlan};
use crate::reported::Reported;
use crate::reported_leg::ReportedLeg;
use crate::rounds::free_rounds;
use crate::setting::{Setting, start_board};
use crate::watcher::{LegEnded, Watcher, Written};
use annealing::{Annealed, measure};
use board_texts::write_improved;
use byte_streams::{BufferedSink, Sink, WriteFault};
use draws::{Gate, RunContext};
use fixture_board::{Best, Board};
use league::League;
use std::alloc::AllocError;
use std::snapshot::Snapshot;
use std::sync::Wait;
use std::thread;
use std::thread::{Scope, Threads};

/// Runs the legs of the policy on chains of the league, and writes each better schedule as soon as it is known. The legs pass the
/// run context's gate, and report to it how far they are. Each leg that has ended is reported to the watcher. Answers with the best version of
/// the history that leads in the end.
pub fn improve<T: Threads + Wait + Sync, G: Gate + Sync, W: Sink, V: Watcher<W> + Drop>(
    run_context: RunContext<'_, T, G>,
    league: League,
    plan: ImprovePlan,
    sink: &mut W,
    watcher: V,
) -> Result<Option<Best>, ImproveFault>
    requires least { 1 ≤ plan.effort }
    requires most { plan.effort ≤ max_effort }
    ensures { Improves W.held W.tally league plan sink.old sink.new result }
{
    let start = start_board(run_context.alloc, league, plan)?;
    improve_from(run_context, &start, plan, sink, watcher)
}

/// Improves from a board at the league's start.
fn improve_from<T: Threads + Wait + Sync, G: Gate + Sync, W: Sink, V: Watcher<W> + Drop>(
    run_context: RunContext<'_, T, G>,
    start: &Board,
    plan: ImprovePlan,
    sink: &mut W,
    watcher: V,
) -> Result<Option<Best>, ImproveFault>
    requires league { IsLeague start.now.league }
    requires room { start.now.room ≡ room_of plan.effort }
    requires workers { IsWorkers plan }
    requires effort { plan.effort ≤ max_effort }
    ensures { Improves W.held W.tally start.now.league plan sink.old sink.new result }
{
    let unit = measure(run_context.alloc, start.league())?;
    let rounds = free_rounds(run_context.alloc, start)?;
    let setting = Setting {
        run_context,
        plan,
        unit,
        rounds: &rounds,
        start,
    };
    let (ended, sink) = in_scope(&setting, sink, watcher);
    take_back(sink);
    ended
}

/// Improves in a scope of threads, which all have ended in the end. The sink comes back, since no contract says what is written behind a
/// reference in a scope.
fn in_scope<'w, T: Threads + Wait + Sync, G: Gate + Sync, W: Sink, V: Watcher<W> + Drop>(
    setting: &Setting<'_, T, G>,
    sink: &'w mut W,
    watcher: V,
) -> (Result<Option<Best>, ImproveFault>, &'w mut W)
    requires setting { IsSetting setting.now }
    ensures same { result.1.ghost_name ≡ sink.entry.ghost_name }
    ensures ended { Improves W.held W.tally setting.now.start.now.league setting.now.plan sink.entry.now result.1.now result.0 }
{
    thread::scope(
        thread::scope_env(),
        setting.run_context.rt,
        move |scope| -> (Result<Option<Best>, ImproveFault>, &mut W)
            requires setting { IsSetting setting.now }
            ensures same { result.1.ghost_name ≡ sink.entry.ghost_name }
            ensures ended { Improves W.held W.tally setting.entry.now.start.now.league setting.entry.now.plan sink.entry.now result.1.now result.0 }
        { within(scope, *setting, sink, watcher) },
    )
}

/// Improves within a scope.
fn within<'s, 'w, E, T: Threads + Wait + Sync, G: Gate + Sync, W: Sink, V: Watcher<W> + Drop>(
    scope: &Scope<'s, E>,
    setting: Setting<'s, T, G>,
    sink: &'w mut W,
    mut watcher: V,
) -> (Result<Option<Best>, ImproveFault>, &'w mut W)
    requires setting { IsSetting setting }
    ensures same { result.1.ghost_name ≡ sink.entry.ghost_name }
    ensures ended { Improves W.held W.tally setting.entry.start.now.league setting.entry.plan sink.entry.now result.1.now result.0 }
{
    let ended = run_and_write(scope, setting, &mut BufferedSink::new(sink), &mut watcher);
    (ended, sink)
}

/// Does nothing, but ties the sink that came back to the one that was lent.
fn take_back<W>(sink: &mut W)
    ensures { sink.new ≡ sink.old }
{}

/// Runs all legs, and writes what they come to, each as it has ended and then all together. Answers with the best of that.
fn run_and_write<'s, E, T: Threads + Wait + Sync, G: Gate + Sync, W: Sink, V: Watcher<W>>(
    scope: &Scope<'s, E>,
    setting: Setting<'s, T, G>,
    out: &mut BufferedSink<'_, W>,
    watcher: &mut V,
) -> Result<Option<Best>, ImproveFault>
    requires setting { IsSetting setting }
    requires none { waiting_in out.old ≡ [] }
    ensures { EndsBy W.held W.tally setting.entry.start.now setting.entry.plan out.old out.new
        (HasWritten W.held W.tally setting.entry.start.now setting.entry.plan out.old out.new) result }
{
    let mut reported = Reported::none(setting.run_context.alloc, setting.start)?;
    let mut line = LegQueue::new(&setting);
    run_line(scope, setting, &mut line, &mut reported, out, watcher)
}

/// Runs the legs of a line to its end, and writes what they come to.
fn run_line<'s, E, T: Threads + Wait + Sync, G: Gate + Sync, W: Sink, V: Watcher<W>>(
    scope: &Scope<'s, E>,
    setting: Setting<'s, T, G>,
    line: &mut LegQueue,
    reported: &mut Reported,
    out: &mut BufferedSink<'_, W>,
    watcher: &mut V,
) -> Result<Option<Best>, ImproveFault>
    requires setting { IsSetting setting }
    requires none { waiting_in out.old ≡ [] }
    requires under_way { IsUnderWay W.held W.tally setting.start.now setting.plan out.old out.old [] line.old reported.old }
    ensures { EndsBy W.held W.tally setting.entry.start.now setting.entry.plan out.old out.new
        (HasWritten W.held W.tally setting.entry.start.now setting.entry.plan out.old out.new) result }
{
    let run_context = setting.run_context;
    run_context.gate.begun(run_context.rt, 0);
    let lent = Snapshot::of(&*out);
    while let Some(leg) = next_leg(scope, setting, line, watcher)? {
        report_leg(setting, leg, line, reported, &lent, out, watcher)?;
    }
    write_end(out, setting.plan.history, reported)?;
    Ok(reported.lead.best())
}

/// Writes what all legs together come to, with or without the history that leads there. Nothing waits then.
fn write_end<W: Sink>(
    out: &mut BufferedSink<'_, W>,
    history: bool,
    reported: &Reported,
) -> Result<(), WriteFault>
    requires { All (IsInLeague reported.now.lead.league) reported.now.chains.bests.items }
    ensures writes { Writes W.held W.tally out.old out.new result (end_text history reported.now) }
    ensures sent { OnOk result (waiting_in out.new ≡ []) }
{
    write_broken(out, reported)?;
    write_improved(out, &reported.lead, history)?;
    out.flush()
}

/// Takes the next leg out of the line, unless there is none. If several improvements share their steps, and the watcher wants no more, none
/// begins.
fn next_leg<'s, E, T: Threads + Wait + Sync, G: Gate + Sync, W: Sink, V: Watcher<W>>(
    scope: &Scope<'s, E>,
    setting: Setting<'s, T, G>,
    line: &mut LegQueue,
    watcher: &mut V,
) -> Result<Option<RunningLeg>, AllocError>
    requires workers { 1 ≤ setting.plan.workers }
    requires rounds { AreRoundsOf (teams setting.start.now.league) setting.rounds.now }
    requires line { (legs : List LegRun) × IsLine setting.start.now legs line.old }
    ensures line { (legs : List LegRun) → IsLine setting.entry.start.now legs line.old →
        OnOk result (IsLine setting.entry.start.now legs line.new) }
    ensures leg { (legs : List LegRun) → IsLine setting.entry.start.now legs line.old →
        IfOk result (λ r. IfSome r (IsRunning setting.entry.start.now legs)) }
    ensures left { IfOk result (λ r. IfSome r (λ leg. assigned_steps leg.assignment + left_in line.new ≡ left_in line.old)) }
    ensures none { IfOk result (λ r. IfNone r (setting.entry.plan.first ≡ None → left_in line.old ≡ 0)) }
{
    if setting.plan.first.is_some() && !watcher.wants_more() {
        return Ok(line.next_running());
    }
    line.next(scope, setting)
}

/// Waits for a leg's end, reports it, and has its chain go on.
fn report_leg<'w, T: Threads + Wait + Sync, G: Gate + Sync, W: Sink, V: Watcher<W>>(
    setting: Setting<'_, T, G>,
    leg: RunningLeg,
    line: &mut LegQueue,
    reported: &mut Reported,
    lent: &Snapshot<BufferedSink<'w, W>>,
    out: &mut BufferedSink<'w, W>,
    watcher: &mut V,
) -> Result<(), ImproveFault>
    requires setting { IsSetting setting }
    requires none { waiting_in lent.now.value ≡ [] }
    requires under_way { IsUnderWay W.held W.tally setting.start.now setting.plan lent.now.value out.old (leg ∷ []) line.old reported.old }
    ensures under_way { (first : BufferedSink W) →
        IsUnderWay W.held W.tally setting.entry.start.now setting.entry.plan first out.old (leg ∷ []) line.old reported.old →
        EndsBy W.held W.tally setting.entry.start.now setting.entry.plan first out.new
        (λ done. IsUnderWay W.held W.tally setting.entry.start.now setting.entry.plan first out.new [] line.new reported.new) result }
    ensures fewer { OnOk result (left_in line.new < assigned_steps leg.assignment + left_in line.old) }
{
    let run_context = setting.run_context;
    let RunningLeg { assignment, state } = leg;
    let annealed = state.outcome(run_context.rt)?;
    run_context.gate.ended(run_context.rt);
    report(setting, assignment, &annealed, reported, lent, out, watcher)?;
    run_context.gate.begun(run_context.rt, 0);
    let Annealed { chain, end } = annealed;
    let number = assignment.chain;
    line.go_on(assignment, end, Entrant { number, chain })?;
    Ok(())
}

/// Writes the schedule of a leg that has ended, if it is better than all before, takes in what the leg came to, and reports it to the
/// watcher.
fn report<'w, T: Threads + Wait + Sync, G: Gate + Sync, W: Sink, V: Watcher<W>>(
    setting: Setting<'_, T, G>,
    assignment: Assignment,
    annealed: &Annealed,
    reported: &mut Reported,
    lent: &Snapshot<BufferedSink<'w, W>>,
    out: &mut BufferedSink<'w, W>,
    watcher: &mut V,
) -> Result<(), ImproveFault>
    requires setting { IsSetting setting }
    requires none { waiting_in lent.now.value ≡ [] }
    requires few { reported.old.legs + 1 < 2 ^ 64 }
    requires told { (legs : List LegRun) × HasTold W.held W.tally setting.start.now setting.plan lent.now.value out.old legs reported.old
        × CanEnd setting.start.now legs assignment annealed.now }
    ensures { (first : BufferedSink W) (legs : List LegRun) →
        HasTold W.held W.tally setting.entry.start.now setting.entry.plan first out.old legs reported.old →
        CanEnd setting.entry.start.now legs assignment annealed.now →
        EndsBy W.held W.tally setting.entry.start.now setting.entry.plan first out.new
        (λ done. HasTold W.held W.tally setting.entry.start.now setting.entry.plan first out.new (run_of assignment annealed.now ∷ legs)
        reported.new) result }
{
    let board = &annealed.chain.board;
    write_leg(out, reported.least, board)?;
    let improves = reported.offer(setting.run_context.alloc, assignment.chain, board)?;
    let written = Written {
        league: setting.start.league(),
        plan: setting.plan,
        lent,
        now: Snapshot::of(&*out),
    };
    let ended = ReportedLeg {
        number: reported.legs,
        chain: assignment.chain,
        leg: assignment.leg,
        end: annealed.end,
    };
    watcher.leg_ended(
        LegEnded::of(setting.unit, ended, reported.least),
        reported.lead_if(improves),
        written,
    );
    Ok(())
}
