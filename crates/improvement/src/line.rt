//! The line of legs: those that run, and behind them those that wait.

ghost use Rattle.std.specs.Prelude.{◌≡◌, ◌+◌, ◌<◌, ◌≤◌, List, [], ◌∷◌, ◌++◌, length, IfOk, OnOk, IfNone, IfSome, true, false};
ghost use Rattle.league.specs.League.{teams};
ghost use Rattle.policy.specs.Limits.{max_effort};
ghost use Rattle.draws.specs.Draws.{AreRoundsOf};
ghost use Rattle.improvement.specs.declared.legs.Assignment.{Assignment};
ghost use Rattle.improvement.specs.Legs.{LegRun};
ghost use Rattle.improvement.specs.within.Aims.{breaks_rules, IsAimOf};
ghost use Rattle.improvement.specs.within.Lines.{IsEntrant, IsLine, IsRunning, left_in, steps_left, assigned_steps, assignments_of, waiting_for};
ghost use Rattle.fixture_board.specs.Record.{Book};

use crate::field::Entrant;
use crate::legs::{Assignment, RunningLeg, WaitingLeg};
use crate::series::Series;
use crate::setting::Setting;
use crate::stage::{LegBeginning, Stage};
use draws::Gate;
use fixture_board::Board;
use league::League;
use policy::{Aim, Facts, Leg, LegEnd};
use std::alloc::{AllocError, Global};
use std::collections::VecDeque;
use std::sync::Wait;
use std::thread::{Scope, Threads};

/// How many legs stand in line at most. More workers than that find no work.
const PLACES: usize = 16;

/// Whether the board's present schedule breaks hard rules.
fn breaks_rules(board: &Board) -> bool
    ensures { result ≡ breaks_rules board.now.league board.now.history }
{
    board.cost().of_rules > 0
}

fn aim_of(league: &League) -> Aim
    ensures { IsAimOf league.now result }
{
    if league.near() > 0 || !league.kept().is_empty() {
        Aim::Repair
    } else if league.given() {
        Aim::GoOn
    } else {
        Aim::Anew
    }
}

/// The line, and what comes after it. What gets in line, and when, follows the order in which the legs leave it. So it depends neither on
/// the number of workers nor on how fast they are.
#[derive(Drop)]
pub(crate) struct LegQueue {
    pub(crate) series: Series,
    pub(crate) stage: Stage,
    pub(crate) running: VecDeque<RunningLeg>,
    pub(crate) waiting: VecDeque<WaitingLeg>,
}

impl LegQueue {
    /// Before the first wave.
    pub(crate) fn new<T, G>(setting: &Setting<'_, T, G>) -> Self
        requires { setting.now.plan.effort ≤ max_effort }
        ensures line { (legs : List LegRun) → IsLine setting.now.start.now legs result }
        ensures left { left_in result ≡ setting.now.plan.effort }
        ensures aim { IsAimOf setting.now.start.now.league result.series.facts.aim }
        ensures rules { result.series.facts.breaks_rules ≡ breaks_rules setting.now.start.now.league setting.now.start.now.history }
    {
        let alloc = setting.run_context.alloc;
        let league = setting.start.league();
        let facts = Facts {
            teams: league.teams(),
            effort: setting.plan.effort,
            aim: aim_of(league),
            breaks_rules: breaks_rules(setting.start),
        };
        LegQueue {
            series: Series::new(facts, setting.plan),
            stage: Stage::none(alloc),
            running: VecDeque::new(alloc),
            waiting: VecDeque::new(alloc),
        }
    }

    /// Takes the first leg out of the line, once as many run as there are workers.
    pub(crate) fn next<'s, E, T: Threads + Wait + Sync, G: Gate + Sync>(
        &mut self,
        scope: &Scope<'s, E>,
        setting: Setting<'s, T, G>,
    ) -> Result<Option<RunningLeg>, AllocError>
        requires workers { 1 ≤ setting.plan.workers }
        requires rounds { AreRoundsOf (teams setting.start.now.league) setting.rounds.now }
        requires line { (legs : List LegRun) × IsLine setting.start.now legs self.old }
        ensures line { (legs : List LegRun) → IsLine setting.entry.start.now legs self.old →
            OnOk result (IsLine setting.entry.start.now legs self.new) }
        ensures leg { (legs : List LegRun) → IsLine setting.entry.start.now legs self.old →
            IfOk result (λ r. IfSome r (IsRunning setting.entry.start.now legs)) }
        ensures first { IfOk result (λ r. IfSome r (λ leg. (more : List Assignment) ×
            (assignments_of self.old ++ more ≡ leg.assignment ∷ assignments_of self.new))) }
        ensures left { IfOk result (λ r. IfSome r (λ leg. assigned_steps leg.assignment + left_in self.new ≡ left_in self.old)) }
        ensures none { IfOk result (λ r. IfNone r (left_in self.old ≡ 0)) }
    {
        if !self.fill(setting.run_context.alloc)? {
            return Ok(None);
        }
        self.run_first(scope, setting)?;
        Ok(self.running.pop_front())
    }

    /// Takes the first leg out of the line if it runs. None begins.
    pub(crate) fn next_running(&mut self) -> Option<RunningLeg>
        ensures line { (start : Book) (legs : List LegRun) → IsLine start legs self.old → IsLine start legs self.new }
        ensures leg { (start : Book) (legs : List LegRun) → IsLine start legs self.old → IfSome result (IsRunning start legs) }
        ensures left { IfSome result (λ leg. assigned_steps leg.assignment + left_in self.new ≡ left_in self.old) }
    {
        self.running.pop_front()
    }

    /// Has legs get in line, first those of the present wave, then those of the next one if the line is empty. Tells whether there are any.
    fn fill(&mut self, alloc: Global) -> Result<bool, AllocError>
        ensures line { (start : Book) (legs : List LegRun) → IsLine start legs self.old → OnOk result (IsLine start legs self.new) }
        ensures assignments { OnOk result ((more : List Assignment) × (assignments_of self.new ≡ assignments_of self.old ++ more)) }
        ensures left { OnOk result (left_in self.new ≡ left_in self.old) }
        ensures some { IfOk result (λ some. some ≡ true → 1 ≤ length (assignments_of self.new)) }
        ensures none { IfOk result (λ some. some ≡ false → left_in self.new ≡ 0) }
    {
        self.line_up(alloc)?;
        if self.places_taken() > 0 {
            return Ok(true);
        }
        let Some(wave) = self.series.wave() else {
            return Ok(false);
        };
        self.stage.begin(alloc, wave);
        self.line_up_bout(alloc, 0)?;
        self.line_up(alloc)?;
        Ok(true)
    }

    fn places_taken(&self) -> usize
        ensures { result ≡ length (assignments_of self.now) }
    {
        self.running.len().saturating_add(self.waiting.len())
    }

    /// Has bouts of the wave get in line while there is a place.
    fn line_up(&mut self, alloc: Global) -> Result<(), AllocError>
        ensures line { (start : Book) (legs : List LegRun) → IsLine start legs self.old → OnOk result (IsLine start legs self.new) }
        ensures assignments { OnOk result ((more : List Assignment) × (assignments_of self.new ≡ assignments_of self.old ++ more)) }
        ensures left { OnOk result (left_in self.new ≡ left_in self.old) }
    {
        while let Some(bout) = self.stage.bout() {
            if PLACES <= self.places_taken() {
                break;
            }
            self.line_up_bout(alloc, bout)?;
        }
        Ok(())
    }

    /// Has the next bout get in line, if it has a leg.
    fn line_up_bout(&mut self, alloc: Global, bout: u32) -> Result<(), AllocError>
        requires { self.old.stage.begun < self.old.stage.wave.bouts }
        ensures line { (start : Book) (legs : List LegRun) → IsLine start legs self.old → OnOk result (IsLine start legs self.new) }
        ensures assignments { OnOk result ((more : List Assignment) × (assignments_of self.new ≡ assignments_of self.old ++ more)) }
        ensures left { OnOk result (left_in self.new ≡ left_in self.old) }
        ensures begun { OnOk result (self.new.stage.begun ≡ self.old.stage.begun + 1) }
        ensures wave { OnOk result (self.new.stage.wave ≡ self.old.stage.wave) }
        ensures first { bout ≡ 0 → 1 ≤ self.old.series.policy.left → OnOk result (1 ≤ length (assignments_of self.new)) }
    {
        let Some(leg) = self.series.policy.first_leg(bout) else {
            return self.stage.pass_bout();
        };
        let weight = self.series.policy.weights().first;
        let beginning = self.stage.begin_bout(alloc, weight)?;
        self.wait(bout, leg, beginning)
    }

    /// Has a leg get in line, behind all others. It draws from a stream of its own.
    fn wait(&mut self, bout: u32, leg: Leg, beginning: LegBeginning) -> Result<(), AllocError>
        ensures waiting { OnOk result (self.new.waiting.items ≡ self.old.waiting.items ++ waiting_for self.old.series.lined bout leg beginning ∷ []) }
        ensures running { self.new.running ≡ self.old.running }
        ensures left { steps_left self.new.series ≡ steps_left self.old.series }
        ensures stage { self.new.stage ≡ self.old.stage }
    {
        let LegBeginning {
            chain,
            weight,
            board,
        } = beginning;
        let stream = self.series.lined;
        self.series.lined = stream.wrapping_add(1);
        self.waiting.push_back(WaitingLeg {
            assignment: Assignment { chain, bout, leg },
            stream,
            weight,
            board,
        })?;
        Ok(())
    }

    /// Has the first legs of the line run, as many as there are workers.
    fn run_first<'s, E, T: Threads + Wait + Sync, G: Gate + Sync>(
        &mut self,
        scope: &Scope<'s, E>,
        setting: Setting<'s, T, G>,
    ) -> Result<(), AllocError>
        requires rounds { AreRoundsOf (teams setting.start.now.league) setting.rounds.now }
        requires line { (legs : List LegRun) × IsLine setting.start.now legs self.old }
        ensures line { (legs : List LegRun) → IsLine setting.entry.start.now legs self.old →
            OnOk result (IsLine setting.entry.start.now legs self.new) }
        ensures assignments { OnOk result (assignments_of self.new ≡ assignments_of self.old) }
        ensures series { OnOk result (self.new.series ≡ self.old.series) }
        ensures some { 1 ≤ setting.entry.plan.workers → 1 ≤ length (assignments_of self.old) →
            OnOk result (1 ≤ length self.new.running.items) }
    {
        while self.running.len() < setting.plan.workers as usize {
            let Some(leg) = self.waiting.pop_front() else {
                break;
            };
            let seed = self.series.seed;
            let weights = self.series.policy.weights();
            let running = leg.begin(scope, setting, seed, weights)?;
            self.running.push_back(running)?;
        }
        Ok(())
    }

    /// Has the chain of a leg that has left the line go on: to its bout's next leg, or to the next wave.
    pub(crate) fn go_on(
        &mut self,
        assignment: Assignment,
        end: LegEnd,
        entrant: Entrant,
    ) -> Result<(), AllocError>
        requires ended { end.steps ≤ assignment.leg.steps }
        requires out { self.old.series.policy.left + assignment.leg.steps ≤ max_effort }
        ensures line { (start : Book) (legs : List LegRun) → IsEntrant start legs entrant → IsLine start legs self.old →
            OnOk result (IsLine start legs self.new) }
        ensures left { OnOk result (left_in self.new + end.steps ≡ left_in self.old + assigned_steps assignment) }
    {
        match self
            .series
            .policy
            .next_leg(assignment.bout, assignment.leg, end)
        {
            Some(leg) => self.wait(assignment.bout, leg, LegBeginning::at_best(entrant)),
            None => self.stage.end_bout(entrant),
        }
    }
}
