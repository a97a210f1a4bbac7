//! The steps of the calls: a change judged, and made if nothing speaks against it, but for its entry.

use crate::ask::{Ask, Proposal};
use crate::change::Change;
use crate::reply::Why;
use crate::state::State;
use crate::state::checks::Limit;
use crate::trial::Trial;
use costs::{Attempt, Cost, Weights, make_at_cost, make_within};
use fixtures::Game;
use league::League;
use moves::{check, exchange};

impl State {
    ghost use Rattle.std.specs.Prelude.{◌≡◌, ◌≤◌, length};
    ghost use Rattle.league.specs.League.{LeagueData, teams};
    ghost use Rattle.costs.specs.Costs.{cost_of, AreWeights};
    ghost use Rattle.costs.specs.Evaluators.{IsEvaluatorAt};
    ghost use Rattle.fixture_board.specs.History.{shifted};
    ghost use Rattle.fixture_board.specs.within.PinTable.{taken_back};
    ghost use Rattle.fixture_board.specs.within.Kept.{kept_of, HasMemory, FollowsHistory, IsForetold, IsStep, IsTried, CanTakeBack};

    /// Judges what is asked, and makes it if no reason speaks against it.
    pub(crate) fn step(&mut self, league: &League, ask: Ask) -> Result<(), Why>
        requires memory { HasMemory self.old }
        requires kept { FollowsHistory league.now (kept_of self.old) }
        requires evaluator { IsEvaluatorAt league.now self.old.schedule self.old.evaluator.value }
        ensures memory { HasMemory self.new }
        ensures evaluator { IsEvaluatorAt league.now self.new.schedule self.new.evaluator.value }
        ensures step { IsStep league.now (kept_of self.old) (kept_of self.new) ask result }
    {
        match ask {
            Ask::Shift(proposal) => self.shift(league, proposal),
            Ask::Pin { version, game } => self.pin(version, game),
            Ask::Unpin { version, game } => self.unpin(version, game),
            Ask::Undo { version } => self.undo(league, version),
        }
    }

    /// Tries a move. One that would give a pinned game another round is refused before its cost is counted. One whose score is
    /// above the limit is told by `make_within`, mostly before it is made.
    fn shift(&mut self, league: &League, proposal: Proposal) -> Result<(), Why>
        requires memory { HasMemory self.old }
        requires kept { FollowsHistory league.now (kept_of self.old) }
        requires evaluator { IsEvaluatorAt league.now self.old.schedule self.old.evaluator.value }
        ensures memory { HasMemory self.new }
        ensures evaluator { IsEvaluatorAt league.now self.new.schedule self.new.evaluator.value }
        ensures step { IsStep league.now (kept_of self.old) (kept_of self.new) (Ask.Shift proposal) result }
    {
        let mv = proposal.mv;
        self.check_move(proposal.version, mv)?;
        let exchange = exchange(&self.schedule, mv);
        if self.pins.would_be_moved(&self.schedule, &exchange) {
            return Err(Why::Pinned);
        }
        let before = self.cost.score(league);
        let Limit { limit, above } = self.limit_of(proposal, before);
        let attempt = Attempt {
            exchange: &exchange,
            known: self.cost,
            weights: Weights::alike(league.hard_weight()),
            limit,
        };
        let Some(cost) = make_within(&mut self.schedule, league, &mut self.evaluator, &attempt)
        else {
            return Err(above);
        };
        if let Err(why) = self.check_score(proposal, before, cost.score(league)) {
            exchange.make(&mut self.schedule);
            self.evaluator.forget();
            return Err(why);
        }
        self.cost = cost;
        self.changes.push_reserved(Change::Shift(mv));
        Ok(())
    }

    /// Tells what `shift` would make of a proposal: the cost after its move, or why it would be refused. All is then as it was.
    pub(crate) fn would_shift(&mut self, league: &League, proposal: Proposal) -> Result<Cost, Why>
        requires memory { HasMemory self.old }
        requires kept { FollowsHistory league.now (kept_of self.old) }
        requires evaluator { IsEvaluatorAt league.now self.old.schedule self.old.evaluator.value }
        ensures memory { HasMemory self.new }
        ensures evaluator { IsEvaluatorAt league.now self.new.schedule self.new.evaluator.value }
        ensures same { kept_of self.new ≡ kept_of self.old }
        ensures told { IsForetold league.now (kept_of self.old) proposal result }
    {
        let mv = proposal.mv;
        self.check_move(proposal.version, mv)?;
        let exchange = exchange(&self.schedule, mv);
        if self.pins.would_be_moved(&self.schedule, &exchange) {
            return Err(Why::Pinned);
        }
        let before = self.cost.score(league);
        let cost = make_at_cost(
            &mut self.schedule,
            league,
            &mut self.evaluator,
            &exchange,
            self.cost,
        );
        exchange.make(&mut self.schedule);
        self.evaluator.forget();
        self.check_score(proposal, before, cost.score(league))?;
        Ok(cost)
    }

    /// Tries a move by weights of its own, with neither a version nor a claim to check. Only what the score needs is counted.
    pub(crate) fn try_move(&mut self, league: &League, trial: Trial) -> Option<Cost>
        requires memory { HasMemory self.old }
        requires kept { FollowsHistory league.now (kept_of self.old) }
        requires evaluator { IsEvaluatorAt league.now self.old.schedule self.old.evaluator.value }
        requires weights { AreWeights trial.weights }
        ensures memory { HasMemory self.new }
        ensures evaluator { IsEvaluatorAt league.now self.new.schedule self.new.evaluator.value }
        ensures tried { IsTried league.now (kept_of self.old) (kept_of self.new) trial result }
    {
        let Trial { mv, weights, rise } = trial;
        if self.version() == u64::from(self.room) || check(&self.schedule, mv).is_err() {
            return None;
        }
        let exchange = exchange(&self.schedule, mv);
        if self.pins.would_be_moved(&self.schedule, &exchange) {
            return None;
        }
        let before = self.cost.score_by(weights);
        let attempt = Attempt {
            exchange: &exchange,
            known: self.cost,
            weights,
            limit: before.saturating_add(rise),
        };
        let cost = make_within(&mut self.schedule, league, &mut self.evaluator, &attempt)?;
        self.cost = cost;
        self.changes.push_reserved(Change::Shift(mv));
        Some(cost)
    }

    /// Pins a game to its round.
    fn pin(&mut self, version: u64, game: Game) -> Result<(), Why>
        requires memory { HasMemory self.old }
        requires within { length self.old.history.items ≤ self.old.room }
        requires no_more { length self.old.changes.items ≤ length self.old.history.items }
        ensures memory { HasMemory self.new }
        ensures evaluator { (league : LeagueData) → IsEvaluatorAt league self.old.schedule self.old.evaluator.value →
            IsEvaluatorAt league self.new.schedule self.new.evaluator.value }
        ensures step { (league : LeagueData) → FollowsHistory league (kept_of self.old) →
            IsStep league (kept_of self.old) (kept_of self.new) (Ask.Pin version game) result }
    {
        if self.check_game(version, game)? {
            return Err(Why::AlreadyPinned);
        }
        self.pins.pin(game);
        self.changes.push_reserved(Change::Pin(game));
        Ok(())
    }

    /// Lets a pinned game get another round again.
    fn unpin(&mut self, version: u64, game: Game) -> Result<(), Why>
        requires memory { HasMemory self.old }
        requires within { length self.old.history.items ≤ self.old.room }
        requires no_more { length self.old.changes.items ≤ length self.old.history.items }
        ensures memory { HasMemory self.new }
        ensures evaluator { (league : LeagueData) → IsEvaluatorAt league self.old.schedule self.old.evaluator.value →
            IsEvaluatorAt league self.new.schedule self.new.evaluator.value }
        ensures step { (league : LeagueData) → FollowsHistory league (kept_of self.old) →
            IsStep league (kept_of self.old) (kept_of self.new) (Ask.Unpin version game) result }
    {
        if !self.check_game(version, game)? {
            return Err(Why::NotPinned);
        }
        self.pins.unpin(game);
        self.changes.push_reserved(Change::Unpin(game));
        Ok(())
    }

    /// Drops the last change in effect.
    fn undo(&mut self, league: &League, version: u64) -> Result<(), Why>
        requires memory { HasMemory self.old }
        requires kept { FollowsHistory league.now (kept_of self.old) }
        requires evaluator { IsEvaluatorAt league.now self.old.schedule self.old.evaluator.value }
        ensures memory { HasMemory self.new }
        ensures evaluator { IsEvaluatorAt league.now self.new.schedule self.new.evaluator.value }
        ensures step { IsStep league.now (kept_of self.old) (kept_of self.new) (Ask.Undo version) result }
    {
        self.check_version(version)?;
        let Some(last) = self.changes.pop() else {
            return Err(Why::NothingToUndo);
        };
        self.take_back(league, last);
        Ok(())
    }

    /// Takes a change back that was the last in effect.
    fn take_back(&mut self, league: &League, change: Change)
        requires evaluator { IsEvaluatorAt league.now self.old.schedule self.old.evaluator.value }
        requires same_size { teams league.now ≡ self.old.schedule.teams }
        requires last { CanTakeBack self.old.schedule change }
        requires known { self.old.cost ≡ cost_of league.now self.old.schedule }
        ensures evaluator { IsEvaluatorAt league.now self.new.schedule self.new.evaluator.value }
        ensures state { self.new ≡ record self.old {
          schedule = shifted self.old.schedule change;
          pins = taken_back self.old.pins change;
          cost = cost_of league.now (shifted self.old.schedule change);
          evaluator = self.new.evaluator;
        } }
    {
        match change {
            Change::Shift(mv) => {
                let exchange = exchange(&self.schedule, mv);
                self.cost = make_at_cost(
                    &mut self.schedule,
                    league,
                    &mut self.evaluator,
                    &exchange,
                    self.cost,
                );
            }
            Change::Pin(game) => self.pins.unpin(game),
            Change::Unpin(game) => self.pins.pin(game),
            Change::Undo => {}
        }
    }
}
