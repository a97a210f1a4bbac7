//! Which games are pinned to their rounds.

ghost use Rattle.std.specs.Prelude.{◌≡◌, ℕ, ◌+◌, ◌*◌, ◌<◌, ◌≤◌, ◌==◌, ◌&&◌, ◌||◌, not, Bool, List};
ghost use Rattle.std.specs.Prelude.{replicate, length, slice_set, slice_index_or, IfOk};
ghost use Rattle.league.specs.League.{teams};
ghost use Rattle.league.specs.Limits.{max_teams};
ghost use Rattle.fixtures.specs.declared.game.Game.{Game};
ghost use Rattle.fixtures.specs.Exchanges.{exchanged_by, IsExchange};
ghost use Rattle.fixture_board.specs.History.{moves_pin, AllStand};
ghost use Rattle.fixture_board.specs.declared.change.Change.{Change};
ghost use Rattle.fixture_board.specs.within.Retraced.{HasPlace, written, IsRetraced};
ghost use Rattle.fixture_board.specs.within.PinTable.{free, pin_at, pin_index, pin_entries, AreBegun, ArePinsAt, IsFirstTable};

use crate::change::Change;
use fixtures::{Exchange, Game, Schedule};
use league::limits::MAX_TEAMS;
use league::{League, PairSet};
use std::alloc::{AllocError, Global};
use std::marker::Model;

/// The mark of a game that isn't pinned.
const FREE: u8 = 255;

const MOST_TEAMS: usize = MAX_TEAMS as usize;

/// The round in which the game of a pair is pinned, or `FREE`, for each of `MAX_TEAMS` teams at home and away.
#[derive(Drop)]
pub(crate) struct Pins {
    rounds: Vec<u8>,
    /// The pairs whose games are pinned.
    pairs: PairSet,
}

impl Model for Pins {
    ghost use Rattle.std.specs.Prelude.{ℕ, List};
    ghost use Rattle.fixture_board.specs.within.PinTable.{ArePinnedPairs};

    ghost Value = { List ℕ };

    ghost view = { λ p. p.rounds.items };

    ghost invariant = { λ p. ArePinnedPairs p.rounds.items p.pairs };
}

impl Pins {
    /// Of a new board: the games that the league keeps are pinned.
    pub(crate) fn of(alloc: Global, league: &League) -> Result<Pins, AllocError>
        ensures { IfOk result (IsFirstTable league.now) }
    {
        let mut pins = Pins::none(alloc)?;
        pins.begin(league);
        Ok(pins)
    }

    /// No game is pinned.
    fn none(alloc: Global) -> Result<Pins, AllocError>
        ensures { IfOk result (λ p. p ≡ replicate pin_entries free) }
    {
        Ok(Pins {
            rounds: vec![in alloc; FREE; MOST_TEAMS * MOST_TEAMS]?,
            pairs: PairSet::empty(),
        })
    }

    /// Copies the table into memory of its own.
    pub(crate) fn duplicate(&self, alloc: Global) -> Result<Pins, AllocError>
        ensures { IfOk result (λ p. p ≡ self.now) }
    {
        Ok(Pins {
            rounds: Vec::from_slice(alloc, &self.rounds)?,
            pairs: self.pairs.duplicate(),
        })
    }

    /// Whether the game of the pair is pinned.
    pub(crate) fn has(&self, home: u8, away: u8) -> bool
        requires home { home < max_teams }
        requires away { away < max_teams }
        ensures { result ≡ not (pin_at self.now home away == free) }
    {
        self.rounds[pin_index(home, away)] != FREE
    }

    /// Pins the game to its round.
    pub(crate) fn pin(&mut self, game: Game)
        requires home { game.home < max_teams }
        requires away { game.away < max_teams }
        ensures { self.new ≡ slice_set self.old (pin_index game.home game.away) game.round }
    {
        self.write(game.home, game.away, game.round);
    }

    /// Lets the game get another round again.
    pub(crate) fn unpin(&mut self, game: Game)
        requires home { game.home < max_teams }
        requires away { game.away < max_teams }
        ensures { self.new ≡ slice_set self.old (pin_index game.home game.away) free }
    {
        self.write(game.home, game.away, FREE);
    }

    /// No game is pinned any more.
    fn clear(&mut self)
        ensures { self.new ≡ replicate pin_entries free }
    {
        self.rounds.fill(FREE);
        self.pairs = PairSet::empty();
    }

    /// Makes the pin or the unpin that a change is.
    fn make(&mut self, change: Change)
        requires { HasPlace change }
        ensures { self.new ≡ written self.old change }
    {
        match change {
            Change::Pin(game) => self.pin(game),
            Change::Unpin(game) => self.unpin(game),
            Change::Shift(_) | Change::Undo => {}
        }
    }

    /// Makes the table that of a new board.
    fn begin(&mut self, league: &League)
        ensures { IsFirstTable league.now self.new }
    {
        self.clear();
        for home in 0..league.teams() {
            self.pin_kept_of(league, home);
        }
    }

    /// Pins the kept games that the team has at home.
    fn pin_kept_of(&mut self, league: &League, home: u8)
        requires { home < teams league.now }
        ensures { (passes : ℕ → ℕ → Bool) → AreBegun league.now passes self.old →
            AreBegun league.now (λ h a. passes h a || h == home) self.new }
    {
        for away in 0..league.teams() {
            self.pin_if_kept(league, home, away);
        }
    }

    /// Pins the game of the start in which `home` receives `away`, if it is kept.
    fn pin_if_kept(&mut self, league: &League, home: u8, away: u8)
        requires home { home < teams league.now }
        requires away { away < teams league.now }
        requires limit { teams league.now ≤ max_teams }
        ensures { (passes : ℕ → ℕ → Bool) → AreBegun league.now passes self.old →
            AreBegun league.now (λ h a. passes h a || (h == home && a == away)) self.new }
    {
        if home != away && league.keeps(home, away) {
            let round = league.start_round(home, away);
            self.pin(Game { round, home, away });
        }
    }

    /// Makes the table anew from the changes in effect.
    pub(crate) fn retrace(&mut self, league: &League, changes: &[Change])
        requires { (i : ℕ) (d : Change) → i < length changes.now → HasPlace (slice_index_or changes.now i d) }
        ensures { IsRetraced league.now changes.now self.new }
    {
        self.begin(league);
        for change in changes {
            self.make(*change);
        }
    }

    fn write(&mut self, home: u8, away: u8, round: u8)
        requires home { home < max_teams }
        requires away { away < max_teams }
        ensures { self.new ≡ slice_set self.old (pin_index home away) round }
    {
        self.rounds[pin_index(home, away)] = round;
        if round == FREE {
            self.pairs.remove(home, away);
        } else {
            self.pairs.add(home, away);
        }
    }

    /// Whether the exchange would give a pinned game another round, if pinned games stand in their rounds.
    pub(crate) fn would_be_moved(&self, schedule: &Schedule, exchange: &Exchange) -> bool
        requires { IsExchange schedule.now exchange.now }
        ensures { (held : List Game) → AllStand schedule.now held → ArePinsAt schedule.now held self.now →
            result ≡ moves_pin (exchanged_by schedule.now exchange.now) held }
    {
        exchange.moves_one_of(schedule, &self.pairs)
    }
}

/// The index of a pair in the table.
fn pin_index(home: u8, away: u8) -> usize
    ensures { result ≡ pin_index home away }
{
    usize::from(home) * MOST_TEAMS + usize::from(away)
}
