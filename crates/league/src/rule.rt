//! The rules that a league states. The names of the classes are those of RobinX (Van Bulck, Goossens, Schönberger,
//! Guajardo 2020); what each means, and how its breaches are counted, is this project's own definition.

ghost use Rattle.std.specs.Prelude.{◌≡◌, ◌<◌, ◌≤◌, ◌↔◌, [], Some, length, slice_get, IsTrue, IfOk, OnErr};
ghost use Rattle.league.specs.Games.{IsGameFor, IsGameList, with_game};
ghost use Rattle.league.specs.Limits.{max_teams, max_games};

use sets::{SlotSet, TeamSet};
use std::alloc::{AllocError, Global};
use std::marker::Model;

/// A game, whatever its round: the team at home and the team away, numbered from 0.
#[derive(Clone, Copy, Debug, Drop, PartialEq, Eq)]
pub struct Pairing {
    pub home: u8,
    pub away: u8,
}

/// Which games of a team a rule counts: those at home, those away, or both.
#[derive(Clone, Copy, Debug, Drop, PartialEq, Eq)]
pub enum Side {
    Home,
    Away,
    Any,
}

/// The cost of a deviation of 1.
#[derive(Clone, Copy, Debug, Drop, PartialEq, Eq)]
pub enum Weight {
    /// The hard weight of the league.
    Hard,
    /// This weight, from 1 to 1,000,000.
    Soft(u32),
}

/// A rule on the schedules of a league.
#[derive(Clone, Debug, Drop, PartialEq, Eq)]
pub struct Rule {
    pub weight: Weight,
    pub body: RuleBody,
}

/// The demand of a rule, by its class. Teams and rounds are numbered from 0; each count is at most 10,000.
#[derive(Clone, Debug, Drop, PartialEq, Eq)]
pub enum RuleBody {
    /// Each team has at most `max` games of the side, which is not `Any`, in the slots.
    Ca1 {
        teams: TeamSet,
        side: Side,
        slots: SlotSet,
        max: u32,
    },
    /// Each team of `teams1` has at most `max` games of the side against `teams2` in the slots.
    Ca2 {
        teams1: TeamSet,
        side: Side,
        teams2: TeamSet,
        slots: SlotSet,
        max: u32,
    },
    /// Each team of `teams1` has at most `max` games of the side against `teams2` in any `window` rounds in a row.
    Ca3 {
        teams1: TeamSet,
        side: Side,
        teams2: TeamSet,
        window: u32,
        max: u32,
    },
    /// The teams of `teams1` together have at most `max` games of the side against `teams2`: in each of the slots
    /// if `each` is true, and in all of them together if it is false.
    Ca4 {
        teams1: TeamSet,
        side: Side,
        teams2: TeamSet,
        slots: SlotSet,
        each: bool,
        max: u32,
    },
    /// From `min` to `max` of the games are in the slots; `min` is at most `max`.
    Ga1 {
        games: GameList,
        slots: SlotSet,
        min: u32,
        max: u32,
    },
    /// Each team has at most `most` breaks of the side in the slots.
    Br1 {
        teams: TeamSet,
        side: Side,
        slots: SlotSet,
        most: u32,
    },
    /// The teams together have at most `most` breaks in the slots.
    Br2 {
        teams: TeamSet,
        slots: SlotSet,
        most: u32,
    },
    /// Between the two games of any two of the teams lie at least `min` rounds.
    Se1 {
        teams: TeamSet,
        min: u32,
    },
    /// After each of the slots the numbers of home games of any two of the teams differ by at most `most`.
    Fa2 {
        teams: TeamSet,
        slots: SlotSet,
        most: u32,
    },
}

/// Games of distinct teams, each once.
#[derive(Debug, Drop)]
pub struct GameList {
    games: Vec<Pairing>,
}

impl Model for GameList {
    ghost use Rattle.std.specs.Prelude.{List};
    ghost use Rattle.league.specs.declared.rule.Pairing.{Pairing};
    ghost use Rattle.league.specs.Games.{IsGameList};

    ghost Value = { List Pairing };

    ghost view = { λ l. l.games.items };

    ghost invariant = { λ l. IsGameList l.games.items };
}

impl Clone for GameList {
    ghost is_clone = { λ list copy. copy ≡ list };

    fn clone(&self) -> Result<GameList, AllocError> {
        Ok(GameList {
            games: self.games.clone()?,
        })
    }
}

/// Equal lists have the same games in the same order.
impl PartialEq for GameList {
    ghost use Rattle.std.specs.Cmp.{partial_equiv_from_equiv};
    ghost use Rattle.std.specs.Cmp.Lexicographic.{pointwise};
    ghost use Rattle.league.specs.Games.{is_same_game, same_games_equiv};

    ghost eq = { pointwise is_same_game };

    ghost laws = { partial_equiv_from_equiv same_games_equiv };

    fn eq(&self, other: &GameList) -> bool {
        self.games == other.games
    }
}

impl Eq for GameList {
    ghost use Rattle.league.specs.Games.{same_games_equiv};

    ghost laws = { same_games_equiv };
}

impl GameList {
    /// No game. Takes no memory.
    pub fn new(alloc: Global) -> GameList
        ensures { result ≡ [] }
    {
        GameList {
            games: Vec::new(alloc),
        }
    }

    /// Adds a game, unless it is there. If there is no memory, the list stays.
    pub fn add(&mut self, game: Pairing) -> Result<(), AllocError>
        requires { IsGameFor max_teams game }
        ensures value { IfOk result (λ _. self.new ≡ with_game self.old game) }
        ensures most { IfOk result (λ _. length self.new ≤ max_games) }
        ensures err { OnErr result (self.new ≡ self.old) }
    {
        if !self.games.contains(&game) {
            self.games.push(game)?;
        }
        Ok(())
    }

    /// How many games there are, at most 1,600.
    pub fn len(&self) -> usize
        ensures value { result ≡ length self.now }
        ensures most { result ≤ max_games }
        ensures games { IsGameList self.now }
    {
        self.games.len()
    }

    /// Tells whether the list has no game.
    pub fn is_empty(&self) -> bool
        ensures { IsTrue result ↔ (self.now ≡ []) }
    {
        self.games.is_empty()
    }

    /// The game at an index from 0.
    pub fn at(&self, i: usize) -> Pairing
        requires { i < length self.now }
        ensures { slice_get self.now i ≡ Some result }
    {
        self.games[i]
    }
}
