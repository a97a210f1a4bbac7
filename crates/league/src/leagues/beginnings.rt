//! The members of a league about where its boards begin.

use super::League;
use crate::origins::Start;
use fixtures::Schedule;
use sets::PairSet;
use std::alloc::{AllocError, Global};

impl League {
    ghost use Rattle.std.specs.Prelude.{◌≡◌, ◌==◌, ◌&&◌, ℕ, ◌<◌, ◌≤◌, IfOk, true};
    ghost use Rattle.fixtures.specs.Games.{round_count, IsDoubleRoundRobin, IsPair};
    ghost use Rattle.sets.specs.Pairs.{has_pair};
    ghost use Rattle.league.specs.League.{teams};
    ghost use Rattle.league.specs.Limits.{max_weight};
    ghost use Rattle.league.specs.Starts.{beginning_at, is_fide, is_given, keeping, keeps, near_at, start_of, start_round, KeepsMore};

    /// Makes the schedule that the boards of the league begin at. Answers an error only if there is no memory.
    pub fn start(&self, alloc: Global) -> Result<Schedule, AllocError>
        ensures games { IfOk result (λ s. s ≡ start_of self.now) }
        ensures round_robin { IfOk result IsDoubleRoundRobin }
    {
        self.origin.make(alloc, self.teams())
    }

    /// The round in which `home` receives `away` at the start. Takes no memory.
    pub fn start_round(&self, home: u8, away: u8) -> u8
        requires { IsPair (teams self.now) home away }
        ensures value { result ≡ start_round self.now home away }
        ensures in_range { result < round_count (teams self.now) }
    {
        self.origin.start.round_of(self.teams(), home, away)
    }

    /// Whether the start is the Berger table in FIDE's order.
    pub fn fide(&self) -> bool
        ensures { result ≡ is_fide self.now.origin.start }
    {
        matches!(self.origin.start, Start::Fide)
    }

    /// Whether the start is a schedule of its own, and none that a text of a league asks for.
    pub fn given(&self) -> bool
        ensures { result ≡ is_given self.now.origin.start }
    {
        matches!(self.origin.start, Start::Given(_))
    }

    /// Has boards begin at a schedule of the league's teams. None of its games is kept, and all else stays. Takes no memory.
    pub fn begin_at(&mut self, start: Schedule)
        requires { start.teams ≡ teams self.old }
        ensures { self.new ≡ beginning_at start self.old }
    {
        prove_eq!(start.teams(), self.teams());
        self.origin.begin_at(start);
    }

    /// Keeps the game of the start in which `home` receives `away`: boards begin with it pinned. One that is kept stays so.
    /// Takes no memory.
    pub fn keep(&mut self, home: u8, away: u8)
        requires { IsPair (teams self.old) home away }
        ensures value { self.new ≡ keeping home away self.old }
        ensures more { KeepsMore (λ h a. h == home && a == away) self.old self.new }
    {
        self.origin.keep(home, away);
    }

    /// Keeps all games of a round of the start. Takes no memory.
    pub fn keep_round(&mut self, round: u8)
        ensures { KeepsMore (λ home away. start_round self.old home away == round) self.old self.new }
    {
        for home in 0..self.teams() {
            self.keep_home_game(home, round);
        }
    }

    /// Keeps the game of a round of the start in which the team is at home, if there is one.
    fn keep_home_game(&mut self, home: u8, round: u8)
        requires { home < teams self.old }
        ensures { KeepsMore (λ h a. h == home && start_round self.old h a == round) self.old self.new }
    {
        for away in 0..self.teams() {
            self.keep_in_round(home, away, round);
        }
    }

    /// Keeps the game in which `home` receives `away` if it is in this round of the start.
    fn keep_in_round(&mut self, home: u8, away: u8, round: u8)
        requires home { home < teams self.old }
        requires away { away < teams self.old }
        ensures { KeepsMore (λ h a. (h == home && a == away) && start_round self.old h a == round) self.old self.new }
    {
        if home != away && self.start_round(home, away) == round {
            self.keep(home, away);
        }
    }

    /// Whether the game of the start in which `home` receives `away` is kept.
    pub fn keeps(&self, home: u8, away: u8) -> bool
        requires { IsPair (teams self.now) home away }
        ensures { result ≡ keeps self.now home away }
    {
        let _teams = self.teams();
        self.origin.kept.has(home, away)
    }

    /// The pairs whose games of the start are kept, the home team first.
    pub fn kept(&self) -> &PairSet
        ensures value { result.now ≡ self.now.origin.kept }
        ensures pairs { (home away : ℕ) → has_pair result.now home away ≡ true → IsPair (teams self.now) home away }
    {
        &self.origin.kept
    }

    /// The cost of a game that has another round than at the start.
    #[inline]
    pub fn near(&self) -> u32
        ensures value { result ≡ self.now.origin.near }
        ensures most { result ≤ max_weight }
    {
        self.origin.near
    }

    /// Sets what a game costs that has another round than at the start, up to 1,000,000. All else stays.
    pub fn set_near(&mut self, weight: u32)
        requires { weight ≤ max_weight }
        ensures { self.new ≡ near_at weight self.old }
    {
        self.origin.near = weight;
    }
}
