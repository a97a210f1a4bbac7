//! Where the boards of a league begin.

ghost use Rattle.std.specs.Prelude.{◌≡◌, ◌%◌, ◌<◌, ◌≤◌, ◌↔◌, IfOk, IsTrue};
ghost use Rattle.fixtures.specs.Games.{games, round_count, IsDoubleRoundRobin, IsPair};
ghost use Rattle.sets.specs.Limits.{max_teams};
ghost use Rattle.sets.specs.Pairs.{no_pairs, with_pair};
ghost use Rattle.league.specs.Origins.{origin_at, origin_data, round_at_start, IsStartFor};

use fixtures::{Schedule, berger, berger_fide, berger_round, fide_round};
use sets::PairSet;
use std::alloc::{AllocError, Global};
use std::marker::Model;

/// The schedule that a league asks its boards to begin at.
#[derive(Debug, Drop)]
pub enum Start {
    /// The Berger table.
    Berger,
    /// The Berger table in FIDE's order for double round robins.
    Fide,
    /// A schedule of its own.
    Given(Schedule),
}

impl Start {
    /// Makes the schedule, of so many teams.
    fn make(&self, alloc: Global, teams: u8) -> Result<Schedule, AllocError>
        requires fits { IsStartFor teams self.now }
        requires even { teams % 2 ≡ 0 }
        requires four { 4 ≤ teams }
        requires most { teams ≤ max_teams }
        ensures games { IfOk result (λ s. s ≡ games teams (λ home away. round_at_start teams self.now home away)) }
        ensures round_robin { IfOk result IsDoubleRoundRobin }
    {
        match self {
            Start::Berger => berger(alloc, teams),
            Start::Fide => berger_fide(alloc, teams),
            Start::Given(schedule) => schedule.duplicate(alloc),
        }
    }

    /// The round in which `home` receives `away`, of so many teams.
    pub(crate) fn round_of(&self, teams: u8, home: u8, away: u8) -> u8
        requires fits { IsStartFor teams self.now }
        requires four { 4 ≤ teams }
        requires most { teams ≤ max_teams }
        requires pair { IsPair teams home away }
        ensures value { result ≡ round_at_start teams self.now home away }
        ensures in_range { result < round_count teams }
    {
        match self {
            Start::Berger => berger_round(teams, home, away),
            Start::Fide => fide_round(teams, home, away),
            Start::Given(schedule) => schedule.round_of(home, away),
        }
    }

    fn is_same(&self, other: &Start) -> bool
        ensures { IsTrue result ↔ (self.now ≡ other.now) }
    {
        match (self, other) {
            (Start::Berger, Start::Berger) | (Start::Fide, Start::Fide) => true,
            (Start::Given(schedule), Start::Given(given)) => schedule.is_same(given),
            _ => false,
        }
    }

    fn duplicate(&self, alloc: Global) -> Result<Start, AllocError>
        ensures { IfOk result (λ s. s ≡ self.now) }
    {
        Ok(match self {
            Start::Berger => Start::Berger,
            Start::Fide => Start::Fide,
            Start::Given(schedule) => Start::Given(schedule.duplicate(alloc)?),
        })
    }
}

/// The schedule that boards begin at, the games of it that are kept, and what leaving it costs.
#[derive(Debug, Drop)]
pub(crate) struct Origin {
    pub(crate) start: Start,
    /// The pairs, the home team first, whose games begin pinned.
    pub(crate) kept: PairSet,
    /// The cost of a game that has another round than at the start.
    pub(crate) near: u32,
}

impl Model for Origin {
    ghost use Rattle.league.specs.Origins.{OriginData, origin_data};

    ghost Value = { OriginData };

    ghost view = { λ o. origin_data o.start o.kept o.near };
}

impl Origin {
    /// At a start, with nothing kept and no price.
    pub(crate) fn at(start: Start) -> Self
        ensures { result ≡ origin_at start }
    {
        Origin {
            start,
            kept: PairSet::empty(),
            near: 0,
        }
    }

    /// Makes the schedule of the start, of so many teams.
    pub(crate) fn make(&self, alloc: Global, teams: u8) -> Result<Schedule, AllocError>
        requires fits { IsStartFor teams self.now.start }
        requires even { teams % 2 ≡ 0 }
        requires four { 4 ≤ teams }
        requires most { teams ≤ max_teams }
        ensures games { IfOk result (λ s. s ≡ games teams (λ home away. round_at_start teams self.now.start home away)) }
        ensures round_robin { IfOk result IsDoubleRoundRobin }
    {
        self.start.make(alloc, teams)
    }

    /// Goes on to a schedule, and keeps none of its games.
    pub(crate) fn begin_at(&mut self, start: Schedule)
        ensures { self.new ≡ origin_data (Start.Given start) no_pairs self.old.near }
    {
        self.start = Start::Given(start);
        self.kept = PairSet::empty();
    }

    /// Keeps one game more.
    pub(crate) fn keep(&mut self, home: u8, away: u8)
        requires home { home < max_teams }
        requires away { away < max_teams }
        ensures { self.new ≡ origin_data self.old.start (with_pair self.old.kept home away) self.old.near }
    {
        self.kept.add(home, away);
    }

    pub(crate) fn is_same(&self, other: &Origin) -> bool
        ensures { IsTrue result ↔ (self.now ≡ other.now) }
    {
        self.near == other.near
            && self.kept.is_same(&other.kept)
            && self.start.is_same(&other.start)
    }

    pub(crate) fn duplicate(&self, alloc: Global) -> Result<Origin, AllocError>
        ensures { IfOk result (λ o. o ≡ self.now) }
    {
        Ok(Origin {
            start: self.start.duplicate(alloc)?,
            kept: self.kept.duplicate(),
            near: self.near,
        })
    }
}
