//! Who looks on at an improvement.

ghost use Rattle.std.specs.Prelude.{◌≡◌, option_map};
ghost use Rattle.improvement.specs.Watched.{HasLines, ended_as};

use crate::plan::ImprovePlan;
use crate::reported_leg::{ReportedLeg, first_heat, in_thousandths, last_heat};
use annealing::Unit;
use byte_streams::{BufferedSink, Sink};
use fixture_board::Board;
use league::League;
use policy::MoveSet;
use std::snapshot::Snapshot;

/// A leg that has ended.
#[derive(Clone, Copy, Debug, PartialEq, Eq)]
pub struct LegEnded {
    /// Its own number, from 1.
    pub number: u64,
    /// The number of its chain, from 1.
    pub chain: u64,
    /// The kinds of moves that it drew from.
    pub moves: MoveSet,
    /// The first temperature, in thousandths of a distance.
    pub from: u64,
    /// The last one or, of a leg that heats, the highest one that it had.
    pub to: u64,
    /// How many moves it drew.
    pub steps: u64,
    /// How many of these it made.
    pub accepted: u64,
    /// How many hard limits the schedule breaks that its chain has then.
    pub hard: u64,
    /// The least total in its chain's history.
    pub best: Option<u64>,
    /// The least total of all legs so far.
    pub least: Option<u64>,
}

impl LegEnded {
    /// The leg as it is reported in a league of this unit, and the least total of all legs so far.
    pub(crate) fn of(unit: Unit, reported: ReportedLeg, least: Option<u64>) -> LegEnded
        ensures { result ≡ ended_as unit reported least }
    {
        let ReportedLeg { leg, end, .. } = reported;
        LegEnded {
            number: reported.number,
            chain: reported.chain,
            moves: leg.moves,
            from: in_thousandths(unit, first_heat(leg.course)),
            to: in_thousandths(unit, last_heat(leg.course, end)),
            steps: end.steps,
            accepted: end.accepted,
            hard: end.hard,
            best: end.best,
            least,
        }
    }
}

/// The sink of an improvement when a leg has ended. Contracts say by it what was written by then; a watcher can do nothing with it.
#[derive(Drop)]
pub struct Written<'a, 'w, W> {
    /// The league that is improved, as it was given.
    pub league: &'a League,
    pub plan: ImprovePlan,
    /// The sink as it was lent, before the first leg.
    pub lent: &'a Snapshot<BufferedSink<'w, W>>,
    /// The sink as it is.
    pub now: Snapshot<BufferedSink<'w, W>>,
}

/// Looks on at an improvement that writes to such a sink, and changes nothing of what that does and writes, but for when several that share
/// their steps end.
pub trait Watcher<W: Sink> {
    /// A leg has ended, whether or not anything was written of it, and the better schedules so far stand at the sink. If it changed the
    /// history that leads there is a board with that history: it is the first leg's, or better than the one before.
    fn leg_ended(&mut self, leg: LegEnded, better: Option<&Board>, written: Written<'_, '_, W>)
        requires { HasLines W.held written leg (option_map (λ board. board.now) better) };

    /// Whether more legs are to begin. It is asked only if several improvements share their steps.
    fn wants_more(&mut self) -> bool {
        true
    }
}

impl<W: Sink, V: Watcher<W>> Watcher<W> for &mut V {
    fn leg_ended(&mut self, leg: LegEnded, better: Option<&Board>, written: Written<'_, '_, W>)
        requires { HasLines W.held written leg (option_map (λ board. board.now) better) }
    {
        (**self).leg_ended(leg, better, written);
    }

    fn wants_more(&mut self) -> bool {
        (**self).wants_more()
    }
}

/// Looks away.
#[derive(Drop)]
pub struct NoWatcher;

impl<W: Sink> Watcher<W> for NoWatcher {
    fn leg_ended(&mut self, _leg: LegEnded, _better: Option<&Board>, _written: Written<'_, '_, W>)
        requires { HasLines W.held _written _leg (option_map (λ board. board.now) _better) }
    {}
}
