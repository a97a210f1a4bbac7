//! Walks through whole policies, with ends of legs that are made up.

ghost use Rattle.std.specs.Prelude.{◌≡◌, ◌+◌, ◌≤◌};
ghost use Rattle.policy.specs.Limits.{max_effort};

use policy::{Course, Facts, Leg, LegEnd, LegSource, MoveSet, Policy, Wave};

/// More waves than any policy has.
const MANY_WAVES: u32 = 100;

/// Which legs end with a feasible version in their chain.
#[derive(Clone, Copy, Debug, PartialEq, Eq)]
pub(crate) enum Feasible {
    All,
    /// The legs that heat.
    Heated,
    None,
}

/// A walk, and how it goes.
#[derive(Clone, Copy, Debug, PartialEq, Eq)]
pub(crate) struct Walk {
    pub(crate) facts: Facts,
    pub(crate) feasible: Feasible,
    /// Whether each bout begins before the one before it is told.
    pub(crate) two_at_once: bool,
    /// The leg to be shown.
    pub(crate) shown: Place,
}

/// Where a leg stands: which one it is of a bout of a wave.
#[derive(Clone, Copy, Debug, PartialEq, Eq)]
pub(crate) struct Place {
    pub(crate) wave: u32,
    pub(crate) bout: u32,
    pub(crate) leg: u32,
}

/// The outcome of a walk.
#[derive(Default, Clone, Copy, Debug, PartialEq, Eq)]
pub(crate) struct Totals {
    pub(crate) waves: u32,
    pub(crate) legs: u64,
    /// Legs that came after the second one of a bout.
    pub(crate) thirds: u64,
    /// The steps that were taken: in all, and by the very first chain.
    pub(crate) taken: u64,
    pub(crate) early: u64,
    /// Sums over all waves and over all legs, of what they have times their number. That of a leg goes by its place.
    pub(crate) of_waves: u64,
    pub(crate) of_legs: u64,
    /// The moves of the leg to be shown, its from, to and steps.
    pub(crate) shown: Option<(MoveSet, [u64; 3])>,
}

#[derive(Drop)]
struct Walker {
    policy: Policy,
    walk: Walk,
    wave: u32,
    totals: Totals,
}

impl Walker {
    /// The rest of a bout whose first leg was begun.
    fn finish(&mut self, bout: u32, first: Leg)
        requires { self.old.policy.left + first.steps ≤ max_effort }
        ensures { self.new.policy.left ≤ self.old.policy.left + first.steps }
    {
        let ended = self.ended(bout, first);
        self.count(self.place(bout, 0), first, ended);
        let Some(second) = self.policy.next_leg(bout, first, ended) else {
            return;
        };
        let ended = self.ended(bout, second);
        self.count(self.place(bout, 1), second, ended);
        if self.policy.next_leg(bout, second, ended).is_some() {
            self.totals.thirds = self.totals.thirds.saturating_add(1);
        }
    }

    /// The end of a leg. One that heats becomes feasible after one to five thousand steps, or never.
    fn ended(&self, bout: u32, leg: Leg) -> LegEnd
        ensures { result.steps ≤ leg.steps }
    {
        let part = bout % 5;
        let heats = matches!(leg.course, Course::Heats { .. });
        let is_feasible = match self.walk.feasible {
            Feasible::All => true,
            Feasible::Heated => heats,
            Feasible::None => false,
        };
        let (steps, hottest) = match leg.course {
            Course::Heats { to, .. } if is_feasible => {
                let steps = 1000 + 1000 * u64::from(part);
                (
                    leg.steps.min(steps),
                    to.min(1700).saturating_sub(100 * part),
                )
            }
            Course::Cools { from: highest, .. } | Course::Heats { to: highest, .. } => {
                (leg.steps, highest)
            }
        };
        let best = if is_feasible { Some(1) } else { None };
        LegEnd {
            steps,
            hottest,
            accepted: 0,
            hard: 0,
            best,
        }
    }

    fn place(&self, bout: u32, leg: u32) -> Place {
        Place {
            wave: self.wave,
            bout,
            leg,
        }
    }

    fn count(&mut self, place: Place, leg: Leg, ended: LegEnd)
        ensures { self.new.policy ≡ self.old.policy }
    {
        let number = 1
            + u64::from(place.leg)
            + 2 * u64::from(place.bout)
            + 1_000_000_007 * u64::from(place.wave);
        let (from, to) = match leg.course {
            Course::Cools { from, to } | Course::Heats { from, to } => (from, to),
        };
        let sums = &mut self.totals;
        sums.legs = sums.legs.saturating_add(1);
        sums.taken = sums.taken.saturating_add(ended.steps);
        if place.wave == 0 && place.bout == 0 {
            sums.early = sums.early.saturating_add(ended.steps);
        }
        if place == self.walk.shown {
            sums.shown = Some((leg.moves, [u64::from(from), u64::from(to), leg.steps]));
        }
        let heats = 7 * (u64::from(to) + 7 * (u64::from(from) + 7 * code_of(leg.moves)));
        sums.of_legs = plus(sums.of_legs, number, leg.steps.wrapping_add(heats));
    }

    fn play(&mut self, number: u32, wave: Wave) {
        self.wave = number;
        let count = u64::from(number) + 1;
        let source = match wave.source {
            LegSource::Start => 0,
            LegSource::Own => 1,
            LegSource::Copies => 2,
        };
        let has = 100 * u64::from(wave.bouts) + 10 * u64::from(wave.keep) + source;
        self.totals.waves = number.saturating_add(1);
        self.totals.of_waves = plus(self.totals.of_waves, count, has);
        if self.walk.two_at_once {
            self.two_at_once(wave.bouts);
        } else {
            self.one_by_one(wave.bouts);
        }
    }

    fn one_by_one(&mut self, bouts: u32) {
        for bout in 0..bouts {
            if let Some(leg) = self.policy.first_leg(bout) {
                self.finish(bout, leg);
            }
        }
    }

    fn two_at_once(&mut self, bouts: u32) {
        let mut waiting = self.policy.first_leg(0);
        for bout in 1..bouts {
            let next = self.policy.first_leg(bout);
            if let Some(leg) = waiting {
                self.finish(bout.saturating_sub(1), leg);
            }
            waiting = next;
        }
        if let Some(leg) = waiting {
            self.finish(bouts.saturating_sub(1), leg);
        }
    }
}

fn plus(sum: u64, number: u64, value: u64) -> u64 {
    sum.wrapping_add(number.wrapping_mul(value))
}

/// The place of the set among all, from 1.
fn code_of(moves: MoveSet) -> u64
    ensures { result ≤ 6 }
{
    match moves {
        MoveSet::Rigid => 1,
        MoveSet::Loose => 2,
        MoveSet::Full => 3,
        MoveSet::Repair => 4,
        MoveSet::WideRepair => 5,
        MoveSet::Partial => 6,
    }
}

pub(crate) fn walked(walk: Walk) -> Totals
    requires teams { 4 ≤ walk.facts.teams }
    requires effort { walk.facts.effort ≤ max_effort }
{
    let mut walker = Walker {
        policy: Policy::new(walk.facts),
        walk,
        wave: 0,
        totals: Totals::default(),
    };
    for number in 0..MANY_WAVES {
        let Some(wave) = walker.policy.wave() else {
            break;
        };
        walker.play(number, wave);
    }
    walker.totals
}
