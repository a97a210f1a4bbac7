//! The plan: the waves and their legs, whether or not so many steps are left.

ghost use Rattle.std.specs.Prelude.{◌≡◌, ◌≤◌, ℕ, IfSome};
ghost use Rattle.policy.specs.Limits.{max_effort};

use crate::bouts::{Bout, Shares};
use crate::first_half::{FirstHalf, field_for, span};
use crate::legs::{Course, Leg, LegEnd, MoveSet, WeightCourse};
use crate::numbers::{
    AFTER_FEW, AFTER_MORE, COPIES, Cycles, FEW_TEAMS, HOT_SECOND_HALF, Heating, LEAST_TRIES, LOW,
    NEAR, RULED, RULED_FIRST, SECOND_HALF, SEEKING, TRY_STEPS, UNIT, WIDE,
};
use crate::waves::{Aim, Facts, LegSource, Wave};

/// The bouts of a wave.
#[derive(Clone, Copy)]
enum Bouts {
    FirstHalf(FirstHalf),
    /// Each heats from the start until it is feasible, and then cools.
    Tries(Shares),
    /// Each cools twice.
    Level(Shares),
    /// Each cools once.
    Copies(Shares),
    /// Each heats until it is feasible, and then cools.
    Seeking(Shares),
}

/// How far tries heat until they are feasible, and what a breach weighs then. It widens as long as none was.
#[derive(Clone, Copy, PartialEq, Eq)]
enum Reach {
    /// There was no try yet.
    Untried,
    /// Of a search alone, whose rounds and teams may move as a whole: so many moves need little heat.
    Low,
    Near,
    Wide,
}

/// The present wave, and what decides about the next ones.
#[derive(Clone, Copy, Drop)]
pub(crate) struct Plan {
    teams: u8,
    /// Whether the first chain goes on from the start.
    goes_on: bool,
    /// Whether rules' breaches weigh apart.
    apart: bool,
    /// The kinds of moves that all legs after the first half draw, but for cycles where rules' breaches weigh apart.
    moves: MoveSet,
    bouts: Bouts,
    reach: Reach,
    /// The steps of each level of the second half.
    level_steps: u64,
    cycles: Cycles,
    /// How many cycles are left for one chain.
    cycles_left: u32,
    /// Which of the cycles' peaks comes next: they come in turn.
    next_peak: u32,
    /// The unit of the peaks: the least temperature at which a try became feasible.
    hottest: u32,
    /// Whether a leg ended with a feasible version in its chain.
    feasible: bool,
    ghost four: { 4 ≤ teams },
    ghost going: { 1 ≤ cycles_left },
    ghost in_peaks: { next_peak ≤ 3 },
}

impl Plan {
    ghost use Rattle.std.specs.Prelude.{◌≢◌, ◌+◌, ◌%◌, ◌^◌, ◌<◌, true, false};
    ghost use Rattle.policy.specs.Legs.{DoesCool, IsCourse, IsWeightCourse};
    ghost use Rattle.policy.specs.Plan.{bout_of, cools_from, cycle_moves, cycle_of, heat_of, heating_of, leg_after, plan_after, ruled_in, two_cycles, weights_of};
    ghost use Rattle.policy.specs.Policy.{IsNewPlan, IsNextWave, second_half_for};
    ghost use Rattle.policy.specs.Waves.{IsNextPlan, IsSettled, ReachesFurther, WantsTries, cycles_in, moves_from};

    /// The plan before its first wave.
    pub(crate) fn new(facts: Facts) -> Self
        requires { 4 ≤ facts.teams }
        ensures { IsNewPlan facts result }
    {
        let apart = facts.breaks_rules && facts.teams > FEW_TEAMS && facts.aim != Aim::Repair;
        let cycles = Self::second_half(facts.teams, apart);
        Plan {
            teams: facts.teams,
            goes_on: facts.aim == Aim::GoOn,
            apart,
            moves: match facts.aim {
                Aim::Anew | Aim::GoOn => MoveSet::Full,
                Aim::Repair => MoveSet::Repair,
            },
            // this stands in for the first wave
            bouts: Bouts::Tries(Shares { steps: 1, bouts: 1 }),
            reach: Reach::Untried,
            level_steps: 0,
            cycles,
            cycles_left: cycles.count,
            next_peak: 0,
            hottest: UNIT,
            feasible: false,
        }
    }

    /// The cycles of the second half.
    fn second_half(teams: u8, apart: bool) -> Cycles
        ensures value { result ≡ second_half_for teams apart }
        ensures some { 1 ≤ result.count }
    {
        if apart || teams <= FEW_TEAMS {
            HOT_SECOND_HALF
        } else {
            SECOND_HALF
        }
    }

    /// The next wave, with so many chains in the field and so many steps left.
    pub(crate) fn wave(&mut self, field: u32, left: u64) -> Wave
        requires some { 1 ≤ left }
        requires most { left ≤ max_effort }
        requires field { field ≤ 4 }
        ensures wave { IsNextWave field result }
        ensures plan { IsNextPlan field self.old self.new result }
    {
        if field == 0 && self.moves == MoveSet::Full {
            self.first_half(left)
        } else if self.wants_tries(field) {
            self.tries(left)
        } else if field == 1 {
            self.copies(left)
        } else {
            self.level(field)
        }
    }

    /// Whether tries come next, where a first half doesn't.
    fn wants_tries(&self, field: u32) -> bool
        requires { field ≡ 0 → self.now.moves ≢ MoveSet.Full }
        ensures yes { result ≡ true → WantsTries field self.now }
        ensures no { result ≡ false → (1 ≤ field) × IsSettled self.now }
    {
        field == 0 || (!self.feasible && self.reach != Reach::Wide && !self.apart)
    }

    /// The wave of the first half.
    fn first_half(&mut self, left: u64) -> Wave
        requires most { left ≤ max_effort }
        requires full { self.old.moves ≡ MoveSet.Full }
        ensures wave { IsNextWave 0 result }
        ensures plan { IsNextPlan 0 self.old self.new result }
    {
        let first_half = FirstHalf::new(self.teams, left, self.goes_on, self.apart);
        let rest = left.saturating_sub(first_half.steps);
        let bouts = first_half.bouts();
        let keep = field_for(self.teams, rest).min(bouts);
        let levels = match keep {
            1 => 0,
            2 => 1,
            _ => 2,
        };
        self.level_steps = rest / (levels + 2);
        self.begin(Bouts::FirstHalf(first_half));
        Wave {
            source: LegSource::Start,
            bouts,
            keep,
        }
    }

    /// A wave of tries to become feasible from the start, with a wider reach than before.
    fn tries(&mut self, left: u64) -> Wave
        requires { left ≤ max_effort }
        ensures wave { (field : ℕ) → IsNextWave field result }
        ensures plan { (field : ℕ) → WantsTries field self.old → IsNextPlan field self.old self.new result }
    {
        self.widen(left);
        let tries = (left / TRY_STEPS).max(LEAST_TRIES);
        let few = tries == LEAST_TRIES;
        let steps = if few { left / 2 } else { left * 3 / 4 };
        self.cycles = if few { AFTER_FEW } else { AFTER_MORE };
        self.cycles_left = self.cycles.count;
        self.hottest = self.heating().to;
        let bouts = tries as u32;
        self.begin(Bouts::Tries(Shares {
            steps: steps.max(1),
            bouts,
        }));
        Wave {
            source: LegSource::Start,
            bouts,
            keep: 1,
        }
    }

    fn widen(&mut self, left: u64)
        ensures further { ReachesFurther self.old.reach self.new.reach }
        ensures moves { self.new.moves ≡ moves_from self.new.reach self.old.moves }
        ensures others { self.new ≡ record self.old { reach = self.new.reach; moves = self.new.moves } }
    {
        self.reach = match self.reach {
            Reach::Untried if self.begins_low(left) => Reach::Low,
            Reach::Untried | Reach::Low => Reach::Near,
            Reach::Near | Reach::Wide => Reach::Wide,
        };
        if self.reach == Reach::Wide && self.moves == MoveSet::Repair {
            self.moves = MoveSet::WideRepair;
        }
    }

    /// Whether tries heat little at first: in a search, if each gets a span.
    fn begins_low(&self, left: u64) -> bool {
        self.moves == MoveSet::Full && LEAST_TRIES * span(self.teams) <= left / 2
    }

    /// A wave in which each chain of the field has two cycles, and the better half stays.
    fn level(&mut self, field: u32) -> Wave
        requires least { 2 ≤ field }
        requires most { field ≤ 4 }
        requires settled { IsSettled self.old }
        ensures wave { IsNextWave field result }
        ensures plan { IsNextPlan field self.old self.new result }
    {
        self.begin(Bouts::Level(Shares {
            steps: self.level_steps.max(1),
            bouts: field,
        }));
        Wave {
            source: LegSource::Own,
            bouts: field,
            keep: field.div_ceil(2),
        }
    }

    /// A wave in which copies of the best chain have a cycle each, or seek a feasible schedule.
    fn copies(&mut self, left: u64) -> Wave
        requires settled { IsSettled self.old }
        ensures wave { IsNextWave 1 result }
        ensures plan { IsNextPlan 1 self.old self.new result }
    {
        let steps = left / u64::from(self.cycles_left);
        self.cycles_left = self.cycles_left.saturating_sub(1).max(1);
        let shares = Shares {
            steps: steps.max(1),
            bouts: COPIES,
        };
        self.begin(if self.apart && !self.feasible {
            Bouts::Seeking(shares)
        } else {
            Bouts::Copies(shares)
        });
        Wave {
            source: LegSource::Copies,
            bouts: COPIES,
            keep: 1,
        }
    }

    /// Has these be the bouts of the wave. Peaks that the chains had in the one before are gone through.
    fn begin(&mut self, bouts: Bouts)
        ensures bouts { self.new.bouts ≡ bouts }
        ensures next_peak { self.new.next_peak ≡ (self.old.next_peak + cycles_in self.old.bouts) % 4 }
        ensures others { self.new ≡ record self.old { bouts = self.new.bouts; next_peak = self.new.next_peak; in_peaks = self.new.in_peaks } }
    {
        let had = match self.bouts {
            Bouts::FirstHalf(_) | Bouts::Tries(_) => 0,
            Bouts::Level(_) => 2,
            Bouts::Copies(_) | Bouts::Seeking(_) => 1,
        };
        self.next_peak = (self.next_peak + had) % 4;
        self.bouts = bouts;
    }

    /// The two legs of a bout, as far as they are known before it begins.
    pub(crate) fn bout(&self, number: u32) -> Bout
        ensures value { result ≡ bout_of self.now number }
        ensures steps { number ≡ 0 → 1 ≤ result.first.steps }
        ensures fits { result.first.steps + result.second.steps < 2 ^ 64 }
        ensures first { IsCourse result.first.course }
        ensures second { IsCourse result.second.course }
        ensures cools { DoesCool result.first.course → DoesCool result.second.course }
    {
        match self.bouts {
            Bouts::FirstHalf(first_half) => first_half.bout(number),
            Bouts::Tries(shares) => Bout::single(self.moves, self.heats(), shares.of(number)),
            Bouts::Copies(shares) => Bout::single(
                self.cycle_moves(),
                self.cools(0),
                shares.of(number),
            ),
            Bouts::Seeking(shares) => Bout::single(self.cycle_moves(), SEEKING, shares.of(number)),
            Bouts::Level(shares) => self.two_cycles(shares.of(number)),
        }
    }

    /// Two cycles with so many steps.
    fn two_cycles(&self, steps: u64) -> Bout
        ensures value { result ≡ two_cycles self.now steps }
        ensures some { 1 ≤ steps → 1 ≤ result.first.steps }
        ensures all { result.first.steps + result.second.steps ≡ steps }
        ensures first { IsCourse result.first.course }
        ensures second { IsCourse result.second.course }
    {
        let second = Leg {
            moves: self.cycle_moves(),
            course: self.cools(1),
            steps: steps / 2,
        };
        let first = Leg {
            course: self.cools(0),
            steps: steps - steps / 2,
            ..second
        };
        Bout { first, second }
    }

    /// The moves of a cycle.
    fn cycle_moves(&self) -> MoveSet
        ensures { result ≡ cycle_moves self.now }
    {
        if self.apart {
            MoveSet::Partial
        } else {
            self.moves
        }
    }

    /// The leg that follows on a leg of a bout, if one does.
    pub(crate) fn next_leg(&mut self, number: u32, leg: Leg, ended: LegEnd) -> Option<Leg>
        requires { ended.steps ≤ leg.steps }
        ensures follows { leg ≡ (bout_of self.old number).first → result ≡ Some (leg_after self.old (bout_of self.old number) ended) }
        ensures ends { leg ≢ (bout_of self.old number).first → result ≡ None }
        ensures plan { self.new ≡ plan_after self.old leg ended }
        ensures course { IfSome result (λ next. IsCourse next.course) }
        ensures cools { IfSome result (λ next. DoesCool next.course) }
    {
        let bout = self.bout(number);
        self.observe(leg, ended);
        if leg != bout.first {
            return None;
        }
        let mut next = bout.second_after(ended.steps);
        if let Course::Heats { .. } = leg.course {
            next.course = self.cools_from(ended.hottest);
        }
        Some(next)
    }

    /// Observes a leg that ended, for the next ones.
    fn observe(&mut self, leg: Leg, ended: LegEnd)
        ensures { self.new ≡ plan_after self.old leg ended }
    {
        let is_feasible = ended.best.is_some();
        self.feasible |= is_feasible;
        if let Course::Heats { .. } = leg.course
            && is_feasible
        {
            self.hottest = self.hottest.min(ended.hottest);
        }
    }

    fn heats(&self) -> Course
        ensures value { result ≡ heat_of (heating_of self.now.reach) }
        ensures course { IsCourse result }
    {
        let Heating { from, to, .. } = self.heating();
        Course::Heats { from, to }
    }

    /// How the tries of the present wave heat. Without tries a breach weighs as in the lowest.
    fn heating(&self) -> Heating
        ensures value { result ≡ heating_of self.now.reach }
        ensures rises { result.from ≤ result.to }
        ensures weights { IsWeightCourse result.weights }
    {
        match self.reach {
            Reach::Untried | Reach::Low => LOW,
            Reach::Near => NEAR,
            Reach::Wide => WIDE,
        }
    }

    /// A cycle, so many after the first of this wave.
    fn cools(&self, later: u32) -> Course
        requires { later ≤ 1 }
        ensures value { result ≡ cycle_of self.now later }
        ensures course { IsCourse result }
    {
        let number = (self.next_peak + later) % 4;
        let peak = u64::from(self.hottest) * u64::from(self.cycles.peaks[number as usize]) / 1000;
        self.cools_from(peak.min(u64::from(self.hottest)) as u32)
    }

    fn cools_from(&self, peak: u32) -> Course
        ensures value { result ≡ cools_from self.now peak }
        ensures course { IsCourse result }
    {
        Course::Cools {
            from: peak.max(self.cycles.cold),
            to: self.cycles.cold,
        }
    }

    /// The weights where rules' breaches weigh apart.
    fn ruled(&self) -> WeightCourse
        ensures value { result ≡ ruled_in self.now.bouts }
        ensures range { IsWeightCourse result }
    {
        match self.bouts {
            Bouts::FirstHalf(_) => RULED_FIRST,
            _ => RULED,
        }
    }

    /// The weights of the present wave.
    pub(crate) fn weights(&self) -> WeightCourse
        ensures value { result ≡ weights_of self.now }
        ensures range { IsWeightCourse result }
    {
        if self.apart {
            return self.ruled();
        }
        self.heating().weights
    }
}
