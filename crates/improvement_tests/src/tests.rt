//! The tests by subject, and what they share.

mod ends;
mod legs;
mod series;
mod workers;

ghost use Rattle.std.specs.Prelude.{◌≡◌, ◌≤◌};

use byte_streams::{MemorySink, RehearsedSink, Sink, Step};
use draws::{NoGate, RunContext};
use fixture_board::{Best, Board};
use improvement::{ImproveFault, ImprovePlan, LegEnded, NoWatcher, Watcher, Written, improve};
use league::{League, circular};
use league_json::read_league;
use std::alloc::{AllocError, Global};
use std::fmt::Debug;
use std::process::Abort;
use std::sync::Wait;
use std::thread::Threads;

/// Team 1 is to have no game at home.
const NEVER_AT_HOME: &str = r#"{
    "format": 1,
    "teams": ["A", "B", "C", "D"],
    "distances": [[0, 1, 1, 1], [1, 0, 1, 1], [1, 1, 0, 1], [1, 1, 1, 0]],
    "rules": [{"class": "CA1", "kind": "hard", "teams": [1], "mode": "H", "max": 0}]
}"#;

fn impossible(rt: &impl Abort, alloc: Global) -> League {
    read_league(alloc, NEVER_AT_HOME.as_bytes()).expect(rt, "a league")
}

fn circle(rt: &impl Abort, alloc: Global, teams: u8) -> League {
    circular(alloc, teams).expect(rt, "a league")
}

/// An effort from 1 to 1,000,000.
fn asked(workers: u32, effort: u64) -> ImprovePlan
    ensures least { 1 ≤ result.effort }
    ensures most { result.effort ≤ 1000000 }
{
    ImprovePlan {
        workers,
        seed: 1,
        effort: effort.clamp(1, 1_000_000),
        first: None,
        history: false,
    }
}

/// The outcome of an improvement: how it ended, how often it wrote, and what went out.
#[derive(Debug, Drop, PartialEq)]
struct Improved {
    ended: Result<Option<Best>, ImproveFault>,
    calls: u64,
    text: Vec<u8>,
}

/// Improves a league to a sink whose writes go by these steps.
fn improved_by<T: Threads + Wait + Sync>(
    rt: &T,
    alloc: Global,
    league: League,
    plan: ImprovePlan,
    writes: &[Step],
) -> Result<Improved, AllocError>
    requires least { 1 ≤ plan.effort }
    requires most { plan.effort ≤ 1000000 }
{
    let mut buffer = vec![in alloc; 0; 400_000]?;
    let mut memory = MemorySink::new(&mut buffer);
    let mut sink = RehearsedSink::new(&mut memory, writes);
    let gate = &NoGate;
    let run_context = RunContext { rt, alloc, gate };
    let ended = improve(run_context, league, plan, &mut sink, NoWatcher);
    let calls = sink.tally().calls;
    let text = Vec::from_slice(alloc, memory.held())?;
    Ok(Improved { ended, calls, text })
}

fn improvement_of<T: Threads + Wait + Sync + Abort>(
    rt: &T,
    alloc: Global,
    league: League,
    plan: ImprovePlan,
) -> Improved
    requires least { 1 ≤ plan.effort }
    requires most { plan.effort ≤ 1000000 }
{
    improved_by(rt, alloc, league, plan, &[]).expect(rt, "memory")
}

/// Counts legs and their steps, keeps the leg behind so many steps, and wants so many legs.
#[derive(Drop)]
struct Counter {
    wanted: u64,
    behind: u64,
    legs: u64,
    steps: u64,
    kept: Option<LegEnded>,
}

impl<W: Sink> Watcher<W> for Counter {
    fn leg_ended(&mut self, leg: LegEnded, _better: Option<&Board>, _written: Written<'_, '_, W>)
        ensures { self.new.wanted ≡ self.old.wanted }
    {
        if self.steps == self.behind && self.kept.is_none() {
            self.kept = Some(leg);
        }
        self.legs = self.legs.saturating_add(1);
        self.steps = self.steps.saturating_add(leg.steps);
    }

    fn wants_more(&mut self) -> bool {
        self.legs < self.wanted
    }
}

/// What a counter saw of an improvement that ended well.
fn counted<T: Threads + Wait + Sync + Abort>(
    rt: &T,
    alloc: Global,
    league: League,
    plan: ImprovePlan,
    wanted: u64,
    behind: u64,
) -> Counter
    requires least { 1 ≤ plan.effort }
    requires most { plan.effort ≤ 1000000 }
{
    let mut counter = Counter {
        wanted,
        behind,
        legs: 0,
        steps: 0,
        kept: None,
    };
    let mut buffer = vec![in alloc; 0; 400_000].expect(rt, "memory");
    let gate = &NoGate;
    let run_context = RunContext { rt, alloc, gate };
    let mut sink = MemorySink::new(&mut buffer);
    let ended = improve(run_context, league, plan, &mut sink, &mut counter);
    check_same(rt, &ended.is_ok(), &true);
    counter
}

/// The two are equal.
fn check_same<T: PartialEq + Debug>(rt: &impl Abort, found: &T, wanted: &T) {
    assert_eq!(rt; found, wanted);
}
