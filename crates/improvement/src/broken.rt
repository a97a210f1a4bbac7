//! The limits that are broken in the best schedules of the chains.

ghost use Rattle.std.specs.Prelude.{◌≡◌, ◌<◌, length, slice_get, All};
ghost use Rattle.league.specs.League.{teams};
ghost use Rattle.byte_streams.specs.Writing.{Writes};
ghost use Rattle.costs.specs.Costs.{hard_penalty, penalty_of};
ghost use Rattle.improvement.specs.Broken.{breaches, broken_if, broken_in, broken_line, broken_lines, part_name, rule_lines};
ghost use Rattle.improvement.specs.within.Broken.{IsPartOf};
ghost use Rattle.improvement.specs.within.Chains.{IsInLeague};

use crate::chains::Chains;
use crate::reported::Reported;
use byte_streams::{BufferedSink, Sink, WriteFault};
use costs::counted_repeats;
use fixtures::Schedule;
use league::{League, Weight};
use rules::deviation;
use text_lines::{Piece, class_name, write_pieces};
use tours::{runs_over, unphased};

/// A part of what is hard.
#[derive(Clone, Copy)]
pub(crate) enum Part {
    /// The stretches at home or away that are too long.
    Runs,
    /// The pairs of teams that meet in a round and in the next, unless that is free.
    Repeats,
    /// In a phased league the pairs of teams with both games in one half of the season.
    Halves,
    /// The rule at an index from 0, if it is hard.
    RuleAt(u8),
}

impl Part {
    /// How many breaches of it a schedule has.
    fn breaches(self, league: &League, schedule: &Schedule) -> u64
        requires size { schedule.now.teams ≡ teams league.now }
        requires part { IsPartOf league.now self }
        ensures { result ≡ breaches league.now self schedule.now }
    {
        match self {
            Part::Runs => runs_over(schedule, league),
            Part::Repeats => counted_repeats(schedule, league),
            Part::Halves if league.phased() => unphased(schedule),
            Part::Halves => 0,
            Part::RuleAt(i) => hard_breaches(league, i, schedule),
        }
    }

    /// In how many of the chains' best schedules it is broken.
    fn broken_in(self, league: &League, chains: &Chains) -> u64
        requires size { All (IsInLeague league.now) chains.now.bests.items }
        requires part { IsPartOf league.now self }
        ensures { result ≡ broken_in league.now self chains.now.bests.items }
    {
        let mut broken = 0;
        for best in &chains.bests {
            if self.breaches(league, &best.schedule) > 0 {
                broken += 1;
            }
        }
        broken
    }
}

/// How far a schedule is from the rule at an index, if that is hard.
fn hard_breaches(league: &League, i: u8, schedule: &Schedule) -> u64
    requires size { schedule.now.teams ≡ teams league.now }
    requires rule { i < length league.now.rules }
    ensures { result ≡ penalty_of hard_penalty schedule.now (slice_get league.now.rules i) }
{
    let rule = league.rule(usize::from(i));
    match rule.weight {
        Weight::Hard => deviation(schedule, rule),
        Weight::Soft(_) => 0,
    }
}

/// Writes how often each part is broken in the chains' best schedules, unless one of them is feasible.
pub(crate) fn write_broken<W: Sink>(
    out: &mut BufferedSink<'_, W>,
    reported: &Reported,
) -> Result<(), WriteFault>
    requires { All (IsInLeague reported.now.lead.league) reported.now.chains.bests.items }
    ensures { Writes W.held W.tally out.old out.new result
        (broken_if reported.now.least reported.now.lead.league reported.now.chains.bests.items) }
{
    match reported.least {
        Some(_) => Ok(()),
        None => write_lines(out, reported.lead.league(), &reported.chains),
    }
}

/// Writes a line for each part that is broken.
fn write_lines<W: Sink>(
    out: &mut BufferedSink<'_, W>,
    league: &League,
    chains: &Chains,
) -> Result<(), WriteFault>
    requires { All (IsInLeague league.now) chains.now.bests.items }
    ensures { Writes W.held W.tally out.old out.new result (broken_lines league.now chains.now.bests.items) }
{
    write_line(out, league, chains, Part::Runs)?;
    write_line(out, league, chains, Part::Repeats)?;
    write_line(out, league, chains, Part::Halves)?;
    write_rules(out, league, chains)
}

/// Writes a line for each hard rule that is broken.
fn write_rules<W: Sink>(
    out: &mut BufferedSink<'_, W>,
    league: &League,
    chains: &Chains,
) -> Result<(), WriteFault>
    requires { All (IsInLeague league.now) chains.now.bests.items }
    ensures { Writes W.held W.tally out.old out.new result (rule_lines league.now chains.now.bests.items) }
{
    for i in 0..league.rule_count() {
        write_line(out, league, chains, Part::RuleAt(i as u8))?;
    }
    Ok(())
}

/// Writes in how many of the schedules a part is broken, unless it is in none.
fn write_line<W: Sink>(
    out: &mut BufferedSink<'_, W>,
    league: &League,
    chains: &Chains,
    part: Part,
) -> Result<(), WriteFault>
    requires size { All (IsInLeague league.now) chains.now.bests.items }
    requires part { IsPartOf league.now part }
    ensures { Writes W.held W.tally out.old out.new result (broken_line league.now chains.now.bests.items part) }
{
    let broken = part.broken_in(league, chains);
    if broken == 0 {
        return Ok(());
    }
    write_name(out, league, part)?;
    write_pieces(
        out,
        &[
            Piece::Text(b"broken in "),
            Piece::Number(broken),
            Piece::Text(b" of "),
            Piece::Number(chains.bests.len() as u64),
            Piece::Text(b"\n"),
        ],
    )
}

fn write_name<W: Sink>(
    out: &mut BufferedSink<'_, W>,
    league: &League,
    part: Part,
) -> Result<(), WriteFault>
    requires { IsPartOf league.now part }
    ensures { Writes W.held W.tally out.old out.new result (part_name league.now part) }
{
    match part {
        Part::Runs => out.write(b"runs "),
        Part::Repeats => out.write(b"repeats "),
        Part::Halves => out.write(b"halves "),
        Part::RuleAt(i) => write_pieces(
            out,
            &[
                Piece::Text(b"rule "),
                Piece::Number(u64::from(i) + 1),
                Piece::Text(b" "),
                Piece::Text(class_name(&league.rule(usize::from(i)).body).as_bytes()),
                Piece::Text(b" "),
            ],
        ),
    }
}
