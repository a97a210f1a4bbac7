//! The cost of a double round robin, and its parts.

ghost use Rattle.std.specs.Prelude.{◌≡◌, ◌+◌, ◌-◌, ◌^◌, ◌<◌};
ghost use Rattle.league.specs.League.{teams};
ghost use Rattle.league.specs.RuleLimits.{IsBodyFor};
ghost use Rattle.fixtures.specs.Games.{round_count};
ghost use Rattle.costs.specs.Costs.{total_of};
ghost use Rattle.byte_streams.specs.Pieces.{pieces_below};
ghost use Rattle.byte_streams.specs.Writing.{Writes};
ghost use Rattle.report_text.specs.CostText.{costs_line, meetings_line, total_line};
ghost use Rattle.report_text.specs.within.CostText.{half_line, half_lines, halves_text, parts_text, repeat_line, repeat_lines, repeats_text};
ghost use Rattle.report_text.specs.within.CostText.{rule_line, rule_lines, rule_text, tour_line};

use crate::leaving::write_leaving;
use crate::runs::write_runs;
use byte_streams::{BufferedSink, Sink, WriteFault};
use costs::{Cost, cost_of};
use fixtures::Schedule;
use league::{League, Rule, Weight};
use report_breaches::write_breaches;
use rules::deviation;
use text_lines::{Piece, class_name, write_pieces};
use tours::{is_unphased, travel_of};

/// Writes the cost of a schedule, a line for each part of it, and the total if no hard limit is broken.
pub(crate) fn write_costs<W: Sink>(
    out: &mut BufferedSink<'_, W>,
    league: &League,
    schedule: &Schedule,
) -> Result<(), WriteFault>
    requires { schedule.now.teams ≡ teams league.now }
    ensures { Writes W.held W.tally out.old out.new result (parts_text league.now schedule.now) }
{
    let cost = cost_of(schedule, league);
    write_cost(out, cost)?;
    write_tours(out, league, schedule)?;
    write_runs(out, schedule, league.at_most())?;
    write_repeats(out, league, schedule)?;
    write_halves(out, league, schedule)?;
    write_rules(out, league, schedule)?;
    write_leaving(out, league, schedule)?;
    write_total(out, cost)
}

fn write_cost<W: Sink>(out: &mut BufferedSink<'_, W>, cost: Cost) -> Result<(), WriteFault>
    ensures { Writes W.held W.tally out.old out.new result (costs_line cost) }
{
    write_pieces(
        out,
        &[
            Piece::Text(b"travel "),
            Piece::Number(cost.travel),
            Piece::Text(b" hard "),
            Piece::Number(cost.hard),
            Piece::Text(b" soft "),
            Piece::Number(cost.soft),
            Piece::Text(b"\n"),
        ],
    )
}

fn write_tours<W: Sink>(
    out: &mut BufferedSink<'_, W>,
    league: &League,
    schedule: &Schedule,
) -> Result<(), WriteFault>
    requires { schedule.now.teams ≡ teams league.now }
    ensures { Writes W.held W.tally out.old out.new result
        (pieces_below (tour_line league.now schedule.now) schedule.now.teams) }
{
    for team in 0..schedule.teams() {
        write_tour(out, league, schedule, team)?;
    }
    Ok(())
}

fn write_tour<W: Sink>(
    out: &mut BufferedSink<'_, W>,
    league: &League,
    schedule: &Schedule,
    team: u8,
) -> Result<(), WriteFault>
    requires same { schedule.now.teams ≡ teams league.now }
    requires team { team < schedule.now.teams }
    ensures { Writes W.held W.tally out.old out.new result (tour_line league.now schedule.now team) }
{
    let travel = travel_of(schedule, league, team);
    write_pieces(
        out,
        &[
            Piece::Text(b"tour "),
            Piece::Number(team as u64 + 1),
            Piece::Text(b" travel "),
            Piece::Number(travel),
            Piece::Text(b"\n"),
        ],
    )
}

fn write_repeats<W: Sink>(
    out: &mut BufferedSink<'_, W>,
    league: &League,
    schedule: &Schedule,
) -> Result<(), WriteFault>
    ensures { Writes W.held W.tally out.old out.new result (repeats_text league.now schedule.now) }
{
    if league.free_repeats() {
        Ok(())
    } else {
        write_all_repeats(out, schedule)
    }
}

fn write_all_repeats<W: Sink>(
    out: &mut BufferedSink<'_, W>,
    schedule: &Schedule,
) -> Result<(), WriteFault>
    ensures { Writes W.held W.tally out.old out.new result
        (pieces_below (repeat_lines schedule.now) (round_count schedule.now.teams - 1)) }
{
    for round in 0..schedule.rounds() - 1 {
        write_repeats_after(out, schedule, round)?;
    }
    Ok(())
}

fn write_repeats_after<W: Sink>(
    out: &mut BufferedSink<'_, W>,
    schedule: &Schedule,
    round: u8,
) -> Result<(), WriteFault>
    requires { round + 1 < round_count schedule.now.teams }
    ensures { Writes W.held W.tally out.old out.new result (repeat_lines schedule.now round) }
{
    for team in 0..schedule.teams() {
        write_repeat(out, schedule, round, team)?;
    }
    Ok(())
}

/// Names the pair if the team meets the same lower team in the round and in the next.
fn write_repeat<W: Sink>(
    out: &mut BufferedSink<'_, W>,
    schedule: &Schedule,
    round: u8,
    team: u8,
) -> Result<(), WriteFault>
    requires team { team < schedule.now.teams }
    requires next { round + 1 < round_count schedule.now.teams }
    ensures { Writes W.held W.tally out.old out.new result (repeat_line schedule.now round team) }
{
    let opponent = schedule.game_at(team, round).opponent;
    let next = schedule.game_at(team, round + 1).opponent;
    if opponent >= team || opponent != next {
        return Ok(());
    }
    write_meetings(out, b"repeat ", (opponent, team), (round, round + 1))
}

/// Names a pair, and the rounds of two games of it.
fn write_meetings<W: Sink>(
    out: &mut BufferedSink<'_, W>,
    word: &[u8],
    pair: (u8, u8),
    rounds: (u8, u8),
) -> Result<(), WriteFault>
    ensures { Writes W.held W.tally out.old out.new result
        (meetings_line word.now pair.0 pair.1 rounds.0 rounds.1) }
{
    write_pieces(
        out,
        &[
            Piece::Text(word),
            Piece::Number(pair.0 as u64 + 1),
            Piece::Text(b"-"),
            Piece::Number(pair.1 as u64 + 1),
            Piece::Text(b" rounds "),
            Piece::Number(rounds.0 as u64 + 1),
            Piece::Text(b" "),
            Piece::Number(rounds.1 as u64 + 1),
            Piece::Text(b"\n"),
        ],
    )
}

fn write_halves<W: Sink>(
    out: &mut BufferedSink<'_, W>,
    league: &League,
    schedule: &Schedule,
) -> Result<(), WriteFault>
    ensures { Writes W.held W.tally out.old out.new result (halves_text league.now schedule.now) }
{
    if league.phased() {
        write_all_halves(out, schedule)
    } else {
        Ok(())
    }
}

fn write_all_halves<W: Sink>(
    out: &mut BufferedSink<'_, W>,
    schedule: &Schedule,
) -> Result<(), WriteFault>
    ensures { Writes W.held W.tally out.old out.new result
        (pieces_below (half_lines schedule.now) schedule.now.teams) }
{
    for high in 0..schedule.teams() {
        write_halves_of(out, schedule, high)?;
    }
    Ok(())
}

fn write_halves_of<W: Sink>(
    out: &mut BufferedSink<'_, W>,
    schedule: &Schedule,
    high: u8,
) -> Result<(), WriteFault>
    requires { high < schedule.now.teams }
    ensures { Writes W.held W.tally out.old out.new result (half_lines schedule.now high) }
{
    for low in 0..high {
        write_half(out, schedule, high, low)?;
    }
    Ok(())
}

/// Names the pair if it plays both its games in one half of the season.
fn write_half<W: Sink>(
    out: &mut BufferedSink<'_, W>,
    schedule: &Schedule,
    high: u8,
    low: u8,
) -> Result<(), WriteFault>
    requires high { high < schedule.now.teams }
    requires low { low < high }
    ensures { Writes W.held W.tally out.old out.new result (half_line schedule.now high low) }
{
    if !is_unphased(schedule, low, high) {
        return Ok(());
    }
    let rounds = (schedule.round_of(low, high), schedule.round_of(high, low));
    write_meetings(out, b"half ", (low, high), rounds)
}

fn write_rules<W: Sink>(
    out: &mut BufferedSink<'_, W>,
    league: &League,
    schedule: &Schedule,
) -> Result<(), WriteFault>
    requires { schedule.now.teams ≡ teams league.now }
    ensures { Writes W.held W.tally out.old out.new result (rule_lines league.now schedule.now) }
{
    for i in 0..league.rule_count() {
        write_rule(out, schedule, i as u64, league.rule(i))?;
    }
    Ok(())
}

/// Writes the rule, and a line for each breach of it.
fn write_rule<W: Sink>(
    out: &mut BufferedSink<'_, W>,
    schedule: &Schedule,
    i: u64,
    rule: &Rule,
) -> Result<(), WriteFault>
    requires few { i < 256 }
    requires body { IsBodyFor schedule.now.teams rule.now.body }
    ensures { Writes W.held W.tally out.old out.new result (rule_text schedule.now i rule.now) }
{
    write_rule_line(out, schedule, i, rule)?;
    write_breaches(out, i, schedule, rule)
}

fn write_rule_line<W: Sink>(
    out: &mut BufferedSink<'_, W>,
    schedule: &Schedule,
    i: u64,
    rule: &Rule,
) -> Result<(), WriteFault>
    requires few { i < 256 }
    requires body { IsBodyFor schedule.now.teams rule.now.body }
    ensures { Writes W.held W.tally out.old out.new result (rule_line schedule.now i rule.now rule.now.weight) }
{
    let deviation = deviation(schedule, rule);
    match rule.weight {
        Weight::Hard => write_pieces(
            out,
            &[
                Piece::Text(b"rule "),
                Piece::Number(i + 1),
                Piece::Text(b" "),
                Piece::Text(class_name(&rule.body).as_bytes()),
                Piece::Text(b" hard deviation "),
                Piece::Number(deviation),
                Piece::Text(b"\n"),
            ],
        ),
        Weight::Soft(weight) => write_pieces(
            out,
            &[
                Piece::Text(b"rule "),
                Piece::Number(i + 1),
                Piece::Text(b" "),
                Piece::Text(class_name(&rule.body).as_bytes()),
                Piece::Text(b" soft "),
                Piece::Number(weight as u64),
                Piece::Text(b" deviation "),
                Piece::Number(deviation),
                Piece::Text(b"\n"),
            ],
        ),
    }
}

/// The total, or that a hard limit is broken.
fn write_total<W: Sink>(out: &mut BufferedSink<'_, W>, cost: Cost) -> Result<(), WriteFault>
    requires { total_of cost < 2 ^ 64 }
    ensures { Writes W.held W.tally out.old out.new result (total_line cost) }
{
    if cost.is_feasible() {
        write_pieces(
            out,
            &[
                Piece::Text(b"total "),
                Piece::Number(cost.total()),
                Piece::Text(b"\n"),
            ],
        )
    } else {
        out.write(b"infeasible\n")
    }
}
