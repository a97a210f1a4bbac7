//! The limits that are broken in a schedule, in one line.

ghost use Rattle.std.specs.Prelude.{◌≡◌, ◌<◌, ◌≤◌, ◌^◌, ◌*◌};
ghost use Rattle.league.specs.Limits.{deviation_limit, max_teams};
ghost use Rattle.league.specs.League.{LeagueData, teams};
ghost use Rattle.fixtures.specs.Games.{Games};
ghost use Rattle.league.specs.RuleLimits.{IsBodyFor};
ghost use Rattle.byte_streams.specs.Writing.{Writes};
ghost use Rattle.tours.specs.Phased.{unphased};
ghost use Rattle.rules.specs.Deviations.{deviation};
ghost use Rattle.costs.specs.Costs.{cost_of, hard_penalty, where_phased};
ghost use Rattle.board_texts.specs.LeastHard.{breaches_told, lead_text, least_hard_line, part_text, rule_name, rule_parts};
ghost use Rattle.text_lines.specs.Pieces.{text_of_pieces};

use byte_streams::{BufferedSink, Sink, WriteFault};
use costs::{cost_of, counted_repeats};
use fixtures::Schedule;
use league::{League, Rule, RuleBody, Weight};
use rules::deviation;
use text_lines::{Piece, class_name, write_counted, write_pieces};
use tours::{runs_over, unphased};

/// Writes how many hard breaches the schedule has, and of which parts and rules they are. Takes no memory.
#[tactic(auto, unfolding(crate::specs::LeastHard::least_hard_line))]
pub(crate) fn write_least_hard<W: Sink>(
    out: &mut BufferedSink<'_, W>,
    league: &League,
    schedule: &Schedule,
) -> Result<(), WriteFault>
    requires { schedule.now.teams ≡ teams league.now }
    ensures { Writes W.held W.tally out.old out.new result (least_hard_line league.now schedule.now) }
{
    let runs = runs_over(schedule, league);
    let repeats = counted_repeats(schedule, league);
    let halves = halves(schedule, league);
    write_counted(out, b"least hard ", cost_of(schedule, league).hard)?;
    write_part(out, 0, &[Piece::Text(b"runs ")], runs)?;
    write_part(out, runs, &[Piece::Text(b"repeats ")], repeats)?;
    write_part(out, runs + repeats, &[Piece::Text(b"halves ")], halves)?;
    write_rules(out, league, schedule, runs + repeats + halves)?;
    out.write(b"\n")
}

/// The numbers of the parts add up to that of all. Does nothing: what is known is in its contract.
#[tactic(auto, using(crate::proofs::Breaches::add_up))]
pub fn breaches_add_up()
    ensures { (l : LeagueData) (g : Games) → breaches_told l g ≡ (cost_of l g).hard }
{}

/// The pairs of teams with both games in one half of the season, of which a league that isn't phased counts none.
fn halves(schedule: &Schedule, league: &League) -> u64
    ensures value { result ≡ where_phased league.now (unphased schedule.now) }
    ensures most { result ≤ max_teams * max_teams }
{
    if league.phased() {
        unphased(schedule)
    } else {
        0
    }
}

/// Writes a part that is broken so often, behind so many breaches of other parts, unless it isn't broken.
fn write_part<W: Sink>(
    out: &mut BufferedSink<'_, W>,
    before: u64,
    name: &[Piece<'_>],
    count: u64,
) -> Result<(), WriteFault>
    ensures { Writes W.held W.tally out.old out.new result (part_text before (text_of_pieces name.now) count) }
{
    if count == 0 {
        return Ok(());
    }
    out.write(lead_text(before))?;
    write_pieces(out, name)?;
    out.write_number(count)
}

fn lead_text(before: u64) -> &'static [u8]
    ensures { result.now ≡ lead_text before }
{
    if before == 0 { b": " } else { b", " }
}

/// Writes the hard rules that are broken, behind so many breaches of what is no rule.
#[tactic(auto, using(league::proofs::ForCallers::sums))]
fn write_rules<W: Sink>(
    out: &mut BufferedSink<'_, W>,
    league: &League,
    schedule: &Schedule,
    breaches: u64,
) -> Result<(), WriteFault>
    requires same { schedule.now.teams ≡ teams league.now }
    requires few { breaches < 2 ^ 32 }
    ensures { Writes W.held W.tally out.old out.new result (rule_parts league.now.rules schedule.now breaches) }
{
    let mut before = breaches;
    for i in 0..league.rule_count() {
        let rule = league.rule(i);
        let count = hard_breaches(schedule, rule);
        write_rule(out, before, i as u64, &rule.body, count)?;
        before += count;
    }
    Ok(())
}

/// How often the schedule breaks the rule, if that is hard.
fn hard_breaches(schedule: &Schedule, rule: &Rule) -> u64
    requires { IsBodyFor schedule.now.teams rule.now.body }
    ensures value { result ≡ hard_penalty rule.now.weight (deviation schedule.now rule.now.body) }
    ensures below { result < deviation_limit }
{
    match rule.weight {
        Weight::Hard => deviation(schedule, rule),
        Weight::Soft(_) => 0,
    }
}

fn write_rule<W: Sink>(
    out: &mut BufferedSink<'_, W>,
    before: u64,
    i: u64,
    body: &RuleBody,
    count: u64,
) -> Result<(), WriteFault>
    requires { i < 256 }
    ensures { Writes W.held W.tally out.old out.new result (part_text before (rule_name i body.now) count) }
{
    let name = &[
        Piece::Text(b"rule "),
        Piece::Number(i + 1),
        Piece::Text(b" "),
        Piece::Text(class_name(body).as_bytes()),
        Piece::Text(b" "),
    ];
    write_part(out, before, name, count)
}
