//! The moves that a worker draws.

ghost use Rattle.std.specs.Prelude.{◌≡◌, ◌<◌, ◌≤◌, Contains, length};
ghost use Rattle.league.specs.Limits.{max_teams, max_rounds};
ghost use Rattle.fixtures.specs.Games.{round_count};
ghost use Rattle.moves.specs.Moves.{kind_of};
ghost use Rattle.draws.specs.Draws.{stream_of_generator, number, one_of, drawn_among, drawn_move, each_round, AreRoundsOf, CanDraw, IsInRange};

use league::limits::{MAX_ROUNDS, round_count};
use moves::{Move, MoveKind};
use rand::RngExt;
use rand_pcg::Lcg64Xsh32;

/// The kinds of move, in the order of `Move`.
const KINDS: [MoveKind; 5] = [
    MoveKind::Homes,
    MoveKind::Rounds,
    MoveKind::Teams,
    MoveKind::PartRounds,
    MoveKind::PartTeams,
];

/// The rounds of the longest season.
static ROUNDS: [u8; MAX_ROUNDS as usize] = [
    0, 1, 2, 3, 4, 5, 6, 7, 8, 9, 10, 11, 12, 13, 14, 15, 16, 17, 18, 19, 20, 21, 22, 23, 24, 25,
    26, 27, 28, 29, 30, 31, 32, 33, 34, 35, 36, 37, 38, 39, 40, 41, 42, 43, 44, 45, 46, 47, 48, 49,
    50, 51, 52, 53, 54, 55, 56, 57, 58, 59, 60, 61, 62, 63, 64, 65, 66, 67, 68, 69, 70, 71, 72, 73,
    74, 75, 76, 77,
];

/// The kinds and rounds among which a move is drawn.
#[derive(Clone, Copy)]
pub struct Draws<'a> {
    /// How many teams there are.
    pub teams: u8,
    /// Its kinds, each as likely as the others.
    pub kinds: &'a [MoveKind],
    /// The rounds that it may name.
    pub rounds: &'a [u8],
}

/// Draws a move for a league of `teams` teams: a kind, in the order of `Move`, and then its fields in theirs, each
/// any team or any round. So a move can be drawn that can't be made.
pub fn draw(generator: &mut Lcg64Xsh32, teams: u8) -> Move
    requires two { 2 ≤ teams }
    requires most { teams ≤ max_teams }
    ensures drawn { (result, stream_of_generator generator.new) ≡ drawn_move teams (stream_of_generator generator.old) }
    ensures within { IsInRange teams (round_count teams) result }
{
    let draws = Draws {
        teams,
        kinds: &KINDS,
        rounds: each_round(teams),
    };
    draw_among(generator, draws)
}

/// All rounds of a season of so many teams.
pub fn each_round(teams: u8) -> &'static [u8]
    requires least { 2 ≤ teams }
    requires most { teams ≤ max_teams }
    ensures value { result.now ≡ each_round teams }
    ensures are { AreRoundsOf teams result.now }
{
    &ROUNDS[..usize::from(round_count(teams))]
}

/// As `draw`, of some kinds and in some rounds alone: a kind, and then its fields.
// a call would copy the slices, in each step
#[inline(always)]
pub fn draw_among(generator: &mut Lcg64Xsh32, draws: Draws<'_>) -> Move
    requires { CanDraw draws.teams draws.kinds.now draws.rounds.now }
    ensures drawn { (result, stream_of_generator generator.new) ≡
        drawn_among draws.entry.teams draws.entry.kinds.now draws.entry.rounds.now (stream_of_generator generator.old) }
    ensures within { IsInRange draws.entry.teams (round_count draws.entry.teams) result }
    ensures kind { Contains draws.entry.kinds.now (kind_of result) }
{
    let Draws {
        teams,
        kinds,
        rounds,
    } = draws;
    match kinds[usize::from(number_below(generator, kinds.len() as u8))] {
        MoveKind::Homes => {
            let i = number_below(generator, teams);
            let j = number_below(generator, teams);
            Move::Homes { i, j }
        }
        MoveKind::Rounds => {
            let k = one_of(generator, rounds);
            let l = one_of(generator, rounds);
            Move::Rounds { k, l }
        }
        MoveKind::Teams => {
            let i = number_below(generator, teams);
            let j = number_below(generator, teams);
            Move::Teams { i, j }
        }
        MoveKind::PartRounds => {
            let i = number_below(generator, teams);
            let k = one_of(generator, rounds);
            let l = one_of(generator, rounds);
            Move::PartRounds { i, k, l }
        }
        MoveKind::PartTeams => {
            let i = number_below(generator, teams);
            let j = number_below(generator, teams);
            let k = one_of(generator, rounds);
            Move::PartTeams { i, j, k }
        }
    }
}

/// One of the rounds.
fn one_of(generator: &mut Lcg64Xsh32, rounds: &[u8]) -> u8
    requires some { 1 ≤ length rounds.now }
    requires few { length rounds.now ≤ max_rounds }
    ensures drawn { (result, stream_of_generator generator.new) ≡ one_of rounds.now (stream_of_generator generator.old) }
    ensures there { Contains rounds.now result }
{
    rounds[usize::from(number_below(generator, rounds.len() as u8))]
}

/// A number below `most`, drawn as `rand` draws from a range of `u32`.
fn number_below(generator: &mut Lcg64Xsh32, most: u8) -> u8
    requires { 0 < most }
    ensures drawn { (result, stream_of_generator generator.new) ≡ number most (stream_of_generator generator.old) }
    ensures within { result < most }
{
    let number: u32 = generator.random_range(0..u32::from(most));
    number as u8
}
