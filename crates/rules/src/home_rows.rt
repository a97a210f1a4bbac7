//! Rows of home games: how many a team has up to and with each round.

ghost use Rattle.std.specs.Prelude.{◌≡◌, ℕ, ◌+◌, ◌*◌, ◌<◌, ◌≤◌, max, min, length, slice_index};
ghost use Rattle.league.specs.Limits.{max_rounds};
ghost use Rattle.league.specs.Sets.{has, IsBelow};
ghost use Rattle.rules.specs.Deviations.{largest_below};
ghost use Rattle.rules.specs.within.HomeTables.{IsHomeRow, is_home_with};
ghost use Rattle.rules.specs.within.Walked.{IsStep, apart_in, chunk_count, from_on, lane_count, mask_in, row_length, worst_apart};

use league::SlotSet;
use league::limits::MAX_TEAMS;

/// The length of a row, which has a number for each round: some more than the rounds of the longest season, so that they are a multiple of
/// those that the machine compares at once.
pub(crate) const ROW: usize = 80;

/// How many numbers of a row the machine compares at once.
const LANES: usize = 16;

pub(crate) const TEAMS: usize = MAX_TEAMS as usize;

/// A number for each round.
pub(crate) type HomeRow = [u8; ROW];

/// 0 as long as a row is, and then 1 as long. A window on it, as long as a row, is 0 before a round and 1 from it on: so a row is flipped
/// in a loop over all its rounds, of which the machine takes many at once.
type StepRow = [u8; 2 * ROW];

fn step() -> StepRow
    ensures { IsStep result }
{
    let mut step = [0; 2 * ROW];
    for place in ROW..2 * ROW {
        step[place] = 1;
    }
    step
}

/// The greatest number in each round that is a slot, and 0 in each other.
pub(crate) fn mask_of(slots: SlotSet, rounds: u8) -> HomeRow
    requires season { rounds ≤ max_rounds }
    requires slots { IsBelow rounds slots }
    ensures { (r : ℕ) → slice_index result r ≡ mask_in slots r }
{
    let mut row = [0; ROW];
    for round in 0..rounds {
        if slots.has(round) {
            row[usize::from(round)] = u8::MAX;
        }
    }
    row
}

/// Makes the row, which is of home rounds that differ from these in the changed ones, one of these.
pub(crate) fn flip(row: &mut HomeRow, changed: SlotSet, homes: SlotSet)
    requires changed { IsBelow max_rounds changed }
    requires row { IsHomeRow (is_home_with homes changed) row.old }
    ensures { IsHomeRow (has homes) row.new }
{
    let step = step();
    for round in changed {
        if homes.has(round) {
            gain(row, round, &step);
        } else {
            lose(row, round, &step);
        }
    }
}

/// Adds one in each round from the first on.
#[inline]
fn gain(row: &mut HomeRow, first: u8, step: &StepRow)
    requires first { first < row_length }
    requires step { IsStep step.now }
    requires len { length row.old ≡ row_length }
    requires fits { (r : ℕ) → slice_index row.old r < 255 }
    ensures len { length row.new ≡ row_length }
    ensures gained { (r : ℕ) → r < row_length → slice_index row.new r ≡ slice_index row.old r + from_on first r }
{
    let from = ROW - usize::from(first);
    for round in 0..ROW {
        row[round] += step[from + round];
    }
}

/// Takes one away in each round from the first on.
#[inline]
fn lose(row: &mut HomeRow, first: u8, step: &StepRow)
    requires first { first < row_length }
    requires step { IsStep step.now }
    requires len { length row.old ≡ row_length }
    requires some { (r : ℕ) → r < row_length → from_on first r ≤ slice_index row.old r }
    ensures len { length row.new ≡ row_length }
    ensures lost { (r : ℕ) → r < row_length → slice_index row.new r + from_on first r ≡ slice_index row.old r }
{
    let from = ROW - usize::from(first);
    for round in 0..ROW {
        row[round] -= step[from + round];
    }
}

/// Raises each number to the other row's, if it is lower.
#[inline]
pub(crate) fn raise(row: &mut HomeRow, other: &HomeRow)
    ensures { (r : ℕ) → r < row_length → slice_index row.new r ≡ max (slice_index row.old r) (slice_index other.now r) }
{
    for round in 0..ROW {
        row[round] = row[round].max(other[round]);
    }
}

/// Lowers each number to the other row's, if it is higher.
#[inline]
pub(crate) fn lower(row: &mut HomeRow, other: &HomeRow)
    ensures { (r : ℕ) → r < row_length → slice_index row.new r ≡ min (slice_index row.old r) (slice_index other.now r) }
{
    for round in 0..ROW {
        row[round] = row[round].min(other[round]);
    }
}

/// The largest number by which the rows are apart in a round, at most the mask's. Each lane is followed through its rounds, so that the
/// machine has all lanes at once and no loop over chunks.
#[inline]
pub(crate) fn worst_apart(mask: &HomeRow, first: &HomeRow, second: &HomeRow) -> u8
    ensures { result ≡ worst_apart mask.now first.now second.now }
{
    let mut largest = 0;
    for lane in 0..LANES {
        largest = largest.max(worst_in_lane(mask, first, second, lane));
    }
    largest
}

/// The largest number by which the rows are apart in the rounds of a lane: one of each chunk, as far on in it.
#[inline]
fn worst_in_lane(mask: &HomeRow, first: &HomeRow, second: &HomeRow, lane: usize) -> u8
    requires { lane < lane_count }
    ensures { result ≡ largest_below chunk_count (λ chunk. apart_in mask.now first.now second.now (chunk * lane_count + lane)) }
{
    let mut largest = 0;
    for chunk in 0..ROW / LANES {
        let round = chunk * LANES + lane;
        let apart = first[round].max(second[round]) - first[round].min(second[round]);
        largest = largest.max(apart.min(mask[round]));
    }
    largest
}
