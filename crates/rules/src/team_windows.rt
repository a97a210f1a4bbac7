//! Windows of consecutive rounds, counted for many teams at once.

ghost use Rattle.std.specs.Prelude.{◌≡◌, ℕ, ◌+◌, ◌-◌, ◌*◌, ◌<◌, ◌≤◌, Bool, if◌then◌else◌, not, length, slice_index};
ghost use Rattle.league.specs.Limits.{max_teams, max_rounds};
ghost use Rattle.league.specs.Sets.{has, IsBelow};
ghost use Rattle.league.specs.Sums.{sum_where, count_where};
ghost use Rattle.rules.specs.Deviations.{over};
ghost use Rattle.rules.specs.within.TeamWindows.{over_from, rows_lack, IsInRows};

use crate::counted_rows::ROUNDS;
use league::{SlotSet, TeamSet};

/// The rounds of each window that begins with one of the starts whose rows have a team, over the most, for each of the teams.
pub(crate) fn over_in_rows(
    rows: &[TeamSet; ROUNDS],
    teams: TeamSet,
    starts: SlotSet,
    window: u8,
    most: u32,
) -> u64
    requires len { length rows.now ≡ max_rounds }
    requires longer { most < window }
    requires told { window ≤ most + 2 }
    requires season { window ≤ max_rounds }
    requires teams { IsBelow max_teams teams }
    requires starts { IsBelow (max_rounds + 1 - window) starts }
    ensures { (n m : ℕ) → IsBelow n teams → IsBelow m starts →
        result ≡ sum_where m (has starts) (λ first. sum_where n (has teams)
        (λ t. over (count_where window (λ k. has (slice_index rows.now (first + k)) t)) most)) }
{
    let length = usize::from(window);
    let mut total = 0;
    // a start that may be counted with the one after it
    let mut waiting: Option<u8> = None;
    for start in starts {
        match waiting {
            Some(first) if start == first + 1 => {
                total += over_in_two(rows, teams, first.into(), length, most);
                waiting = None;
            }
            Some(first) => {
                total += over_in_one(rows, teams, first.into(), length, most);
                waiting = Some(start);
            }
            None => waiting = Some(start),
        }
    }
    match waiting {
        Some(first) => total + over_in_one(rows, teams, first.into(), length, most),
        None => total,
    }
}

/// The same of the window that begins with this round.
#[inline(always)]
fn over_in_one(
    rows: &[TeamSet; ROUNDS],
    teams: TeamSet,
    first: usize,
    window: usize,
    most: u32,
) -> u64
    requires len { length rows.now ≡ max_rounds }
    requires longer { most < window }
    requires told { window ≤ most + 2 }
    requires season { first + window ≤ max_rounds }
    ensures value { (n : ℕ) → IsBelow n teams → result ≡ over_from rows.now teams window most n first }
    ensures most { result ≤ 2 * max_teams }
{
    let others = window - 1;
    InRows::all(rows, teams, first, others).over_with(rows[first + others], window, most)
}

/// The same of two windows, the second of which begins a round later. The rows of both are looked at once.
#[inline(always)]
fn over_in_two(
    rows: &[TeamSet; ROUNDS],
    teams: TeamSet,
    first: usize,
    window: usize,
    most: u32,
) -> u64
    requires len { length rows.now ≡ max_rounds }
    requires longer { most < window }
    requires told { window ≤ most + 2 }
    requires season { first + window < max_rounds }
    ensures value { (n : ℕ) → IsBelow n teams →
        result ≡ over_from rows.now teams window most n first + over_from rows.now teams window most n (first + 1) }
    ensures most { result ≤ 4 * max_teams }
{
    let both = InRows::all(rows, teams, first + 1, window - 1);
    let earlier = both.over_with(rows[first], window, most);
    let later = both.over_with(rows[first + window], window, most);
    earlier + later
}

/// Of some teams those that are in each of some rows, and those that are in each but one at most.
#[derive(Clone, Copy, Drop)]
struct InRows {
    each: TeamSet,
    but_one: TeamSet,
}

impl InRows {
    /// The teams that are in so many rows from the first on.
    #[inline(always)]
    fn all(rows: &[TeamSet; ROUNDS], teams: TeamSet, first: usize, count: usize) -> Self
        requires len { length rows.now ≡ max_rounds }
        requires season { first + count ≤ max_rounds }
        ensures { IsInRows teams (rows_lack rows.now first count) result }
    {
        let mut in_rows = InRows {
            each: teams,
            but_one: teams,
        };
        for round in first..first + count {
            in_rows = in_rows.and(rows[round]);
        }
        in_rows
    }

    /// With one row more.
    #[inline(always)]
    fn and(&self, row: TeamSet) -> Self
        ensures { (teams : ℕ) (lacks : ℕ → ℕ) → IsInRows teams lacks self.now →
            IsInRows teams (λ t. lacks t + (if not (has row t) then 1 else 0)) result }
    {
        InRows {
            each: self.each.intersection(row),
            but_one: self.but_one.intersection(row).union(self.each),
        }
    }

    /// Adds up for the teams the rows of a window that have them, over the most, where these are all its rows but this one: told by how
    /// many rows lack them. If the window is two longer than the most, a team in each of these is over it, and once more if the row has it.
    #[inline(always)]
    fn over_with(&self, row: TeamSet, window: usize, most: u32) -> u64
        requires longer { most < window }
        requires told { window ≤ most + 2 }
        ensures value { (n teams : ℕ) (lacks : ℕ → ℕ) (in_row : ℕ → ℕ → Bool) → IsBelow n teams → IsInRows teams lacks self.now →
            ((t : ℕ) → lacks t + (if not (has row t) then 1 else 0) ≡ count_where window (λ k. not (in_row t k))) →
            result ≡ sum_where n (has teams) (λ t. over (count_where window (in_row t)) most) }
        ensures most { result ≤ 2 * max_teams }
    {
        if window == most as usize + 1 {
            self.each.intersection(row).len().into()
        } else {
            u64::from(self.each.len()) + u64::from(self.but_one.intersection(row).len())
        }
    }
}
