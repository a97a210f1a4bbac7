//! Windows of consecutive rounds: how many rounds of a set each of them has.

ghost use Rattle.std.specs.Prelude.{◌≡◌, ℕ, ◌+◌, ◌-◌, ◌*◌, ◌<◌, ◌≤◌, ◌&&◌, ◌==◌, nat_lt};
ghost use Rattle.league.specs.Limits.{max_rounds};
ghost use Rattle.league.specs.Sets.{has, IsBelow};
ghost use Rattle.league.specs.Sums.{sum_where, count_where};
ghost use Rattle.rules.specs.Deviations.{over};
ghost use Rattle.rules.specs.within.Walked.{lacks};

use crate::counted_games::over;
use league::SlotSet;
use league::limits::MAX_ROUNDS;

/// The rounds of the set in each window that begins with one of the starts, over the most.
pub(crate) fn over_in_windows_of(
    set: SlotSet,
    rounds: u8,
    starts: SlotSet,
    window: u8,
    most: u32,
) -> u64
    requires least { 1 ≤ window }
    requires window { window ≤ rounds }
    requires season { rounds ≤ max_rounds }
    requires starts { IsBelow (rounds + 1 - window) starts }
    ensures value { result ≡ sum_where (rounds + 1 - window) (has starts)
        (λ first. over (count_where window (λ k. has set (first + k))) most) }
    ensures most { result ≤ max_rounds * max_rounds }
{
    match u32::from(window).saturating_sub(most) {
        0 => 0,
        1 => full_windows(set, starts, window).full.len().into(),
        2 => {
            let windows = full_windows(set, starts, window);
            u64::from(windows.full.len()) + u64::from(windows.nearly.len())
        }
        _ => over_from(set, rounds + 1 - window, starts, window, most),
    }
}

/// Windows by the rounds with which they begin.
#[derive(Clone, Copy, Drop)]
struct Windows {
    /// The windows that lack none of their rounds in a set.
    full: SlotSet,
    /// The windows that lack at most one.
    nearly: SlotSet,
}

/// Of the windows that begin with one of the starts those that lack in the set no round, or at most one.
fn full_windows(set: SlotSet, starts: SlotSet, window: u8) -> Windows
    requires season { window ≤ max_rounds }
    requires starts { IsBelow (max_rounds + 1 - window) starts }
    ensures full { (s : ℕ) → has result.full s ≡ (has starts s && lacks set s window == 0) }
    ensures nearly { (s : ℕ) → has result.nearly s ≡ (has starts s && nat_lt (lacks set s window) 2) }
    ensures full_below { (m : ℕ) → IsBelow m starts → IsBelow m result.full }
    ensures nearly_below { (m : ℕ) → IsBelow m starts → IsBelow m result.nearly }
{
    let mut full = starts;
    let mut nearly = starts;
    let mut next = set;
    for _ in 0..window {
        nearly = nearly.intersection(next).union(full);
        full = full.intersection(next);
        next = before(next);
    }
    Windows { full, nearly }
}

/// The rounds after which the next one is in the set, but for the last round of the longest season.
pub(crate) fn before(set: SlotSet) -> SlotSet
    ensures { (s : ℕ) → s + 1 < max_rounds → has result s ≡ has set (s + 1) }
{
    let alike = set.like_next_below(MAX_ROUNDS);
    set.symmetric_difference(SlotSet::below(MAX_ROUNDS - 1).difference(alike))
}

/// The rounds of the set in each window that begins with one of the starts, over the most.
fn over_from(set: SlotSet, windows: u8, starts: SlotSet, window: u8, most: u32) -> u64
    requires least { 1 ≤ window }
    requires season { windows + window ≤ max_rounds + 1 }
    requires starts { IsBelow windows starts }
    ensures value { result ≡
        sum_where windows (has starts) (λ first. over (count_where window (λ k. has set (first + k))) most) }
    ensures most { result ≤ max_rounds * max_rounds }
{
    let mut total = 0;
    for first in starts {
        total += over(rounds_in_window(set, first, window), most);
    }
    total
}

/// How many of the rounds are in the window that begins with the round `first`.
fn rounds_in_window(rounds: SlotSet, first: u8, window: u8) -> u32
    requires { first + window ≤ max_rounds }
    ensures value { result ≡ count_where window (λ k. has rounds (first + k)) }
    ensures most { result ≤ window }
{
    let past = SlotSet::below(first);
    let until_end = SlotSet::below(first + window);
    until_end.difference(past).intersection(rounds).len()
}
