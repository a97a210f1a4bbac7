//! What the prices of sets come to.

ghost use Rattle.std.specs.Prelude.{◌≡◌, ◌*◌, ◌≤◌, length, slice_index, true};
ghost use Rattle.sets.specs.Sums.{sum_below};
ghost use Rattle.bounds.specs.within.Prices.{longer};

use crate::limits::LONGER;

/// Whether all prices together are at most by what a leg is longer.
pub(crate) fn are_payable(prices: &[u64]) -> bool
    ensures { result ≡ true → sum_below (length prices.now) (slice_index prices.now) ≤ longer }
{
    let mut all = 0_u64;
    for price in prices {
        all = all.saturating_add(*price);
    }
    all <= LONGER
}

/// The prices, each as often as a tour leads into its set at least.
pub(crate) fn paid(prices: &[u64], entries: &[u8]) -> u64
    requires { length entries.now ≡ length prices.now }
    ensures { result ≤ sum_below (length prices.now) (λ k. slice_index prices.now k * slice_index entries.now k) }
{
    let mut paid = 0_u64;
    for (k, price) in prices.iter().enumerate() {
        paid = paid.saturating_add(price.saturating_mul(u64::from(entries[k])));
    }
    paid
}
