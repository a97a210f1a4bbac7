//! A number for each round, kept by its bits, so that one is added in many rounds at once.

ghost use Rattle.std.specs.Prelude.{◌≡◌, ℕ, ◌+◌, ◌*◌, ◌<◌, ◌≤◌, ◌&&◌, if◌then◌else◌};
ghost use Rattle.league.specs.Limits.{max_rounds};
ghost use Rattle.league.specs.Sets.{has};
ghost use Rattle.league.specs.Sums.{sum_below};
ghost use Rattle.rules.specs.Deviations.{over};
ghost use Rattle.rules.specs.within.Walked.{one_in, number_at};

use league::SlotSet;

/// A number below 128 for each round. Each set has the rounds whose numbers have one bit.
#[derive(Drop)]
pub(crate) struct RoundNumbers {
    ones: SlotSet,
    twos: SlotSet,
    fours: SlotSet,
    eights: SlotSet,
    sixteens: SlotSet,
    thirty_twos: SlotSet,
    sixty_fours: SlotSet,
}

impl RoundNumbers {
    /// The number in each of the rounds, and 0 in the others.
    pub(crate) fn new(rounds: SlotSet, number: u8) -> Self
        requires { number < 128 }
        ensures { (r : ℕ) → number_at result r ≡ (if has rounds r then number else 0) }
    {
        RoundNumbers {
            ones: rounds_with_bit(rounds, number, 0),
            twos: rounds_with_bit(rounds, number, 1),
            fours: rounds_with_bit(rounds, number, 2),
            eights: rounds_with_bit(rounds, number, 3),
            sixteens: rounds_with_bit(rounds, number, 4),
            thirty_twos: rounds_with_bit(rounds, number, 5),
            sixty_fours: rounds_with_bit(rounds, number, 6),
        }
    }

    /// Adds 1 in each of the rounds.
    pub(crate) fn add(&mut self, rounds: SlotSet)
        requires { (r : ℕ) → number_at self.old r < 127 }
        ensures { (r : ℕ) → number_at self.new r ≡ number_at self.old r + one_in rounds r }
    {
        let carry = add_bit(&mut self.ones, rounds);
        let carry = add_bit(&mut self.twos, carry);
        let carry = add_bit(&mut self.fours, carry);
        let carry = add_bit(&mut self.eights, carry);
        let carry = add_bit(&mut self.sixteens, carry);
        let carry = add_bit(&mut self.thirty_twos, carry);
        add_bit(&mut self.sixty_fours, carry);
    }

    /// By how much the numbers are over 64.
    pub(crate) fn over_64(&self) -> u64
        ensures { result ≡ sum_below max_rounds (λ r. over (number_at self.now r) 64) }
    {
        let over = self.sixty_fours;
        let ones = self.ones.intersection(over).len();
        let twos = self.twos.intersection(over).len();
        let fours = self.fours.intersection(over).len();
        let eights = self.eights.intersection(over).len();
        let sixteens = self.sixteens.intersection(over).len();
        let thirty_twos = self.thirty_twos.intersection(over).len();
        u64::from(ones + 2 * twos + 4 * fours + 8 * eights + 16 * sixteens + 32 * thirty_twos)
    }
}

/// The rounds where the number has the bit, and none where it doesn't.
fn rounds_with_bit(rounds: SlotSet, number: u8, bit: u8) -> SlotSet
    requires { bit < 8 }
    ensures { (r : ℕ) → has result r ≡ (has number bit && has rounds r) }
{
    if number >> bit & 1 == 1 {
        rounds
    } else {
        SlotSet::empty()
    }
}

/// Adds 1 to a bit in each of the rounds, and gives those of them where it was 1: they carry 1 to the next bit.
#[inline]
fn add_bit(bit: &mut SlotSet, rounds: SlotSet) -> SlotSet
    ensures { (r : ℕ) → one_in bit.new r + 2 * one_in result r ≡ one_in bit.old r + one_in rounds r }
{
    let carry = bit.intersection(rounds);
    *bit = bit.symmetric_difference(rounds);
    carry
}
