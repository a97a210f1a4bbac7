//! Sets of slots, each in one word of bits.

ghost use Rattle.std.specs.Prelude.{◌≡◌, ℕ, ◌+◌, ◌-◌, ◌*◌, ◌^◌, ◌<◌, ◌≤◌, ◌&&◌, ◌||◌, ◌==◌, not, nat_lt, false, if◌then◌else◌};
ghost use Rattle.std.specs.Iterator.{at_most};
ghost use Rattle.sets.specs.Limits.{max_rounds};
ghost use Rattle.sets.specs.Sums.{count_where, all_below, any_below};
ghost use Rattle.sets.specs.Sets.{has, has_or_follows, is_like_next, IsBelow, with_number, both, all_numbers};
ghost use Rattle.sets.specs.within.Sets.{TakesLowest};

use std::marker::Model;

/// A set of slots (rounds of a season), each from 0 to 77. Contracts see it as the number of its bits.
#[derive(Clone, Copy, Debug, Drop, PartialEq, Eq)]
pub struct SlotSet {
    bits: u128,
}

impl Model for SlotSet {
    ghost Value = { ℕ };

    ghost view = { λ s. s.bits };

    ghost invariant = { λ s. IsBelow max_rounds s.bits };

    ghost inverse = { λ bits. record { bits = bits } };
}

impl SlotSet {
    /// The set of no slots.
    pub fn empty() -> Self
        ensures value { result ≡ 0 }
        ensures members { (s : ℕ) → has result s ≡ false }
        ensures below { (m : ℕ) → IsBelow m result }
    {
        SlotSet { bits: 0 }
    }

    /// The set of the slots from 0 to `slots - 1`.
    #[tactic(auto, using(crate::proofs::SetWords::all_slots_below))]
    pub fn below(slots: u8) -> Self
        requires { slots ≤ max_rounds }
        ensures value { result ≡ all_numbers slots }
        ensures members { (s : ℕ) → has result s ≡ nat_lt s slots }
        ensures below { IsBelow slots result }
    {
        SlotSet {
            bits: (1 << slots) - 1,
        }
    }

    /// The set with this slot added.
    #[tactic(auto, using(crate::proofs::SetWords::slots_and_one))]
    pub fn with(self, slot: u8) -> Self
        requires { slot < max_rounds }
        ensures value { result ≡ with_number self slot }
        ensures members { (s : ℕ) → has result s ≡ (s == slot || has self s) }
        ensures below { (m : ℕ) → IsBelow m self → slot < m → IsBelow m result }
    {
        SlotSet {
            bits: self.bits | 1 << slot,
        }
    }

    /// The set of these two slots.
    pub fn two(k: u8, l: u8) -> Self
        requires k { k < max_rounds }
        requires l { l < max_rounds }
        ensures value { result ≡ both k l }
        ensures below { (m : ℕ) → k < m → l < m → IsBelow m result }
    {
        SlotSet::empty().with(l).with(k)
    }

    /// Whether the set has this slot.
    pub fn has(self, slot: u8) -> bool
        requires { slot < max_rounds }
        ensures { result ≡ has self slot }
    {
        // a word of 64 bits takes fewer instructions than one of 128
        if slot < 64 {
            (self.bits & 0xffff_ffff_ffff_ffff) as u64 >> slot & 1 == 1
        } else {
            (self.bits >> 64) as u64 >> (slot - 64) & 1 == 1
        }
    }

    /// How many slots there are.
    #[inline]
    #[tactic(auto, using(crate::proofs::SetBits::ones_count, crate::proofs::SetWords::slots_len))]
    pub fn len(self) -> u32
        ensures value { result ≡ count_where max_rounds (has self) }
        ensures among { (m : ℕ) → IsBelow m self → result ≡ count_where m (has self) }
        ensures most { result ≤ max_rounds }
    {
        let low = (self.bits & 0xffff_ffff_ffff_ffff) as u64;
        let high = (self.bits >> 64) as u64;
        // a season of up to 32 teams ends before slot 64
        if high == 0 {
            return low.count_ones();
        }
        low.count_ones() + high.count_ones()
    }

    /// The slots that are in one of the sets, or in both.
    #[tactic(auto, using(crate::proofs::SetWords::slots_of_either))]
    pub fn union(self, slots: SlotSet) -> Self
        ensures members { (s : ℕ) → has result s ≡ (has self s || has slots s) }
        ensures below { (m : ℕ) → IsBelow m self → IsBelow m slots → IsBelow m result }
    {
        SlotSet {
            bits: self.bits | slots.bits,
        }
    }

    /// The slots that are in both sets.
    #[tactic(auto, using(crate::proofs::SetBits::has_intersection))]
    pub fn intersection(self, slots: SlotSet) -> Self
        ensures members { (s : ℕ) → has result s ≡ (has self s && has slots s) }
        ensures below { (m : ℕ) → IsBelow m self → IsBelow m result }
    {
        SlotSet {
            bits: self.bits & slots.bits,
        }
    }

    /// The slots that are not in the other set.
    #[tactic(auto, using(crate::proofs::SetWords::slots_without))]
    pub fn difference(self, slots: SlotSet) -> Self
        ensures members { (s : ℕ) → has result s ≡ (has self s && not (has slots s)) }
        ensures below { (m : ℕ) → IsBelow m self → IsBelow m result }
    {
        SlotSet {
            bits: self.bits & !slots.bits,
        }
    }

    /// The set with each slot of the other added if it lacks it, and taken out if it has it.
    #[tactic(auto, using(crate::proofs::SetWords::slots_flipped))]
    pub fn symmetric_difference(self, slots: SlotSet) -> Self
        ensures members { (s : ℕ) → has result s ≡ (if has slots s then not (has self s) else has self s) }
        ensures below { (m : ℕ) → IsBelow m self → IsBelow m slots → IsBelow m result }
    {
        SlotSet {
            bits: self.bits ^ slots.bits,
        }
    }

    /// Whether some slot is in both sets.
    #[tactic(auto, using(crate::proofs::SetWords::slots_meet))]
    pub fn intersects(self, slots: SlotSet) -> bool
        ensures { result ≡ any_below max_rounds (λ s. has self s && has slots s) }
    {
        self.bits & slots.bits != 0
    }

    /// The slots from 0 to `slots - 2` that are as the next one is: both in the set, or neither.
    #[tactic(auto, using(crate::proofs::SetWords::slots_like_next))]
    pub fn like_next_below(self, slots: u8) -> Self
        requires { slots ≤ max_rounds }
        ensures members { (s : ℕ) → has result s ≡ (nat_lt (s + 1) slots && is_like_next self s) }
        ensures below { IsBelow (slots - 1) result }
    {
        SlotSet {
            bits: ((1 << slots) - 1) >> 1 & !(self.bits ^ self.bits >> 1),
        }
    }

    /// The slots and those that come next after one, from 0 to `slots - 1`.
    #[tactic(auto, using(crate::proofs::SetWords::slots_and_next))]
    pub fn with_next_below(self, slots: u8) -> Self
        requires { slots ≤ max_rounds }
        ensures members { (s : ℕ) → has result s ≡ (nat_lt s slots && has_or_follows self s) }
        ensures below { IsBelow slots result }
    {
        SlotSet {
            bits: (self.bits | self.bits << 1) & ((1 << slots) - 1),
        }
    }

    /// The slots from which on `length` slots in a row are in the set; `length` is at most one more than all slots.
    #[tactic(auto, using(crate::proofs::SetRows::has_row_of_one))]
    pub fn starts_within(self, length: u8) -> Self
        requires least { 1 ≤ length }
        requires most { length ≤ max_rounds + 1 }
        ensures members { (s : ℕ) → has result s ≡ all_below length (λ k. has self (s + k)) }
        ensures below { (m : ℕ) → IsBelow m self → IsBelow m result }
    {
        let mut starts = self.bits;
        for _ in 1..length {
            starts &= starts >> 1;
        }
        SlotSet { bits: starts }
    }

    /// The slots from which on one of `length` slots in a row is in the set; `length` is at most one more than all slots.
    #[tactic(auto, using(crate::proofs::SetRows::has_one_of_row))]
    pub fn starts_meeting(self, length: u8) -> Self
        requires { length ≤ max_rounds + 1 }
        ensures members { (s : ℕ) → has result s ≡ any_below length (λ k. has self (s + k)) }
        ensures below { (m : ℕ) → IsBelow m self → IsBelow m result }
    {
        if length == 0 {
            return SlotSet::empty();
        }
        let mut starts = self.bits;
        for _ in 1..length {
            starts |= starts >> 1;
        }
        SlotSet { bits: starts }
    }
}

impl IntoIterator for SlotSet {
    type Item = u8;

    type IntoIter = Slots;

    ghost into_iter_gives = { λ set iterator. iterator ≡ set };

    fn into_iter(self) -> Slots {
        Slots {
            low: (self.bits & 0xffff_ffff_ffff_ffff) as u64,
            high: (self.bits >> 64) as u64,
            base: 0,
        }
    }
}

/// The slots of a set, the lowest first. Contracts see it as the set of those that are left.
///
/// It goes by halves, since a word of 64 bits takes fewer instructions than one of 128.
#[derive(Debug, Drop)]
pub struct Slots {
    /// The slots left of the half that is walked. Its bit 0 is the slot `base`, 0 or 64.
    low: u64,
    /// The slots from 64 on, until they are walked. Its bit 0 is the slot 64.
    high: u64,
    base: u8,
}

impl Model for Slots {
    ghost Value = { ℕ };

    ghost view = { λ s. (s.high * 2 ^ 64 + s.low) * 2 ^ s.base };

    ghost invariant = { λ s. (s.base ≤ 64) × (0 < s.high → s.base ≡ 0) };
}

impl Iterator for Slots {
    type Item = u8;

    ghost next_gives = { TakesLowest };

    ghost remaining = { λ left. at_most left };

    fn next(&mut self) -> Option<u8> {
        if self.low == 0 {
            if self.high == 0 {
                return None;
            }
            self.low = self.high;
            self.high = 0;
            self.base = 64;
        }
        let earliest = self.low.trailing_zeros() as u8;
        self.low &= self.low - 1;
        Some(self.base + earliest)
    }
}
