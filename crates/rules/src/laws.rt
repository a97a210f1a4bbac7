//! Which changes keep a deviation. The functions do nothing: what is known is in their contracts, each of which
//! speaks of all schedules and all rules whose numbers are in range for them.

ghost use Rattle.rules.specs.Laws.{DeviationsBalance, LookedPastHasNoPart, UntouchedHasNoPart, UntouchedStays};

/// Two schedules that differ only in cells that [`touches`](crate::touches) says don't touch a rule are equally far from it.
pub fn untouched_stays()
    ensures { UntouchedStays }
{}

/// What a change around some teams adds to the part of a deviation that [`deviation_part`](crate::deviation_part) counts,
/// it adds to the deviation.
pub fn deviations_balance()
    ensures { DeviationsBalance }
{}

/// The part is 0 of a rule that looks past the main teams, and of one that isn't touched if the main teams and their
/// guests are touched in these rounds.
pub fn nothing_to_alter()
    ensures past { LookedPastHasNoPart }
    ensures untouched { UntouchedHasNoPart }
{}
