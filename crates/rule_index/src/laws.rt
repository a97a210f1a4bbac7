//! The law of an index and a change. The function does nothing: what is known is in its contract, which speaks of all schedules and rules.

ghost use Rattle.rule_index.specs.Laws.{NothingElseAlters};

/// A change alters nothing of the deviation from a rule that isn't among those that [`RuleIndex::alterable`](crate::RuleIndex::alterable)
/// gives for its main teams and rounds: its part ([`deviation_part`](rules::deviation_part)) is 0, before and after.
pub fn nothing_else_alters()
    ensures { NothingElseAlters }
{}
