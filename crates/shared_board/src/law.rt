//! The laws of the table's rule. The functions do nothing: what is known of all tables is in their contracts.

ghost use Rattle.std.specs.Prelude.{◌≡◌};
ghost use Rattle.shared_board.specs.Rule.{Ruled};
ghost use Rattle.shared_board.specs.Between.{Table, Between, turn_word};
ghost use Rattle.shared_board.specs.Fixtures.{HasFixtures};

use fixture_board::{best_is_least, legal_history_is_sound};

/// Whenever the turn is free, the board's fixtures are the start with the history's changes made singly, in order: a
/// double round robin in which the pinned games stand, with exact cost and best.
pub fn fixtures_while_free()
    ensures { (s : Table) → Ruled s → turn_word s ≡ 0 → HasFixtures s }
{
    legal_history_is_sound();
    best_is_least();
}

/// Between any two steps there is one legal history, and each seat stands to it as `Between` says.
pub fn between_steps()
    ensures { (s : Table) → Ruled s → Between s }
{}
