//! The view of a seat, and the rule of the table.

ghost use Rattle.std.specs.Prelude.{ℕ, List, Bool};
ghost use Rattle.std.specs.Borrow.{ftrue};
ghost use Rattle.fixture_board.specs.declared.change.Entry.{Entry};
ghost use Rattle.shared_board.specs.Setting.{Setting};
ghost use Rattle.shared_board.specs.Stage.{Stage, Former};

use atomic_table::TableRule;
use fixture_board::Board;
use std::marker::Model;
use std::snapshot::Snapshot;

/// The view of a seat. No value of it is made.
pub struct View {
    /// The league and the room of the board.
    pub ghost setting: { Setting },
    /// False once another seat has taken it in.
    pub ghost live: { Bool },
    /// The numbers that it holds.
    pub ghost held: { List ℕ },
    /// The history as it was when the seat last saw it.
    pub ghost seen: { List Entry },
    /// A length that the history has reached.
    pub ghost glanced: { ℕ },
    /// A best total that the history had, once it was as long as `seen`.
    pub ghost lowest: { ℕ },
    /// How many numbers it knows to be given out.
    pub ghost given: { ℕ },
    /// Of two seats that were made one, what each had held and seen.
    pub ghost formers: { List Former },
    /// Where it is in its turn.
    pub ghost stage: { Stage },
}

impl Model for View {
    ghost also_owns = { λ _. ftrue };
}

/// The rule of the table. Its words are the turn (1 while a seat holds it), the length of the history, how many
/// numbers are given out, and the best total. Its one slot has the board.
pub struct Order;

impl TableRule<Option<Board>, View, Snapshot<Board>> for Order {
    ghost use Rattle.shared_board.specs.Rule.{Ruled};
    ghost use Rattle.shared_board.specs.within.Rule.{first_view};

    ghost holds = { λ _. Ruled };

    ghost first = { λ key. first_view key.value };
}
