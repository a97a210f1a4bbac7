//! The laws of a board's histories. The functions do nothing: what is known of all histories is in their contracts.

ghost use Rattle.std.specs.Prelude.{ℕ, ◌≤◌, List, [], ◌∷◌, ◌++◌};
ghost use Rattle.league.specs.League.{LeagueData, IsLeague};
ghost use Rattle.fixture_board.specs.declared.ask.Ask.{Ask};
ghost use Rattle.fixture_board.specs.declared.change.Entry.{Entry};
ghost use Rattle.fixture_board.specs.History.{IsLegal, best_prefix, IsBestOf};
ghost use Rattle.fixture_board.specs.Replies.{entry, next_of, reply_of};
ghost use Rattle.fixture_board.specs.Replay.{IsReplayed};
ghost use Rattle.fixture_board.specs.Laws.{least_of, TellsOf, IsSound};
ghost use Rattle.fixture_board.specs.Rewound.{IsSameBestRewound};
ghost use Rattle.fixture_board.specs.Trials.{trial_cost, trial_entry, trial_history, TellsOfTrial};
ghost use Rattle.fixture_board.specs.declared.trial.Trial.{Trial};

/// The empty history is legal.
pub fn empty_history_is_legal()
    ensures { (league : LeagueData) (room : ℕ) → IsLegal league room [] }
{}

/// After a call of any caller the history is legal if it was so before.
pub fn next_history_is_legal()
    ensures { (league : LeagueData) (room : ℕ) (h : List Entry) (caller : ℕ) (ask : Ask) →
        IsLegal league room h → IsLegal league room (next_of league room h caller ask) }
{}

/// The answer to a call tells the history after it: the one before with the caller's entry, or the one before.
pub fn answer_tells_history()
    ensures { (league : LeagueData) (room : ℕ) (h : List Entry) (caller : ℕ) (ask : Ask) →
        TellsOf league h (entry caller ask) (next_of league room h caller ask) (reply_of league room h ask) }
{}

/// After a trial of any caller the history is legal if it was so before.
pub fn trial_is_legal()
    ensures { (league : LeagueData) (room : ℕ) (h : List Entry) (caller : ℕ) (trial : Trial) →
        IsLegal league room h → IsLegal league room (trial_history league room h caller trial) }
{}

/// The answer to a trial tells the history after it: the one before with the caller's entry, or the one before.
pub fn trial_tells_history()
    ensures { (league : LeagueData) (room : ℕ) (h : List Entry) (caller : ℕ) (trial : Trial) →
        TellsOfTrial league h (trial_entry caller trial) (trial_history league room h caller trial) (trial_cost league room h trial) }
{}

/// The schedule of a legal history is a double round robin, and has the pinned games.
pub fn legal_history_is_sound()
    ensures { (league : LeagueData) (room : ℕ) (h : List Entry) →
        IsLeague league → IsLegal league room h → IsSound league h }
{}

/// The best version is feasible, none that is feasible costs less, and each earlier one that is feasible costs more.
pub fn best_is_least()
    ensures { (league : LeagueData) (h : List Entry) → IsBestOf league h (best_prefix league h) }
{}

/// The best total, as a number, never rises with one entry more.
pub fn best_never_rises()
    ensures { (league : LeagueData) (h : List Entry) (e : Entry) →
        IsLeague league → least_of league (h ++ e ∷ []) ≤ least_of league h }
{}

/// A legal history, given as a script, is accepted line by line, and leads to the same changes, games, pins and best.
pub fn replay()
    ensures { (league : LeagueData) (room : ℕ) (h : List Entry) →
        IsLeague league → IsLegal league room h → IsReplayed league room h }
{}

/// A history that is taken back to its best version is legal if it was so before, with the same best.
pub fn rewinding_keeps_the_best()
    ensures { (league : LeagueData) (room : ℕ) (h : List Entry) → IsSameBestRewound league room h }
{}
