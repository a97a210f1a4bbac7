//! The steps of a turn, each with what it does to the seat of the table.

ghost use Rattle.std.specs.Prelude.{◌≡◌, ℕ, ◌<◌, ◌≤◌, ◌^◌, ◌+◌, [], ◌∷◌, length, true, MatchBool};
ghost use Rattle.fixture_board.specs.History.{IsLegal, games_of, cost_at};
ghost use Rattle.fixture_board.specs.Laws.{least_of, as_number};
ghost use Rattle.fixture_board.specs.Looks.{copied};
ghost use Rattle.fixture_board.specs.Replies.{next_of};
ghost use Rattle.shared_board.specs.Held.{times};
ghost use Rattle.shared_board.specs.Stage.{away, holds, counts, owes};
ghost use Rattle.shared_board.specs.within.Stage.{kept, owed, IsSettled};
ghost use Rattle.shared_board.specs.Rule.{Added};
ghost use Rattle.shared_board.specs.within.Plays.{Took, Counted, at_stage, saw, on_board, drawing};
ghost use Rattle.shared_board.specs.Seats.{SeatValue, Answered, Absorbed, seat_value};
ghost use Rattle.shared_board.specs.within.Seats.{HasBoard, IsIdle, IsSeat};
ghost use Rattle.shared_board.specs.within.Ending.{IsSeatAfter, IsOfBoth, BroughtOut, HoldsBelow};
ghost use Rattle.shared_board.specs.within.Judging.{IsJudged};

use crate::plays::{Both, Commit, Count, Draw, Leave, Post, Quit, Take, Tell};
use crate::shared::{BEST, FRONT, JudgedAsk, NUMBERS, SLOT, Shared, TURN, Token};
use fixture_board::{Ask, Best, Board, Reply, Seen};
use fixtures::Schedule;
use std::hint::spin_loop;
use std::sync::Wait;
use std::time::Duration;

/// How often a seat reads the turn word or tries for the turn before its thread sleeps.
const TRIES: u32 = 64;

/// How many microseconds it sleeps, if the turn is still taken. Nobody wakes it: that would cost each turn a call of the
/// system.
const NAP: u64 = 50;

impl Shared {
    /// Takes the turn, and the board with it. If the turn is long taken, the thread sleeps a little.
    pub(crate) fn take<R: Wait>(&self, rt: &R, token: &mut Token)
        requires table { token.old.table_id ≡ self.now }
        requires idle { (token.old.me.0.live ≡ true) × (token.old.me.0.stage ≡ away) }
        ensures same { token.new.table_id ≡ token.old.table_id }
        ensures took { Took token.old.me token.new.me }
    {
        for _ in rt.forever() {
            if self.try_take(token) {
                return;
            }
            let nap = Duration::from_micros(NAP);
            self.table.shared.park_timeout(rt, TURN, 1, nap);
        }
        unreachable!()
    }

    /// Takes the turn, asks the board, and leaves the turn.
    pub(crate) fn asked<R: Wait>(&self, rt: &R, token: &mut Token, number: u32, ask: Ask) -> Reply
        requires table { token.old.table_id ≡ self.now }
        requires idle { IsIdle token.old.me }
        requires own { 0 < times number token.old.me.0.held }
        ensures same { token.new.table_id ≡ token.old.table_id }
        ensures seat { (held seen accepted : ℕ) → IsSeat token.old.me number held seen accepted →
            IsSeatAfter token.new.me number held accepted result }
        ensures answered { (held seen accepted : ℕ) → IsSeat token.old.me number held seen accepted →
            Answered (seat_value token.old.table_id number token.old.me.0)
            (seat_value token.old.table_id number token.new.me.0) ask result }
    {
        self.take(rt, token);
        let judged = self.judge(token, number, ask);
        self.conclude(token, number, ask, &judged);
        judged.reply
    }

    /// Takes the turn for good: the board, and how many numbers are given out.
    pub(crate) fn bring_out<R: Wait>(&self, rt: &R, token: &mut Token) -> (Board, u64)
        requires table { token.old.table_id ≡ self.now }
        requires idle { IsIdle token.old.me }
        requires below { (0 < token.old.me.0.given) × HoldsBelow token.old.me }
        ensures { BroughtOut token.old.me result.0 result.1 }
    {
        self.take(rt, token);
        let numbers = self.count(token);
        match self.table.shared.exchange(token, SLOT, None) {
            Some(board) => (board, numbers),
            None => unreachable!(),
        }
    }

    /// The first seat takes in what the other knows.
    pub(crate) fn merge(&self, token: &mut Token, other: Token)
        requires table { (token.old.table_id ≡ self.now) × (other.table_id ≡ self.now) }
        requires idle { IsIdle token.old.me × IsIdle other.me }
        ensures same { token.new.table_id ≡ token.old.table_id }
        ensures both { IsOfBoth token.old.me other.me token.new.me }
        ensures absorbed { (number theirs : ℕ) (a o : SeatValue) → seat_value token.old.table_id number token.old.me.0 ≡ a →
            seat_value other.table_id theirs other.me.0 ≡ o → Absorbed a o (seat_value token.new.table_id number token.new.me.0) }
    {
        self.table.shared.join_seat::<Both>(token, other);
        self.table.shared.load::<Tell>(token, TURN);
    }

    /// Tries for the turn, a few times if it gets free, and says whether it was taken.
    fn try_take(&self, token: &mut Token) -> bool
        requires table { token.old.table_id ≡ self.now }
        requires idle { (token.old.me.0.live ≡ true) × (token.old.me.0.stage ≡ away) }
        ensures same { token.new.table_id ≡ token.old.table_id }
        ensures took { MatchBool result (Took token.old.me token.new.me) (token.new.me ≡ token.old.me) }
    {
        let table = &self.table.shared;
        for tried in 0..TRIES {
            // if the turn is taken, reading alone leaves the words to the seat that has it
            let may_be_free = tried == 0 || table.peek(TURN) == 0;
            if may_be_free && table.compare_exchange::<Take>(token, TURN, 0, 1) == 0 {
                return true;
            }
            spin_loop();
        }
        false
    }

    /// The reply of the board, and its version and its best total then.
    #[tactic(auto, unfolding(fixture_board::specs::Laws::least_of))]
    pub(crate) fn judge(&self, token: &mut Token, number: u32, ask: Ask) -> JudgedAsk
        requires table { token.old.table_id ≡ self.now }
        requires board { HasBoard token.old.me (on_board token.old.me.1) }
        ensures same { (token.new.table_id ≡ token.old.table_id) × (token.new.me.0 ≡ token.old.me.0) }
        ensures board { HasBoard token.new.me
            (next_of token.old.me.0.setting.league token.old.me.0.setting.room (on_board token.old.me.1) number ask) }
        ensures judged { IsJudged token.old.me.0.setting (on_board token.old.me.1) number ask result }
        ensures small { result.version < 2 ^ 64 }
    {
        match token.slot_mut(&self.table.shared, SLOT) {
            Some(board) => {
                let reply = board.answer(number, ask);
                JudgedAsk {
                    reply,
                    version: board.version(),
                    least: number_of(board.best()),
                }
            }
            None => unreachable!(),
        }
    }

    /// Copies what the board shows.
    pub(crate) fn read(&self, token: &mut Token, copy: &mut Schedule) -> Seen
        requires table { token.old.table_id ≡ self.now }
        requires board { HasBoard token.old.me (on_board token.old.me.1) }
        ensures same { (token.new.table_id ≡ token.old.table_id) × (token.new.me ≡ token.old.me) }
        ensures version { result.version ≡ length (on_board token.old.me.1) }
        ensures cost { result.cost ≡ cost_at token.old.me.0.setting.league (on_board token.old.me.1) }
        ensures copy { copy.new ≡ copied copy.old (games_of token.old.me.0.setting.league (on_board token.old.me.1)) }
    {
        match token.slot_mut(&self.table.shared, SLOT) {
            Some(board) => board.look(copy),
            None => unreachable!(),
        }
    }

    /// Writes the history's new length.
    pub(crate) fn commit(&self, token: &mut Token, version: u64)
        requires table { token.old.table_id ≡ self.now }
        requires turn { (token.old.me.0.live ≡ true) × IsSettled token.old.me.0.stage }
        requires added { Added token.old.me.0.held (kept token.old.me.0.stage) (on_board token.old.me.1) }
        requires legal { IsLegal token.old.me.0.setting.league token.old.me.0.setting.room (on_board token.old.me.1) }
        requires version { version ≡ length (on_board token.old.me.1) }
        ensures same { token.new.table_id ≡ token.old.table_id }
        ensures done { let g = on_board token.old.me.1 in
            token.new.me ≡ (saw token.old.me.0 g (owes (kept token.old.me.0.stage) g), token.old.me.1) }
    {
        self.table.shared.store::<Commit>(token, FRONT, version);
    }

    /// Writes the best total after a commit.
    pub(crate) fn post(&self, token: &mut Token, least: u64)
        requires table { token.old.table_id ≡ self.now }
        requires turn { (token.old.me.0.live ≡ true) ×
            (token.old.me.0.stage ≡ owes (owed token.old.me.0.stage) (kept token.old.me.0.stage)) }
        requires least { least ≡ least_of token.old.me.0.setting.league (kept token.old.me.0.stage) }
        ensures same { token.new.table_id ≡ token.old.table_id }
        ensures done { token.new.me ≡ (at_stage token.old.me.0 (holds (kept token.old.me.0.stage)), token.old.me.1) }
    {
        self.table.shared.fetch_min::<Post>(token, BEST, least);
    }

    /// Gives the turn and the board back, and has seen the history.
    pub(crate) fn leave(&self, token: &mut Token)
        requires table { token.old.table_id ≡ self.now }
        requires turn { (token.old.me.0.live ≡ true) × IsSettled token.old.me.0.stage }
        requires board { HasBoard token.old.me (kept token.old.me.0.stage) }
        ensures same { token.new.table_id ≡ token.old.table_id }
        ensures done { token.new.me ≡ (saw token.old.me.0 (kept token.old.me.0.stage) away, []) }
    {
        self.table.shared.store::<Leave>(token, TURN, 0);
    }

    /// Gives the turn and the board back, and has seen nothing.
    pub(crate) fn quit(&self, token: &mut Token)
        requires table { token.old.table_id ≡ self.now }
        requires turn { (token.old.me.0.live ≡ true) × IsSettled token.old.me.0.stage }
        requires board { HasBoard token.old.me (kept token.old.me.0.stage) }
        ensures same { token.new.table_id ≡ token.old.table_id }
        ensures done { token.new.me ≡ (at_stage token.old.me.0 away, []) }
    {
        self.table.shared.store::<Quit>(token, TURN, 0);
    }

    /// Reads under the turn how many numbers are given out.
    pub(crate) fn count(&self, token: &mut Token) -> u64
        requires table { token.old.table_id ≡ self.now }
        requires turn { (token.old.me.0.live ≡ true) × IsSettled token.old.me.0.stage }
        ensures same { token.new.table_id ≡ token.old.table_id }
        ensures counted { Counted token.old.me result token.new.me }
    {
        self.table.shared.load::<Count>(token, NUMBERS)
    }

    /// Draws the number that was counted to, and writes that one more is given out.
    pub(crate) fn draw(&self, token: &mut Token, next: u64)
        requires table { token.old.table_id ≡ self.now }
        requires turn { (token.old.me.0.live ≡ true) × (token.old.me.0.stage ≡ counts (kept token.old.me.0.stage)) }
        requires own { (n : ℕ) × (0 < times n token.old.me.0.held) }
        requires next { (next ≡ token.old.me.0.given + 1) × (next ≤ 64) }
        ensures same { token.new.table_id ≡ token.old.table_id }
        ensures done { token.new.me ≡ (drawing token.old.me.0, token.old.me.1) }
    {
        self.table.shared.store::<Draw>(token, NUMBERS, next);
    }

    /// Commits what the board granted, and leaves the turn.
    pub(crate) fn conclude(&self, token: &mut Token, _number: u32, _ask: Ask, judged: &JudgedAsk)
        requires table { token.old.table_id ≡ self.now }
        requires turn { (token.old.me.0.live ≡ true) × IsSettled token.old.me.0.stage × (0 < times _number token.old.me.0.held) }
        requires legal { IsLegal token.old.me.0.setting.league token.old.me.0.setting.room (kept token.old.me.0.stage) }
        requires board { HasBoard token.old.me
            (next_of token.old.me.0.setting.league token.old.me.0.setting.room (kept token.old.me.0.stage) _number _ask) }
        requires judged { IsJudged token.old.me.0.setting (kept token.old.me.0.stage) _number _ask judged.now }
        ensures same { token.new.table_id ≡ token.old.table_id }
        ensures done { token.new.me ≡ (
          saw token.old.me.0
              (next_of token.old.me.0.setting.league token.old.me.0.setting.room (kept token.old.me.0.stage) _number _ask) away,
          [],
        ) }
    {
        match judged.reply {
            Reply::Done { .. } => {
                self.commit(token, judged.version);
                self.post(token, judged.least);
                self.leave(token);
            }
            Reply::No { .. } => self.leave(token),
        }
    }
}

/// The total of the best version as the best word has it.
pub(crate) fn number_of(best: Option<Best>) -> u64
    ensures { result ≡ as_number best }
{
    match best {
        Some(best) => best.total,
        None => u64::MAX,
    }
}
