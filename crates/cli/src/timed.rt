//! How long improvements follow each other.

ghost use Rattle.std.specs.Prelude.{option_map};
ghost use Rattle.improvement.specs.Watched.{HasLines};

use commands::{LegEnded, Sink, Watcher, Written};
use fixture_board::Board;
use std::time::{Clock, Duration, Instant};

/// Passes on what it is told, and wants no more legs once its time is over, or if the time can't be told.
#[derive(Drop)]
pub(crate) struct Timed<'a, C, V> {
    clock: &'a C,
    begun: Option<Instant>,
    time: Duration,
    watcher: V,
}

impl<'a, C: Clock, V> Timed<'a, C, V> {
    /// The time begins now.
    pub(crate) fn new(clock: &'a C, seconds: u32, watcher: V) -> Self {
        Timed {
            clock,
            begun: Instant::now(clock).ok(),
            time: Duration::from_secs(u64::from(seconds)),
            watcher,
        }
    }

    fn is_over(&self) -> bool {
        match (self.begun, Instant::now(self.clock)) {
            (Some(begun), Ok(now)) => self.time <= now.duration_since(begun),
            _ => true,
        }
    }
}

impl<C: Clock, W: Sink, V: Watcher<W>> Watcher<W> for Timed<'_, C, V> {
    fn leg_ended(&mut self, leg: LegEnded, better: Option<&Board>, written: Written<'_, '_, W>)
        requires { HasLines W.held written leg (option_map (λ board. board.now) better) }
    {
        self.watcher.leg_ended(leg, better, written);
    }

    fn wants_more(&mut self) -> bool {
        !self.is_over() && self.watcher.wants_more()
    }
}
