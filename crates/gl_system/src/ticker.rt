//! When the next tick is due.

ghost use Rattle.std.specs.Prelude.{◌≡◌, ◌≤◌, ◌-◌, ◌↔◌, true, false, IsTrue};
ghost use Rattle.std.specs.Duration.{as_nanos};
ghost use Rattle.std.specs.Time.{instant_nanos};

use std::time::{Duration, Instant};

/// Ticks, each of which is due a while after the one before. Between two of them there is a look at
/// what came, so that neither keeps the other from its turn.
#[derive(Clone, Copy, Debug)]
pub(crate) struct Ticker {
    every: Duration,
    /// When the last tick was given, or the ticker was made.
    last: Instant,
    /// Whether there was a look since.
    looked: bool,
}

impl Ticker {
    pub(crate) fn new(now: Instant, every: Duration) -> Self
        ensures { result ≡ record { every = every; last = now; looked = true } }
    {
        Ticker {
            every,
            last: now,
            looked: true,
        }
    }

    /// Whether a tick is to be given: its while is over, and there was a look since the last one.
    pub(crate) fn is_due(&self, now: Instant) -> bool
        ensures over { IsTrue result →
            as_nanos self.now.every ≤ instant_nanos now - instant_nanos self.now.last }
        ensures looked { IsTrue result → IsTrue self.now.looked }
        ensures output { IsTrue self.now.looked →
            as_nanos self.now.every ≤ instant_nanos now - instant_nanos self.now.last →
            IsTrue result }
    {
        self.looked && now.duration_since(self.last).as_nanos() >= self.every.as_nanos()
    }

    /// How long it is until the while of the next tick is over.
    pub(crate) fn left(&self, now: Instant) -> Duration
        ensures { as_nanos result ≡ as_nanos self.now.every
            - (instant_nanos now - instant_nanos self.now.last) }
    {
        self.every.saturating_sub(now.duration_since(self.last))
    }

    /// Notes that there was a look.
    pub(crate) fn look(&mut self)
        ensures { self.new ≡ record self.old { looked = true } }
    {
        self.looked = true;
    }

    /// Begins the while of the next tick.
    pub(crate) fn restart(&mut self, now: Instant)
        ensures { self.new ≡ record self.old { last = now; looked = false } }
    {
        self.last = now;
        self.looked = false;
    }
}
