//! How far the reading of a source is, told to people.

ghost use Rattle.std.specs.Prelude.{◌≡◌, ◌≤◌, ◌||◌, length, take, IsTrue};
ghost use Rattle.std.specs.Io.KnownBytes.{Consumes, IsAtEnd};
ghost use Rattle.gl_outside.specs.Fault.{Rose};
ghost use Rattle.gl_outside.specs.Source.{given_count, gave_end};

use gl_outside::{Got, Source};
use std::io::Eprint;
use std::time::{Clock, Duration, Instant};

/// How many milliseconds a line stands at least before the next one.
const PAUSE: u64 = 250;

/// Counts bytes, and tells on standard error how many there were and how fast they came, in a line
/// of its own. The next line goes over the one before, so whatever else is written stands below.
#[derive(Drop)]
struct Meter<'a, R> {
    rt: &'a R,
    begun: Instant,
    /// How long after the beginning it was told last, if it was.
    report: Option<Duration>,
    bytes: u64,
}

impl<R: Clock + Eprint> Meter<'_, R> {
    fn print(&mut self, elapsed: Duration) {
        let up = if self.report.is_some() { "\x1b[A" } else { "" };
        let kilobytes = u128::from(self.bytes) / 1_000;
        let megabytes = kilobytes / 1_000;
        let speed = kilobytes / elapsed.as_millis().max(1);
        let line = eprint!(self.rt; "{up}{megabytes:>9} MB read, {speed:>5} MB a second\n");
        if line.is_ok() {
            self.report = Some(elapsed);
        }
    }

    /// Whether the last line stood long enough.
    fn is_due(&self, elapsed: Duration) -> bool {
        let since = elapsed.saturating_sub(self.report.unwrap_or(Duration::ZERO));
        since >= Duration::from_millis(PAUSE)
    }

    /// Counts what a read came to, and tells it where that is due. The end is reported if anything
    /// was.
    fn add(&mut self, got: Got) {
        let is_end = match got {
            Got::Bytes(count) => {
                self.bytes = self.bytes.saturating_add(count as u64);
                false
            }
            Got::End | Got::Failed => true,
        };
        let Ok(elapsed) = self.begun.elapsed(self.rt) else {
            return;
        };
        if self.is_due(elapsed) || (is_end && self.report.is_some()) {
            self.print(elapsed);
        }
    }
}

/// A source whose bytes are counted, if its reading is to be reported.
#[derive(Drop)]
pub struct WatchedSource<'a, S, R> {
    pub inner: S,
    meter: Option<Meter<'a, R>>,
}

impl<'a, S, R: Clock + Eprint> WatchedSource<'a, S, R> {
    /// Where there is no clock nothing is reported.
    pub fn new(inner: S, rt: &'a R, report: bool) -> Self
        ensures { result.inner ≡ inner }
    {
        let meter = match Instant::now(rt) {
            Ok(begun) if report => Some(Meter {
                rt,
                begun,
                report: None,
                bytes: 0,
            }),
            _ => None,
        };
        WatchedSource { inner, meter }
    }
}

impl<S: Source, R: Clock + Eprint> Source for WatchedSource<'_, S, R> {
    ghost left = { λ s. S.left s.inner };

    ghost faults = { λ s. S.faults s.inner };

    ghost ended = { λ s. S.ended s.inner };

    fn read(&mut self, buf: &mut [u8]) -> Got {
        let got = self.inner.read(buf);
        if let Some(meter) = &mut self.meter {
            meter.add(got);
        }
        got
    }
}
