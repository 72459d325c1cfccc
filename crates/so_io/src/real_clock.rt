//! The clock of the system, of whose readings nothing is told.
ghost use Rattle.std.specs.Prelude.{◌≡◌, ◌/◌, ◌^◌, ◌-◌, min, None};
ghost use Rattle.std.specs.Duration.{as_nanos};

use crate::clock::Clock;
use std::marker::Model;
use std::sync::Wait;
use std::thread;
use std::time::{Duration, Instant};

/// The clock of the system, from its making on. Where the system's clock can't be read it gives its
/// last reading, at first 0. Contracts see the last reading.
#[derive(Drop)]
pub struct RealClock<'a, R> {
    rt: &'a R,
    start: Option<Instant>,
    last: u64,
}

impl<'a, R> Model for RealClock<'a, R> {
    ghost use Rattle.std.specs.Prelude.{ℕ};

    ghost Value = { ℕ };

    ghost view = { λ c. c.last };
}

impl<'a, R: std::rt::Clock> RealClock<'a, R> {
    /// A clock that starts now.
    pub fn new(rt: &'a R) -> RealClock<'a, R>
        ensures { result ≡ 0 }
    {
        RealClock {
            rt,
            start: Instant::now(rt).ok(),
            last: 0,
        }
    }
}

/// How many whole milliseconds a time has, at most 2^64 - 1.
fn milliseconds(time: Duration) -> u64
    ensures { result ≡ min (as_nanos time / 1_000_000) (2 ^ 64 - 1) }
{
    u64::try_from(time.as_millis()).unwrap_or(u64::MAX)
}

impl<'a, R: std::rt::Clock> Clock for RealClock<'a, R> {
    ghost readings = { λ _. None };

    fn now(&mut self) -> u64
        ensures { result ≡ self.new }
    {
        if let Ok(instant) = Instant::now(self.rt) {
            match self.start {
                Some(start) => self.last = milliseconds(instant.duration_since(start)),
                None => self.start = Some(instant),
            }
        }
        self.last
    }

    fn pause<W: Wait>(&mut self, _rt: &W, ms: u32)
        ensures { self.new ≡ self.old }
    {
        thread::sleep(self.rt, Duration::from_millis(u64::from(ms)));
    }
}
