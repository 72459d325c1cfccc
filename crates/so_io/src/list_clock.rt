//! A clock in memory.
ghost use Rattle.std.specs.Prelude.{◌≡◌, ◌<◌, vec_len, length, ℕ, List};
ghost use Rattle.so_io.specs.Count.{counted};
ghost use Rattle.so_io.specs.Clock.{AddsReading};
ghost use Rattle.so_io.specs.ListClock.{ListClockState, reading_at, told_readings};

use crate::clock::Clock;
use std::marker::Model;
use std::sync::Wait;

/// A clock that gives the readings of a list one after the other, and then the last one again and
/// again. Contracts see the list, and how many readings were given.
#[derive(Drop)]
pub struct ListClock {
    readings: Vec<u64>,
    given: u64,
}

impl Model for ListClock {
    ghost use Rattle.std.specs.Prelude.{◌<◌, vec_len};
    ghost use Rattle.so_io.specs.ListClock.{ListClockState};

    ghost Value = { ListClockState };

    ghost view = { λ c. record { readings = c.readings.items; given = c.given } };

    ghost invariant = { λ c. 0 < vec_len c.readings };
}

impl ListClock {
    /// A clock with these readings, of which there is at least one.
    pub fn new(readings: Vec<u64>) -> ListClock
        requires { 0 < vec_len readings }
        ensures { result ≡ record { readings = readings.items; given = 0 } }
    {
        ListClock { readings, given: 0 }
    }

    /// Gives the next reading, and counts it.
    fn give(&mut self) -> u64
        ensures reading { result ≡ reading_at self.old.readings self.old.given }
        ensures given { self.new ≡ record self.old { given = counted self.old.given } }
    {
        let last = self.readings.len() - 1;
        let at = usize::try_from(self.given).unwrap_or(last).min(last);
        self.given = self.given.saturating_add(1);
        self.readings[at]
    }
}

impl Clock for ListClock {
    ghost readings = { told_readings };

    #[tactic(auto, using(crate::proofs::Readings::adds_reading))]
    fn now(&mut self) -> u64
        ensures reading { result ≡ reading_at self.old.readings self.old.given }
        ensures given { self.new ≡ record self.old { given = counted self.old.given } }
        ensures added { AddsReading (told_readings self.old) (told_readings self.new) result }
    {
        self.give()
    }

    fn pause<R: Wait>(&mut self, _rt: &R, _ms: u32)
        ensures { self.new ≡ self.old }
    {}
}
