//! Clocks, which are read and waited by.
ghost use Rattle.std.specs.Prelude.{◌≡◌, ℕ, List, Option};
ghost use Rattle.so_io.specs.Clock.{AddsReading};

use std::sync::Wait;

/// A clock of milliseconds.
pub trait Clock {
    /// The readings that it has given, the newest first, where they are told.
    ghost readings: { Self → Option (List ℕ) };

    /// How many milliseconds there were since the clock was made.
    fn now(&mut self) -> u64
        ensures { AddsReading (readings self.old) (readings self.new) result };

    /// Waits for some milliseconds.
    fn pause<R: Wait>(&mut self, rt: &R, ms: u32)
        ensures { readings self.new ≡ readings self.old };
}
