//! A timer, and what it does when it fires.
ghost use Rattle.std.specs.Prelude.{◌≡◌, ◌+◌, ◌^◌, ◌≤◌, ◌↔◌, IsTrue};
ghost use Rattle.so_timer.specs.Timers.{comes_first};

use so_ids::{AgentId, MsgId, Payload, StateId, Target, TimerId};

/// What a timer does when it fires.
#[derive(Clone, Copy, PartialEq, Eq)]
pub enum TimerTask {
    /// Sends a delayed or periodic message.
    Deliver(Target, MsgId, Payload),
    /// Ends the time limit of a state of an agent.
    Limit(AgentId, StateId),
}

/// An armed timer. Its deadline is in milliseconds, and so is its period, which is 0 for one that
/// fires once.
#[derive(Clone, Copy)]
pub struct Armed {
    pub timer: TimerId,
    pub deadline: u64,
    pub period: u32,
    pub task: TimerTask,
}

/// What is kept of an armed timer under its number.
#[derive(Clone, Copy)]
pub(crate) struct Timer {
    pub deadline: u64,
    pub period: u32,
    pub task: TimerTask,
}

impl Armed {
    /// Tells whether this one fires before the other: its deadline is earlier, or the same with a
    /// number that is no greater.
    pub(crate) fn comes_first(self, other: Armed) -> bool
        ensures { result ≡ comes_first self other }
    {
        self.deadline < other.deadline
            || self.deadline == other.deadline && self.timer.0 <= other.timer.0
    }
}

impl Timer {
    /// Tells whether the deadline with the period added is at most 2^63.
    pub(crate) fn is_in_range(self) -> bool
        ensures { IsTrue result ↔ (self.deadline + self.period ≤ 2 ^ 63) }
    {
        self.deadline <= (1u64 << 63) - u64::from(self.period)
    }
}
