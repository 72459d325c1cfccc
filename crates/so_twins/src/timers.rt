//! Both kinds of timers.

use crate::draw::{drawn, next_random};
use so_ids::{AgentId, NoMemory, StateId, TimerId};
use so_timer::{PlainTimers, TimerTask, Timers};
use std::alloc::Global;

/// How many calls are drawn.
const CALLS: u32 = 6_000;

/// No deadline is later than this.
const LATEST: u64 = 1_000_000;

/// What the timer of this number does.
fn limit(number: u32) -> TimerTask {
    TimerTask::Limit(AgentId(number), StateId(number))
}

/// Both kinds, and the time.
#[derive(Drop)]
struct Both {
    timers: Timers,
    plain: PlainTimers,
    now: u64,
}

impl Both {
    /// Arms a timer in both where there is room.
    fn arm(&mut self, draw: u32, number: u32) -> bool {
        let deadline = self.now.min(LATEST) + u64::from(draw % 50);
        let period = if draw % 3 == 0 { draw % 20 } else { 0 };
        if !self.timers.has_room() || !self.plain.has_room() {
            return self.timers.has_room() == self.plain.has_room();
        }
        let timer = self.timers.arm(deadline, period, limit(number));
        timer == self.plain.arm(deadline, period, limit(number))
    }

    /// Disarms a timer in both.
    fn cancel(&mut self, timer: TimerId) -> bool {
        self.timers.cancel(timer) == self.plain.cancel(timer)
    }

    /// Fires the next timer of both, if it is due.
    fn fire(&mut self) -> bool {
        let due = self.timers.due(self.now);
        if due != self.plain.due(self.now) {
            return false;
        }
        match due {
            Some(timer) => self.fire_one(timer),
            None => true,
        }
    }

    /// Fires this timer in both, where it may fire.
    fn fire_one(&mut self, timer: TimerId) -> bool {
        if !self.timers.may_fire(timer) || !self.plain.may_fire(timer) {
            return self.timers.may_fire(timer) == self.plain.may_fire(timer);
        }
        if self.timers.task(timer) != self.plain.task(timer) {
            return false;
        }
        self.timers.fire(timer) == self.plain.fire(timer)
    }

    /// Lets some time pass.
    fn pass(&mut self, draw: u32) -> bool {
        let after = self.now.min(LATEST) + u64::from(draw % 40);
        self.now = self.now.min(LATEST) + u64::from(draw % 9);
        self.timers.earliest(after) == self.plain.earliest(after)
    }

    /// One call on both that is drawn, and whether both answered alike.
    fn call(&mut self, draw: u32, number: u32) -> bool {
        match draw % 7 {
            0..=2 => self.arm(draw / 7, number),
            3 => self.cancel(TimerId(draw / 7 % 3_000)),
            4 => self.pass(draw / 7),
            _ => self.fire(),
        }
    }
}

/// Tells whether both kinds answer each call alike.
pub(crate) fn agree(alloc: Global) -> Result<bool, NoMemory> {
    let mut both = Both {
        timers: Timers::with(alloc, 40, 3_000)?,
        plain: PlainTimers::with(alloc, 40, 3_000)?,
        now: 0,
    };
    let mut seed = 7u64;
    let mut alike = true;
    for number in 0..CALLS {
        seed = next_random(seed);
        alike = both.call(drawn(seed), number) && alike;
    }
    both.timers.clear();
    both.plain.clear();
    Ok(alike && both.timers.earliest(0).is_none() && both.plain.earliest(0).is_none())
}
