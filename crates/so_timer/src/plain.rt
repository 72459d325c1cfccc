//! Armed timers in a table that is gone through at each question.
ghost use Rattle.std.specs.Prelude.{◌≡◌, ◌≢◌, ℕ, ◌+◌, ◌<◌, ◌≤◌, ◌^◌, ◌↔◌, IsTrue, IfOk, Some, None, [], ◌∷◌, ◌++◌, length, option_map, if◌then◌else◌, slice_set, nat_lt, vec_len, vec_capacity};
ghost use Rattle.so_timer.specs.Timers.{timer_of, is_armed, task_of, due_of, earliest_of, next_of, sooner, lesser, no_timers, after_arm, after_cancel, after_fire, after_clear, IsInRange};
ghost use Rattle.so_timer.specs.Slots.{armed_timer, armed_from, more_armed, sooner_slot, earlier_slot, timer_again};

use crate::timer::{Armed, Timer, TimerTask};
use so_ids::{NoMemory, TimerId};
use std::alloc::Global;
use std::marker::Model;

/// Armed timers, each with a number in order of arming. The timer of number n stands in slot n. Slow:
/// it is what `Timers` is compared with.
#[derive(Drop)]
pub struct PlainTimers {
    slots: Vec<Option<Timer>>,
    cap: u32,
    total: u32,
}

impl Model for PlainTimers {
    ghost use Rattle.std.specs.Prelude.{◌≤◌, ◌<◌, ◌^◌, length, vec_capacity};
    ghost use Rattle.so_timer.specs.Timers.{TimerTable};
    ghost use Rattle.so_timer.specs.Slots.{armed_from};

    ghost Value = { TimerTable };

    ghost view = { λ t. record {
      armed = armed_from 0 t.slots.items;
      next = length t.slots.items;
      cap = t.cap;
      total = t.total;
    } };

    ghost invariant = { λ t. (length t.slots.items ≤ t.total) × (t.total ≤ vec_capacity t.slots)
        × (t.total < 2 ^ 32) };
}

impl PlainTimers {
    /// No timers, with room for `cap` at once and `total` in all.
    pub fn with(alloc: Global, cap: u32, total: u32) -> Result<PlainTimers, NoMemory>
        ensures { IfOk result (λ t. t ≡ no_timers cap total) }
    {
        let Ok(slots) = Vec::with_capacity(alloc, total as usize) else {
            return Err(NoMemory);
        };
        Ok(PlainTimers { slots, cap, total })
    }

    /// Tells whether one more timer may be armed.
    pub fn has_room(&self) -> bool
        ensures { IsTrue result ↔ ((length self.now.armed < self.now.cap)
            × (self.now.next < self.now.total)) }
    {
        count_in(&self.slots) < self.cap && self.slots.len() < self.total as usize
    }

    /// Arms a timer and gives its number.
    pub fn arm(&mut self, deadline: u64, period: u32, task: TimerTask) -> TimerId
        requires room { length self.old.armed < self.old.cap }
        requires fresh { self.old.next < self.old.total }
        requires in_range { deadline ≤ 2 ^ 63 }
        ensures number { result.0 ≡ self.old.next }
        ensures after { self.new ≡ after_arm deadline period task self.old }
    {
        let timer = TimerId(self.slots.len() as u32);
        self.slots.push_reserved(Some(Timer {
            deadline,
            period,
            task,
        }));
        timer
    }

    /// The armed timer of a number.
    fn timer(&self, timer: TimerId) -> Option<Timer>
        ensures { option_map (armed_timer timer.0) result ≡ timer_of timer.0 self.now.armed }
    {
        match self.slots.get(timer.0 as usize) {
            Some(slot) => *slot,
            None => None,
        }
    }

    /// Disarms a timer, and tells whether it was armed.
    pub fn cancel(&mut self, timer: TimerId) -> bool
        ensures answer { result ≡ is_armed timer.0 self.old.armed }
        ensures after { self.new ≡ after_cancel timer.0 self.old }
    {
        match self.timer(timer) {
            Some(_) => {
                self.slots[timer.0 as usize] = None;
                true
            }
            None => false,
        }
    }

    /// The timer that fires next, if its deadline is at most `now`.
    pub fn due(&self, now: u64) -> Option<TimerId>
        ensures { result ≡ due_of now self.now.armed }
    {
        match next_in(&self.slots) {
            Some(next) => {
                if next.deadline <= now {
                    Some(next.timer)
                } else {
                    None
                }
            }
            None => None,
        }
    }

    /// What an armed timer does when it fires.
    pub fn task(&self, timer: TimerId) -> TimerTask
        requires armed { IsTrue (is_armed timer.0 self.now.armed) }
        ensures { task_of timer.0 self.now.armed ≡ Some result }
    {
        match self.timer(timer) {
            Some(found) => found.task,
            None => unreachable!(),
        }
    }

    /// Tells whether a timer may fire: it is armed, and its deadline with its period added is at most
    /// 2^63.
    pub fn may_fire(&self, timer: TimerId) -> bool
        ensures { IsTrue result ↔ (IsTrue (is_armed timer.0 self.now.armed)
            × IsInRange timer.0 self.now.armed) }
    {
        match self.timer(timer) {
            Some(found) => found.is_in_range(),
            None => false,
        }
    }

    /// Fires a timer and gives what it does. One with a period is armed anew under its number.
    pub fn fire(&mut self, timer: TimerId) -> TimerTask
        requires armed { IsTrue (is_armed timer.0 self.old.armed) }
        requires in_range { IsInRange timer.0 self.old.armed }
        ensures task { task_of timer.0 self.old.armed ≡ Some result }
        ensures after { self.new ≡ after_fire timer.0 self.old }
    {
        match self.timer(timer) {
            Some(found) => {
                self.slots[timer.0 as usize] = fired_once(found);
                found.task
            }
            None => unreachable!(),
        }
    }

    /// The least armed deadline that is greater than `after`.
    pub fn earliest(&self, after: u64) -> Option<u64>
        ensures { result ≡ earliest_of after self.now.armed }
    {
        earliest_in(&self.slots, after)
    }

    /// Disarms all timers.
    pub fn clear(&mut self)
        ensures { self.new ≡ after_clear self.old }
    {
        empty(&mut self.slots);
    }
}

/// Empties each slot.
fn empty(slots: &mut [Option<Timer>])
    ensures { armed_from 0 slots.new ≡ [] }
{
    for slot in slots.iter_mut() {
        *slot = None;
    }
}

/// What a fire leaves of a timer.
fn fired_once(found: Timer) -> Option<Timer>
    requires { found.deadline + found.period ≤ 2 ^ 63 }
    ensures { result ≡ timer_again found }
{
    if found.period == 0 {
        return None;
    }
    Some(Timer {
        deadline: found.deadline + u64::from(found.period),
        period: found.period,
        task: found.task,
    })
}

/// How many timers a table has.
fn count_in(slots: &[Option<Timer>]) -> u32
    requires { length slots.now < 2 ^ 32 }
    ensures { result ≡ length (armed_from 0 slots.now) }
{
    let mut count = 0;
    let mut at = slots.len();
    while at > 0 {
        at -= 1;
        count = counted(slots[at], count);
    }
    count
}

fn counted(slot: Option<Timer>, count: u32) -> u32
    requires { count + 1 < 2 ^ 32 }
    ensures { result ≡ more_armed slot count }
{
    match slot {
        Some(_) => count + 1,
        None => count,
    }
}

/// The next timer of a table.
fn next_in(slots: &[Option<Timer>]) -> Option<Armed>
    requires { length slots.now < 2 ^ 32 }
    ensures { result ≡ next_of (armed_from 0 slots.now) }
{
    let mut best = None;
    let mut at = slots.len();
    while at > 0 {
        at -= 1;
        best = nearer(TimerId(at as u32), slots[at], best);
    }
    best
}

fn nearer(timer: TimerId, slot: Option<Timer>, best: Option<Armed>) -> Option<Armed>
    ensures { result ≡ sooner_slot timer.0 slot best }
{
    match slot {
        Some(found) => sooner_of(
            Armed {
                timer,
                deadline: found.deadline,
                period: found.period,
                task: found.task,
            },
            best,
        ),
        None => best,
    }
}

fn sooner_of(armed: Armed, best: Option<Armed>) -> Option<Armed>
    ensures { result ≡ sooner armed best }
{
    match best {
        Some(other) => {
            if armed.comes_first(other) {
                Some(armed)
            } else {
                best
            }
        }
        None => Some(armed),
    }
}

/// The least deadline of a table that is above a time.
fn earliest_in(slots: &[Option<Timer>], after: u64) -> Option<u64>
    ensures { result ≡ earliest_of after (armed_from 0 slots.now) }
{
    let mut best = None;
    let mut at = slots.len();
    while at > 0 {
        at -= 1;
        best = earlier(slots[at], after, best);
    }
    best
}

fn earlier(slot: Option<Timer>, after: u64, best: Option<u64>) -> Option<u64>
    ensures { result ≡ earlier_slot after slot best }
{
    match slot {
        Some(found) => {
            if after < found.deadline {
                lesser_of(found.deadline, best)
            } else {
                best
            }
        }
        None => best,
    }
}

fn lesser_of(deadline: u64, best: Option<u64>) -> Option<u64>
    ensures { result ≡ lesser deadline best }
{
    match best {
        Some(other) => Some(deadline.min(other)),
        None => Some(deadline),
    }
}
