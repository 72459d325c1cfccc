//! Armed timers in a heap.
ghost use Rattle.std.specs.Prelude.{◌≡◌, ◌≢◌, ℕ, ◌+◌, ◌<◌, ◌≤◌, ◌^◌, ◌↔◌, IsTrue, IsNone, IfOk, IfSome, Some, None, [], ◌∷◌, ◌++◌, length, option_map, if◌then◌else◌, slice_set, vec_len, vec_capacity};
ghost use Rattle.so_timer.specs.Timers.{timer_of, is_armed, task_of, fired, due_of, earliest_of, no_timers, after_arm, after_cancel, after_fire, after_clear, IsInRange};
ghost use Rattle.so_timer.specs.Slots.{armed_timer};
ghost use Rattle.so_timer.specs.declared.timer.Armed.{Armed};

use crate::heap;
use crate::heap::Due;
use crate::timer::{Timer, TimerTask};
use so_ids::{NoMemory, TimerId};
use std::alloc::Global;
use std::marker::Model;

/// Armed timers, each with a number in order of arming. The timer of number n stands in slot n, and
/// its place in the heap is `places[n]`.
#[derive(Drop)]
pub struct Timers {
    slots: Vec<Option<Timer>>,
    places: Vec<u32>,
    heap: Vec<Due>,
    cap: u32,
    total: u32,
}

impl Model for Timers {
    ghost use Rattle.std.specs.Prelude.{length, vec_capacity};
    ghost use Rattle.so_timer.specs.Timers.{TimerTable};
    ghost use Rattle.so_timer.specs.Slots.{armed_from};
    ghost use Rattle.so_timer.specs.Index.{IsIndex, HasRoom};

    ghost Value = { TimerTable };

    ghost view = { λ t. record {
      armed = armed_from 0 t.slots.items;
      next = length t.slots.items;
      cap = t.cap;
      total = t.total;
    } };

    ghost invariant = { λ t. IsIndex t.slots.items t.places.items t.heap.items
        × HasRoom (length t.slots.items) (length t.heap.items) t.cap t.total
        (vec_capacity t.slots) (vec_capacity t.places) (vec_capacity t.heap) };
}

impl Timers {
    /// No timers, with room for `cap` at once and `total` in all.
    pub fn with(alloc: Global, cap: u32, total: u32) -> Result<Timers, NoMemory>
        ensures { IfOk result (λ t. t ≡ no_timers cap total) }
    {
        let Ok(slots) = Vec::with_capacity(alloc, total as usize) else {
            return Err(NoMemory);
        };
        let Ok(places) = Vec::with_capacity(alloc, total as usize) else {
            return Err(NoMemory);
        };
        let Ok(heap) = Vec::with_capacity(alloc, cap as usize) else {
            return Err(NoMemory);
        };
        Ok(Timers {
            slots,
            places,
            heap,
            cap,
            total,
        })
    }

    /// Tells whether one more timer may be armed.
    pub fn has_room(&self) -> bool
        ensures { IsTrue result ↔ ((length self.now.armed < self.now.cap)
            × (self.now.next < self.now.total)) }
    {
        self.heap.len() < self.cap as usize && self.slots.len() < self.total as usize
    }

    /// Arms a timer and gives its number. It fires at `deadline` or later, and with a period that
    /// isn't 0 again after each period.
    pub fn arm(&mut self, deadline: u64, period: u32, task: TimerTask) -> TimerId
        requires room { length self.old.armed < self.old.cap }
        requires fresh { self.old.next < self.old.total }
        requires in_range { deadline ≤ 2 ^ 63 }
        ensures number { result.0 ≡ self.old.next }
        ensures after { self.new ≡ after_arm deadline period task self.old }
    {
        let timer = TimerId(self.slots.len() as u32);
        heap::add(&mut self.heap, &mut self.places, Due { deadline, timer });
        self.slots.push_reserved(Some(Timer {
            deadline,
            period,
            task,
        }));
        timer
    }

    /// The armed timer of a number.
    fn timer(&self, timer: TimerId) -> Option<Timer>
        ensures { option_map (armed_timer timer.0) result ≡ timer_of timer.0 self.now.armed }
    {
        match self.slots.get(timer.0 as usize) {
            Some(slot) => *slot,
            None => None,
        }
    }

    /// Disarms a timer, and tells whether it was armed.
    pub fn cancel(&mut self, timer: TimerId) -> bool
        ensures answer { result ≡ is_armed timer.0 self.old.armed }
        ensures after { self.new ≡ after_cancel timer.0 self.old }
    {
        match self.timer(timer) {
            Some(_) => {
                self.disarm(timer);
                true
            }
            None => false,
        }
    }

    /// Disarms a timer that is armed. The clause `single` is what `fire` needs of one without a
    /// period.
    fn disarm(&mut self, timer: TimerId)
        requires armed { IsTrue (is_armed timer.0 self.old.armed) }
        ensures after { self.new ≡ after_cancel timer.0 self.old }
        ensures single { (a : Armed) → timer_of timer.0 self.old.armed ≡ Some a → a.period ≡ 0
            → self.new.armed ≡ fired timer.0 self.old.armed }
    {
        let at = self.places[timer.0 as usize];
        heap::take_out(&mut self.heap, &mut self.places, at as usize);
        self.slots[timer.0 as usize] = None;
    }

    /// The timer that fires next, if its deadline is at most `now`: the one of the least deadline, and
    /// of those the one of the least number.
    pub fn due(&self, now: u64) -> Option<TimerId>
        ensures { result ≡ due_of now self.now.armed }
    {
        if self.heap.len() == 0 {
            return None;
        }
        let first = self.heap[0];
        if first.deadline <= now {
            Some(first.timer)
        } else {
            None
        }
    }

    /// What an armed timer does when it fires.
    pub fn task(&self, timer: TimerId) -> TimerTask
        requires armed { IsTrue (is_armed timer.0 self.now.armed) }
        ensures { task_of timer.0 self.now.armed ≡ Some result }
    {
        match self.timer(timer) {
            Some(found) => found.task,
            None => unreachable!(),
        }
    }

    /// Tells whether a timer may fire: it is armed, and its deadline with its period added is at most
    /// 2^63.
    pub fn may_fire(&self, timer: TimerId) -> bool
        ensures { IsTrue result ↔ (IsTrue (is_armed timer.0 self.now.armed)
            × IsInRange timer.0 self.now.armed) }
    {
        match self.timer(timer) {
            Some(found) => found.is_in_range(),
            None => false,
        }
    }

    /// Fires a timer and gives what it does. One with a period is armed anew under its number, its
    /// deadline later by the period.
    pub fn fire(&mut self, timer: TimerId) -> TimerTask
        requires armed { IsTrue (is_armed timer.0 self.old.armed) }
        requires in_range { IsInRange timer.0 self.old.armed }
        ensures task { task_of timer.0 self.old.armed ≡ Some result }
        ensures after { self.new ≡ after_fire timer.0 self.old }
    {
        match self.timer(timer) {
            Some(found) => {
                if found.period == 0 {
                    self.disarm(timer);
                } else {
                    self.defer(timer, found);
                }
                found.task
            }
            None => unreachable!(),
        }
    }

    /// Arms a timer with a period anew, after it fired.
    fn defer(&mut self, timer: TimerId, found: Timer)
        requires armed { timer_of timer.0 self.old.armed ≡ Some (armed_timer timer.0 found) }
        requires period { found.period ≢ 0 }
        requires in_range { found.deadline + found.period ≤ 2 ^ 63 }
        ensures after { self.new ≡ after_fire timer.0 self.old }
    {
        let at = self.places[timer.0 as usize];
        let deadline = found.deadline + u64::from(found.period);
        heap::change(&mut self.heap, &mut self.places, at as usize, deadline);
        self.slots[timer.0 as usize] = Some(Timer {
            deadline,
            period: found.period,
            task: found.task,
        });
    }

    /// The least armed deadline that is greater than `after`.
    pub fn earliest(&self, after: u64) -> Option<u64>
        ensures { result ≡ earliest_of after self.now.armed }
    {
        heap::earliest(&self.heap, after)
    }

    /// The last timer of the heap.
    fn last(&self) -> Option<TimerId>
        ensures none { IsNone result → self.now.armed ≡ [] }
        ensures armed { IfSome result (λ t. IsTrue (is_armed t.0 self.now.armed)) }
    {
        let count = self.heap.len();
        if count == 0 {
            return None;
        }
        let last = self.heap[count - 1];
        Some(last.timer)
    }

    /// Disarms all timers. The numbers go on.
    pub fn clear(&mut self)
        ensures { self.new ≡ after_clear self.old }
    {
        while let Some(timer) = self.last() {
            self.disarm(timer);
        }
    }
}
