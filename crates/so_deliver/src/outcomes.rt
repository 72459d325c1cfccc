//! The events that a delivery queues.

ghost use Rattle.std.specs.Prelude.{◌≡◌, ◌<◌, ◌≤◌, ◌^◌, [], ◌∷◌, ◌++◌, length, slice_get, vec_capacity, IfOk};
ghost use Rattle.so_deliver.specs.Planned.{no_outcomes, with_queued};

use so_ids::{NoMemory, Queued};
use std::alloc::Global;
use std::marker::Model;

/// The events that a delivery queues, in the order of its receivers, with room for so many.
#[derive(Drop)]
pub struct Outcomes {
    queued: Vec<Queued>,
    room: u32,
}

impl Model for Outcomes {
    ghost use Rattle.std.specs.Prelude.{◌≤◌, ◌<◌, ◌^◌, length, vec_capacity};
    ghost use Rattle.so_deliver.specs.Planned.{OutcomeTable};

    ghost Value = { OutcomeTable };

    ghost view = { λ all. record { queued = all.queued.items; room = all.room } };

    ghost invariant = { λ all. (length all.queued.items ≤ all.room) × (all.room ≤ vec_capacity all.queued) × (all.room < 2 ^ 32) };
}

impl Outcomes {
    /// No events, with room for `cap`.
    pub fn with(alloc: Global, cap: u32) -> Result<Outcomes, NoMemory>
        ensures { IfOk result (λ all. all ≡ no_outcomes cap) }
    {
        let queued = Vec::with_capacity(alloc, cap as usize)?;
        Ok(Outcomes { queued, room: cap })
    }

    /// The event at this position, `None` exactly past the last.
    pub fn queued_at(&self, at: u32) -> Option<Queued>
        ensures { result ≡ slice_get self.now.queued at }
    {
        self.queued.get(at as usize).copied()
    }

    /// How many there are.
    pub fn len(&self) -> u32
        ensures value { result ≡ length self.now.queued }
        ensures few { length self.now.queued ≤ self.now.room }
    {
        self.queued.len() as u32
    }

    /// Takes all events out.
    pub(crate) fn clear(&mut self)
        ensures none { self.new ≡ with_queued [] self.old }
        ensures range { self.new.room < 2 ^ 32 }
    {
        self.queued.clear();
    }

    /// Adds an event at the end.
    pub(crate) fn queue(&mut self, event: Queued)
        requires { length self.old.queued < self.old.room }
        ensures { self.new ≡ with_queued (self.old.queued ++ event ∷ []) self.old }
    {
        self.queued.push_reserved(event);
    }
}
