//! The running turns that one party has in hand, by lane.

ghost use Rattle.std.specs.Prelude.{◌≡◌, ◌<◌, length, replicate, IfOk, Some, None, MatchOption, slice_index_or, slice_set};
ghost use Rattle.so_scene.specs.Lanes.{lanes};
ghost use Rattle.so_kernel.specs.Held.{AreHeld, NoneBelow, IsFirstHeld, HasAdvanced};

use crate::answers::{Turn, Turned};
use crate::kernel::Kernel;
use crate::steps::step_turn;
use so_ids::{LaneId, NoMemory};
use std::alloc::Global;
use std::marker::Model;

/// A turn, or none, for each lane.
#[derive(Drop)]
pub struct Turns {
    held: Vec<Option<Turn>>,
    /// Each turn is that of a lane from this one on
    from: usize,
    /// and below this one.
    below: usize,
}

impl Model for Turns {
    ghost use Rattle.std.specs.Prelude.{◌≤◌, ◌^◌, List, Option, length};
    ghost use Rattle.so_kernel.specs.declared.answers.Turn.{Turn};
    ghost use Rattle.so_kernel.specs.Held.{AreWithin};

    ghost Value = { List (Option Turn) };

    ghost view = { λ turns. turns.held.items };

    ghost invariant = { λ turns. AreWithin turns.from turns.below turns.held.items × (turns.below ≤ length turns.held.items) × (turns.below ≤ 2 ^ 32) };
}

impl Turns {
    /// No turns, for so many lanes.
    pub fn for_lanes(alloc: Global, lanes: u32) -> Result<Turns, NoMemory>
        ensures { IfOk result (λ turns. turns ≡ replicate lanes None) }
    {
        let mut held = Vec::new(alloc);
        for lane in 0..lanes {
            if held.push(None).is_err() {
                return Err(NoMemory);
            }
        }
        Ok(Turns {
            held,
            from: 0,
            below: 0,
        })
    }

    /// The first lane that has a turn.
    pub fn first(&self) -> Option<LaneId>
        ensures { MatchOption result (NoneBelow self.now (length self.now)) (λ lane. IsFirstHeld self.now (length self.now) lane.0) }
    {
        for lane in self.from..self.below {
            if self.held[lane].is_some() {
                return Some(LaneId(lane as u32));
            }
        }
        None
    }

    /// Makes the next step of the lane's turn in its place. `None` where the lane has none.
    pub(crate) fn advance(&mut self, kernel: &mut Kernel, lane: LaneId) -> Option<Turned>
        requires lane { lane.0 < lanes kernel.old.scene }
        requires held { AreHeld kernel.old self.old }
        ensures { HasAdvanced kernel.old self.old lane.0 (slice_index_or self.old lane.0 None) result kernel.new self.new }
    {
        match &mut self.held[lane.0 as usize] {
            Some(turn) => Some(step_turn(kernel, turn, lane)),
            None => None,
        }
    }

    /// Lets the lane's turn go.
    pub(crate) fn release(&mut self, lane: LaneId)
        requires { lane.0 < length self.old }
        ensures { self.new ≡ slice_set self.old lane.0 None }
    {
        let at = lane.0 as usize;
        if at == self.from && at < self.below {
            self.from += 1;
        }
        self.held[at] = None;
    }

    /// Makes this turn the lane's.
    pub fn put(&mut self, lane: LaneId, turn: Turn)
        requires lane { lane.0 < length self.old }
        requires none { slice_index_or self.old lane.0 None ≡ None }
        ensures { self.new ≡ slice_set self.old lane.0 (Some turn) }
    {
        let at = lane.0 as usize;
        if self.below <= self.from {
            self.from = at;
            self.below = at + 1;
        } else {
            self.from = self.from.min(at);
            self.below = self.below.max(at + 1);
        }
        self.held[at] = Some(turn);
    }
}
