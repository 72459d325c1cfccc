//! Which turn runs on each lane, by number.

ghost use Rattle.std.specs.Prelude.{◌≡◌, ◌<◌, ◌↔◌, IsTrue, Some, None, length, replicate, IfOk, slice_set, slice_index_or};
ghost use Rattle.std.specs.Option.{is_none};
ghost use Rattle.std.specs.List.{All};

use so_ids::{NoMemory, Place};
use std::alloc::Global;
use std::marker::Model;

/// For each number the place of the turn that runs there.
#[derive(Drop)]
pub struct LaneTurns {
    turns: Vec<Option<Place>>,
}

impl Model for LaneTurns {
    ghost use Rattle.std.specs.Prelude.{List, Option};
    ghost use Rattle.so_ids.specs.declared.Place.{Place};

    ghost Value = { List (Option Place) };

    ghost view = { λ lane_turns. lane_turns.turns.items };
}

impl LaneTurns {
    /// So many numbers, where no turn runs.
    pub fn with(alloc: Global, count: u32) -> Result<LaneTurns, NoMemory>
        ensures { IfOk result (λ lane_turns. lane_turns ≡ replicate count None) }
    {
        match vec![in alloc; None; count as usize] {
            Ok(turns) => Ok(LaneTurns { turns }),
            Err(_) => Err(NoMemory),
        }
    }

    /// Tells whether no turn runs at a number.
    pub fn is_free(&self, at: u32) -> bool
        requires { at < length self.now }
        ensures { result ≡ is_none (slice_index_or self.now at None) }
    {
        self.turns[at as usize].is_none()
    }

    /// Tells whether no turn runs at any.
    pub fn all_free(&self) -> bool
        ensures { IsTrue result ↔ All (λ p. p ≡ None) self.now }
    {
        self.turns.iter().all(|turn| turn.is_none())
    }

    /// A turn runs there now.
    pub fn start(&mut self, at: u32, place: Place)
        requires { at < length self.old }
        ensures { self.new ≡ slice_set self.old at (Some place) }
    {
        self.turns[at as usize] = Some(place);
    }

    /// None does any more.
    pub fn end(&mut self, at: u32)
        requires { at < length self.old }
        ensures { self.new ≡ slice_set self.old at None }
    {
        self.turns[at as usize] = None;
    }
}
