//! Which cooperations main has tried to register, and which is next.

ghost use Rattle.std.specs.Prelude.{◌≡◌, ◌<◌, length, IfOk};
ghost use Rattle.so_tables.specs.Attempts.{none_tried, after_attempt, untried_at, next_attempt};

use so_ids::{CoopId, NoMemory};
use so_scene::Scene;
use std::alloc::Global;
use std::marker::Model;

/// Main's registrations, over the cooperations of a scene.
#[derive(Drop)]
pub struct Attempts<'a> {
    scene: &'a Scene,
    tried: Vec<bool>,
    /// The next, kept beside what tells it.
    next: Option<CoopId>,
}

impl<'a> Model for Attempts<'a> {
    ghost use Rattle.std.specs.Prelude.{◌≡◌, length};
    ghost use Rattle.so_tables.specs.Attempts.{AttemptTable, next_attempt};

    ghost Value = { AttemptTable };

    ghost view = { λ t. record { scene = t.scene.now; tried = t.tried.items } };

    ghost invariant = { λ t. (length t.tried.items ≡ length t.scene.now.coops) × (t.next ≡ next_attempt (record { scene = t.scene.now; tried = t.tried.items })) };
}

impl<'a> Attempts<'a> {
    /// Main has tried none.
    pub fn with(alloc: Global, scene: &'a Scene) -> Result<Attempts<'a>, NoMemory>
        ensures { IfOk result (λ t. t ≡ none_tried scene.now) }
    {
        let Ok(tried) = Vec::from_elem(alloc, false, scene.coops() as usize) else {
            return Err(NoMemory);
        };
        let next = first_untried(scene, tried.as_slice());
        Ok(Attempts { scene, tried, next })
    }

    /// Main's next: the least cooperation that it is to register at the start and has not tried. `None` exactly where
    /// there is none.
    pub fn next(&self) -> Option<CoopId>
        ensures { result ≡ next_attempt self.now }
    {
        self.next
    }

    /// Main has tried a cooperation.
    pub fn tried(&mut self, coop: CoopId)
        requires { coop.0 < length self.old.scene.coops }
        ensures { self.new ≡ after_attempt coop self.old }
    {
        self.tried[coop.0 as usize] = true;
        self.next = first_untried(self.scene, self.tried.as_slice());
    }
}

/// The least cooperation that main is to register at the start, among those that it has not tried.
fn first_untried(scene: &Scene, tried: &[bool]) -> Option<CoopId>
    requires { length tried.now ≡ length scene.now.coops }
    ensures { result ≡ next_attempt (record { scene = scene.now; tried = tried.now }) }
{
    for k in 0..scene.coops() {
        let next = untried_at(scene, tried, CoopId(k));
        if next.is_some() {
            return next;
        }
    }
    None
}

/// The cooperation, if main is to register it at the start and has not tried it.
fn untried_at(scene: &Scene, tried: &[bool], coop: CoopId) -> Option<CoopId>
    requires coop { coop.0 < length scene.now.coops }
    requires size { length tried.now ≡ length scene.now.coops }
    ensures { result ≡ untried_at (record { scene = scene.now; tried = tried.now }) coop.0 }
{
    if scene.coop(coop).at_start && !tried[coop.0 as usize] {
        Some(coop)
    } else {
        None
    }
}
