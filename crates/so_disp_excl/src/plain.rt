//! The pick of a lane, queue by queue.
ghost use Rattle.std.specs.Prelude.{◌≡◌, ◌<◌};
ghost use Rattle.so_scene.specs.Lanes.{lanes, keys};
ghost use Rattle.so_queue.specs.Queues.{keys_of};
ghost use Rattle.so_disp_excl.specs.Pick.{open_front, pick};

use crate::ring::open_front;
use so_ids::{DemandId, KeyId, LaneId};
use so_queue::{Queues, lesser_of};
use so_scene::Scene;

/// The demand that a lane may take. Slow: it is what the other pick is compared with.
#[tactic(auto, unfolding(so_queue::specs::Picks::least_below, crate::specs::Pick::pick))]
pub fn plain_pick(scene: &Scene, queues: &Queues, lane: LaneId) -> Option<DemandId>
    requires lane { lane.0 < lanes scene.now }
    requires keys { keys_of queues.now ≡ keys scene.now }
    ensures { result ≡ pick scene.now queues.now lane }
{
    let mut best = None;
    for key in 0..scene.keys() {
        best = lesser_of(best, open_front(scene, queues, lane, KeyId(key)));
    }
    best
}
