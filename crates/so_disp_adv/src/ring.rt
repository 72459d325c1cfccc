//! The pick of a lane, over the ring of the queues that have a demand.
ghost use Rattle.std.specs.Prelude.{◌≡◌, ◌<◌};
ghost use Rattle.so_scene.specs.Lanes.{lanes, keys};
ghost use Rattle.so_queue.specs.Queues.{keys_of};
ghost use Rattle.so_disp_adv.specs.Pick.{may_be_taken, open_front, pick};

use crate::heads::{HeadClass, Heads};
use so_ids::{DemandId, KeyId, LaneId};
use so_queue::Queues;
use so_scene::Scene;

/// The demand that a lane may take: the least of the fronts of the queues that it serves and that may be taken
/// beside the running turns. An exclusive one may where no turn of its queue runs, a thread-safe one and one without
/// a turn where none runs that isn't thread-safe. `None` exactly where there is none.
pub fn pick<H: Heads>(scene: &Scene, queues: &Queues, heads: &H, lane: LaneId) -> Option<DemandId>
    requires lane { lane.0 < lanes scene.now }
    requires keys { keys_of queues.now ≡ keys scene.now }
    ensures { result ≡ pick scene.now queues.now (H.class heads.now) lane }
{
    let mut at = queues.ready();
    while let Some(key) = at {
        let front = open_front(scene, queues, heads, lane, key);
        if front.is_some() {
            return front;
        }
        at = queues.ready_after(key);
    }
    None
}

/// The front of a queue, where the lane may take it.
pub(crate) fn open_front<H: Heads>(
    scene: &Scene,
    queues: &Queues,
    heads: &H,
    lane: LaneId,
    key: KeyId,
) -> Option<DemandId>
    requires lane { lane.0 < lanes scene.now }
    requires keys { keys_of queues.now ≡ keys scene.now }
    requires key { key.0 < keys scene.now }
    ensures { result ≡ open_front scene.now queues.now (H.class heads.now) lane key.0 }
{
    let front = queues.front(key)?;
    if scene.serves(lane, key) && may_be_taken(heads.class(front), queues, key) {
        Some(front)
    } else {
        None
    }
}

/// Tells whether a demand of this class may be taken beside the running turns of its queue.
fn may_be_taken(class: HeadClass, queues: &Queues, key: KeyId) -> bool
    requires { key.0 < keys_of queues.now }
    ensures { result ≡ may_be_taken class queues.now key }
{
    match class {
        HeadClass::Exclusive => queues.is_quiet(key),
        HeadClass::Safe | HeadClass::Skip => queues.running(key).1 == 0,
    }
}
