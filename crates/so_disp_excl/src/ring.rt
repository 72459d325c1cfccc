//! The pick of a lane: of its own queue, where it serves one agent's alone, else over the ring of the queues that
//! have a demand.
ghost use Rattle.std.specs.Prelude.{◌≡◌, ◌<◌, Some};
ghost use Rattle.so_scene.specs.declared.lanes.Part.TheVariants.{Own};
ghost use Rattle.so_scene.specs.Lanes.{lanes, keys, lane_at};
ghost use Rattle.so_queue.specs.Queues.{keys_of};
ghost use Rattle.so_disp_excl.specs.Pick.{is_open, open_front, pick};

use so_ids::{AgentId, DemandId, KeyId, LaneId};
use so_queue::Queues;
use so_scene::{Part, Scene};

/// The demand that a lane may take: the least of the fronts of the queues that it serves and of which no
/// turn runs. `None` exactly where there is none.
pub fn pick(scene: &Scene, queues: &Queues, lane: LaneId) -> Option<DemandId>
    requires lane { lane.0 < lanes scene.now }
    requires keys { keys_of queues.now ≡ keys scene.now }
    ensures { result ≡ pick scene.now queues.now lane }
{
    match scene.lane(lane).part {
        Some(Part::Own(agent)) => pick_own(scene, queues, lane, agent),
        _ => pick_ring(scene, queues, lane),
    }
}

/// The pick of a lane that serves one agent's queue alone, which has the agent's number.
fn pick_own(scene: &Scene, queues: &Queues, lane: LaneId, agent: AgentId) -> Option<DemandId>
    requires lane { lane.0 < lanes scene.now }
    requires keys { keys_of queues.now ≡ keys scene.now }
    requires own { (lane_at scene.now lane).part ≡ Some (Own agent) }
    ensures { result ≡ pick scene.now queues.now lane }
{
    if agent.0 < scene.keys() {
        open_front(scene, queues, lane, KeyId(agent.0))
    } else {
        None
    }
}

/// The pick of any lane, over the ring.
fn pick_ring(scene: &Scene, queues: &Queues, lane: LaneId) -> Option<DemandId>
    requires lane { lane.0 < lanes scene.now }
    requires keys { keys_of queues.now ≡ keys scene.now }
    ensures { result ≡ pick scene.now queues.now lane }
{
    let mut at = queues.ready();
    while let Some(key) = at {
        if is_open(scene, queues, lane, key) {
            return queues.front(key);
        }
        at = queues.ready_after(key);
    }
    None
}

/// The front of a queue, where the lane may take from it.
pub(crate) fn open_front(
    scene: &Scene,
    queues: &Queues,
    lane: LaneId,
    key: KeyId,
) -> Option<DemandId>
    requires lane { lane.0 < lanes scene.now }
    requires keys { keys_of queues.now ≡ keys scene.now }
    requires key { key.0 < keys scene.now }
    ensures { result ≡ open_front scene.now queues.now lane key.0 }
{
    if is_open(scene, queues, lane, key) {
        queues.front(key)
    } else {
        None
    }
}

/// Tells whether the lane may take from the queue.
fn is_open(scene: &Scene, queues: &Queues, lane: LaneId, key: KeyId) -> bool
    requires lane { lane.0 < lanes scene.now }
    requires keys { keys_of queues.now ≡ keys scene.now }
    requires key { key.0 < keys scene.now }
    ensures { result ≡ is_open scene.now queues.now lane key }
{
    scene.serves(lane, key) && queues.is_quiet(key)
}
