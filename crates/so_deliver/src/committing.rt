//! What a delivery queues is put into the queues.

ghost use Rattle.std.specs.Prelude.{◌≡◌, ◌<◌, ◌≤◌, length};
ghost use Rattle.std.specs.List.{All};
ghost use Rattle.so_ids.specs.declared.Queued.{Queued as Event};
ghost use Rattle.so_scene.specs.Lanes.{keys};
ghost use Rattle.so_queue.specs.Queues.{keys_of, IsAfterAll};
ghost use Rattle.so_deliver.specs.Commit.{after_demand, committed, IsPlaceAfter};

use crate::outcomes::Outcomes;
use so_ids::{AgentId, DemandId, Place};
use so_queue::Queues;
use so_scene::Scene;

/// Queues what a delivery queues: each event in order, as the demand of this place and its number, last in
/// the queue of its agent.
pub fn commit(scene: &Scene, outcomes: &Outcomes, queues: &mut Queues, place: Place)
    requires keys { keys_of queues.old ≡ keys scene.now }
    requires agents { All (λ (event : Event). event.agent.0 < length scene.now.agents) outcomes.now.queued }
    requires room { length outcomes.now.queued ≤ queues.old.room }
    requires later { IsPlaceAfter queues.old.lists place }
    ensures { queues.new ≡ committed scene.now place outcomes.now.queued queues.old }
{
    for k in 0..outcomes.len() {
        match outcomes.queued_at(k) {
            Some(event) => queue_demand(scene, event.agent, DemandId { place, k }, queues),
            None => unreachable!(),
        }
    }
}

/// Puts a demand last in its agent's queue.
pub fn queue_demand(scene: &Scene, agent: AgentId, demand: DemandId, queues: &mut Queues)
    requires keys { keys_of queues.old ≡ keys scene.now }
    requires agent { agent.0 < length scene.now.agents }
    requires room { 0 < queues.old.room }
    requires last { IsAfterAll queues.old.lists demand }
    ensures { queues.new ≡ after_demand scene.now agent demand queues.old }
{
    queues.push(scene.key(agent), scene.priority(agent), demand);
}
