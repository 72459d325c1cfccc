//! How many demands wait for each lane.
ghost use Rattle.std.specs.Prelude.{◌≡◌, ℕ, ◌<◌, ◌≤◌, ◌+◌, ◌-◌, ◌^◌, length, IfOk, slice_index_or, [], false};
ghost use Rattle.so_scene.specs.Lanes.{lanes, keys, key_of, serves};
ghost use Rattle.so_events.specs.Counts.{IsCounted, AreFirst, first_for, one_demand_more, one_demand_less};

use so_ids::{AgentId, KeyId, LaneId, NoMemory};
use so_scene::Scene;
use std::alloc::Global;

/// How many demands wait for each lane: a demand waits for the first lane that serves its queue.
#[derive(Drop)]
pub(crate) struct LaneCounts {
    /// The first lane that serves each queue, as many as there are lanes where none does.
    firsts: Vec<u32>,
    /// How many demands wait for each lane, and last for none.
    pub(crate) waiting: Vec<u32>,
}

impl LaneCounts {
    /// No demand waits.
    pub(crate) fn with(alloc: Global, scene: &Scene) -> Result<LaneCounts, NoMemory>
        ensures { IfOk result (λ c. IsCounted scene.now [] c) }
    {
        let firsts = first_lanes(alloc, scene)?;
        let Ok(waiting) = Vec::from_elem(alloc, 0u32, scene.lanes() as usize + 1) else {
            return Err(NoMemory);
        };
        Ok(LaneCounts { firsts, waiting })
    }

    /// Counts a demand of the agent that waits from now on.
    pub(crate) fn add(&mut self, scene: &Scene, agent: AgentId)
        requires agent { agent.0 < length scene.now.agents }
        requires first { AreFirst scene.now self.old.firsts.items }
        requires size { length self.old.waiting.items ≡ lanes scene.now + 1 }
        requires room { slice_index_or self.old.waiting.items (first_for scene.now self.old.firsts.items agent) 0 < 2 ^ 32 - 1 }
        ensures firsts { self.new.firsts ≡ self.old.firsts }
        ensures waiting { self.new.waiting.items ≡ one_demand_more (first_for scene.now self.old.firsts.items agent) self.old.waiting.items }
    {
        let lane = self.firsts[scene.key(agent).0 as usize];
        self.waiting[lane as usize] += 1;
    }

    /// Counts a demand of the agent that waits no more.
    pub(crate) fn remove(&mut self, scene: &Scene, agent: AgentId)
        requires agent { agent.0 < length scene.now.agents }
        requires first { AreFirst scene.now self.old.firsts.items }
        requires size { length self.old.waiting.items ≡ lanes scene.now + 1 }
        requires waits { 0 < slice_index_or self.old.waiting.items (first_for scene.now self.old.firsts.items agent) 0 }
        ensures firsts { self.new.firsts ≡ self.old.firsts }
        ensures waiting { self.new.waiting.items ≡ one_demand_less (first_for scene.now self.old.firsts.items agent) self.old.waiting.items }
    {
        let lane = self.firsts[scene.key(agent).0 as usize];
        self.waiting[lane as usize] -= 1;
    }
}

/// The first lane that serves each queue.
fn first_lanes(alloc: Global, scene: &Scene) -> Result<Vec<u32>, NoMemory>
    ensures { IfOk result (λ v. AreFirst scene.now v.items) }
{
    let mut firsts = Vec::new(alloc);
    for key in 0..scene.keys() {
        if firsts.push(first_lane(scene, KeyId(key))).is_err() {
            return Err(NoMemory);
        }
    }
    Ok(firsts)
}

/// The first lane that serves the queue.
fn first_lane(scene: &Scene, key: KeyId) -> u32
    requires { key.0 < keys scene.now }
    ensures within { result ≤ lanes scene.now }
    ensures none { (l : ℕ) → l < result → serves scene.now (record { 0 = l }) key ≡ false }
{
    let lanes = scene.lanes();
    for lane in 0..lanes {
        if scene.serves(LaneId(lane), key) {
            return lane;
        }
    }
    lanes
}
