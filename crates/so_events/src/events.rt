//! The demands of a run.
ghost use Rattle.std.specs.Prelude.{◌≡◌, ℕ, ◌<◌, ◌≤◌, ◌+◌, ◌-◌, ◌^◌, [], ◌∷◌, true, Some, None, length, map, IfOk};
ghost use Rattle.std.specs.List.{All, AllByRecursion, find};
ghost use Rattle.so_ids.specs.Ids.{is_earlier};
ghost use Rattle.so_ids.specs.declared.Queued.{Queued as Event};
ghost use Rattle.so_history.specs.declared.entry.Demand.{Demand as AnyDemand};
ghost use Rattle.so_lists.specs.Lists.{is_empty};
ghost use Rattle.so_disp_adv.specs.declared.heads.HeadClass.{HeadClass};
ghost use Rattle.so_scene.specs.Lanes.{lanes, keys};
ghost use Rattle.so_scene.specs.Parts.{agents_from};
ghost use Rattle.so_history.specs.Demands.{ask, ask_each, demand_of, demands_from, named};
ghost use Rattle.so_events.specs.Events.{no_events, after_demands, after_taking, turns_of, after_start, after_end, may_take_by, is_beside};
ghost use Rattle.so_events.specs.Tied.{overlaps};
ghost use Rattle.so_events.specs.Picked.{picked_on};
ghost use Rattle.so_queue.specs.Queues.{keys_of};

use crate::counts::LaneCounts;
use crate::find::find_demand;
use so_deliver::{Outcomes, queue_demand};
use so_disp_adv::Heads;
use so_disp_prio::Prio;
use so_history::{Demand, DemandKind};
use so_ids::{AgentId, DemandId, KeyId, LaneId, NoMemory, Place, Queued};
use so_queue::Queues;
use so_scene::{DispKind, Scene};
use std::alloc::Global;
use std::marker::Model;

/// All demands that were queued, in order, the queues in which those wait that were not taken, with how many
/// turns run with each, and the rounds of the dispatchers. Nothing after its making takes memory.
#[derive(Drop)]
pub struct Events<'a> {
    scene: &'a Scene,
    queued: Vec<Demand>,
    queues: Queues,
    prio: Prio,
    counts: LaneCounts,
    room: u32,
}

impl<'a> Model for Events<'a> {
    ghost use Rattle.std.specs.Prelude.{◌≡◌, ◌≤◌, ◌<◌, ◌^◌, length, vec_capacity};
    ghost use Rattle.so_events.specs.Events.{EventTable};
    ghost use Rattle.so_events.specs.Tied.{waiting_in, IsTied};
    ghost use Rattle.so_events.specs.Counts.{IsCounted};

    ghost Value = { EventTable };

    ghost view = { λ e. record {
      scene = e.scene.now;
      queued = e.queued.items;
      waiting = waiting_in e.scene.now e.queues.lists e.queued.items;
      safe = e.queues.safe;
      exclusive = e.queues.exclusive;
      rounds = e.prio;
      room = e.room;
    } };

    ghost invariant = { λ e. IsTied e.scene.now e.queued.items (waiting_in e.scene.now e.queues.lists e.queued.items) e.queues e.room
        × (length e.prio ≡ length e.scene.now.dispatchers) × (e.room ≤ vec_capacity e.queued) × (e.room < 2 ^ 32)
        × IsCounted e.scene.now (waiting_in e.scene.now e.queues.lists e.queued.items) e.counts };
}

impl<'a> Events<'a> {
    /// None, with room for so many in all.
    pub fn with(alloc: Global, scene: &'a Scene, room: u32) -> Result<Events<'a>, NoMemory>
        ensures { IfOk result (λ e. e ≡ no_events scene.now room) }
    {
        let queues = Queues::with(alloc, scene.keys(), room)?;
        let prio = Prio::with(alloc, scene)?;
        let counts = LaneCounts::with(alloc, scene)?;
        let Ok(queued) = Vec::with_capacity(alloc, room as usize) else {
            return Err(NoMemory);
        };
        Ok(Events {
            scene,
            queued,
            queues,
            prio,
            counts,
            room,
        })
    }

    /// Tells whether none waits.
    pub fn is_empty(&self) -> bool
        ensures { result ≡ is_empty self.now.waiting }
    {
        self.queues.ready().is_none()
    }

    /// Queues a demand, which is later than all before.
    pub fn push(&mut self, demand: Demand)
        requires agent { demand.agent.0 < length self.old.scene.agents }
        requires room { length self.old.queued < self.old.room }
        requires last { AllByRecursion (λ (d : AnyDemand). is_earlier d.id demand.id ≡ true) self.old.queued }
        ensures { self.new ≡ after_demands (demand ∷ []) self.old }
    {
        queue_demand(self.scene, demand.agent, demand.id, &mut self.queues);
        self.counts.add(self.scene, demand.agent);
        self.queued.push_reserved(demand);
    }

    /// Queues a demand for each of the agents from `first` on, as the demands of a place.
    pub fn push_each(&mut self, place: Place, kind: DemandKind, first: AgentId, count: u32)
        requires agents { first.0 + count ≤ length self.old.scene.agents }
        requires numbers { first.0 + count < 2 ^ 32 }
        requires room { length self.old.queued + count ≤ self.old.room }
        requires later { AllByRecursion (λ (d : AnyDemand). d.id.place.0 < place.0) self.old.queued }
        ensures { self.new ≡ after_demands (demands_from place.0 0 (ask_each kind (agents_from first count))) self.old }
    {
        for k in 0..count {
            self.push(Demand {
                id: DemandId { place, k },
                agent: AgentId(first.0 + k),
                kind,
            });
        }
    }

    /// Queues the events of a delivery, as the demands of a place.
    pub fn push_events(&mut self, place: Place, outcomes: &Outcomes)
        requires agents { All (λ (event : Event). event.agent.0 < length self.old.scene.agents) outcomes.now.queued }
        requires room { length self.old.queued + length outcomes.now.queued ≤ self.old.room }
        requires later { AllByRecursion (λ (d : AnyDemand). d.id.place.0 < place.0) self.old.queued }
        ensures { self.new ≡ after_demands (demands_from place.0 0 (map ask outcomes.now.queued)) self.old }
    {
        for k in 0..outcomes.len() {
            match outcomes.queued_at(k) {
                Some(event) => self.push(demand_of(place, k, event)),
                None => unreachable!(),
            }
        }
    }

    /// The demand of this name, among all that were queued.
    pub fn named(&self, id: DemandId) -> Option<Demand>
        ensures { result ≡ named id self.now.queued }
    {
        find_demand(&self.queued, id)
    }

    /// A lane before which no lane may take a demand, at most one past the last.
    pub fn first_lane(&self) -> u32
        ensures within { result ≤ lanes self.now.scene }
        ensures none { (l : ℕ) → l < result → (class : DemandId → HeadClass) → find (may_take_by self.now class (record { 0 = l })) self.now.waiting ≡ None }
    {
        let lanes = self.scene.lanes();
        for lane in 0..lanes {
            if self.counts.waiting[lane as usize] > 0 {
                return lane;
            }
        }
        lanes
    }

    /// The first demand that the lane may take: it serves the demand's queue, the demand is the next of it, and the
    /// turns of the queue that run allow what `heads` tells of the demand.
    pub fn pick<H: Heads>(&self, heads: &H, lane: LaneId) -> Option<Demand>
        requires { lane.0 < lanes self.now.scene }
        ensures { result ≡ find (may_take_by self.now (H.class heads.now) lane) self.now.waiting }
    {
        match pick_on(
            self.scene.dispatcher(self.scene.lane(lane).disp).kind,
            self.scene,
            &self.queues,
            &self.prio,
            heads,
            lane,
        ) {
            Some(id) => self.named(id),
            None => None,
        }
    }

    /// The lane takes a demand out, the first that waits in its queue with its priority.
    pub fn take(&mut self, lane: LaneId, demand: Demand)
        requires lane { lane.0 < lanes self.old.scene }
        requires first { find (is_beside self.old.scene demand) self.old.waiting ≡ Some demand }
        ensures { self.new ≡ after_taking lane demand self.old }
    {
        let key = self.scene.key(demand.agent);
        let priority = self.scene.priority(demand.agent);
        let _id = self.queues.take(key, priority);
        self.counts.remove(self.scene, demand.agent);
        self.prio.took(self.scene, lane, priority);
    }

    /// A turn begins with a queue, a thread-safe one only where such may overlap.
    pub fn started(&mut self, key: KeyId, safe: bool)
        requires key { key.0 < keys self.old.scene }
        requires overlap { safe ≡ true → overlaps self.old.scene key.0 ≡ true }
        requires room { turns_of safe self.old key < 2 ^ 32 - 1 }
        ensures { self.new ≡ after_start safe key self.old }
    {
        self.queues.started(key, safe);
    }

    /// A turn with the queue has ended, a thread-safe one or another.
    pub fn ended(&mut self, key: KeyId, safe: bool)
        requires key { key.0 < keys self.old.scene }
        requires runs { 0 < turns_of safe self.old key }
        ensures { self.new ≡ after_end safe key self.old }
    {
        self.queues.ended(key, safe);
    }
}

/// The name of the demand that a lane may take, picked as a dispatcher of this kind does.
fn pick_on<H: Heads>(
    kind: DispKind,
    scene: &Scene,
    queues: &Queues,
    prio: &Prio,
    heads: &H,
    lane: LaneId,
) -> Option<DemandId>
    requires lane { lane.0 < lanes scene.now }
    requires keys { keys_of queues.now ≡ keys scene.now }
    requires rounds { length prio.now ≡ length scene.now.dispatchers }
    ensures { result ≡ picked_on kind scene.now queues.now prio.now (H.class heads.now) lane }
{
    match kind {
        DispKind::AdvThreadPool => so_disp_adv::pick(scene, queues, heads, lane),
        DispKind::StrictlyOrdered | DispKind::QuotedRoundRobin => prio.pick(scene, queues, lane),
        _ => so_disp_excl::pick(scene, queues, lane),
    }
}

/// The demand of an event, the `k`-th that the entry at a place queues.
fn demand_of(place: Place, k: u32, event: Queued) -> Demand
    ensures { result ≡ demand_of place.0 k (ask event) }
{
    Demand {
        id: DemandId { place, k },
        agent: event.agent,
        kind: DemandKind::Event {
            mbox: event.mbox,
            msg: event.msg,
            payload: event.payload,
        },
    }
}
