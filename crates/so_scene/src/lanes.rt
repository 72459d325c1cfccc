//! Lanes and keys: which events stand in one queue, and which lanes take from it.

ghost use Rattle.std.specs.Prelude.{◌≡◌, ◌<◌, ◌≤◌, ◌^◌, ◌+◌, [], ◌∷◌, ◌++◌, length, map, replicate, unwrap_or, slice_index_or, IfOk, IfSome};
ghost use Rattle.std.specs.List.{position};
ghost use Rattle.so_scene.specs.declared.parts.AgentDef.{AgentDef};
ghost use Rattle.so_lists.specs.Lists.{each_below};
ghost use Rattle.so_scene.specs.Lanes.{part_in_pool, part_of, no_queue, no_key, no_lane, IsLaidOut, shared_lane, agent_lane, group_lane, priority_lane, is_bound, bound_to, key_at, numbered, AreBound, same_part, same_queue, queue_of, queue_at, queues, key_of, keys, serves_part, serves_queue, serves, lane_at, lanes_of, lanes_to, lane_list, lanes};

use crate::parts::{AgentDef, DispDef, DispKind, Fifo, SceneParts};
use crate::scene::Scene;
use so_ids::{AgentId, CoopId, DispId, KeyId, LaneId, NoMemory};
use std::alloc::Global;

/// With which of its dispatcher's agents an agent shares its queue.
#[derive(Clone, Copy, PartialEq, Eq)]
pub enum Part {
    /// With all.
    Whole,
    /// With none but itself.
    Own(AgentId),
    /// With those of a group.
    Group(u32),
    /// With those of a cooperation.
    Coop(CoopId),
    /// With those of a priority, by its level.
    Prio(u8),
}

/// An event queue: a dispatcher, and the part of its agents whose events stand in the queue.
#[derive(Clone, Copy, PartialEq, Eq)]
pub struct Queue {
    pub disp: DispId,
    pub part: Part,
}

/// A lane, which is a thread of its dispatcher.
#[derive(Clone, Copy, PartialEq, Eq)]
pub struct Lane {
    pub disp: DispId,
    /// The one part whose queue it serves, `None` where it serves all queues of the dispatcher.
    pub part: Option<Part>,
}

impl Part {
    /// Tells whether this is the same part.
    fn is(self, other: Part) -> bool
        ensures { result ≡ same_part self other }
    {
        match (self, other) {
            (Part::Whole, Part::Whole) => true,
            (Part::Own(a), Part::Own(b)) => a == b,
            (Part::Group(a), Part::Group(b)) => a == b,
            (Part::Coop(a), Part::Coop(b)) => a == b,
            (Part::Prio(a), Part::Prio(b)) => a == b,
            _ => false,
        }
    }
}

impl Queue {
    /// Tells whether this is the same queue.
    fn is(self, other: Queue) -> bool
        ensures { result ≡ same_queue self other }
    {
        self.disp == other.disp && self.part.is(other.part)
    }
}

impl Lane {
    /// Tells whether the lane takes demands from the queue.
    fn serves(self, queue: Queue) -> bool
        ensures { result ≡ serves_queue self queue }
    {
        if self.disp != queue.disp {
            return false;
        }
        match self.part {
            None => true,
            Some(own) => own.is(queue.part),
        }
    }
}

impl DispDef {
    /// With which of this dispatcher's agents an agent shares its queue.
    fn part(&self, agent: AgentId, def: &AgentDef) -> Part
        ensures { result ≡ part_of self.now agent def.now }
    {
        match self.kind {
            DispKind::OneThread | DispKind::StrictlyOrdered | DispKind::QuotedRoundRobin =>
                Part::Whole,
            DispKind::ActiveObj => Part::Own(agent),
            DispKind::ActiveGroup => Part::Group(def.group.unwrap_or(0)),
            DispKind::ThreadPool | DispKind::AdvThreadPool => part_in_pool(
                self.fifo, agent, def.coop,
            ),
            DispKind::OnePerPrio => Part::Prio(def.priority.level),
        }
    }
}

/// With which agents of a pool an agent of a cooperation shares its queue.
fn part_in_pool(fifo: Fifo, agent: AgentId, coop: CoopId) -> Part
    ensures { (def : AgentDef) → def.coop ≡ coop → result ≡ part_in_pool fifo agent def }
{
    match fifo {
        Fifo::Cooperation => Part::Coop(coop),
        Fifo::Individual => Part::Own(agent),
    }
}

/// The queues and lanes of a scene by number.
#[derive(Drop)]
pub(crate) struct Layout {
    /// The queue of each agent.
    pub(crate) queues: Vec<Queue>,
    /// Its number.
    pub(crate) keys: Vec<KeyId>,
    pub(crate) lanes: Vec<Lane>,
}

impl Layout {
    /// The layout of a scene's parts.
    pub(crate) fn of(alloc: Global, parts: &SceneParts) -> Result<Layout, NoMemory>
        requires { AreBound parts.now }
        ensures { IfOk result (λ l. IsLaidOut parts.now l) }
    {
        let queues = queues_of(alloc, parts)?;
        let keys = keys_of(alloc, queues.as_slice())?;
        let lanes = lanes_of(alloc, parts)?;
        Ok(Layout {
            queues,
            keys,
            lanes,
        })
    }

    /// The queue of an agent.
    fn queue(&self, agent: AgentId) -> Queue
        requires { agent.0 < length self.now.queues.items }
        ensures { result ≡ slice_index_or self.now.queues.items agent.0 no_queue }
    {
        self.queues.as_slice()[agent.0 as usize]
    }

    /// The number of an agent's queue.
    fn key(&self, agent: AgentId) -> KeyId
        requires { agent.0 < length self.now.keys.items }
        ensures { result ≡ slice_index_or self.now.keys.items agent.0 no_key }
    {
        self.keys.as_slice()[agent.0 as usize]
    }

    /// A lane.
    fn lane(&self, lane: LaneId) -> Lane
        requires { lane.0 < length self.now.lanes.items }
        ensures { result ≡ slice_index_or self.now.lanes.items lane.0 no_lane }
    {
        self.lanes.as_slice()[lane.0 as usize]
    }
}

/// The queue of each agent.
#[tactic(auto, unfolding(crate::specs::Lanes::queues))]
fn queues_of(alloc: Global, parts: &SceneParts) -> Result<Vec<Queue>, NoMemory>
    requires { AreBound parts.now }
    ensures { IfOk result (λ v. v.items ≡ queues parts.now) }
{
    let mut queues = Vec::new(alloc);
    for agent in 0..parts.agents.len() {
        if queues.push(parts.queue(AgentId(agent as u32))).is_err() {
            return Err(NoMemory);
        }
    }
    Ok(queues)
}

impl SceneParts {
    /// The queue in which the agent's events stand.
    pub(crate) fn queue(&self, agent: AgentId) -> Queue
        requires agent { agent.0 < length self.now.agents }
        requires bound { AreBound self.now }
        ensures { result ≡ queue_of self.now agent }
    {
        let def = &self.agents.as_slice()[agent.0 as usize];
        let disp = &self.dispatchers.as_slice()[def.disp.0 as usize];
        Queue {
            disp: def.disp,
            part: disp.part(agent, def),
        }
    }
}

impl SceneParts {
    /// Tells whether the agent is bound to the dispatcher.
    fn is_bound(&self, disp: DispId, agent: AgentId) -> bool
        requires { agent.0 < length self.now.agents }
        ensures { result ≡ is_bound self.now disp agent }
    {
        self.agents.as_slice()[agent.0 as usize].disp == disp
    }
}

/// The number of each agent's queue.
fn keys_of(alloc: Global, queues: &[Queue]) -> Result<Vec<KeyId>, NoMemory>
    requires { length queues.now < 2 ^ 32 }
    ensures { IfOk result (λ v. v.items ≡ numbered queues.now) }
{
    let mut keys = Vec::new(alloc);
    for agent in 0..queues.len() {
        if keys.push(first_of(queues, queues[agent])).is_err() {
            return Err(NoMemory);
        }
    }
    Ok(keys)
}

/// The first agent whose events stand in the queue.
fn first_of(queues: &[Queue], queue: Queue) -> KeyId
    requires { length queues.now < 2 ^ 32 }
    ensures { result.0 ≡ unwrap_or (position (same_queue queue) queues.now) 0 }
{
    match place_of(queues, queue) {
        Some(agent) => KeyId(agent as u32),
        None => KeyId(0),
    }
}

/// Where the queue first stands in the list.
fn place_of(queues: &[Queue], queue: Queue) -> Option<usize>
    ensures place { result ≡ position (same_queue queue) queues.now }
    ensures within { IfSome result (λ k. k < length queues.now) }
{
    queues.iter().position(|other| queue.is(*other))
}

/// All lanes, those of the dispatchers in order.
#[tactic(auto, unfolding(crate::specs::Lanes::lane_list))]
fn lanes_of(alloc: Global, parts: &SceneParts) -> Result<Vec<Lane>, NoMemory>
    requires { AreBound parts.now }
    ensures { IfOk result (λ v. v.items ≡ lane_list parts.now) }
{
    let mut lanes = Vec::new(alloc);
    for disp in 0..parts.dispatchers.len() {
        push_lanes(&mut lanes, parts, DispId(disp as u32))?;
    }
    Ok(lanes)
}

/// Adds the lanes of a dispatcher.
fn push_lanes(lanes: &mut Vec<Lane>, parts: &SceneParts, disp: DispId) -> Result<(), NoMemory>
    requires disp { disp.0 < length parts.now.dispatchers }
    requires bound { AreBound parts.now }
    ensures { IfOk result (λ _. lanes.new.items ≡ lanes.old.items ++ lanes_of parts.now disp) }
{
    let def = &parts.dispatchers.as_slice()[disp.0 as usize];
    match def.kind {
        DispKind::OneThread | DispKind::StrictlyOrdered | DispKind::QuotedRoundRobin => push_shared(
            lanes, disp, 1,
        ),
        DispKind::ThreadPool | DispKind::AdvThreadPool => push_shared(lanes, disp, def.threads),
        DispKind::ActiveObj => push_agents(lanes, parts, disp),
        DispKind::ActiveGroup => push_groups(
            lanes,
            disp,
            parts.groups.as_slice()[disp.0 as usize].len(),
        ),
        DispKind::OnePerPrio => push_priorities(lanes, disp),
    }
}

/// Adds a lane.
fn push_lane(lanes: &mut Vec<Lane>, lane: Lane) -> Result<(), NoMemory>
    ensures { IfOk result (λ _. lanes.new.items ≡ lanes.old.items ++ lane ∷ []) }
{
    match lanes.push(lane) {
        Ok(()) => Ok(()),
        Err(_) => Err(NoMemory),
    }
}

/// Adds so many lanes that serve all queues of the dispatcher.
fn push_shared(lanes: &mut Vec<Lane>, disp: DispId, count: u32) -> Result<(), NoMemory>
    ensures { IfOk result (λ _. lanes.new.items ≡ lanes.old.items ++ replicate count (shared_lane disp)) }
{
    for k in 0..count {
        push_lane(lanes, Lane { disp, part: None })?;
    }
    Ok(())
}

/// Adds a lane for each agent that is bound to the dispatcher.
fn push_agents(lanes: &mut Vec<Lane>, parts: &SceneParts, disp: DispId) -> Result<(), NoMemory>
    requires { length parts.now.agents < 2 ^ 32 }
    ensures { IfOk result (λ _. lanes.new.items ≡ lanes.old.items ++ map (agent_lane disp) (bound_to parts.now disp)) }
{
    for k in 0..parts.agents.len() {
        if parts.is_bound(disp, AgentId(k as u32)) {
            push_lane(
                lanes,
                Lane {
                    disp,
                    part: Some(Part::Own(AgentId(k as u32))),
                },
            )?;
        }
    }
    Ok(())
}

/// Adds a lane for each of the dispatcher's groups.
fn push_groups(lanes: &mut Vec<Lane>, disp: DispId, groups: usize) -> Result<(), NoMemory>
    requires { groups < 2 ^ 32 }
    ensures { IfOk result (λ _. lanes.new.items ≡ lanes.old.items ++ each_below (group_lane disp) groups) }
{
    for k in 0..groups {
        push_lane(
            lanes,
            Lane {
                disp,
                part: Some(Part::Group(k as u32)),
            },
        )?;
    }
    Ok(())
}

/// Adds a lane for each priority, the highest first.
fn push_priorities(lanes: &mut Vec<Lane>, disp: DispId) -> Result<(), NoMemory>
    ensures { IfOk result (λ _. lanes.new.items ≡ lanes.old.items ++ each_below (priority_lane disp) 8) }
{
    for k in 0..8u8 {
        push_lane(
            lanes,
            Lane {
                disp,
                part: Some(Part::Prio(7 - k)),
            },
        )?;
    }
    Ok(())
}

impl SceneParts {
    /// How many lanes these parts have, which aren't yet known to be a scene's.
    #[tactic(auto, unfolding(crate::specs::Lanes::lanes))]
    pub fn lanes(&self, alloc: Global) -> Result<usize, NoMemory>
        requires { AreBound self.now }
        ensures { IfOk result (λ n. n ≡ lanes self.now) }
    {
        let lanes = lanes_of(alloc, self)?;
        Ok(lanes.as_slice().len())
    }
}

impl Scene {
    /// How many lanes there are: those of the dispatchers, in order.
    #[tactic(auto, unfolding(crate::specs::Lanes::lanes))]
    pub fn lanes(&self) -> u32
        ensures value { result ≡ lanes self.now }
        ensures few { result ≤ 256 }
    {
        let _parts = self.parts();
        self.layout.lanes.as_slice().len() as u32
    }

    /// Queues have numbers below this one.
    #[tactic(auto, unfolding(crate::specs::Lanes::keys))]
    pub fn keys(&self) -> u32
        ensures value { result ≡ keys self.now }
        ensures few { result ≤ 4096 }
    {
        let _parts = self.parts();
        self.agents()
    }

    /// The queue in which the agent's events stand. It has the number of its first agent.
    pub fn key(&self, agent: AgentId) -> KeyId
        requires { agent.0 < length self.now.agents }
        ensures value { result ≡ key_of self.now agent }
        ensures range { result.0 < keys self.now }
    {
        let _parts = self.parts();
        self.layout.key(agent)
    }

    /// Tells whether the lane takes demands from the queue.
    pub fn serves(&self, lane: LaneId, key: KeyId) -> bool
        requires lane { lane.0 < lanes self.now }
        requires key { key.0 < keys self.now }
        ensures { result ≡ serves self.now lane key }
    {
        let _parts = self.parts();
        self.lane(lane).serves(self.queue(AgentId(key.0)))
    }

    /// A lane by its number. It is one of a dispatcher of the scene.
    pub fn lane(&self, lane: LaneId) -> Lane
        requires { lane.0 < lanes self.now }
        ensures value { result ≡ lane_at self.now lane }
        ensures range { result.disp.0 < length self.now.dispatchers }
    {
        let _parts = self.parts();
        self.layout.lane(lane)
    }

    /// The queue of an agent's events. It is one of a dispatcher of the scene.
    pub fn queue(&self, agent: AgentId) -> Queue
        requires { agent.0 < length self.now.agents }
        ensures value { result ≡ queue_of self.now agent }
        ensures range { result.disp.0 < length self.now.dispatchers }
    {
        let _parts = self.parts();
        self.layout.queue(agent)
    }
}
