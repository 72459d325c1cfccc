//! What a step found that its entry doesn't say.

use so_history::Demand;
use so_ids::{AgentId, KeyId, LaneId, Vars};

/// The demand that a lane takes.
#[derive(Clone, Copy)]
pub struct FoundDemand {
    pub demand: Demand,
    /// The queue in which it waits.
    pub key: KeyId,
    /// Whether its turn is thread-safe.
    pub safe: bool,
}

/// The turn that acts or ends.
#[derive(Clone, Copy)]
pub struct FoundTurn {
    pub agent: AgentId,
    pub lane: LaneId,
    /// The queue of its agent.
    pub key: KeyId,
    pub safe: bool,
    pub finishes: bool,
    /// The variables that it leaves.
    pub vars: Vars,
}

/// What a step found.
#[derive(Clone, Copy)]
pub enum Found {
    /// The entry says all.
    Nothing,
    Demand(FoundDemand),
    Turn(FoundTurn),
}
