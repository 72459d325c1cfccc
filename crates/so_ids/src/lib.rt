//! The plain types that two crates or more share. All are `Copy`.
//!
//! Agents, cooperations, mboxes and the rest are named by their number in the scene, a newtype over
//! `u32` each, so that a number of one kind is never taken for one of another.
#![tactic(auto)]

use std::alloc::AllocError;

pub mod limits;

ghost use Rattle.std.specs.Prelude.{◌≡◌, ◌≤◌, ◌<◌, ◌+◌, ◌^◌, IfSome, IfNone};
ghost use Rattle.so_ids.specs.Ids.{party_of, main_party, is_earlier, same_demand};

/// An agent, by its place among all agents of the scene.
#[derive(Clone, Copy, PartialEq, Eq)]
pub struct AgentId(pub u32);

/// A cooperation, by its place in the scene.
#[derive(Clone, Copy, PartialEq, Eq)]
pub struct CoopId(pub u32);

/// A lane: the worker of a dispatcher, or a plain thread.
#[derive(Clone, Copy, PartialEq, Eq)]
pub struct LaneId(pub u32);

/// Who signs an entry: 0 is main, and n + 1 is lane n.
#[derive(Clone, Copy, PartialEq, Eq)]
pub struct PartyId(pub u32);

/// A mbox: agent n's direct mbox is n, and the named mboxes follow.
#[derive(Clone, Copy, PartialEq, Eq)]
pub struct MboxId(pub u32);

/// A message chain (SObjectizer's mchain).
#[derive(Clone, Copy, PartialEq, Eq)]
pub struct ChainId(pub u32);

/// A message type.
#[derive(Clone, Copy, PartialEq, Eq)]
pub struct MsgId(pub u32);

/// A subscription row of an agent.
#[derive(Clone, Copy, PartialEq, Eq)]
pub struct RowId(pub u32);

/// A delivery filter of an agent.
#[derive(Clone, Copy, PartialEq, Eq)]
pub struct FilterId(pub u32);

/// A state of an agent: 0 is `default`, and the declared states follow.
#[derive(Clone, Copy, PartialEq, Eq)]
pub struct StateId(pub u32);

/// A timer, by the order of arming.
#[derive(Clone, Copy, PartialEq, Eq)]
pub struct TimerId(pub u32);

/// A key: one event queue.
#[derive(Clone, Copy, PartialEq, Eq)]
pub struct KeyId(pub u32);

/// A dispatcher: 0 is `default`, and the scene's follow.
#[derive(Clone, Copy, PartialEq, Eq)]
pub struct DispId(pub u32);

/// A text of the scene.
#[derive(Clone, Copy, PartialEq, Eq)]
pub struct TextId(pub u32);

/// A place in a history, from 0.
#[derive(Clone, Copy, PartialEq, Eq, PartialOrd, Ord)]
pub struct Place(pub u32);

impl PartyId {
    /// Main, which registers, ticks, fires and tidies.
    pub const MAIN: PartyId = PartyId(0);
}

impl LaneId {
    /// The party that has this lane.
    pub fn party(self) -> PartyId
        requires { self.0 + 1 < 2 ^ 32 }
        ensures { result ≡ party_of self }
    {
        PartyId(self.0 + 1)
    }
}

/// A demand for an agent (SObjectizer's execution demand): the `k`-th, from 0, that the entry at
/// `place` queued. Demands compare by place, then by `k`.
#[derive(Clone, Copy, PartialEq, Eq, PartialOrd, Ord)]
pub struct DemandId {
    pub place: Place,
    pub k: u32,
}

impl DemandId {
    /// Tells whether this is the same demand.
    pub fn is(self, other: DemandId) -> bool
        ensures { result ≡ same_demand self other }
    {
        self == other
    }

    /// Tells whether this demand was queued before the other.
    pub fn is_before(self, other: DemandId) -> bool
        ensures { result ≡ is_earlier self other }
    {
        self.place < other.place || self.place == other.place && self.k < other.k
    }
}

/// What a message carries: the first `used` fields count, and the rest are 0. A signal has none.
#[derive(Clone, Copy, PartialEq, Eq)]
pub struct Payload {
    pub fields: [i64; 4],
    pub used: u8,
}

/// An agent's variables.
#[derive(Clone, Copy, PartialEq, Eq)]
pub struct Vars(pub [i64; 16]);

/// A priority, from 0, the lowest, to 7.
#[derive(Clone, Copy, PartialEq, Eq)]
pub struct Priority {
    pub level: u8,
    ghost in_range: { level ≤ 7 },
}

impl Priority {
    /// The priority of this level, `None` exactly where the level is above 7.
    pub fn of(level: u8) -> Option<Priority>
        ensures some { IfSome result (λ p. p.level ≡ level) }
        ensures none { IfNone result (7 < level) }
    {
        if level <= 7 {
            Some(Priority { level })
        } else {
            None
        }
    }
}

/// Where a message is sent.
#[derive(Clone, Copy, PartialEq, Eq)]
pub enum Target {
    Mbox(MboxId),
    Chain(ChainId),
}

/// What an agent's state table chooses for an event.
#[derive(Clone, Copy, PartialEq, Eq)]
pub enum Chosen {
    /// The row's handler.
    Run { row: RowId },
    /// SObjectizer's `just_switch_to`.
    Switch { to: StateId },
    /// SObjectizer's `transfer_to_state`, declared in the state `from`.
    Transfer { from: StateId, to: StateId },
    /// The dead-letter handler of the row.
    Dead { row: RowId },
    /// SObjectizer's `suppress`.
    Suppressed,
    /// No row and no dead-letter row.
    Nothing,
}

/// How a turn begins.
#[derive(Clone, Copy, PartialEq, Eq)]
pub enum Opening {
    /// The agent's start handler (`so_evt_start`).
    Start,
    /// The agent's finish handler (`so_evt_finish`).
    Finish,
    /// The body of a plain thread.
    Thread,
    /// The time limit of a state has passed.
    Time { to: StateId },
    /// An event, with what was chosen for it.
    Event(Chosen),
}

/// A switch of states: those left, from inner to outer, then those entered, from outer to inner.
/// The first `n_exits` and `n_enters` places count, and the rest are state 0.
#[derive(Clone, Copy, PartialEq, Eq)]
pub struct Plan {
    pub leaf: StateId,
    pub exits: [StateId; 16],
    pub n_exits: u8,
    pub enters: [StateId; 16],
    pub n_enters: u8,
}

/// What became of one delivery.
#[derive(Clone, Copy, PartialEq, Eq)]
pub struct Sent {
    /// Demands queued and messages stored in chains.
    pub queued: u32,
    /// Deliveries lost by a limit, a leaving cooperation or a chain.
    pub lost: u32,
    /// How many of the lost were logged by a limit's reaction.
    pub logged: u32,
    /// The first agent whose limit logged.
    pub first: Option<AgentId>,
}

/// An event that a delivery queues for an agent.
#[derive(Clone, Copy, PartialEq, Eq)]
pub struct Queued {
    pub agent: AgentId,
    pub mbox: MboxId,
    pub msg: MsgId,
    pub payload: Payload,
}

/// What a put into a chain did.
#[derive(Clone, Copy, PartialEq, Eq)]
pub enum Put {
    Stored,
    DroppedNew,
    RemovedOld,
    Throw,
    Abort,
    WaitRoom,
    Closed,
}

/// Why a receive ended.
#[derive(Clone, Copy, PartialEq, Eq)]
pub enum EndReason {
    HandleN,
    ExtractN,
    EmptyTimeout,
    TotalTime,
    NoWait,
    Closed,
}

/// Why a registration was refused.
#[derive(Clone, Copy, PartialEq, Eq)]
pub enum Refusal {
    /// The cooperation has no agents.
    Empty,
    /// The named parent isn't there, or a stop was made.
    Parent,
    /// It is registered already.
    Present,
    /// The dispatcher of this agent has no slot left.
    Binding(AgentId),
    /// This agent breaks a definition rule.
    Definition(AgentId, DefFault),
}

/// Which definition rule an agent breaks.
#[derive(Clone, Copy, PartialEq, Eq)]
pub enum DefFault {
    /// A row names another agent's direct mbox.
    NotOwner,
    /// The agent has a limit, and the row's type has none.
    NoLimit,
    /// Two rows of one mbox, type and state, or two dead-letter rows of one mbox and type.
    Twice,
    /// A filter on a direct mbox.
    DirectMbox,
    /// A filter on a signal.
    IsSignal,
}

/// Why a cooperation leaves.
#[derive(Clone, Copy, PartialEq, Eq)]
pub enum Reason {
    /// By a deregister act.
    Asked,
    /// By a handler's exception.
    Exception,
    /// Its parent leaves.
    Parent,
    /// A stop was made.
    Shutdown,
}

/// Memory that was wanted isn't there.
#[derive(Clone, Copy, PartialEq, Eq)]
pub struct NoMemory;

impl From<AllocError> for NoMemory {
    fn from(_refused: AllocError) -> NoMemory {
        NoMemory
    }
}

/// A call of the outside failed.
#[derive(Clone, Copy, PartialEq, Eq)]
pub struct Failed;
