//! The parts of a scene. Each is named by its number.

use crate::items::Items;
use crate::words::{Name, Text};
use so_code::{Cmp, Code};
use so_ids::{AgentId, CoopId, DispId, MboxId, MsgId, Priority, Vars};
use so_state::{Row, Tree};

/// A type of messages. A signal carries no values.
#[derive(Drop)]
pub struct MessageDef {
    pub name: Name,
    pub signal: bool,
}

/// On which threads a dispatcher runs its agents, and which of them share a queue.
#[derive(Clone, Copy, PartialEq, Eq)]
pub enum DispKind {
    /// All on one thread (SObjectizer's one_thread).
    OneThread,
    /// Each agent on a thread of its own (active_obj).
    ActiveObj,
    /// Each group of agents on a thread of its own (active_group).
    ActiveGroup,
    /// On any of some threads, one handler of a queue at a time (thread_pool).
    ThreadPool,
    /// The same, but thread-safe handlers of a queue may overlap (adv_thread_pool).
    AdvThreadPool,
    /// All on one thread, the highest priority first (prio_one_thread::strictly_ordered).
    StrictlyOrdered,
    /// All on one thread, so many events of each priority in turn (prio_one_thread::quoted_round_robin).
    QuotedRoundRobin,
    /// A thread for each priority (prio_dedicated_threads::one_per_prio).
    OnePerPrio,
}

/// Which agents of a pool share a queue (SObjectizer's FIFO parameter).
#[derive(Clone, Copy, PartialEq, Eq)]
pub enum Fifo {
    /// Those of a cooperation.
    Cooperation,
    /// None.
    Individual,
}

/// A dispatcher.
#[derive(Drop)]
pub struct DispDef {
    pub name: Name,
    pub kind: DispKind,
    /// How many agents may be bound to it at one time.
    pub slots: u32,
    /// Of a pool: how many threads it has.
    pub threads: u32,
    /// Of a pool: which agents share a queue.
    pub fifo: Fifo,
    /// Of quoted_round_robin: how many events of each priority are taken in a turn, priority 0 first.
    pub quotes: [u32; 8],
}

/// A cooperation: its agents are `count` agents from `first` on.
#[derive(Drop)]
pub struct CoopDef {
    pub name: Name,
    /// The cooperation that it is a child of. Without one it is a child of the root.
    pub parent: Option<CoopId>,
    /// Whether main registers it when the run begins.
    pub at_start: bool,
    pub first: AgentId,
    pub count: u32,
}

/// A delivery filter (SObjectizer's `set_delivery_filter`): a message of the type from the mbox passes where
/// its field compares so with the value.
#[derive(Drop)]
pub struct FilterDef {
    /// The name by which acts name it.
    pub id: Option<Name>,
    pub mbox: MboxId,
    pub msg: MsgId,
    /// A field of the message, 0 to 3.
    pub field: u8,
    pub cmp: Cmp,
    pub value: i64,
    /// Whether it is set when the agent is registered.
    pub active: bool,
}

/// An agent: its cooperation, its dispatcher, the variables with which it begins, its states, its subscriptions,
/// its filters and the code of its handlers. A row with a handler, of number k, runs the body `Row(k)` of the
/// code.
#[derive(Drop)]
pub struct AgentDef {
    pub name: Name,
    pub coop: CoopId,
    pub disp: DispId,
    /// Of an agent on active_group: its group, by its number among the dispatcher's.
    pub group: Option<u32>,
    pub priority: Priority,
    pub vars: Vars,
    /// The names of the declared states, in order.
    pub state_names: Items<Name>,
    pub tree: Tree,
    pub rows: Items<Row>,
    /// The names by which acts name the rows, one for each row.
    pub row_ids: Items<Option<Name>>,
    pub filters: Items<FilterDef>,
    pub code: Code,
}

/// All parts.
#[derive(Drop)]
pub struct SceneParts {
    pub messages: Items<MessageDef>,
    /// The mboxes that have a name of their own. Their numbers follow those of the direct mboxes.
    pub mboxes: Items<Name>,
    /// The first is the dispatcher `default`.
    pub dispatchers: Items<DispDef>,
    /// The names of the groups of each dispatcher, in the order in which agents name them.
    pub groups: Items<Items<Name>>,
    pub coops: Items<CoopDef>,
    pub agents: Items<AgentDef>,
    pub texts: Items<Text>,
    /// Whether the run stops when the last cooperation has left (SObjectizer's autoshutdown).
    pub autoshutdown: bool,
}
