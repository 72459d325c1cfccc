//! The entries of a history, and the demands that they queue.

use so_code::{Answer, Effect, FailKind};
use so_ids::{
    AgentId, CoopId, DemandId, LaneId, MboxId, MsgId, Opening, PartyId, Payload, Place, Reason,
    Refusal,
};

/// Why the run stops.
#[derive(Clone, Copy, PartialEq, Eq)]
pub enum StopCause {
    /// By a stop act.
    Asked,
    /// The last cooperation has left (SObjectizer's autoshutdown).
    Auto,
    /// Nothing is left to do.
    Idle,
}

/// Why a demand is taken without a turn.
#[derive(Clone, Copy, PartialEq, Eq)]
pub enum SkipWhy {
    /// No row and no dead-letter row of the agent is for the event.
    Nothing,
    /// A row suppresses the event (SObjectizer's `suppress`).
    Suppressed,
    /// The time limit is of a state that the agent has left.
    Stale,
}

/// Why the run is aborted.
#[derive(Clone, Copy, PartialEq, Eq)]
pub enum AbortCause {
    /// The exception of a turn, whose owner's reaction is to abort (SObjectizer's `abort_on_exception`).
    Exception(Place, FailKind),
}

/// What happened.
#[derive(Clone, Copy, PartialEq, Eq)]
pub enum EntryKind {
    /// Main registered a cooperation.
    Register {
        coop: CoopId,
    },
    /// Main's registration of a cooperation was refused.
    Refuse {
        coop: CoopId,
        cause: Refusal,
    },
    /// A lane took a demand, and a turn of its agent begins.
    Begin {
        lane: LaneId,
        demand: Option<DemandId>,
        opening: Opening,
        agent: AgentId,
    },
    /// A lane took a demand, and no turn begins.
    Skip {
        lane: LaneId,
        demand: DemandId,
        why: SkipWhy,
    },
    /// A turn had an effect, and got an answer.
    Act {
        turn: Place,
        effect: Effect,
        answer: Answer,
    },
    /// A turn ended.
    End {
        turn: Place,
    },
    /// A cooperation begins to leave: its agents are to finish.
    Leaving {
        coop: CoopId,
        reason: Reason,
    },
    /// A cooperation has left.
    Left {
        coop: CoopId,
    },
    /// The run stops: what is there is to leave.
    Stop {
        cause: StopCause,
    },
    /// The run is aborted, and nothing follows.
    Abort {
        cause: AbortCause,
    },
}

/// What happened, and which party made it happen. A turn is named by the place of its Begin.
#[derive(Clone, Copy, PartialEq, Eq)]
pub struct Entry {
    pub by: PartyId,
    pub kind: EntryKind,
}

/// What a demand asks of its agent.
#[derive(Clone, Copy, PartialEq, Eq)]
pub enum DemandKind {
    /// To run its start handler.
    Start,
    /// To run its finish handler.
    Finish,
    /// To handle a message of this type that was sent through the mbox.
    Event {
        mbox: MboxId,
        msg: MsgId,
        payload: Payload,
    },
}

/// What an event is looked up by: the mbox that its message was sent through, and its type.
#[derive(Clone, Copy, PartialEq, Eq)]
pub struct EventSource {
    pub mbox: MboxId,
    pub msg: MsgId,
}

/// A demand: it waits in the queue of its agent's events until a turn takes it.
#[derive(Clone, Copy, PartialEq, Eq)]
pub struct Demand {
    pub id: DemandId,
    pub agent: AgentId,
    pub kind: DemandKind,
}

/// Which step is to be made.
#[derive(Clone, Copy, PartialEq, Eq)]
pub enum Pick {
    /// Main's next registration.
    Register,
    /// The next step of the lane's turn, or the taking of a demand there.
    Lane(LaneId),
    /// What main is to tidy: a cooperation leaves, has left, or the run stops.
    Tidy,
}
