//! What a turn asks of the core, and what comes back.

use so_ids::{
    ChainId, Chosen, CoopId, EndReason, FilterId, MsgId, Payload, Plan, Put, Refusal, RowId, Sent,
    StateId, Target, TextId, TimerId,
};

/// What a turn does to the world.
#[derive(Clone, Copy, PartialEq, Eq)]
pub enum Effect {
    /// A line of the agent's or the thread's log.
    Log {
        text: TextId,
        payload: Payload,
    },
    /// A delivery through a mbox, or a put into a chain.
    Send {
        target: Target,
        msg: MsgId,
        payload: Payload,
    },
    /// A delivery after `ms` milliseconds.
    Delayed {
        target: Target,
        msg: MsgId,
        payload: Payload,
        ms: u32,
    },
    /// A delivery after `ms` milliseconds and, where `period` isn't 0, again after each `period`.
    Timer {
        slot: u8,
        target: Target,
        msg: MsgId,
        payload: Payload,
        ms: u32,
        period: u32,
    },
    /// Disarms the timer of the slot.
    Cancel {
        slot: u8,
    },
    /// Asks for the plan of a switch to a state.
    Switch {
        to: StateId,
    },
    /// Enters the leaf of a plan, between its exit and its enter bodies.
    SetState {
        leaf: StateId,
    },
    /// Asks what the new state chooses for a transferred event.
    Choose,
    Subscribe {
        row: RowId,
    },
    Unsubscribe {
        row: RowId,
    },
    SetFilter {
        filter: FilterId,
    },
    DropFilter {
        filter: FilterId,
    },
    Register {
        coop: CoopId,
    },
    Deregister {
        coop: CoopId,
    },
    Stop,
    Close {
        chain: ChainId,
        keep: bool,
    },
    /// Begins the receive at this place of the code.
    Receive {
        place: u32,
    },
    /// Takes the next message for the receive at this place.
    Take {
        place: u32,
    },
}

/// What the core answers.
#[derive(Clone, Copy, PartialEq, Eq)]
pub enum Answer {
    /// It is done.
    Okay,
    Yes,
    No,
    /// What became of a delivery.
    Sent(Sent),
    /// What a put into a chain did.
    Put(Put),
    /// The timer that was armed.
    Armed(TimerId),
    /// No timer, since a stop was made.
    Unarmed,
    /// The switch leads to the state in which the agent is.
    Same,
    /// The switch's plan.
    Planned(Plan),
    /// What was chosen for a transferred event.
    Chose(Chosen),
    /// The registration was refused.
    Refused(Refusal),
    /// A message taken for a case of the receive.
    Got {
        case: u8,
        msg: MsgId,
        payload: Payload,
    },
    /// The receive takes no more.
    Ended(EndReason),
}

/// The exception by which a turn fails.
#[derive(Clone, Copy, PartialEq, Eq)]
pub enum FailKind {
    /// A sum, difference or product doesn't fit 64 bits.
    Overflow,
    /// A throw act, with its number.
    Thrown(i64),
    /// A put into a full chain whose rule is to throw.
    ChainThrow,
    /// A second transfer of one event from one state.
    TransferLoop,
    /// A subscription that is there already.
    AlreadySubscribed,
}

/// One move of a turn.
#[derive(Clone, Copy, PartialEq, Eq)]
pub enum Move {
    /// An effect, after which the frame waits for its answer.
    Do(Effect),
    /// The turn's end.
    Done,
    /// The turn's end by an exception.
    Fail(FailKind),
}
