//! How far a turn has come in its code.

use crate::effect::{Effect, FailKind};
use crate::instr::Body;
use so_ids::{MsgId, Opening, Payload, Plan, StateId, Vars};

/// What a turn does next.
#[derive(Clone, Copy, PartialEq, Eq)]
pub enum Todo {
    /// The instruction at the place.
    Act,
    /// The first instruction of a body.
    Open(Body),
    /// The switch that the opening or a choice asks for.
    Switch(StateId),
    /// To ask for the choice after a transfer.
    Choose,
    /// What the plan has next.
    Plan,
    /// The receive's next take.
    Take,
    /// The receive's handler for a message that was taken.
    Handle { case: u8, msg: MsgId },
    /// What follows the receive, with this number as its answer.
    Past(u8),
    /// The exception.
    Raise(FailKind),
    /// Nothing more.
    Over,
    /// To wait for the answer to an effect.
    Wait(Effect),
}

/// The frame of a turn.
#[derive(Clone, Copy, PartialEq, Eq)]
pub struct Frame {
    pub todo: Todo,
    /// The instruction to which the turn has come.
    pub place: u32,
    /// How the turn began, or the choice with which it went on after a transfer.
    pub opening: Opening,
    /// The plan that is being run.
    pub plan: Plan,
    /// How many parts of the plan are done: its exits, the entry of its leaf, its enters.
    pub ran: u8,
    /// Where the body that asked for the plan goes on.
    pub back: Option<u32>,
    /// The states that have transferred this event: bit n is state n.
    pub transferred: u64,
    /// The receive that is being run, by its place.
    pub receive: u32,
    /// How many messages it may still handle.
    pub handles_left: u32,
    /// How many messages it may still take.
    pub extracts_left: u32,
    pub vars: Vars,
    /// The message that is being handled.
    pub msg: Payload,
    /// The message that is put aside while a receive runs.
    pub aside: Payload,
    pub temps: [i64; 4],
    /// The number of the last answer.
    pub ans: i64,
}
