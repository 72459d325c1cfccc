//! The instructions of a code: the acts of a scene, each list of them closed by an `End`.

use so_ids::{ChainId, CoopId, FilterId, MsgId, RowId, StateId, Target, TextId};

/// How two numbers are compared.
#[derive(Clone, Copy, PartialEq, Eq)]
pub enum Cmp {
    Eq,
    Ne,
    Lt,
    Le,
    Gt,
    Ge,
}

/// What an act reads.
#[derive(Clone, Copy, PartialEq, Eq)]
pub enum Operand {
    /// The number itself.
    Num(i64),
    /// A variable of the agent or the thread, 0 to 15.
    Var(u8),
    /// A field of the message, 0 to 3; 0 where there is none.
    Msg(u8),
    /// A temporary, 0 to 3, which is 0 when a turn begins.
    Temp(u8),
    /// The number of the last answer, 0 when a turn begins.
    Ans,
}

/// What an act writes.
#[derive(Clone, Copy, PartialEq, Eq)]
pub enum Dest {
    /// A variable, 0 to 15.
    Var(u8),
    /// A temporary, 0 to 3.
    Temp(u8),
}

/// The operands of a line or a message: the first `used` count, and the rest are `Num(0)`.
#[derive(Clone, Copy, PartialEq, Eq)]
pub struct Args {
    pub list: [Operand; 4],
    pub used: u8,
}

/// A list of acts that runs as a whole.
#[derive(Clone, Copy, PartialEq, Eq)]
pub enum Body {
    /// The agent's start handler.
    Start,
    /// The agent's finish handler.
    Finish,
    /// What is done when the state is entered (SObjectizer's `on_enter`).
    Enter(StateId),
    /// What is done when the state is left (SObjectizer's `on_exit`).
    Exit(StateId),
    /// The handler of a subscription row.
    Row(RowId),
    /// The body of a plain thread.
    Thread,
}

/// An act, or a mark between acts. A jump counts the instructions that it passes over.
#[derive(Clone, Copy, PartialEq, Eq)]
pub enum Instr {
    Set {
        to: Dest,
        a: Operand,
    },
    /// The sum; the exception `Overflow` where it doesn't fit 64 bits, as for the next two.
    Add {
        to: Dest,
        a: Operand,
        b: Operand,
    },
    Sub {
        to: Dest,
        a: Operand,
        b: Operand,
    },
    Mul {
        to: Dest,
        a: Operand,
        b: Operand,
    },
    /// Passes over the next `count` instructions where the comparison is false.
    If {
        a: Operand,
        cmp: Cmp,
        b: Operand,
        count: u32,
    },
    /// Passes over the next `count` instructions.
    Skip {
        count: u32,
    },
    /// The exception `Thrown`.
    Throw {
        a: Operand,
    },
    Log {
        text: TextId,
        args: Args,
    },
    Send {
        target: Target,
        msg: MsgId,
        args: Args,
    },
    /// A delivery after `ms` milliseconds (SObjectizer's `send_delayed`).
    Delayed {
        target: Target,
        msg: MsgId,
        ms: u32,
        args: Args,
    },
    /// The same in one of the agent's slots, 0 to 7; periodic where `period`, in milliseconds, isn't 0.
    Timer {
        slot: u8,
        target: Target,
        msg: MsgId,
        ms: u32,
        period: u32,
        args: Args,
    },
    /// Disarms the timer of a slot, 0 to 7.
    Cancel {
        slot: u8,
    },
    /// Changes the agent's state (SObjectizer's `so_change_state`).
    Switch {
        to: StateId,
    },
    Subscribe {
        row: RowId,
    },
    Unsubscribe {
        row: RowId,
    },
    SetFilter {
        filter: FilterId,
    },
    DropFilter {
        filter: FilterId,
    },
    Register {
        coop: CoopId,
    },
    Deregister {
        coop: CoopId,
    },
    Stop,
    /// Closes a chain, and keeps or drops what it holds.
    Close {
        chain: ChainId,
        keep: bool,
    },
    /// Receives from the first `cases` chains, 1 to 8 (SObjectizer's `receive` and `select`). It ends
    /// after `handle_n` handled or `extract_n` taken messages, or by a time in milliseconds. Its
    /// handlers follow it, each from a `Case` to a `Back`; unused chains are 0.
    Receive {
        chains: [ChainId; 8],
        cases: u8,
        handle_n: u32,
        extract_n: u32,
        empty_timeout: Option<u32>,
        total_time: Option<u32>,
        no_wait: bool,
    },
    /// The head of a handler: of which case of the receive, from 0, and of which type.
    Case {
        case: u8,
        msg: MsgId,
    },
    /// The end of a handler.
    Back,
    /// The end of the body that it names.
    End {
        body: Body,
    },
}
