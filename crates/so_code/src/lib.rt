//! What the handlers of an agent and the body of a plain thread do: their acts, flattened into one
//! code, and the frame of a turn that runs it.
//!
//! A turn computes by itself up to its next effect, which the core carries out and answers: its frame
//! is made by `Frame::begin`, moved by `next`, and told each effect's answer by `Frame::answer`, until
//! `next` gives `Done` or `Fail`.
#![tactic(auto)]

mod act;
mod answer;
mod begin;
mod behaviour;
mod bodies;
mod code;
mod effect;
mod frame;
mod instr;
mod receives;
mod run;
mod step;
mod values;

pub use behaviour::{Behaviour, Script};
pub use code::Code;
pub use effect::{Answer, Effect, FailKind, Move};
pub use frame::{Frame, Todo};
pub use instr::{Args, Body, Cmp, Dest, Instr, Operand};
pub use run::next;
