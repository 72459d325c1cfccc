//! Armed timers: delayed and periodic messages, and the time limits of states.
//!
//! `Timers` keeps a heap by (deadline, number), and beside it the place of each number in the heap, so
//! that a cancel finds its timer. `PlainTimers` meets the same contract by going through all timers.
#![tactic(auto)]

mod heap;
mod plain;
mod timer;
mod timers;

pub use plain::PlainTimers;
pub use timer::{Armed, TimerTask};
pub use timers::Timers;
