//! The steps of a run: those of main, those of a turn in hand, and those by picks, which are every interleaving of them.
#![tactic(auto)]

mod answers;
mod hands;
mod kernel;
mod steps;
mod turns;

pub use answers::{Acted, Begun, Ended, RunState, Stepped, Turn};
pub use kernel::Kernel;
pub use steps::{play, step};
pub use turns::Turns;
