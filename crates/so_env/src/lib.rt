//! The environment in which a scene runs: its simulation, printed while it goes.
#![tactic(auto)]

mod first;
mod outcome;
mod print;
mod running;

pub use outcome::{Cause, Outcome};
pub use running::simulate;
