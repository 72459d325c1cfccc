//! The tables of a run: what its steps look up, in place of the history.
//!
//! A table knows no history. What it holds is what a definition makes of one, and when an entry is added, each table
//! absorbs it by a function of its own, over the entry and what its step found.
#![tactic(auto)]

mod absorb;
mod attempts;
mod found;
mod lane_turns;
mod states;
mod tables;
mod variables;

pub use absorb::states::absorb_states;
pub use attempts::Attempts;
pub use found::{Found, FoundDemand, FoundTurn};
pub use lane_turns::LaneTurns;
pub use states::{AgentState, States};
pub use tables::{Milestones, Tables};
pub use variables::Variables;
