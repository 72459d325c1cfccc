//! The demands of a run: all that were queued, which of them wait in which queue, how many turns run with each
//! queue, and the rounds of the dispatchers.
#![tactic(auto)]

mod counts;
mod events;
mod find;

pub use events::Events;
