//! The cooperations of a run: which are registered, which of these leave and why, and which may be registered.
#![tactic(auto)]

mod admission;
mod coops;
mod counts;
pub mod laws;
mod leaving;

pub use coops::{Coop, Coops};
