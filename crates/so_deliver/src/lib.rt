//! What becomes of one delivery: who gets the message, and what the sender is told.
#![tactic(auto)]

mod committing;
mod outcomes;
mod plan;

pub use committing::{commit, queue_demand};
pub use outcomes::Outcomes;
pub use plan::{Planned, plan_delivery};
pub use so_ids::Queued;
