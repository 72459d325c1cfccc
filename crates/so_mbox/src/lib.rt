//! The subscriptions and delivery filters of all agents, and by them who receives a message from a mbox.
#![tactic(auto)]

mod boards;
mod flags;
mod table;

pub use table::{FilterFault, SubFault, Table};
