//! The dispatchers on which no two turns of a queue overlap (SObjectizer's one_thread, active_obj,
//! active_group and thread_pool): which demand a lane may take.
//!
//! `pick` goes through the queues in the order of their fronts, and `plain_pick` through all.
#![tactic(auto)]

mod plain;
mod ring;

pub use plain::plain_pick;
pub use ring::pick;
