//! The dispatcher on which thread-safe turns of a queue may overlap (SObjectizer's adv_thread_pool): which demand a
//! lane may take.
//!
//! `Heads` tells what becomes of a demand. `pick` goes through the queues in the order of their fronts, and
//! `plain_pick` through all.
#![tactic(auto)]

mod heads;
mod plain;
mod ring;

pub use heads::{HeadClass, Heads};
pub use plain::plain_pick;
pub use ring::pick;
