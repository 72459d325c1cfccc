//! The dispatchers that take the events of all their agents on one thread by priority (SObjectizer's
//! prio_one_thread::strictly_ordered and prio_one_thread::quoted_round_robin): which demand a lane may take.
//!
//! `head` finds the demand that comes first in a queue by the kind of its dispatcher. `Prio` keeps the rounds of
//! quoted_round_robin, and picks among the queues.
#![tactic(auto)]

mod head;
mod prio;

pub use prio::Prio;
