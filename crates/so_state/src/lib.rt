//! The states of an agent: their tree, what an agent remembers of them, where a switch leads, and
//! which row answers an event.
//!
//! Declared states are a list: its first is state 1, its second state 2. State 0 is SObjectizer's
//! `default`, in which every agent begins; no list holds it. No call here takes memory.
#![tactic(auto)]

mod choice;
mod faults;
mod hierarchy;
pub mod laws;
mod leaves;
mod list;
mod states;
mod switching;

pub use choice::{Row, RowKind, choose};
pub use faults::TreeFault;
pub use hierarchy::Tree;
pub use leaves::{Memory, remember};
pub use list::StateList;
pub use states::{History, State};
pub use switching::switch_plan;
