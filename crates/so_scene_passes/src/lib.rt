//! The passes along a scene's file that judge it.
//!
//! The first is of the shape of each field, the second of names that are declared twice, the third of names that nobody
//! declares. The second leaves the names by number, which the third takes.
#![tactic(auto)]

pub mod declare;
pub mod known;
pub mod scope;
pub mod shape;
