//! The pass along a scene's file that builds the parts of the scene.
//!
//! It takes the names by number. Acts become instructions and texts numbers, groups are numbered as agents name them, and each
//! agent's states are tried as a tree and its code by its length.
#![tactic(auto)]

pub mod build;
pub mod code_builder;
mod defs;
pub mod groups;
