//! The law that the data of a scene is read as that scene.
#![tactic(auto)]

mod laws;

pub use laws::reads_again;
