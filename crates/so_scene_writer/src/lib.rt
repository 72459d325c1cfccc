//! A scene as the bytes of its file.
#![tactic(auto)]

mod acts;
mod agents;
mod coops;
mod dispatchers;
mod fields;
mod objects;
mod operands;
mod words;
mod write;

pub use write::write_scene;
