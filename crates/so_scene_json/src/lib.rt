//! The checked scene of a file's bytes.
//!
//! Four passes go along the file: the shape of each field, names that are declared twice, names that nobody declares, and the
//! parts of the scene with the tree of each agent's states and the length of each code. The first fault of the first pass that
//! has one is the answer. After them the totals are tried.
#![tactic(auto)]

mod finish;
mod read;

pub use read::read_scene;
