//! Why a scene's file is refused: the first fault, its place in the file, and how both are spelt.
#![tactic(auto)]

mod fault;
mod place;
mod print;

pub use fault::{SceneFault, SceneRefusal};
pub use place::{Field, PlaceStep, ScenePlace};
pub use print::{put_fault, put_place};
