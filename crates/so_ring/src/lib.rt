//! The ring: a scene of any size by which a program is measured.
#![tactic(auto)]

mod agents;
mod laws;
mod parts;

pub use laws::is_scene;
pub use parts::{MOST_IN_RING, ring};
