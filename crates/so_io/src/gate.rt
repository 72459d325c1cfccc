//! Gates, at which a worker may be held up.
use so_ids::{LaneId, Place};
use std::sync::Wait;

/// What a worker passes after it has begun a turn and before the handler's first act. A test can
/// hold workers up here, so that their turns overlap.
pub trait Gate {
    /// Passes with the turn of this lane that began at this place.
    fn pass<R: Wait>(&self, rt: &R, lane: LaneId, place: Place);
}

/// A gate that holds nobody up.
#[derive(Clone, Copy, Default)]
pub struct OpenGate;

impl OpenGate {
    /// Makes the gate.
    pub fn new() -> OpenGate {
        OpenGate
    }
}

impl Gate for OpenGate {
    fn pass<R: Wait>(&self, _rt: &R, _lane: LaneId, _place: Place) {}
}
