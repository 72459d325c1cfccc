//! A ring is a scene.

ghost use Rattle.so_ring.specs.Laws.{AreScenes};

/// A ring of 1 to 4,000 agents is a scene.
pub fn is_scene()
    ensures { AreScenes }
{}
