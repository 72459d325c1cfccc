//! What is written is read again.

ghost use Rattle.so_scene_again.specs.Laws.{ReadsAgain};

/// The data of a scene reads as that scene.
pub fn reads_again()
    ensures { ReadsAgain }
{}
