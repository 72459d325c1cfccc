//! A scene that is written back.

use crate::fault::CaseFault;
use so_scene::Scene;
use so_scene_json::read_scene;
use so_scene_writer::write_scene;
use std::alloc::Global;

/// What is written of the scene, if it is read and written again as the same.
pub(crate) fn written(alloc: Global, scene: &Scene) -> Result<Vec<u8>, CaseFault> {
    let mut text = write_scene(alloc, scene)?;
    let again = write_scene(alloc, &read_scene(alloc, &text)?)?;
    if again != text {
        return Err(CaseFault::Written);
    }
    text.extend_from_slice(b"\n")?;
    Ok(text)
}
