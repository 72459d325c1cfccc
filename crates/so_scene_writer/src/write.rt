//! The bytes of a scene's file.

ghost use Rattle.std.specs.Prelude.{◌≡◌, IfOk, Ok};
ghost use Rattle.so_scene.specs.Checked.{IsScene};
ghost use Rattle.so_scene_json.specs.Scene.{scene_of};
ghost use Rattle.serde_json.specs.Written.{compact_text};
ghost use Rattle.so_scene_data.specs.Canonical.{scene_data};

use crate::coops::scene_value;
use so_ids::NoMemory;
use so_scene::{Scene, SceneParts};
use std::alloc::{AllocError, Global};

fn bytes_of(alloc: Global, scene: &SceneParts) -> Result<Vec<u8>, AllocError>
    requires { IsScene scene.now }
    ensures canonical { IfOk result (λ bytes. bytes.items ≡ compact_text (scene_data scene.now)) }
    ensures read_again { IfOk result (λ bytes. scene_of bytes.items ≡ Ok scene.now) }
{
    let value = scene_value(alloc, scene)?;
    let bytes = value.to_vec(alloc)?;
    Ok(bytes)
}

/// The bytes of a file with this scene, in canonical form: compact, each field that is built with its value, and
/// optional ones without a value left out. Reading them gives the same scene.
pub fn write_scene(alloc: Global, scene: &Scene) -> Result<Vec<u8>, NoMemory>
    ensures canonical { IfOk result (λ bytes. bytes.items ≡ compact_text (scene_data scene.now)) }
    ensures read_again { IfOk result (λ bytes. scene_of bytes.items ≡ Ok scene.now) }
{
    match bytes_of(alloc, scene.parts()) {
        Ok(bytes) => Ok(bytes),
        Err(_refused) => Err(NoMemory),
    }
}
