//! The scene of bytes.

ghost use Rattle.std.specs.Prelude.{◌≡◌, Some, None, IfOk};
ghost use Rattle.serde_json.specs.View.{view};
ghost use Rattle.so_scene_json.specs.Scene.{scene_of, reading, of_data, passes, finished, no_state};
ghost use Rattle.so_scene_fields.specs.Visits.{fields};
ghost use Rattle.so_scene_fields.specs.Numbers.{HasNumbers};
ghost use Rattle.so_scene_fields.specs.Visits.{run};
ghost use Rattle.so_scene_passes.specs.Shape.{shape_step};
ghost use Rattle.so_scene_passes.specs.Twice.{twice_step, no_names};
ghost use Rattle.so_scene_passes.specs.Known.{known_step, knows};
ghost use Rattle.so_scene_build.specs.Build.{build_step, no_parts};
ghost use Rattle.so_scene_fields.specs.Reads.{Reads, ReadsValue};

use crate::finish::finish;
use serde_json::Value;
use so_fault::{SceneFault, ScenePlace, SceneRefusal};
use so_scene::Scene;
use so_scene_build::build::Build;
use so_scene_fields::table::ObjectKind;
use so_scene_fields::walk::object;
use so_scene_passes::declare::Declared;
use so_scene_passes::known::Known;
use so_scene_passes::shape::Shape;
use std::alloc::Global;

/// The value of the bytes, whose numbers have 64 bits.
fn value_of(alloc: Global, bytes: &[u8]) -> Result<Value, SceneRefusal>
    ensures read { ReadsValue result (reading bytes.now) }
    ensures numbers { IfOk result (λ value. HasNumbers (view value)) }
{
    match Value::from_slice(alloc, bytes) {
        Ok(value) => Ok(value),
        Err(error) => if error.is_memory() {
            Err(SceneRefusal::NoMemory)
        } else {
            Err(SceneRefusal::Fault(SceneFault::NotJson))
        },
    }
}

fn shape_of(value: &Value) -> Result<Shape, SceneRefusal>
    ensures { Reads result (run shape_step no_state (fields (view value.now))) }
{
    let mut shape = Shape {};
    object(&mut shape, 4, ObjectKind::Scene, &ScenePlace::root(), value)?;
    Ok(shape)
}

fn names_of(alloc: Global, value: &Value) -> Result<Declared, SceneRefusal>
    ensures { Reads result (run twice_step no_names (fields (view value.now))) }
{
    let mut names = Declared::new(alloc);
    object(&mut names, 4, ObjectKind::Scene, &ScenePlace::root(), value)?;
    Ok(names)
}

fn known_of(names: Declared, value: &Value) -> Result<Known, SceneRefusal>
    ensures { Reads result (run known_step (knows names) (fields (view value.now))) }
{
    let mut known = Known::new(names);
    object(&mut known, 4, ObjectKind::Scene, &ScenePlace::root(), value)?;
    Ok(known)
}

fn parts_of(alloc: Global, known: Known, value: &Value) -> Result<Build, SceneRefusal>
    ensures { Reads result (run build_step (no_parts known.names) (fields (view value.now))) }
{
    let mut parts = Build::new(alloc, known.names)?;
    object(&mut parts, 4, ObjectKind::Scene, &ScenePlace::root(), value)?;
    Ok(parts)
}

#[tactic(auto, unfolding(crate::specs::Scene::passes))]
fn four_passes(alloc: Global, value: &Value) -> Result<Scene, SceneRefusal>
    requires { HasNumbers (view value.now) }
    ensures { Reads result (passes (view value.now)) }
{
    let _shape = shape_of(value)?;
    let names = names_of(alloc, value)?;
    let known = known_of(names, value)?;
    let parts = parts_of(alloc, known, value)?;
    finish(parts)
}

fn scene(alloc: Global, value: &Value) -> Result<Scene, SceneRefusal>
    requires { HasNumbers (view value.now) }
    ensures { Reads result (of_data (view value.now)) }
{
    if !value.is_object() {
        return Err(SceneRefusal::Fault(SceneFault::WrongShape(ScenePlace::root())));
    }
    four_passes(alloc, value)
}

/// The checked scene of a file's bytes, or the first fault of the first pass that has one, with its place.
pub fn read_scene(alloc: Global, bytes: &[u8]) -> Result<Scene, SceneRefusal>
    ensures { Reads result (scene_of bytes.now) }
{
    let value = value_of(alloc, bytes)?;
    scene(alloc, &value)
}
