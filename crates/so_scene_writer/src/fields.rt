//! Fields that an object gets where they have a value.

ghost use Rattle.std.specs.Prelude.{◌≡◌, IfOk, Option, option_map};
ghost use Rattle.serde_json.specs.View.{view};
ghost use Rattle.so_scene_data.specs.ActData.{text_data};
ghost use Rattle.so_scene_data.specs.Fields.{with_field, added};

use crate::words::text;
use serde_json::{Map, Value, put};
use so_scene::Name;
use std::alloc::{AllocError, Global};

fn add_field(alloc: Global, object: Value, key: &str, value: Value) -> Result<Value, AllocError>
    ensures { IfOk result (λ v. view v ≡ added key.now (view value) (view object)) }
{
    match object {
        Value::Object(mut members) => {
            put(&mut members, alloc, key, value)?;
            Ok(Value::Object(members))
        }
        Value::Null => Ok(Value::Null),
        Value::Bool(b) => Ok(Value::Bool(b)),
        Value::Number(number) => Ok(Value::Number(number)),
        Value::String(text) => Ok(Value::String(text)),
        Value::Array(list) => Ok(Value::Array(list)),
    }
}

/// The object with one more field, if there is a value.
pub(crate) fn with_field(
    alloc: Global,
    object: Value,
    key: &str,
    value: Option<Value>,
) -> Result<Value, AllocError>
    ensures { IfOk result (λ v. view v ≡ with_field key.now (option_map view value) (view object)) }
{
    match value {
        None => Ok(object),
        Some(value) => add_field(alloc, object, key, value),
    }
}

/// An id, if there is one.
pub(crate) fn id_value(alloc: Global, id: &Option<Name>) -> Result<Option<Value>, AllocError>
    ensures { IfOk result (λ o. option_map view o ≡ option_map text_data id.now) }
{
    match id {
        None => Ok(None),
        Some(name) => Ok(Some(Value::try_from_str(alloc, text(name.bytes()))?)),
    }
}
