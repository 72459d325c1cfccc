//! Cooperations and the scene as values.

ghost use Rattle.std.specs.Prelude.{◌≡◌, take, drop, option_map, IfOk};
ghost use Rattle.serde_json.specs.View.{view};
ghost use Rattle.so_scene_data.specs.ActData.{text_data, coop_text};
ghost use Rattle.so_scene_data.specs.Fields.{coop_base};
ghost use Rattle.so_scene_data.specs.Canonical.{agents_of, agent_data, list_data, coop_data, scene_data};

use crate::agents::{agents_value, mboxes_value, messages_value};
use crate::dispatchers::dispatchers_value;
use crate::fields::with_field;
use crate::words::{coop_name, text};
use serde_json::{Value, json};
use so_ids::CoopId;
use so_scene::{AgentDef, CoopDef, SceneParts};
use std::alloc::{AllocError, Global};

/// The agents from a number on.
fn from(agents: &[AgentDef], at: usize) -> &[AgentDef]
    ensures { result.now ≡ drop at agents.now }
{
    if at < agents.len() {
        &agents[at..]
    } else {
        &[]
    }
}

/// So many of the agents.
fn first(agents: &[AgentDef], count: usize) -> &[AgentDef]
    ensures { result.now ≡ take count agents.now }
{
    if count < agents.len() {
        &agents[..count]
    } else {
        agents
    }
}

/// A cooperation without its parent.
fn coop_base(alloc: Global, scene: &SceneParts, coop: &CoopDef) -> Result<Value, AllocError>
    ensures { IfOk result (λ v. view v ≡ coop_base (list_data (agent_data scene.now) (agents_of scene.now coop.now)) coop.now.at_start coop.now.name) }
{
    let behind = from(scene.agents.as_slice(), coop.first.0 as usize);
    let agents = agents_value(alloc, scene, first(behind, coop.count as usize))?;
    let at_start = coop.at_start;
    let name = text(coop.name.bytes());
    json!(in alloc; {"agents": agents, "at_start": at_start, "name": name})
}

fn parent_value(
    alloc: Global,
    scene: &SceneParts,
    parent: Option<CoopId>,
) -> Result<Option<Value>, AllocError>
    ensures { IfOk result (λ o. option_map view o ≡ option_map (λ p. text_data (coop_text scene.now p)) parent) }
{
    match parent {
        None => Ok(None),
        Some(parent) => {
            let name = text(coop_name(scene, parent));
            Ok(Some(Value::try_from_str(alloc, name)?))
        }
    }
}

/// A cooperation.
fn coop_value(alloc: Global, scene: &SceneParts, coop: &CoopDef) -> Result<Value, AllocError>
    ensures { IfOk result (λ v. view v ≡ coop_data scene.now coop.now) }
{
    let value = coop_base(alloc, scene, coop)?;
    with_field(
        alloc,
        value,
        "parent",
        parent_value(alloc, scene, coop.parent)?,
    )
}

fn coops_value(alloc: Global, scene: &SceneParts, coops: &[CoopDef]) -> Result<Value, AllocError>
    ensures { IfOk result (λ v. view v ≡ list_data (coop_data scene.now) coops.now) }
{
    let mut list = Vec::new(alloc);
    for coop in coops {
        list.push(coop_value(alloc, scene, coop)?)?;
    }
    Ok(Value::Array(list))
}

/// A scene.
pub(crate) fn scene_value(alloc: Global, scene: &SceneParts) -> Result<Value, AllocError>
    ensures { IfOk result (λ v. view v ≡ scene_data scene.now) }
{
    let autoshutdown = scene.autoshutdown;
    let coops = coops_value(alloc, scene, scene.coops.as_slice())?;
    let dispatchers = dispatchers_value(alloc, scene.dispatchers.as_slice())?;
    let mboxes = mboxes_value(alloc, scene.mboxes.as_slice())?;
    let messages = messages_value(alloc, scene.messages.as_slice())?;
    json!(in alloc; {"autoshutdown": autoshutdown, "coops": coops, "dispatchers": dispatchers, "mboxes": mboxes, "messages": messages, "version": 1u8})
}
