//! Lists and agents as values.

ghost use Rattle.std.specs.Prelude.{◌≡◌, ◌<◌, length, min, map, option_map, pos, slice_index_or, IfOk};
ghost use Rattle.serde_json.specs.Data.{array};
ghost use Rattle.serde_json.specs.View.{view, items_of};
ghost use Rattle.so_scene_data.specs.Sources.{behind_states, states_in, rows_in, states_of, rows_of, start_acts, finish_acts};
ghost use Rattle.so_scene_data.specs.ActData.{acts_data, disp_text, group_text, text_data};
ghost use Rattle.so_scene_data.specs.Fields.{agent_base};
ghost use Rattle.so_scene_data.specs.Canonical.{list_data, message_data, filter_data, state_data, row_data, number_data, agent_data};

use crate::acts::{acts_value, behind};
use crate::fields::with_field;
use crate::objects::{behind_row, filter_value, message_value, row_value, state_value};
use crate::words::{disp_name, group_name, text};
use serde_json::{Value, json};
use so_code::Instr;
use so_scene::{AgentDef, FilterDef, MessageDef, Name, SceneParts};
use so_state::{Row, State};
use std::alloc::{AllocError, Global};

/// The types of messages.
pub(crate) fn messages_value(alloc: Global, messages: &[MessageDef]) -> Result<Value, AllocError>
    ensures { IfOk result (λ v. view v ≡ list_data message_data messages.now) }
{
    let mut list = Vec::new(alloc);
    for message in messages {
        list.push(message_value(alloc, message)?)?;
    }
    Ok(Value::Array(list))
}

/// The mboxes with a name of their own.
pub(crate) fn mboxes_value(alloc: Global, mboxes: &[Name]) -> Result<Value, AllocError>
    ensures { IfOk result (λ v. view v ≡ list_data text_data mboxes.now) }
{
    let mut list = Vec::new(alloc);
    for mbox in mboxes {
        list.push(Value::try_from_str(alloc, text(mbox.bytes()))?)?;
    }
    Ok(Value::Array(list))
}

fn number_at(numbers: &[i64], k: usize) -> Value
    requires { k < length numbers.now }
    ensures { view result ≡ number_data (slice_index_or numbers.now k (pos 0)) }
{
    let number = numbers[k];
    Value::from(number)
}

fn numbers_value(alloc: Global, numbers: &[i64]) -> Result<Value, AllocError>
    ensures { IfOk result (λ v. view v ≡ list_data number_data numbers.now) }
{
    let mut list = Vec::new(alloc);
    for k in 0..numbers.len() {
        list.push(number_at(numbers, k))?;
    }
    Ok(Value::Array(list))
}

fn filters_value(
    alloc: Global,
    scene: &SceneParts,
    filters: &[FilterDef],
) -> Result<Value, AllocError>
    ensures { IfOk result (λ v. view v ≡ list_data (filter_data scene.now) filters.now) }
{
    let mut list = Vec::new(alloc);
    for filter in filters {
        list.push(filter_value(alloc, scene, filter)?)?;
    }
    Ok(Value::Array(list))
}

fn least(a: usize, b: usize) -> usize
    ensures { result ≡ min a b }
{
    if a < b { a } else { b }
}

/// States of these names, whose bodies begin the code.
fn states_value(
    alloc: Global,
    scene: &SceneParts,
    agent: &AgentDef,
    names: &[Name],
    states: &[State],
    code: &[Instr],
) -> Result<Value, AllocError>
    ensures { IfOk result (λ v. view v ≡ list_data (state_data scene.now agent.now) (states_in names.now states.now code.now)) }
{
    let mut list = Vec::new(alloc);
    let mut left = code;
    for k in 0..least(names.len(), states.len()) {
        list.push(state_value(alloc, scene, agent, &names[k], states[k], left)?)?;
        left = behind(behind(left));
    }
    Ok(Value::Array(list))
}

/// What stands behind the bodies of so many states.
fn behind_states(states: usize, code: &[Instr]) -> &[Instr]
    ensures { result.now ≡ behind_states states code.now }
{
    let mut left = code;
    for _ in 0..states {
        left = behind(behind(left));
    }
    left
}

/// Rows with these ids, whose bodies begin the code.
fn rows_value(
    alloc: Global,
    scene: &SceneParts,
    agent: &AgentDef,
    ids: &[Option<Name>],
    rows: &[Row],
    code: &[Instr],
) -> Result<Value, AllocError>
    ensures { IfOk result (λ v. view v ≡ list_data (row_data scene.now agent.now) (rows_in ids.now rows.now code.now)) }
{
    let mut list = Vec::new(alloc);
    let mut left = code;
    for k in 0..least(ids.len(), rows.len()) {
        list.push(row_value(alloc, scene, agent, &ids[k], rows[k], left)?)?;
        left = behind_row(rows[k], left);
    }
    Ok(Value::Array(list))
}

fn group_value(
    alloc: Global,
    scene: &SceneParts,
    agent: &AgentDef,
) -> Result<Option<Value>, AllocError>
    ensures { IfOk result (λ o. option_map view o ≡ option_map text_data (group_text scene.now agent.now)) }
{
    match agent.group {
        None => Ok(None),
        Some(group) => {
            let name = text(group_name(scene, agent.disp, group));
            Ok(Some(Value::try_from_str(alloc, name)?))
        }
    }
}

/// An agent without its group.
fn agent_base(alloc: Global, scene: &SceneParts, agent: &AgentDef) -> Result<Value, AllocError>
    ensures { IfOk result (λ v. view v ≡ agent_base (disp_text scene.now agent.now.disp)
        (list_data (filter_data scene.now) agent.now.filters)
        (acts_data scene.now agent.now (finish_acts agent.now))
        agent.now.name
        (list_data (row_data scene.now agent.now) (rows_of agent.now))
        agent.now.priority.level
        (acts_data scene.now agent.now (start_acts agent.now))
        (list_data (state_data scene.now agent.now) (states_of agent.now))
        (list_data number_data agent.now.vars.0)) }
{
    let code = agent.code.instrs();
    let past_start = behind(code);
    let past_finish = behind(past_start);
    let past_states = behind_states(agent.tree.len(), past_finish);
    let disp = text(disp_name(scene, agent.disp));
    let filters = filters_value(alloc, scene, agent.filters.as_slice())?;
    let finish = acts_value(alloc, scene, agent, past_start)?;
    let name = text(agent.name.bytes());
    let on = rows_value(
        alloc,
        scene,
        agent,
        agent.row_ids.as_slice(),
        agent.rows.as_slice(),
        past_states,
    )?;
    let priority = agent.priority.level;
    let start = acts_value(alloc, scene, agent, code)?;
    let states = states_value(
        alloc,
        scene,
        agent,
        agent.state_names.as_slice(),
        agent.tree.states(),
        past_finish,
    )?;
    let vars = numbers_value(alloc, &agent.vars.0)?;
    json!(in alloc; {"disp": disp, "filters": filters, "finish": finish, "name": name, "on": on, "priority": priority, "start": start, "states": states, "vars": vars})
}

/// An agent.
fn agent_value(alloc: Global, scene: &SceneParts, agent: &AgentDef) -> Result<Value, AllocError>
    ensures { IfOk result (λ v. view v ≡ agent_data scene.now agent.now) }
{
    let value = agent_base(alloc, scene, agent)?;
    with_field(alloc, value, "group", group_value(alloc, scene, agent)?)
}

/// These agents.
pub(crate) fn agents_value(
    alloc: Global,
    scene: &SceneParts,
    agents: &[AgentDef],
) -> Result<Value, AllocError>
    ensures { IfOk result (λ v. view v ≡ list_data (agent_data scene.now) agents.now) }
{
    let mut list = Vec::new(alloc);
    for agent in agents {
        list.push(agent_value(alloc, scene, agent)?)?;
    }
    Ok(Value::Array(list))
}
