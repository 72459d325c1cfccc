//! Messages, states, filters and rows as values.

ghost use Rattle.std.specs.Prelude.{◌≡◌, IfOk, Some, None, [], if◌then◌else◌, option_map};
ghost use Rattle.serde_json.specs.Data.{boolean};
ghost use Rattle.serde_json.specs.View.{view};
ghost use Rattle.so_scene.specs.Checked.{has_handler};
ghost use Rattle.so_scene_data.specs.Sources.{acts_in, behind_row, state_source, row_source};
ghost use Rattle.so_scene.specs.Parts.{mbox_name};
ghost use Rattle.so_scene_data.specs.ActData.{text_data, state_text, message_text};
ghost use Rattle.so_scene_data.specs.Fields.{state_base, filter_base, row_base};
ghost use Rattle.so_scene_data.specs.Canonical.{kind_word, message_data, history_word, state_data, filter_data, row_data, dead_data, do_data, row_state_data, suppress_data, switch_data, transfer_data};

use crate::acts::{acts_value, behind};
use crate::fields::{id_value, with_field};
use crate::operands::cmp_value;
use crate::words::{mbox_text, message_name, state_name, text};
use serde_json::{Value, json};
use so_code::Instr;
use so_ids::StateId;
use so_scene::{AgentDef, FilterDef, MessageDef, Name, SceneParts};
use so_state::{History, Row, RowKind, State};
use std::alloc::{AllocError, Global};

fn kind_word(signal: bool) -> &'static str
    ensures { result.now ≡ kind_word signal }
{
    if signal { "signal" } else { "message" }
}

/// A type of messages.
pub(crate) fn message_value(alloc: Global, message: &MessageDef) -> Result<Value, AllocError>
    ensures { IfOk result (λ v. view v ≡ message_data message.now) }
{
    let kind = kind_word(message.signal);
    let name = text(message.name.bytes());
    json!(in alloc; {"kind": kind, "name": name})
}

fn history_word(history: History) -> &'static str
    ensures { result.now ≡ history_word history }
{
    match history {
        History::None => "none",
        History::Shallow => "shallow",
        History::Deep => "deep",
    }
}

fn state_text_value(alloc: Global, agent: &AgentDef, state: StateId) -> Result<Value, AllocError>
    ensures { IfOk result (λ v. view v ≡ text_data (state_text agent.now state)) }
{
    Value::try_from_str(alloc, text(state_name(agent, state)))
}

fn parent_value(
    alloc: Global,
    agent: &AgentDef,
    parent: Option<StateId>,
) -> Result<Option<Value>, AllocError>
    ensures { IfOk result (λ o. option_map view o ≡ option_map (λ p. text_data (state_text agent.now p)) parent) }
{
    match parent {
        None => Ok(None),
        Some(parent) => Ok(Some(state_text_value(alloc, agent, parent)?)),
    }
}

fn state_base(
    alloc: Global,
    enter: Value,
    exit: Value,
    state: State,
    name: &[u8],
) -> Result<Value, AllocError>
    ensures { IfOk result (λ v. view v ≡ state_base (view enter) (view exit) state.history state.initial name.now) }
{
    let history = history_word(state.history);
    let initial = state.initial;
    let name = text(name);
    json!(in alloc; {"enter": enter, "exit": exit, "history": history, "initial": initial, "name": name})
}

/// A state of this name, whose bodies begin the code.
pub(crate) fn state_value(
    alloc: Global,
    scene: &SceneParts,
    agent: &AgentDef,
    name: &Name,
    state: State,
    code: &[Instr],
) -> Result<Value, AllocError>
    ensures { IfOk result (λ v. view v ≡ state_data scene.now agent.now (state_source name.now state code.now)) }
{
    let enter = acts_value(alloc, scene, agent, code)?;
    let exit = acts_value(alloc, scene, agent, behind(code))?;
    let value = state_base(alloc, enter, exit, state, name.bytes())?;
    with_field(
        alloc,
        value,
        "parent",
        parent_value(alloc, agent, state.parent)?,
    )
}

fn filter_base(alloc: Global, scene: &SceneParts, filter: &FilterDef) -> Result<Value, AllocError>
    ensures { IfOk result (λ v. view v ≡ filter_base filter.now.active filter.now.cmp filter.now.field (mbox_name scene.now filter.now.mbox) (message_text scene.now filter.now.msg) filter.now.value) }
{
    let active = filter.active;
    let cmp = cmp_value(alloc, filter.cmp)?;
    let field = filter.field;
    let mbox = text(mbox_text(scene, filter.mbox));
    let msg = text(message_name(scene, filter.msg));
    let number = filter.value;
    json!(in alloc; {"active": active, "cmp": cmp, "field": field, "mbox": mbox, "msg": msg, "value": number})
}

/// A filter.
pub(crate) fn filter_value(
    alloc: Global,
    scene: &SceneParts,
    filter: &FilterDef,
) -> Result<Value, AllocError>
    ensures { IfOk result (λ v. view v ≡ filter_data scene.now filter.now) }
{
    let value = filter_base(alloc, scene, filter)?;
    with_field(alloc, value, "id", id_value(alloc, &filter.id)?)
}

fn dead_value(kind: RowKind) -> Option<Value>
    ensures { option_map view result ≡ dead_data kind }
{
    match kind {
        RowKind::Dead => Some(Value::Bool(true)),
        RowKind::Run => None,
        RowKind::Switch(_to) => None,
        RowKind::Transfer(_to) => None,
        RowKind::Suppress => None,
    }
}

fn suppress_value(kind: RowKind) -> Option<Value>
    ensures { option_map view result ≡ suppress_data kind }
{
    match kind {
        RowKind::Suppress => Some(Value::Bool(true)),
        RowKind::Run => None,
        RowKind::Dead => None,
        RowKind::Switch(_to) => None,
        RowKind::Transfer(_to) => None,
    }
}

fn switch_value(alloc: Global, agent: &AgentDef, kind: RowKind) -> Result<Option<Value>, AllocError>
    ensures { IfOk result (λ o. option_map view o ≡ switch_data agent.now kind) }
{
    match kind {
        RowKind::Switch(to) => Ok(Some(state_text_value(alloc, agent, to)?)),
        RowKind::Run => Ok(None),
        RowKind::Dead => Ok(None),
        RowKind::Transfer(_to) => Ok(None),
        RowKind::Suppress => Ok(None),
    }
}

fn transfer_value(
    alloc: Global,
    agent: &AgentDef,
    kind: RowKind,
) -> Result<Option<Value>, AllocError>
    ensures { IfOk result (λ o. option_map view o ≡ transfer_data agent.now kind) }
{
    match kind {
        RowKind::Transfer(to) => Ok(Some(state_text_value(alloc, agent, to)?)),
        RowKind::Run => Ok(None),
        RowKind::Dead => Ok(None),
        RowKind::Switch(_to) => Ok(None),
        RowKind::Suppress => Ok(None),
    }
}

fn row_state_value(alloc: Global, agent: &AgentDef, row: Row) -> Result<Option<Value>, AllocError>
    ensures { IfOk result (λ o. option_map view o ≡ row_state_data agent.now row.state row.kind) }
{
    match row.kind {
        RowKind::Dead => Ok(None),
        RowKind::Run => Ok(Some(state_text_value(alloc, agent, row.state)?)),
        RowKind::Switch(_to) => Ok(Some(state_text_value(alloc, agent, row.state)?)),
        RowKind::Transfer(_to) => Ok(Some(state_text_value(alloc, agent, row.state)?)),
        RowKind::Suppress => Ok(Some(state_text_value(alloc, agent, row.state)?)),
    }
}

fn do_value(
    alloc: Global,
    scene: &SceneParts,
    agent: &AgentDef,
    kind: RowKind,
    code: &[Instr],
) -> Result<Option<Value>, AllocError>
    ensures { IfOk result (λ o. option_map view o ≡ do_data scene.now agent.now (if has_handler kind then acts_in code.now else []) kind) }
{
    match kind {
        RowKind::Run => Ok(Some(acts_value(alloc, scene, agent, code)?)),
        RowKind::Dead => Ok(Some(acts_value(alloc, scene, agent, code)?)),
        RowKind::Switch(_to) => Ok(None),
        RowKind::Transfer(_to) => Ok(None),
        RowKind::Suppress => Ok(None),
    }
}

fn row_base(alloc: Global, scene: &SceneParts, row: Row) -> Result<Value, AllocError>
    ensures { IfOk result (λ v. view v ≡ row_base row.active (mbox_name scene.now row.mbox) (message_text scene.now row.msg) row.safe) }
{
    let active = row.active;
    let mbox = text(mbox_text(scene, row.mbox));
    let msg = text(message_name(scene, row.msg));
    let safe = row.safe;
    json!(in alloc; {"active": active, "mbox": mbox, "msg": msg, "safe": safe})
}

/// A row with this id, whose body begins the code if it has one.
pub(crate) fn row_value(
    alloc: Global,
    scene: &SceneParts,
    agent: &AgentDef,
    id: &Option<Name>,
    row: Row,
    code: &[Instr],
) -> Result<Value, AllocError>
    ensures { IfOk result (λ v. view v ≡ row_data scene.now agent.now (row_source id.now row code.now)) }
{
    let value = row_base(alloc, scene, row)?;
    let value = with_field(alloc, value, "dead", dead_value(row.kind))?;
    let value = with_field(
        alloc,
        value,
        "do",
        do_value(alloc, scene, agent, row.kind, code)?,
    )?;
    let value = with_field(alloc, value, "id", id_value(alloc, id)?)?;
    let value = with_field(alloc, value, "state", row_state_value(alloc, agent, row)?)?;
    let value = with_field(alloc, value, "suppress", suppress_value(row.kind))?;
    let value = with_field(
        alloc,
        value,
        "switch",
        switch_value(alloc, agent, row.kind)?,
    )?;
    with_field(
        alloc,
        value,
        "transfer",
        transfer_value(alloc, agent, row.kind)?,
    )
}

/// What stands behind the body of a row, if it has one.
pub(crate) fn behind_row(row: Row, code: &[Instr]) -> &[Instr]
    ensures { result.now ≡ behind_row row code.now }
{
    match row.kind {
        RowKind::Run => behind(code),
        RowKind::Dead => behind(code),
        RowKind::Switch(_to) => code,
        RowKind::Transfer(_to) => code,
        RowKind::Suppress => code,
    }
}
