//! Names by number, as text.

ghost use Rattle.std.specs.Prelude.{◌≡◌};
ghost use Rattle.so_scene.specs.Checked.{filter_ids};
ghost use Rattle.so_scene.specs.Parts.{groups_of, mbox_name, text_of};
ghost use Rattle.so_scene_fields.specs.Values.{text_or_empty};
ghost use Rattle.so_scene_data.specs.ActData.{shown, coop_text, disp_text, group_at, message_text, state_text, id_text, target_text};

use so_ids::{CoopId, DispId, FilterId, MboxId, MsgId, RowId, StateId, Target, TextId};
use so_scene::{AgentDef, Name, SceneParts};

/// The text of bytes, empty where they are no UTF-8.
pub(crate) fn text(bytes: &[u8]) -> &str
    ensures { result.now ≡ shown bytes.now }
{
    match str::from_utf8(bytes) {
        Ok(text) => text,
        Err(_) => "",
    }
}

/// The name of a type of messages.
pub(crate) fn message_name(scene: &SceneParts, msg: MsgId) -> &[u8]
    ensures { result.now ≡ message_text scene.now msg }
{
    match scene.messages.as_slice().get(msg.0 as usize) {
        Some(message) => message.name.bytes(),
        None => b"",
    }
}

/// The name of a mbox, which of a direct one is its agent's.
pub(crate) fn mbox_text(scene: &SceneParts, mbox: MboxId) -> &[u8]
    ensures { result.now ≡ mbox_name scene.now mbox }
{
    let agents = scene.agents.as_slice();
    let at = mbox.0 as usize;
    if at < agents.len() {
        return agents[at].name.bytes();
    }
    match scene.mboxes.as_slice().get(at - agents.len()) {
        Some(name) => name.bytes(),
        None => b"",
    }
}

/// The name of where a delivery goes.
pub(crate) fn target_name(scene: &SceneParts, target: Target) -> &[u8]
    ensures { result.now ≡ target_text scene.now target }
{
    match target {
        Target::Mbox(mbox) => mbox_text(scene, mbox),
        Target::Chain(_chain) => b"",
    }
}

/// A text.
pub(crate) fn text_bytes(scene: &SceneParts, text: TextId) -> &[u8]
    ensures { result.now ≡ text_of scene.now text }
{
    match scene.texts.as_slice().get(text.0 as usize) {
        Some(text) => text.bytes(),
        None => b"",
    }
}

/// The name of a state.
pub(crate) fn state_name(agent: &AgentDef, state: StateId) -> &[u8]
    ensures { result.now ≡ state_text agent.now state }
{
    if state.0 == 0 {
        return b"default";
    }
    match agent.state_names.as_slice().get(state.0 as usize - 1) {
        Some(name) => name.bytes(),
        None => b"",
    }
}

fn bytes_or_none(id: &Option<Name>) -> &[u8]
    ensures { result.now ≡ text_or_empty id.now }
{
    match id {
        Some(name) => name.bytes(),
        None => b"",
    }
}

/// The id of a row.
pub(crate) fn row_name(agent: &AgentDef, row: RowId) -> &[u8]
    ensures { result.now ≡ id_text agent.now.row_ids row.0 }
{
    match agent.row_ids.as_slice().get(row.0 as usize) {
        Some(id) => bytes_or_none(id),
        None => b"",
    }
}

/// The id of a filter.
pub(crate) fn filter_name(agent: &AgentDef, filter: FilterId) -> &[u8]
    ensures { result.now ≡ id_text (filter_ids agent.now) filter.0 }
{
    match agent.filters.as_slice().get(filter.0 as usize) {
        Some(filter) => bytes_or_none(&filter.id),
        None => b"",
    }
}

/// The name of a cooperation.
pub(crate) fn coop_name(scene: &SceneParts, coop: CoopId) -> &[u8]
    ensures { result.now ≡ coop_text scene.now coop }
{
    match scene.coops.as_slice().get(coop.0 as usize) {
        Some(coop) => coop.name.bytes(),
        None => b"",
    }
}

/// The name of a dispatcher.
pub(crate) fn disp_name(scene: &SceneParts, disp: DispId) -> &[u8]
    ensures { result.now ≡ disp_text scene.now disp }
{
    match scene.dispatchers.as_slice().get(disp.0 as usize) {
        Some(disp) => disp.name.bytes(),
        None => b"default",
    }
}

fn groups_of(scene: &SceneParts, disp: DispId) -> &[Name]
    ensures { result.now ≡ groups_of scene.now disp }
{
    match scene.groups.as_slice().get(disp.0 as usize) {
        Some(names) => names.as_slice(),
        None => &[],
    }
}

/// The name of a dispatcher's group.
pub(crate) fn group_name(scene: &SceneParts, disp: DispId, group: u32) -> &[u8]
    ensures { result.now ≡ group_at scene.now disp group }
{
    match groups_of(scene, disp).get(group as usize) {
        Some(name) => name.bytes(),
        None => b"",
    }
}
