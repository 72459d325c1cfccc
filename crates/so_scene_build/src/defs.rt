//! The parts of a scene that one value stands for: a message, a dispatcher, and an agent's dispatcher, variables, states, rows and
//! filters.

ghost use Rattle.std.specs.Prelude.{◌≡◌, ◌++◌, ◌∷◌, [], ℤ, Some, map, length, codes};
ghost use Rattle.std.specs.List.{range_with_len};
ghost use Rattle.serde_json.specs.View.{view, items_view};
ghost use Rattle.so_scene_build.specs.Defs.{message_of, slots_in, threads_in, fifo_in, quote_at, quotes_in, disp_of, level_in, priority_in, disp_in, var_at, vars_in, vars_of, number_named, msg_in, mbox_in, parent_coop, coop_of, state_named, state_in, parent_in, history_in, state_of, states_of, row_mbox, handler_kind, kind_of, row_of, rows_of, field_in, cmp_in, filter_of, filters_of};
ghost use Rattle.so_scene_fields.specs.Values.{value_in};
ghost use Rattle.so_scene.specs.Parts.{default_disp};
ghost use Rattle.so_scene_fields.specs.Reads.{Returns};

use crate::code_builder::item;
use serde_json::Value;
use so_code::Cmp;
use so_fault::SceneRefusal;
use so_ids::{AgentId, CoopId, DispId, MboxId, MsgId, Priority, StateId, Vars};
use so_scene::{CoopDef, DispDef, DispKind, Fifo, FilterDef, Items, MessageDef, Name};
use so_scene_fields::table::Space;
use so_scene_fields::values::{
    comparison, disp_kind_in, fifo, flag_or, history, id_in, integer, is_safe, number, object_name,
    quote, string_in,
};
use so_scene_fields::walk::{list, position};
use so_scene_passes::declare::{Declared, is_signal};
use so_scene_passes::scope::Scope;
use so_state::{History, Row, RowKind, State};
use std::alloc::Global;

pub(crate) fn message_of(value: &Value) -> MessageDef
    ensures { result ≡ message_of (view value.now) }
{
    MessageDef {
        name: object_name(value),
        signal: is_signal(value),
    }
}

/// Variable `k`, which is 0 where the list has none.
fn var_at(list: &[Value], k: usize) -> i64
    ensures { result ≡ var_at k (items_view list.now) }
{
    match item(list, k) {
        Some(value) => match integer(value) {
            Ok(n) => n,
            Err(_) => 0,
        },
        None => 0,
    }
}

fn vars_in(list: &[Value]) -> [i64; 16]
    ensures { result ≡ vars_in (items_view list.now) }
{
    let mut vars = [0i64; 16];
    for k in 0..16 {
        vars[k] = var_at(list, k);
    }
    vars
}

pub(crate) fn vars_of(value: &Value) -> Vars
    ensures { result ≡ vars_of (view value.now) }
{
    Vars(vars_in(list(value.get("vars"))))
}

/// The number of the name in a field.
fn number_named(names: &Declared, space: Space, key: &str, value: &Value) -> u32
    ensures { result ≡ number_named names.now space key.now (view value.now) }
{
    match names.number(space, string_in(value, key)) {
        Some(n) => position(n),
        None => 0,
    }
}

fn msg_in(names: &Declared, value: &Value) -> MsgId
    ensures { result ≡ msg_in names.now (view value.now) }
{
    MsgId(number_named(names, Space::Messages, "msg", value))
}

fn mbox_in(names: &Declared, value: &Value) -> MboxId
    ensures { result ≡ mbox_in names.now (view value.now) }
{
    MboxId(number_named(names, Space::Mboxes, "mbox", value))
}

/// The mbox of a row of the agent of this number.
fn row_mbox(agent: usize, names: &Declared, value: &Value) -> MboxId
    ensures { result ≡ row_mbox agent names.now (view value.now) }
{
    if value.get("mbox").is_some() {
        mbox_in(names, value)
    } else {
        MboxId(position(agent))
    }
}

/// The parent of a cooperation, if one is named.
fn parent_coop(names: &Declared, value: &Value) -> Option<CoopId>
    ensures { result ≡ parent_coop names.now (view value.now) }
{
    if value.get("parent").is_some() {
        Some(CoopId(number_named(names, Space::Coops, "parent", value)))
    } else {
        None
    }
}

/// A cooperation that follows so many agents, without agents of its own.
pub(crate) fn coop_of(agents: usize, names: &Declared, value: &Value) -> CoopDef
    ensures { result ≡ coop_of agents names.now (view value.now) }
{
    CoopDef {
        name: object_name(value),
        parent: parent_coop(names, value),
        at_start: flag_or(true, value.get("at_start")),
        first: AgentId(position(agents)),
        count: 0,
    }
}

/// How many agents may be bound to a dispatcher at one time.
fn slots_in(value: &Value) -> u32
    ensures { result ≡ slots_in (view value.now) }
{
    match value.get("slots") {
        Some(slots) => match number(1, 4096, slots) {
            Ok(n) => n as u32,
            Err(_) => 4096,
        },
        None => 4096,
    }
}

/// How many threads a pool has.
fn threads_in(value: &Value) -> u32
    ensures { result ≡ threads_in (view value.now) }
{
    match value.get("threads") {
        Some(threads) => match number(1, 64, threads) {
            Ok(n) => n as u32,
            Err(_) => 4,
        },
        None => 4,
    }
}

/// Which agents of a pool share a queue.
fn fifo_in(value: &Value) -> Fifo
    ensures { result ≡ fifo_in (view value.now) }
{
    match value.get("fifo") {
        Some(value) => match fifo(value) {
            Ok(fifo) => fifo,
            Err(_) => Fifo::Cooperation,
        },
        None => Fifo::Cooperation,
    }
}

/// The quote of priority `k`, which is 20 where the list has none.
fn quote_at(list: &[Value], k: usize) -> u32
    ensures { result ≡ quote_at k (items_view list.now) }
{
    match item(list, k) {
        Some(value) => match quote(value) {
            Ok(n) => n as u32,
            Err(_) => 20,
        },
        None => 20,
    }
}

fn quotes_in(list: &[Value]) -> [u32; 8]
    ensures { result ≡ quotes_in (items_view list.now) }
{
    let mut quotes = [0u32; 8];
    for k in 0..8 {
        quotes[k] = quote_at(list, k);
    }
    quotes
}

pub(crate) fn disp_of(value: &Value) -> DispDef
    ensures { result ≡ disp_of (view value.now) }
{
    DispDef {
        name: object_name(value),
        kind: disp_kind_in(value),
        slots: slots_in(value),
        threads: threads_in(value),
        fifo: fifo_in(value),
        quotes: quotes_in(list(value.get("quotes"))),
    }
}

/// The dispatcher `default`.
pub(crate) fn default_disp() -> DispDef
    ensures { result ≡ default_disp }
{
    DispDef {
        name: default_name(),
        kind: DispKind::OneThread,
        slots: 4096,
        threads: 4,
        fifo: Fifo::Cooperation,
        quotes: [20; 8],
    }
}

fn default_name() -> Name
    ensures { result ≡ codes "default" }
{
    match Name::of("default") {
        Some(name) => name,
        None => unreachable!(),
    }
}

/// The dispatcher of an agent.
pub(crate) fn disp_in(names: &Declared, value: &Value) -> DispId
    ensures { result ≡ disp_in names.now (view value.now) }
{
    match names.disp_of(value) {
        Some(n) => DispId(position(n)),
        None => DispId(0),
    }
}

/// The level of the priority of an agent, 0 where it has none.
fn level_in(value: &Value) -> usize
    ensures { result ≡ level_in (view value.now) }
{
    match value.get("priority") {
        Some(value) => match number(0, 7, value) {
            Ok(n) => n,
            Err(_) => 0,
        },
        None => 0,
    }
}

/// The priority of an agent.
pub(crate) fn priority_in(value: &Value) -> Priority
    ensures { result ≡ priority_in (view value.now) }
{
    Priority {
        level: level_in(value).min(7) as u8,
    }
}

/// The state that a field names: `default` where it names none.
fn state_in(scope: &Scope, key: &str, value: &Value) -> StateId
    ensures { result ≡ state_in scope.now key.now (view value.now) }
{
    match value.get(key) {
        Some(found) => match found.as_str() {
            Some(name) => StateId(state_named(scope, name)),
            None => StateId(0),
        },
        None => StateId(0),
    }
}

fn state_named(scope: &Scope, name: &str) -> u32
    ensures { result ≡ state_named scope.now (Some name.now) }
{
    match scope.state(name) {
        Some(n) => position(n),
        None => 0,
    }
}

fn parent_in(scope: &Scope, value: &Value) -> Option<StateId>
    ensures { result ≡ parent_in scope.now (view value.now) }
{
    if value.get("parent").is_some() {
        Some(state_in(scope, "parent", value))
    } else {
        None
    }
}

fn history_in(value: &Value) -> History
    ensures { result ≡ history_in (view value.now) }
{
    match value.get("history") {
        Some(value) => match history(value) {
            Ok(history) => history,
            Err(_) => History::None,
        },
        None => History::None,
    }
}

fn state_of(scope: &Scope, value: &Value) -> State
    ensures { result ≡ state_of scope.now (view value.now) }
{
    State {
        parent: parent_in(scope, value),
        initial: flag_or(false, value.get("initial")),
        history: history_in(value),
        limit: None,
    }
}

/// The states of an agent.
pub(crate) fn states_in(
    alloc: Global,
    scope: &Scope,
    list: &[Value],
) -> Result<Items<State>, SceneRefusal>
    ensures { Returns (states_of scope.now (items_view list.now)) result }
{
    let mut states = Items::new(alloc);
    for value in list {
        states.push(state_of(scope, value))?;
    }
    Ok(states)
}

fn handler_kind(dead: bool) -> RowKind
    ensures { result ≡ handler_kind dead }
{
    if dead { RowKind::Dead } else { RowKind::Run }
}

/// What a row does.
fn kind_of(scope: &Scope, value: &Value) -> RowKind
    ensures { result ≡ kind_of scope.now (view value.now) }
{
    if value.get("do").is_some() {
        handler_kind(flag_or(false, value.get("dead")))
    } else if value.get("switch").is_some() {
        RowKind::Switch(state_in(scope, "switch", value))
    } else if value.get("transfer").is_some() {
        RowKind::Transfer(state_in(scope, "transfer", value))
    } else {
        RowKind::Suppress
    }
}

/// A row of the agent of this number.
fn row_of(agent: usize, names: &Declared, scope: &Scope, value: &Value) -> Row
    ensures { result ≡ row_of agent names.now scope.now (view value.now) }
{
    Row {
        mbox: row_mbox(agent, names, value),
        msg: msg_in(names, value),
        state: state_in(scope, "state", value),
        kind: kind_of(scope, value),
        safe: is_safe(value),
        active: flag_or(true, value.get("active")),
    }
}

/// The rows of the agent of this number.
pub(crate) fn rows_in(
    alloc: Global,
    agent: usize,
    names: &Declared,
    scope: &Scope,
    list: &[Value],
) -> Result<Items<Row>, SceneRefusal>
    ensures { Returns (rows_of agent names.now scope.now (items_view list.now)) result }
{
    let mut rows = Items::new(alloc);
    for value in list {
        rows.push(row_of(agent, names, scope, value))?;
    }
    Ok(rows)
}

/// The field of a message that a filter tests.
fn tested(value: &Value) -> u8
    ensures { result ≡ field_in (view value.now) }
{
    match value.get("field") {
        Some(field) => match number(0, 3, field) {
            Ok(n) => n as u8,
            Err(_) => 0,
        },
        None => 0,
    }
}

fn cmp_in(value: &Value) -> Cmp
    ensures { result ≡ cmp_in (view value.now) }
{
    match value.get("cmp") {
        Some(cmp) => match comparison(cmp) {
            Ok(cmp) => cmp,
            Err(_) => Cmp::Eq,
        },
        None => Cmp::Eq,
    }
}

fn value_in(value: &Value) -> i64
    ensures { result ≡ value_in (view value.now) }
{
    match value.get("value") {
        Some(value) => match integer(value) {
            Ok(n) => n,
            Err(_) => 0,
        },
        None => 0,
    }
}

fn filter_of(names: &Declared, value: &Value) -> FilterDef
    ensures { result ≡ filter_of names.now (view value.now) }
{
    FilterDef {
        id: id_in(value),
        mbox: mbox_in(names, value),
        msg: msg_in(names, value),
        field: tested(value),
        cmp: cmp_in(value),
        value: value_in(value),
        active: flag_or(true, value.get("active")),
    }
}

/// The filters of an agent.
pub(crate) fn filters_in(
    alloc: Global,
    names: &Declared,
    list: &[Value],
) -> Result<Items<FilterDef>, SceneRefusal>
    ensures { Returns (filters_of names.now (items_view list.now)) result }
{
    let mut filters = Items::new(alloc);
    for value in list {
        filters.push(filter_of(names, value))?;
    }
    Ok(filters)
}
