//! Who is registered, and which of their rows and filters are active.

ghost use Rattle.std.specs.Prelude.{◌≡◌, ◌<◌, ◌≤◌, ◌+◌, ◌^◌, length, slice_get, vec_capacity, map, zip, false, IfOk, OnOk, OnErr};
ghost use Rattle.std.specs.List.{All, filter, list_any};
ghost use Rattle.so_scene.specs.Parts.{rows_of, filters_of, mboxes, agents_from};
ghost use Rattle.so_scene.specs.Definition.{filter_fault_of};
ghost use Rattle.so_scene.specs.Delivery.{is_subscribed, refuses, field_of, lets_through};
ghost use Rattle.so_scene.specs.Subscriptions.{filter_of};
ghost use Rattle.so_mbox.specs.Table.{nobody, is_entered, IsAgentOf, candidates, active_rows, active_filters, is_row_active, is_filter_active, all_none, all_filters_first, with_row, after_enter, after_leave, departed, cleared, after_subscribe, after_unsubscribe, after_set_filter, after_drop_filter, receivers, passes};
ghost use Rattle.so_mbox.specs.Answers.{subscribe_answer, broken_by};

use crate::boards::{Boards, leave_out, rows_of};
use crate::flags::Flags;
use so_ids::{AgentId, FilterId, MboxId, MsgId, NoMemory, Payload, RowId};
use so_scene::{AgentDef, FilterDef, Scene, is_twice};
use so_state::Row;
use std::alloc::Global;
use std::marker::Model;

/// Why a subscription is refused.
#[derive(Clone, Copy, PartialEq, Eq)]
pub enum SubFault {
    /// The row names another agent's direct mbox.
    NotOwner,
    /// It, or another row for the same events, is active.
    Twice,
}

/// Why a filter is refused.
#[derive(Clone, Copy, PartialEq, Eq)]
pub enum FilterFault {
    /// It is on a direct mbox.
    DirectMbox,
    /// It tests a signal, which carries no values.
    IsSignal,
}

/// The subscriptions of the agents of a scene: who is registered, in order of registration, and which rows
/// and filters of each agent are active. Nothing after its making takes memory.
#[derive(Drop)]
pub struct Table<'a> {
    scene: &'a Scene,
    order: Vec<AgentId>,
    rows: Vec<Flags>,
    filters: Vec<Flags>,
    boards: Boards,
}

impl<'a> Model for Table<'a> {
    ghost use Rattle.std.specs.Prelude.{◌≤◌, length, vec_capacity};
    ghost use Rattle.so_mbox.specs.Table.{Subscriptions, IsTable};
    ghost use Rattle.so_mbox.specs.Boards.{AreListed};

    ghost Value = { Subscriptions };

    ghost view = { λ t. record { scene = t.scene.now; order = t.order.items; rows = t.rows.items; filters = t.filters.items } };

    ghost invariant = { λ t. IsTable (record { scene = t.scene.now; order = t.order.items; rows = t.rows.items; filters = t.filters.items })
        × (length t.scene.now.agents ≤ vec_capacity t.order)
        × AreListed (record { scene = t.scene.now; order = t.order.items; rows = t.rows.items; filters = t.filters.items }) t.boards };
}

impl<'a> Table<'a> {
    /// Nobody is registered, and no row is active. The filters are as at a registration.
    pub fn with(alloc: Global, shapes: &'a Scene) -> Result<Table<'a>, NoMemory>
        ensures { IfOk result (λ t. t ≡ nobody shapes.now) }
    {
        let agents = shapes.parts().agents.as_slice();
        Ok(Table {
            scene: shapes,
            order: Vec::with_capacity(alloc, agents.len())?,
            rows: no_rows(alloc, agents)?,
            filters: first_filters(alloc, agents)?,
            boards: Boards::with(alloc, shapes)?,
        })
    }

    /// The scene that it was made for.
    pub fn scene(&self) -> &'a Scene
        ensures { result.now ≡ self.now.scene }
    {
        self.scene
    }

    /// Tells whether the agent is registered.
    pub fn is_entered(&self, agent: AgentId) -> bool
        ensures { result ≡ is_entered self.now agent }
    {
        self.order.iter().any(|other| agent == *other)
    }

    /// Registers an agent, after those that are. Its rows and filters are the scene's, of which a later active
    /// filter of the same mbox and type replaces an earlier one.
    pub fn enter(&mut self, agent: AgentId)
        requires agent { IsAgentOf self.old.scene agent }
        requires new { is_entered self.old agent ≡ false }
        ensures { self.new ≡ after_enter agent self.old }
    {
        let def = self.scene.agent(agent);
        self.order.push_reserved(agent);
        let rows = &mut self.rows[agent.0 as usize];
        rows.put_rows_first(def.rows.as_slice());
        let filters = &mut self.filters[agent.0 as usize];
        filters.put_filters_first(def.filters.as_slice());
        self.boards.enter(agent, rows_of(self.scene, agent));
    }

    /// Takes an agent out, if it is registered. None of its rows is active then, and its filters stay as they are.
    pub fn leave(&mut self, agent: AgentId)
        requires { IsAgentOf self.old.scene agent }
        ensures { self.new ≡ after_leave agent self.old }
    {
        self.leave_all(agent, 1);
    }

    /// Takes so many agents out, from the first on, as they would leave one after the other.
    pub fn leave_all(&mut self, first: AgentId, count: u32)
        requires { first.0 + count ≤ length self.old.scene.agents }
        ensures { self.new ≡ departed (agents_from first count) self.old }
    {
        let _parts = self.scene.parts();
        leave_out(&mut self.order, first, count);
        clear_each(&mut self.rows, first, count);
        self.boards.leave(self.scene, first, count);
    }

    /// Makes a row active. Refused, in this order, where the row names another agent's direct mbox, and where it
    /// or another row for the same events is active.
    pub fn subscribe(&mut self, agent: AgentId, row: RowId) -> Result<(), SubFault>
        requires agent { IsAgentOf self.old.scene agent }
        requires row { row.0 < length (rows_of self.old.scene agent) }
        ensures answer { result ≡ subscribe_answer self.old agent row }
        ensures ok { OnOk result (self.new ≡ after_subscribe agent row self.old) }
        ensures err { OnErr result (self.new ≡ self.old) }
    {
        let defs = self.scene.agent(agent).rows.as_slice();
        let def = &defs[row.0 as usize];
        if self.scene.parts().is_not_owner(agent, def) {
            return Err(SubFault::NotOwner);
        }
        if is_twice(defs, self.active(agent), def) {
            return Err(SubFault::Twice);
        }
        self.put_row(agent, row, true);
        Ok(())
    }

    /// Makes a row inactive. True exactly where it was active.
    pub fn unsubscribe(&mut self, agent: AgentId, row: RowId) -> bool
        requires agent { IsAgentOf self.old.scene agent }
        requires row { row.0 < length (rows_of self.old.scene agent) }
        ensures answer { result ≡ is_row_active self.old agent row }
        ensures after { self.new ≡ after_unsubscribe agent row self.old }
    {
        let was = self.active(agent)[row.0 as usize];
        self.put_row(agent, row, false);
        was
    }

    /// Sets a filter, which replaces the agent's filter of the same mbox and type. Refused, in this order, where
    /// it is on a direct mbox, and where it tests a signal.
    pub fn set_filter(&mut self, agent: AgentId, filter: FilterId) -> Result<(), FilterFault>
        requires agent { IsAgentOf self.old.scene agent }
        requires filter { filter.0 < length (filters_of self.old.scene agent) }
        ensures answer { broken_by result ≡ filter_fault_of self.old.scene (filter_of self.old.scene agent filter) }
        ensures ok { OnOk result (self.new ≡ after_set_filter agent filter self.old) }
        ensures err { OnErr result (self.new ≡ self.old) }
    {
        let parts = self.scene.parts();
        let defs = self.scene.agent(agent).filters.as_slice();
        let def = &defs[filter.0 as usize];
        if parts.is_direct(def.mbox) {
            return Err(FilterFault::DirectMbox);
        }
        if parts.is_signal(def.msg) {
            return Err(FilterFault::IsSignal);
        }
        let filters = &mut self.filters[agent.0 as usize];
        filters.set_filter(defs, filter.0 as usize);
        Ok(())
    }

    /// Makes a filter inactive. True exactly where it was active.
    pub fn drop_filter(&mut self, agent: AgentId, filter: FilterId) -> bool
        requires agent { IsAgentOf self.old.scene agent }
        requires filter { filter.0 < length (filters_of self.old.scene agent) }
        ensures answer { result ≡ is_filter_active self.old agent filter }
        ensures after { self.new ≡ after_drop_filter agent filter self.old }
    {
        let filters = &mut self.filters[agent.0 as usize];
        let was = filters.as_slice()[filter.0 as usize];
        filters.put(filter.0 as usize, false);
        was
    }

    /// The registered agents, in order of registration.
    pub fn registered(&self) -> &[AgentId]
        ensures value { result.now ≡ self.now.order }
        ensures agents { All (IsAgentOf self.now.scene) self.now.order }
        ensures few { length self.now.order ≤ length self.now.scene.agents }
    {
        self.order.as_slice()
    }

    /// The registered agents that have a row, active or not, for messages of the type from the mbox, in order of
    /// registration. All that receive them are among these.
    pub fn candidates(&self, mbox: MboxId, msg: MsgId) -> &[AgentId]
        requires { mbox.0 < mboxes self.now.scene }
        ensures value { result.now ≡ candidates self.now mbox msg }
        ensures agents { All (IsAgentOf self.now.scene) (candidates self.now mbox msg) }
        ensures few { length (candidates self.now mbox msg) ≤ length self.now.scene.agents }
    {
        self.boards.listed(mbox, msg)
    }

    /// The agent at this position among those that receive messages of the type from the mbox, in order of
    /// registration. `None` exactly past the last.
    pub fn receivers(&self, mbox: MboxId, msg: MsgId, at: u32) -> Option<AgentId>
        ensures { result ≡ slice_get (receivers self.now mbox msg) at }
    {
        let mut left = at;
        for agent in self.registered() {
            if self.is_subscribed(*agent, mbox, msg) {
                if left == 0 {
                    return Some(*agent);
                }
                left -= 1;
            }
        }
        None
    }

    /// Tells whether an active row of the agent, dead-letter rows included, is for messages of the type from the
    /// mbox.
    pub fn is_subscribed(&self, agent: AgentId, mbox: MboxId, msg: MsgId) -> bool
        requires { IsAgentOf self.now.scene agent }
        ensures { result ≡ is_subscribed self.now.scene mbox msg agent (active_rows self.now agent) }
    {
        let rows = self.scene.agent(agent).rows.as_slice();
        rows.iter()
            .zip(self.active(agent))
            .any(|(row, on)| *on && row.is_for(mbox, msg))
    }

    /// Tells whether the agent's filters pass a message: no active filter of the mbox and type refuses the payload.
    pub fn passes(&self, agent: AgentId, mbox: MboxId, msg: MsgId, payload: Payload) -> bool
        requires { IsAgentOf self.now.scene agent }
        ensures { result ≡ passes self.now mbox msg payload agent }
    {
        let filters = self.scene.agent(agent).filters.as_slice();
        let flags = &self.filters[agent.0 as usize];
        !some_refuses(filters, flags.as_slice(), mbox, msg, payload)
    }

    /// A flag for each row of the agent, in order: whether it is active.
    pub fn active(&self, agent: AgentId) -> &[bool]
        requires { IsAgentOf self.now.scene agent }
        ensures value { result.now ≡ active_rows self.now agent }
        ensures each { length result.now ≡ length (rows_of self.now.scene agent) }
    {
        let rows = &self.rows[agent.0 as usize];
        rows.as_slice()
    }

    /// A flag for each filter of the agent, in order: whether it is active.
    pub fn active_filters(&self, agent: AgentId) -> &[bool]
        requires { IsAgentOf self.now.scene agent }
        ensures value { result.now ≡ active_filters self.now agent }
        ensures each { length result.now ≡ length (filters_of self.now.scene agent) }
    {
        let filters = &self.filters[agent.0 as usize];
        filters.as_slice()
    }

    fn put_row(&mut self, agent: AgentId, row: RowId, on: bool)
        requires agent { IsAgentOf self.old.scene agent }
        requires row { row.0 < length (rows_of self.old.scene agent) }
        ensures { self.new ≡ with_row agent row on self.old }
    {
        let rows = &mut self.rows[agent.0 as usize];
        rows.put(row.0 as usize, on);
    }
}

/// No row is active.
fn no_rows(alloc: Global, agents: &[AgentDef]) -> Result<Vec<Flags>, NoMemory>
    ensures { IfOk result (λ rows. rows.items ≡ map all_none agents.now) }
{
    let mut rows = Vec::with_capacity(alloc, agents.len())?;
    for agent in agents {
        rows.push_reserved(Flags::with(alloc, agent.rows.len())?);
    }
    Ok(rows)
}

/// The filters as at a registration.
fn first_filters(alloc: Global, agents: &[AgentDef]) -> Result<Vec<Flags>, NoMemory>
    ensures { IfOk result (λ filters. filters.items ≡ map all_filters_first agents.now) }
{
    let mut filters = Vec::with_capacity(alloc, agents.len())?;
    for agent in agents {
        filters.push_reserved(filters_first(alloc, agent)?);
    }
    Ok(filters)
}

fn filters_first(alloc: Global, agent: &AgentDef) -> Result<Flags, NoMemory>
    ensures { IfOk result (λ flags. flags ≡ all_filters_first agent.now) }
{
    let mut flags = Flags::with(alloc, agent.filters.len())?;
    flags.put_filters_first(agent.filters.as_slice());
    Ok(flags)
}

/// Makes no row of so many agents active, from the first on.
fn clear_each(rows: &mut Vec<Flags>, first: AgentId, count: u32)
    requires within { first.0 + count ≤ length rows.old.items }
    requires range { first.0 + count < 2 ^ 32 }
    ensures { rows.new.items ≡ cleared (agents_from first count) rows.old.items }
{
    for k in 0..count {
        rows[(first.0 + k) as usize].clear();
    }
}

/// Tells whether an active filter is for messages of the type from the mbox, and refuses the payload.
fn some_refuses(
    filters: &[FilterDef],
    active: &[bool],
    mbox: MboxId,
    msg: MsgId,
    payload: Payload,
) -> bool
    ensures { result ≡ list_any (refuses mbox msg payload) (zip filters.now active.now) }
{
    filters
        .iter()
        .zip(active)
        .any(|(filter, on)| refuses(filter, *on, mbox, msg, payload))
}

fn refuses(filter: &FilterDef, active: bool, mbox: MboxId, msg: MsgId, payload: Payload) -> bool
    ensures { result ≡ refuses mbox msg payload (filter.now, active) }
{
    active && filter.mbox == mbox && filter.msg == msg && !lets_through(filter, payload)
}

fn lets_through(filter: &FilterDef, payload: Payload) -> bool
    ensures { result ≡ lets_through filter.now payload }
{
    filter
        .cmp
        .holds(field_of(payload, filter.field), filter.value)
}

/// A field of a message. It is 0 past the last.
fn field_of(payload: Payload, k: u8) -> i64
    ensures { result ≡ field_of payload k }
{
    match payload.fields.get(k as usize) {
        Some(value) => *value,
        None => 0,
    }
}
