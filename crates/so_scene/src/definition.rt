//! The rules that an agent's subscriptions and filters keep, so that it may be registered.

ghost use Rattle.std.specs.Prelude.{◌≡◌, ◌<◌, length};
ghost use Rattle.std.specs.List.{list_any};
ghost use Rattle.so_lists.specs.Lists.{first_below};
ghost use Rattle.so_scene.specs.Parts.{message_of, rows_of, filters_of};
ghost use Rattle.so_scene.specs.Definition.{is_direct, is_not_owner, same_kind, clashes, clashes_first, is_twice, row_fault_after, row_fault, filter_fault_of, filter_fault, definition_fault};

use crate::parts::{FilterDef, SceneParts};
use crate::scene::Scene;
use so_ids::{AgentId, DefFault, MboxId, MsgId};
use so_state::Row;

impl Scene {
    /// The first definition rule that the agent breaks, row by row and then filter by filter. `None` exactly
    /// where it breaks none. A cooperation with an agent that breaks one is refused.
    pub fn definition_fault(&self, agent: AgentId) -> Option<DefFault>
        requires { agent.0 < length self.now.agents }
        ensures { result ≡ definition_fault self.now agent }
    {
        self.parts().definition_fault(agent)
    }
}

impl SceneParts {
    /// The first definition rule that the agent breaks, row by row and then filter by filter. `None` exactly
    /// where it breaks none.
    #[tactic(auto, unfolding(crate::specs::Definition::definition_fault))]
    pub fn definition_fault(&self, agent: AgentId) -> Option<DefFault>
        requires { agent.0 < length self.now.agents }
        ensures { result ≡ definition_fault self.now agent }
    {
        let def = &self.agents.as_slice()[agent.0 as usize];
        match self.first_row_fault(agent, def.rows.len()) {
            None => self.first_filter_fault(agent, def.filters.len()),
            Some(fault) => Some(fault),
        }
    }

    /// The first fault of the agent's first `count` rows.
    fn first_row_fault(&self, agent: AgentId, count: usize) -> Option<DefFault>
        requires { agent.0 < length self.now.agents }
        ensures { result ≡ first_below (row_fault self.now agent) count }
    {
        for k in 0..count {
            let fault = self.row_fault_at(agent, k);
            if fault.is_some() {
                return fault;
            }
        }
        None
    }

    /// The first fault of the agent's first `count` filters.
    fn first_filter_fault(&self, agent: AgentId, count: usize) -> Option<DefFault>
        requires { agent.0 < length self.now.agents }
        ensures { result ≡ first_below (filter_fault self.now agent) count }
    {
        for k in 0..count {
            let fault = self.filter_fault_at(agent, k);
            if fault.is_some() {
                return fault;
            }
        }
        None
    }

    /// The fault of the agent's row of this number.
    fn row_fault_at(&self, agent: AgentId, k: usize) -> Option<DefFault>
        requires { agent.0 < length self.now.agents }
        ensures { result ≡ row_fault self.now agent k }
    {
        let rows = self.agents.as_slice()[agent.0 as usize].rows.as_slice();
        match rows.get(k) {
            Some(row) => self.row_fault(agent, &rows[..k], row),
            None => None,
        }
    }

    /// The fault of the agent's filter of this number.
    fn filter_fault_at(&self, agent: AgentId, k: usize) -> Option<DefFault>
        requires { agent.0 < length self.now.agents }
        ensures { result ≡ filter_fault self.now agent k }
    {
        let filters = self.agents.as_slice()[agent.0 as usize].filters.as_slice();
        match filters.get(k) {
            Some(filter) => self.filter_fault(filter),
            None => None,
        }
    }

    /// The fault of a row that follows these.
    fn row_fault(&self, agent: AgentId, before: &[Row], row: &Row) -> Option<DefFault>
        ensures { result ≡ row_fault_after self.now agent before.now row.now }
    {
        if self.is_not_owner(agent, row) {
            Some(DefFault::NotOwner)
        } else if row.active && clashes_before(before, row) {
            Some(DefFault::Twice)
        } else {
            None
        }
    }

    /// The fault of a filter.
    fn filter_fault(&self, filter: &FilterDef) -> Option<DefFault>
        ensures { result ≡ filter_fault_of self.now filter.now }
    {
        if self.is_direct(filter.mbox) {
            Some(DefFault::DirectMbox)
        } else if self.is_signal(filter.msg) {
            Some(DefFault::IsSignal)
        } else {
            None
        }
    }

    /// Tells whether a type of messages is a signal.
    pub fn is_signal(&self, msg: MsgId) -> bool
        ensures { result ≡ (message_of self.now msg).signal }
    {
        match self.messages.as_slice().get(msg.0 as usize) {
            Some(message) => message.signal,
            None => false,
        }
    }

    /// Tells whether the mbox is an agent's direct one.
    pub fn is_direct(&self, mbox: MboxId) -> bool
        ensures { result ≡ is_direct self.now mbox }
    {
        (mbox.0 as usize) < self.agents.len()
    }

    /// Tells whether the row names another agent's direct mbox.
    pub fn is_not_owner(&self, agent: AgentId, row: &Row) -> bool
        ensures { result ≡ is_not_owner self.now agent row.now }
    {
        self.is_direct(row.mbox) && row.mbox.0 != agent.0
    }
}

/// Tells whether an active row among these is for the same events as this row: of the same mbox, type and
/// state, or a dead-letter row as this is. `active` tells which of the rows are active.
pub fn is_twice(rows: &[Row], active: &[bool], row: &Row) -> bool
    ensures { result ≡ is_twice rows.now active.now row.now }
{
    rows.iter().zip(active).any(|(other, on)| *on
        && other.is_for(row.mbox, row.msg)
        && same_kind(row, other))
}

/// The same, where those rows are active that are so from the start.
fn clashes_before(before: &[Row], row: &Row) -> bool
    ensures { result ≡ list_any (clashes_first row.now) before.now }
{
    before.iter().any(|other| other.active
        && other.is_for(row.mbox, row.msg)
        && same_kind(row, other))
}

/// Tells whether the other row, active or not, is an active one for the same events as this row.
fn clashes(row: &Row, other: &Row, active: bool) -> bool
    ensures { result ≡ clashes row.now (other.now, active) }
{
    active && other.is_for(row.mbox, row.msg) && same_kind(row, other)
}

/// Both are dead-letter rows, or neither is and they are of one state.
fn same_kind(row: &Row, other: &Row) -> bool
    ensures { result ≡ same_kind row.now other.now }
{
    let (dead, other_dead) = (row.kind.is_dead(), other.kind.is_dead());
    dead && other_dead || !(dead || other_dead) && row.state == other.state
}
