//! What becomes of each demand, if a lane takes it now.

ghost use Rattle.std.specs.Prelude.{◌≡◌, ◌<◌, length};
ghost use Rattle.so_scene.specs.Subscriptions.{row_of};
ghost use Rattle.so_history.specs.Safety.{kind_of, lets_overlap, chosen_safe, is_safe};
ghost use Rattle.so_ledger.specs.Classes.{turn_class, class_of};

use crate::ledger::Ledger;
use crate::takes::skipped;
use so_disp_adv::{HeadClass, Heads};
use so_history::Demand;
use so_ids::{AgentId, Chosen, DemandId, Opening, RowId};
use so_scene::DispKind;

impl<'a> Heads for Ledger<'a> {
    ghost use Rattle.so_ledger.specs.Classes.{class_named};

    ghost class = { λ k id. class_named k.scene k.history id };

    /// What becomes of the demand of this name, among those of the history.
    fn class(&self, demand: DemandId) -> HeadClass {
        match self.tables.events.named(demand) {
            Some(demand) => self.class_of(demand),
            None => HeadClass::Skip,
        }
    }
}

impl<'a> Ledger<'a> {
    /// What becomes of a demand: it is skipped, or its turn is thread-safe or not.
    fn class_of(&self, demand: Demand) -> HeadClass
        requires { demand.agent.0 < length self.now.scene.agents }
        ensures { result ≡ class_of self.now.scene self.now.history demand }
    {
        let opening = self.opening_of(demand);
        let safe = self.is_safe(demand.agent, opening);
        match skipped(opening) {
            Some(_) => HeadClass::Skip,
            None => turn_class(safe),
        }
    }

    /// Tells whether a turn of the agent that begins so is thread-safe.
    pub(crate) fn is_safe(&self, agent: AgentId, opening: Opening) -> bool
        requires { agent.0 < length self.now.scene.agents }
        ensures { result ≡ is_safe self.now.scene agent opening }
    {
        match opening {
            Opening::Event(chosen) => self.overlaps(agent) && self.is_chosen_safe(agent, chosen),
            _ => false,
        }
    }

    /// Tells whether thread-safe turns of the agent's queue may overlap.
    fn overlaps(&self, agent: AgentId) -> bool
        requires { agent.0 < length self.now.scene.agents }
        ensures { result ≡ lets_overlap (kind_of self.now.scene agent) }
    {
        let scene = self.scene();
        lets_overlap(scene.dispatcher(scene.agent(agent).disp).kind)
    }

    /// Tells whether the handler that is chosen is marked as thread-safe.
    fn is_chosen_safe(&self, agent: AgentId, chosen: Chosen) -> bool
        requires { agent.0 < length self.now.scene.agents }
        ensures { result ≡ chosen_safe self.now.scene agent chosen }
    {
        match chosen {
            Chosen::Run { row } | Chosen::Dead { row } => self.is_row_safe(agent, row),
            _ => false,
        }
    }

    /// Tells whether the handler of a row is marked as thread-safe.
    fn is_row_safe(&self, agent: AgentId, row: RowId) -> bool
        requires { agent.0 < length self.now.scene.agents }
        ensures { result ≡ (row_of self.now.scene agent row).safe }
    {
        let rows = self.scene.agent(agent).rows.as_slice();
        let at = row.0 as usize;
        at < rows.len() && rows[at].safe
    }
}

/// What becomes of a demand that begins a turn, a thread-safe one or another.
fn turn_class(safe: bool) -> HeadClass
    ensures { result ≡ turn_class safe }
{
    if safe {
        HeadClass::Safe
    } else {
        HeadClass::Exclusive
    }
}

/// Tells whether thread-safe turns may overlap on a dispatcher of this kind.
fn lets_overlap(kind: DispKind) -> bool
    ensures { result ≡ lets_overlap kind }
{
    match kind {
        DispKind::AdvThreadPool => true,
        _ => false,
    }
}
