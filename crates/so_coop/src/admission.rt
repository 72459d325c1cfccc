//! Whether a cooperation may be registered.

ghost use Rattle.std.specs.Prelude.{◌≡◌, ◌<◌, ◌≤◌, length, false, count_by};
ghost use Rattle.so_lists.specs.Lists.{is_empty, first_below};
ghost use Rattle.so_scene.specs.Parts.{coop_of, agents_from, agents_of};
ghost use Rattle.so_scene.specs.Lanes.{is_bound};
ghost use Rattle.so_scene.specs.Cooperations.{lacks_parent, has_slot, slots_taken, lacks_slot, refused_slot, refused_rule, admission};
ghost use Rattle.so_coop.specs.Coops.{IsCoopOf, IsAgentOf, agent_at, standing, admit_answer};

use crate::coops::Coops;
use so_ids::{AgentId, CoopId, DispId, Refusal};

impl<'a> Coops<'a> {
    /// Tells why a cooperation may not be registered, by the first cause that holds: it has no agents; its named
    /// parent isn't registered or is leaving, or it has none and a stop was made; it is registered; the
    /// dispatcher of an agent, the first such, has no slot left; an agent, the first such, breaks a
    /// definition rule.
    pub fn admit(&self, coop: CoopId, stopped: bool) -> Result<(), Refusal>
        requires { IsCoopOf self.now.scene coop }
        ensures { result ≡ admit_answer self.now coop stopped }
    {
        match self.refusal(coop, stopped) {
            None => Ok(()),
            Some(cause) => Err(cause),
        }
    }

    /// Why a cooperation may not be registered, if there is a cause.
    fn refusal(&self, coop: CoopId, stopped: bool) -> Option<Refusal>
        requires { IsCoopOf self.now.scene coop }
        ensures { result ≡ admission self.now.scene (standing self.now stopped) coop }
    {
        if self.has_no_agents(coop) {
            return Some(Refusal::Empty);
        }
        if self.lacks_parent(self.scene.coop(coop).parent, stopped) {
            return Some(Refusal::Parent);
        }
        if self.stands(coop).present {
            return Some(Refusal::Present);
        }
        match self.first_without_slot(coop) {
            None => self.first_against_rule(coop),
            Some(cause) => Some(cause),
        }
    }

    fn has_no_agents(&self, coop: CoopId) -> bool
        requires { IsCoopOf self.now.scene coop }
        ensures { result ≡ is_empty (agents_of self.now.scene coop) }
    {
        self.size(coop) == 0
    }

    /// Tells whether this is a named parent that isn't registered or is leaving, or none and a stop was made.
    fn lacks_parent(&self, parent: Option<CoopId>, stopped: bool) -> bool
        ensures { result ≡ lacks_parent (standing self.now stopped) parent }
    {
        match parent {
            None => stopped,
            Some(parent) => {
                let stands = self.stands(parent);
                !stands.present || stands.leaving
            }
        }
    }

    /// The first agent of the cooperation whose dispatcher has no slot left.
    fn first_without_slot(&self, coop: CoopId) -> Option<Refusal>
        requires { IsCoopOf self.now.scene coop }
        ensures { result ≡ first_below (refused_slot self.now.scene (standing self.now false) (agents_of self.now.scene coop)) (length (agents_of self.now.scene coop)) }
    {
        for k in 0..self.size(coop) {
            let cause = self.slot_refused(coop, k);
            if cause.is_some() {
                return cause;
            }
        }
        None
    }

    /// The first agent of the cooperation that breaks a definition rule.
    fn first_against_rule(&self, coop: CoopId) -> Option<Refusal>
        requires { IsCoopOf self.now.scene coop }
        ensures { result ≡ first_below (refused_rule self.now.scene (agents_of self.now.scene coop)) (length (agents_of self.now.scene coop)) }
    {
        for k in 0..self.size(coop) {
            let cause = self.rule_refused(coop, k);
            if cause.is_some() {
                return cause;
            }
        }
        None
    }

    /// The cause where the `k`-th agent of the cooperation has no slot.
    fn slot_refused(&self, coop: CoopId, k: u32) -> Option<Refusal>
        requires coop { IsCoopOf self.now.scene coop }
        requires agent { k < (coop_of self.now.scene coop).count }
        ensures { result ≡ refused_slot self.now.scene (standing self.now false) (agents_of self.now.scene coop) k }
    {
        if self.lacks_slot(coop, k) {
            Some(Refusal::Binding(self.agent_at(coop, k)))
        } else {
            None
        }
    }

    /// The cause where the `k`-th agent of the cooperation breaks a definition rule.
    fn rule_refused(&self, coop: CoopId, k: u32) -> Option<Refusal>
        requires coop { IsCoopOf self.now.scene coop }
        requires agent { k < (coop_of self.now.scene coop).count }
        ensures { result ≡ refused_rule self.now.scene (agents_of self.now.scene coop) k }
    {
        let agent = self.agent_at(coop, k);
        match self.faults[agent.0 as usize] {
            Some(fault) => Some(Refusal::Definition(agent, fault)),
            None => None,
        }
    }

    /// Tells whether the `k`-th agent of the cooperation has no slot: those of the agents that are registered and of
    /// the agents before it fill its dispatcher.
    fn lacks_slot(&self, coop: CoopId, k: u32) -> bool
        requires coop { IsCoopOf self.now.scene coop }
        requires agent { k < (coop_of self.now.scene coop).count }
        ensures { result ≡ lacks_slot self.now.scene (standing self.now false) (agents_from (coop_of self.now.scene coop).first k) (agent_at self.now.scene coop k) }
    {
        let disp = self.scene.agent(self.agent_at(coop, k)).disp;
        let filled = self.slots_taken(disp) + self.bound_before(disp, coop, k);
        self.scene.dispatcher(disp).slots <= filled
    }

    /// How many slots of a dispatcher are taken by agents that are registered.
    fn slots_taken(&self, disp: DispId) -> u32
        ensures value { result ≡ slots_taken self.now.scene (standing self.now false) disp }
        ensures few { result ≤ 4096 }
    {
        let _parts = self.scene.parts();
        let mut taken = 0;
        for k in 0..self.scene.agents() {
            if self.has_slot(disp, AgentId(k)) {
                taken += 1;
            }
        }
        taken
    }

    /// How many of the first `count` agents of the cooperation are bound to a dispatcher.
    fn bound_before(&self, disp: DispId, coop: CoopId, count: u32) -> u32
        requires coop { IsCoopOf self.now.scene coop }
        requires agents { count ≤ (coop_of self.now.scene coop).count }
        ensures value { result ≡ count_by (is_bound self.now.scene disp) (agents_from (coop_of self.now.scene coop).first count) }
        ensures few { result ≤ 4096 }
    {
        let _parts = self.scene.parts();
        let mut bound = 0;
        for k in 0..count {
            if self.is_bound(disp, self.agent_at(coop, k)) {
                bound += 1;
            }
        }
        bound
    }

    /// How many agents the cooperation has.
    fn size(&self, coop: CoopId) -> u32
        requires { IsCoopOf self.now.scene coop }
        ensures { result ≡ (coop_of self.now.scene coop).count }
    {
        self.scene.coop(coop).count
    }

    /// The `k`-th agent of the cooperation.
    fn agent_at(&self, coop: CoopId, k: u32) -> AgentId
        requires coop { IsCoopOf self.now.scene coop }
        requires agent { k < (coop_of self.now.scene coop).count }
        ensures value { result ≡ agent_at self.now.scene coop k }
        ensures range { IsAgentOf self.now.scene result }
    {
        let _parts = self.scene.parts();
        AgentId(self.scene.coop(coop).first.0 + k)
    }

    /// Tells whether the agent has a slot of the dispatcher: it is bound to it, and is registered.
    fn has_slot(&self, disp: DispId, agent: AgentId) -> bool
        requires { IsAgentOf self.now.scene agent }
        ensures { result ≡ has_slot self.now.scene (standing self.now false) disp agent }
    {
        self.is_bound(disp, agent) && self.stands(self.scene.agent(agent).coop).present
    }

    /// Tells whether the agent is bound to the dispatcher.
    fn is_bound(&self, disp: DispId, agent: AgentId) -> bool
        requires { IsAgentOf self.now.scene agent }
        ensures { result ≡ is_bound self.now.scene disp agent }
    {
        self.scene.agent(agent).disp == disp
    }
}
