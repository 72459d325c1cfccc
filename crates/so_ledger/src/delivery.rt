//! What is answered to an act, read off the tables.

ghost use Rattle.std.specs.Prelude.{◌≡◌, ◌<◌, ◌≤◌, length, Some};
ghost use Rattle.so_scene.specs.Parts.{rows_of, filters_of, mboxes};
ghost use Rattle.so_scene.specs.Delivery.{events};
ghost use Rattle.so_history.specs.Delivery.{active_rows, active_filters, delivered, sent};
ghost use Rattle.so_history.specs.Leaves.{switch_of};
ghost use Rattle.so_tables.specs.AfterEvents.{IsSentBy};
ghost use Rattle.so_scene.specs.Cooperations.{admission};
ghost use Rattle.so_history.specs.Coops.{may_mark, standing};
ghost use Rattle.so_history.specs.Steps.{NamesEffect, answer_of, answer_to_register, answer_to_switch, yes_where, may_subscribe, is_active};

use crate::ledger::Ledger;
use so_code::{Answer, Effect};
use so_deliver::Outcomes;
use so_history::EventSource;
use so_ids::{AgentId, CoopId, FilterId, MboxId, MsgId, Payload, RowId, Sent, StateId, Target};
use so_scene::is_twice;

impl<'a> Ledger<'a> {
    /// The answer to an effect of an agent's turn, and the events of the message that it sends, if it sends one.
    pub fn answer_to(
        &self,
        agent: AgentId,
        event: Option<EventSource>,
        effect: Effect,
        outcomes: &mut Outcomes,
    ) -> Answer
        requires agent { agent.0 < length self.now.scene.agents }
        requires named { NamesEffect self.now.scene agent event effect }
        requires room { length self.now.scene.agents ≤ outcomes.old.room }
        ensures value { answer_of self.now.scene self.now.history agent event effect ≡ Some result }
        ensures sent { IsSentBy self.now.scene self.now.history effect outcomes.new.queued }
        ensures room { outcomes.new.room ≡ outcomes.old.room }
    {
        match effect {
            Effect::Log { .. } | Effect::SetState { .. } | Effect::Stop => Answer::Okay,
            Effect::SetFilter { .. } => Answer::Yes,
            Effect::Subscribe { row } => yes_where(self.may_subscribe(agent, row)),
            Effect::Unsubscribe { row } => yes_where(self.is_row_active(agent, row)),
            Effect::DropFilter { filter } => yes_where(self.is_filter_active(agent, filter)),
            Effect::Send {
                target: Target::Mbox(mbox),
                msg,
                payload,
            } => Answer::Sent(self.sent(mbox, msg, payload, outcomes)),
            Effect::Switch { to } => self.switched(agent, to),
            Effect::Register { coop } => self.registered(coop),
            Effect::Deregister { coop } => yes_where(self.may_mark(coop)),
            Effect::Choose => match event {
                Some(event) => Answer::Chose(self.chosen_for(agent, event.mbox, event.msg)),
                None => unreachable!(),
            },
            _ => unreachable!(),
        }
    }

    /// The answer to the registration of a cooperation.
    fn registered(&self, coop: CoopId) -> Answer
        requires { coop.0 < length self.now.scene.coops }
        ensures { result ≡ answer_to_register (admission self.now.scene (standing self.now.history) coop) }
    {
        match self.admit(coop) {
            Ok(()) => Answer::Okay,
            Err(cause) => Answer::Refused(cause),
        }
    }

    /// Tells whether a cooperation can be marked to leave.
    fn may_mark(&self, coop: CoopId) -> bool
        ensures { result ≡ may_mark self.now.history coop }
    {
        self.tables.coops.may_mark(coop)
    }

    /// The answer to a switch of the agent.
    fn switched(&self, agent: AgentId, to: StateId) -> Answer
        requires { agent.0 < length self.now.scene.agents }
        ensures { result ≡ answer_to_switch (switch_of self.now.scene self.now.history agent to) }
    {
        match self.states.plan(self.scene, agent, to) {
            Some(plan) => Answer::Planned(plan),
            None => Answer::Same,
        }
    }

    /// What becomes of a message that is sent through the mbox, and the events that it queues.
    fn sent(&self, mbox: MboxId, msg: MsgId, payload: Payload, outcomes: &mut Outcomes) -> Sent
        requires mbox { mbox.0 < mboxes self.now.scene }
        requires msg { msg.0 < length self.now.scene.messages }
        requires room { length self.now.scene.agents ≤ outcomes.old.room }
        ensures value { result ≡ sent self.now.scene self.now.history mbox msg payload }
        ensures events { outcomes.new.queued ≡ events (delivered self.now.scene self.now.history mbox msg payload) }
        ensures room { outcomes.new.room ≡ outcomes.old.room }
    {
        self.tables.plan(mbox, msg, payload, outcomes)
    }

    /// Tells whether a row of the agent may become active.
    fn may_subscribe(&self, agent: AgentId, row: RowId) -> bool
        requires agent { agent.0 < length self.now.scene.agents }
        requires row { row.0 < length (rows_of self.now.scene agent) }
        ensures { result ≡ may_subscribe self.now.scene self.now.history agent row }
    {
        let rows = self.scene.agent(agent).rows.as_slice();
        !is_twice(
            rows,
            self.tables.mboxes.active(agent),
            &rows[row.0 as usize],
        )
    }

    /// Tells whether a row of the agent is active.
    fn is_row_active(&self, agent: AgentId, row: RowId) -> bool
        requires agent { agent.0 < length self.now.scene.agents }
        requires row { row.0 < length (rows_of self.now.scene agent) }
        ensures { result ≡ is_active (active_rows self.now.scene self.now.history agent) row.0 }
    {
        self.tables.mboxes.active(agent)[row.0 as usize]
    }

    /// Tells whether a filter of the agent is active.
    fn is_filter_active(&self, agent: AgentId, filter: FilterId) -> bool
        requires agent { agent.0 < length self.now.scene.agents }
        requires filter { filter.0 < length (filters_of self.now.scene agent) }
        ensures { result ≡ is_active (active_filters self.now.scene self.now.history agent) filter.0 }
    {
        self.tables.mboxes.active_filters(agent)[filter.0 as usize]
    }
}

fn yes_where(holds: bool) -> Answer
    ensures { result ≡ yes_where holds }
{
    if holds { Answer::Yes } else { Answer::No }
}
