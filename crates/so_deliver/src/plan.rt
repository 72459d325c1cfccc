//! One delivery: each receiver in order, by its filter and by whether its cooperation is leaving.

ghost use Rattle.std.specs.Prelude.{◌≡◌, ◌<◌, ◌≤◌, ◌&&◌, length};
ghost use Rattle.std.specs.List.{filter};
ghost use Rattle.so_scene.specs.Parts.{mboxes};
ghost use Rattle.so_scene.specs.Checked.{IsTarget};
ghost use Rattle.so_scene.specs.Delivery.{is_subscribed, events, is_lost, sent_of};
ghost use Rattle.so_mbox.specs.Table.{IsAgentOf, active_rows, passes};
ghost use Rattle.so_deliver.specs.declared.plan.Planned.TheVariants.{Fits};
ghost use Rattle.so_deliver.specs.Planned.{with_queued, outcomes_of, outcomes_at};

use crate::outcomes::Outcomes;
use so_coop::Coops;
use so_ids::{AgentId, MboxId, MsgId, Payload, Queued, Sent, Target};
use so_mbox::Table;

/// The answer to a delivery.
#[derive(Clone, Copy, PartialEq, Eq)]
pub enum Planned {
    /// Nothing stands against it. It tells what the sender is told.
    Fits(Sent),
}

impl Planned {
    /// What the sender is told.
    pub fn sent(self) -> Sent
        ensures { Fits result ≡ self }
    {
        match self {
            Planned::Fits(sent) => sent,
        }
    }
}

/// What becomes of a message that is sent to a mbox. Each agent with an active row for the type from the mbox
/// gets it, in order of registration, where its filter passes it. It is lost to one whose own cooperation is
/// leaving, and queued for the others. A message that a filter refuses isn't lost. It takes no memory, and changes
/// nothing but the outcomes.
pub fn plan_delivery(
    table: &Table,
    coops: &Coops,
    target: Target,
    msg: MsgId,
    payload: Payload,
    outcomes: &mut Outcomes,
) -> Planned
    requires scene { coops.now.scene ≡ table.now.scene }
    requires target { IsTarget (mboxes table.now.scene) target }
    requires msg { msg.0 < length table.now.scene.messages }
    requires room { length table.now.scene.agents ≤ outcomes.old.room }
    ensures events { outcomes.new ≡ with_queued (events (outcomes_at table.now coops.now target msg payload)) outcomes.old }
    ensures answer { result ≡ Fits (sent_of (outcomes_at table.now coops.now target msg payload)) }
{
    match target {
        Target::Mbox(mbox) => {
            let lost = queue_each(table, coops, mbox, msg, payload, outcomes);
            Planned::Fits(Sent {
                queued: outcomes.len(),
                lost,
                logged: 0,
                first: None,
            })
        }
        Target::Chain(_) => unreachable!(),
    }
}

/// Queues the message for each that gets it, in place of what was queued, and tells to how many it is lost.
fn queue_each(
    table: &Table,
    coops: &Coops,
    mbox: MboxId,
    msg: MsgId,
    payload: Payload,
    outcomes: &mut Outcomes,
) -> u32
    requires scene { coops.now.scene ≡ table.now.scene }
    requires mbox { mbox.0 < mboxes table.now.scene }
    requires room { length table.now.scene.agents ≤ outcomes.old.room }
    ensures events { outcomes.new ≡ with_queued (events (outcomes_of table.now coops.now mbox msg payload)) outcomes.old }
    ensures lost { result ≡ length (filter is_lost (outcomes_of table.now coops.now mbox msg payload)) }
{
    outcomes.clear();
    let mut lost = 0;
    for agent in table.candidates(mbox, msg) {
        if is_let_through(table, *agent, mbox, msg, payload) {
            if coops.is_leaving(*agent) {
                lost += 1;
            } else {
                outcomes.queue(Queued {
                    agent: *agent,
                    mbox,
                    msg,
                    payload,
                });
            }
        }
    }
    lost
}

/// Tells whether the agent receives messages of the type from the mbox, and its filter passes this one.
fn is_let_through(table: &Table, agent: AgentId, mbox: MboxId, msg: MsgId, payload: Payload) -> bool
    requires { IsAgentOf table.now.scene agent }
    ensures { result ≡ (is_subscribed table.now.scene mbox msg agent (active_rows table.now agent)
        && passes table.now mbox msg payload agent) }
{
    table.is_subscribed(agent, mbox, msg) && table.passes(agent, mbox, msg, payload)
}
