//! What a lane takes, read off the tables: which demand, and how its turn begins.

ghost use Rattle.std.specs.Prelude.{◌≡◌, ℕ, ◌<◌, ◌≤◌, None, IfSome, length};
ghost use Rattle.so_code.specs.Openings.{first_frame};
ghost use Rattle.so_scene.specs.Lanes.{lanes};
ghost use Rattle.so_history.specs.Delivery.{chosen_for};
ghost use Rattle.so_history.specs.Demands.{payload_of};
ghost use Rattle.so_history.specs.Order.{pick, opening_of, skipped, taking};
ghost use Rattle.so_history.specs.Steps.{MayFollow, IsSigner};
ghost use Rattle.so_history.specs.Turns.{vars};
ghost use Rattle.so_ledger.specs.Classes.{found_demand};
ghost use Rattle.so_ledger.specs.Gates.{begin_by};

use crate::ledger::Ledger;
use so_code::Frame;
use so_history::{Demand, DemandKind, Entry, EntryKind, SkipWhy};
use so_ids::{AgentId, Chosen, LaneId, MboxId, MsgId, Opening, PartyId, Payload};
use so_state::choose;
use so_tables::FoundDemand;

impl<'a> Ledger<'a> {
    /// The demand that a lane may take.
    #[tactic(auto, unfolding(so_history::specs::Order::pick))]
    pub fn pick(&self, lane: LaneId) -> Option<Demand>
        requires { lane.0 < lanes self.now.scene }
        ensures { result ≡ pick self.now.scene self.now.history lane }
    {
        if self.tables.lanes.is_free(lane.0) {
            self.tables.events.pick(self, lane)
        } else {
            None
        }
    }

    /// A lane before which no lane may take a demand, at most one past the last.
    #[tactic(auto, unfolding(so_history::specs::Order::pick))]
    pub fn first_lane(&self) -> u32
        ensures within { result ≤ lanes self.now.scene }
        ensures none { (l : ℕ) → l < result → pick self.now.scene self.now.history (record { 0 = l }) ≡ None }
    {
        self.tables.events.first_lane()
    }

    /// The entry that takes the demand that was picked, if there is one.
    pub fn taking(&self, by: PartyId, lane: LaneId, picked: Option<Demand>) -> Option<Entry>
        requires lane { lane.0 < lanes self.now.scene }
        requires signer { IsSigner by lane }
        requires picked { picked ≡ pick self.now.scene self.now.history lane }
        ensures value { result ≡ begin_by self.now by lane }
        ensures row { IfSome result (λ e. MayFollow self.now.scene self.now.history e.by e.kind) }
    {
        let _scene = self.scene();
        match picked {
            Some(demand) => Some(Entry {
                by,
                kind: self.taking_of(lane, demand),
            }),
            None => None,
        }
    }

    /// How a lane takes a demand: a turn begins, or the demand is skipped.
    fn taking_of(&self, lane: LaneId, demand: Demand) -> EntryKind
        requires { demand.agent.0 < length self.now.scene.agents }
        ensures { result ≡ taking self.now.scene self.now.history lane demand }
    {
        let opening = self.opening_of(demand);
        match skipped(opening) {
            Some(why) => EntryKind::Skip {
                lane,
                demand: demand.id,
                why,
            },
            None => EntryKind::Begin {
                lane,
                demand: Some(demand.id),
                opening,
                agent: demand.agent,
            },
        }
    }

    /// How a turn begins with a demand.
    pub(crate) fn opening_of(&self, demand: Demand) -> Opening
        requires { demand.agent.0 < length self.now.scene.agents }
        ensures { result ≡ opening_of self.now.scene self.now.history demand }
    {
        match demand.kind {
            DemandKind::Start => Opening::Start,
            DemandKind::Finish => Opening::Finish,
            DemandKind::Event {
                mbox,
                msg,
                payload: _,
            } => Opening::Event(self.chosen_for(demand.agent, mbox, msg)),
        }
    }

    /// What an agent's subscriptions choose for an event.
    pub(crate) fn chosen_for(&self, agent: AgentId, mbox: MboxId, msg: MsgId) -> Chosen
        requires { agent.0 < length self.now.scene.agents }
        ensures { result ≡ chosen_for self.now.scene self.now.history agent mbox msg }
    {
        let def = self.scene.agent(agent);
        let active = self.tables.mboxes.active(agent);
        let leaf = self.states.leaf(agent);
        choose(&def.tree, def.rows.as_slice(), active, leaf, mbox, msg)
    }

    /// What is found of the demand that a lane takes.
    pub fn found_demand(&self, demand: Demand) -> FoundDemand
        requires { demand.agent.0 < length self.now.scene.agents }
        ensures { result ≡ found_demand self.now.scene self.now.history demand }
    {
        FoundDemand {
            demand,
            key: self.scene.key(demand.agent),
            safe: self.is_safe(demand.agent, self.opening_of(demand)),
        }
    }

    /// The frame of a turn that begins with a demand.
    pub fn begin_frame(&self, demand: Demand) -> Frame
        requires { demand.agent.0 < length self.now.scene.agents }
        ensures { result ≡ first_frame (opening_of self.now.scene self.now.history demand) (vars self.now.scene self.now.history demand.agent) (payload_of demand.kind) }
    {
        let _scene = self.scene();
        let vars = self.tables.variables.of(demand.agent);
        Frame::begin(self.opening_of(demand), vars, payload_of(demand.kind))
    }
}

/// Why a demand with this opening begins no turn, `None` where it begins one.
pub(crate) fn skipped(opening: Opening) -> Option<SkipWhy>
    ensures { result ≡ skipped opening }
{
    match opening {
        Opening::Event(Chosen::Nothing) => Some(SkipWhy::Nothing),
        Opening::Event(Chosen::Suppressed) => Some(SkipWhy::Suppressed),
        _ => None,
    }
}

/// The message of a demand.
fn payload_of(kind: DemandKind) -> Payload
    ensures { result ≡ payload_of kind }
{
    match kind {
        DemandKind::Start | DemandKind::Finish => Payload {
            fields: [0; 4],
            used: 0,
        },
        DemandKind::Event {
            mbox: _,
            msg: _,
            payload,
        } => payload,
    }
}
