//! Turns as they are handed out, answered and looked at.

ghost use Rattle.std.specs.Prelude.{◌≡◌, ◌<◌, length, Ok, Some, false};
ghost use Rattle.so_code.specs.declared.effect.Move.TheVariants.{Do};
ghost use Rattle.so_history.specs.Demands.{source_of};
ghost use Rattle.so_history.specs.Finishing.{asks_finish};
ghost use Rattle.so_history.specs.Order.{pick, taking};
ghost use Rattle.so_history.specs.Steps.{answer_of};
ghost use Rattle.so_tables.specs.AfterEvents.{IsSentBy};
ghost use Rattle.so_ledger.specs.Classes.{found_demand};
ghost use Rattle.so_ledger.specs.Gates.{core_after};
ghost use Rattle.so_ledger.specs.Kept.{MayAdd};
ghost use Rattle.so_kernel.specs.Hands.{IsHeld, HasMoved, IsBegun, act_entry, found_turn, is_skip, turn_after};

use crate::answers::{Begun, Turn};
use so_code::{Answer, Effect};
use so_deliver::Outcomes;
use so_history::{Demand, DemandKind, Entry, EntryKind, EventSource};
use so_ids::{LaneId, Place};
use so_ledger::Ledger;
use so_scene::Scene;
use so_tables::{Found, FoundDemand, FoundTurn};

/// Adds the entry by which a lane takes a demand.
pub(crate) fn add_taking(
    ledger: &mut Ledger,
    planned: &Outcomes,
    entry: Entry,
    lane: LaneId,
    demand: Demand,
) -> Begun
    requires picked { pick ledger.old.scene ledger.old.history lane ≡ Some demand }
    requires is { entry.kind ≡ taking ledger.old.scene ledger.old.history lane demand }
    requires ready { MayAdd ledger.old entry }
    ensures answer { IsBegun ledger.new entry.by lane (Ok entry) result }
    ensures after { ledger.new ≡ core_after ledger.old (Ok entry) }
{
    let _scene = ledger.scene();
    let taken = ledger.found_demand(demand);
    if is_skip(entry.kind) {
        ledger.add(entry, Found::Demand(taken), planned);
        Begun::Skipped
    } else {
        Begun::Turn(add_begin(ledger, planned, entry, lane, taken))
    }
}

/// Adds a Begin, and hands out its turn.
fn add_begin(
    ledger: &mut Ledger,
    planned: &Outcomes,
    entry: Entry,
    lane: LaneId,
    taken: FoundDemand,
) -> Turn
    requires picked { pick ledger.old.scene ledger.old.history lane ≡ Some taken.demand }
    requires is { entry.kind ≡ taking ledger.old.scene ledger.old.history lane taken.demand }
    requires begins { is_skip entry.kind ≡ false }
    requires taken { taken ≡ found_demand ledger.old.scene ledger.old.history taken.demand }
    requires ready { MayAdd ledger.old entry }
    ensures turn { IsHeld ledger.new.scene ledger.new.history result }
    ensures by { result.by ≡ entry.by }
    ensures lane { result.lane ≡ lane }
    ensures after { ledger.new ≡ core_after ledger.old (Ok entry) }
{
    let _scene = ledger.scene();
    let begun = Place(ledger.history().len());
    let demand = taken.demand;
    let frame = ledger.begin_frame(demand);
    ledger.add(entry, Found::Demand(taken), planned);
    Turn {
        begun,
        by: entry.by,
        lane,
        agent: demand.agent,
        safe: taken.safe,
        finishes: asks_finish(demand.kind),
        event: source_of(demand.kind),
        frame,
    }
}

/// Adds an act, with the events that it sends, and gives the turn its answer.
pub(crate) fn add_act(
    ledger: &mut Ledger,
    sent: &Outcomes,
    entry: Entry,
    turn: &mut Turn,
    effect: Effect,
    answer: Answer,
)
    requires moved { HasMoved ledger.old.scene ledger.old.history turn.old (Do effect) }
    requires answer { answer_of ledger.old.scene ledger.old.history turn.old.agent turn.old.event effect ≡ Some answer }
    requires is { entry ≡ act_entry ledger.old turn.old effect }
    requires ready { MayAdd ledger.old entry }
    requires sent { IsSentBy ledger.old.scene ledger.old.history effect sent.now.queued }
    ensures turn { turn.new ≡ turn_after ledger.old (Ok entry) turn.old effect }
    ensures held { IsHeld ledger.new.scene ledger.new.history turn.new }
    ensures after { ledger.new ≡ core_after ledger.old (Ok entry) }
{
    let scene = ledger.scene();
    let found = found_turn(scene, turn);
    ledger.add(entry, Found::Turn(found), sent);
    turn.frame.answer(answer);
}

/// What is found of a turn in hand.
pub(crate) fn found_turn(scene: &Scene, turn: &Turn) -> FoundTurn
    requires { turn.now.agent.0 < length scene.now.agents }
    ensures { result ≡ found_turn scene.now turn.now }
{
    FoundTurn {
        agent: turn.agent,
        lane: turn.lane,
        key: scene.key(turn.agent),
        safe: turn.safe,
        finishes: turn.finishes,
        vars: turn.frame.vars,
    }
}

/// Tells whether the entry takes a demand without a turn.
fn is_skip(kind: EntryKind) -> bool
    ensures { result ≡ is_skip kind }
{
    match kind {
        EntryKind::Skip { .. } => true,
        _ => false,
    }
}

/// Tells whether a demand asks its agent to finish.
fn asks_finish(kind: DemandKind) -> bool
    ensures { result ≡ asks_finish kind }
{
    match kind {
        DemandKind::Finish => true,
        _ => false,
    }
}

/// By what the event of a demand is looked up.
fn source_of(kind: DemandKind) -> Option<EventSource>
    ensures { result ≡ source_of kind }
{
    match kind {
        DemandKind::Start | DemandKind::Finish => None,
        DemandKind::Event {
            mbox,
            msg,
            payload: _,
        } => Some(EventSource { mbox, msg }),
    }
}
