//! The demands absorb an entry.

ghost use Rattle.std.specs.Prelude.{◌≡◌};
ghost use Rattle.so_scene.specs.Parts.{agents_of};
ghost use Rattle.so_history.specs.Demands.{ask_each};
ghost use Rattle.so_tables.specs.AfterEvents.{MayAsk, MayAct, MayBegin, MaySkip, MayEnd, MayAbsorb, after_asking, after_act, after_begin, after_skip, after_end, after_entry};

use crate::found::Found;
use so_code::{Answer, Effect};
use so_deliver::Outcomes;
use so_events::Events;
use so_history::{DemandKind, EntryKind};
use so_ids::{CoopId, LaneId, Place, Target};
use so_scene::Scene;

/// The demands after an entry at a place, where a message that it sends queues these events.
pub(crate) fn absorb_events(
    events: &mut Events,
    scene: &Scene,
    sent: &Outcomes,
    found: Found,
    place: Place,
    kind: EntryKind,
)
    requires scene { events.old.scene ≡ scene.now }
    requires may { MayAbsorb found sent.now.queued place kind events.old }
    ensures { events.new ≡ after_entry found sent.now.queued place kind events.old }
{
    match kind {
        EntryKind::Register { coop } => ask(events, scene, place, DemandKind::Start, coop),
        EntryKind::Begin {
            lane,
            demand: _,
            opening: _,
            agent: _,
        } => begun(events, found, lane),
        EntryKind::Skip {
            lane,
            demand: _,
            why: _,
        } => skipped(events, found, lane),
        EntryKind::Act {
            turn: _,
            effect,
            answer,
        } => acted(events, scene, sent, place, effect, answer),
        EntryKind::End { turn: _ } => ended(events, found),
        EntryKind::Leaving { coop, reason: _ } => {
            ask(events, scene, place, DemandKind::Finish, coop)
        }
        _ => {}
    }
}

/// Asks each agent of a cooperation.
fn ask(events: &mut Events, scene: &Scene, place: Place, kind: DemandKind, coop: CoopId)
    requires scene { events.old.scene ≡ scene.now }
    requires may { MayAsk place coop events.old }
    ensures { events.new ≡ after_asking place (ask_each kind (agents_of events.old.scene coop)) events.old }
{
    let _parts = scene.parts();
    let def = scene.coop(coop);
    events.push_each(place, kind, def.first, def.count);
}

fn acted(
    events: &mut Events,
    scene: &Scene,
    sent: &Outcomes,
    place: Place,
    effect: Effect,
    answer: Answer,
)
    requires scene { events.old.scene ≡ scene.now }
    requires may { MayAct sent.now.queued place effect answer events.old }
    ensures { events.new ≡ after_act sent.now.queued place effect answer events.old }
{
    match effect {
        Effect::Send {
            target: Target::Mbox(_),
            msg: _,
            payload: _,
        } => events.push_events(place, sent),
        Effect::Register { coop } => match answer {
            Answer::Okay => ask(events, scene, place, DemandKind::Start, coop),
            _ => {}
        },
        _ => {}
    }
}

fn begun(events: &mut Events, found: Found, lane: LaneId)
    requires { MayBegin found lane events.old }
    ensures { events.new ≡ after_begin found lane events.old }
{
    match found {
        Found::Demand(taken) => {
            events.take(lane, taken.demand);
            events.started(taken.key, taken.safe);
        }
        _ => {}
    }
}

fn skipped(events: &mut Events, found: Found, lane: LaneId)
    requires { MaySkip found lane events.old }
    ensures { events.new ≡ after_skip found lane events.old }
{
    match found {
        Found::Demand(taken) => events.take(lane, taken.demand),
        _ => {}
    }
}

fn ended(events: &mut Events, found: Found)
    requires { MayEnd found events.old }
    ensures { events.new ≡ after_end found events.old }
{
    match found {
        Found::Turn(turn) => events.ended(turn.key, turn.safe),
        _ => {}
    }
}
