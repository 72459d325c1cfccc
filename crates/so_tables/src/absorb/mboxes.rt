//! The subscriptions absorb an entry.

ghost use Rattle.std.specs.Prelude.{◌≡◌, ◌+◌, ◌≤◌, ◌<◌, ◌^◌, length, false};
ghost use Rattle.std.specs.List.{All};
ghost use Rattle.so_ids.specs.declared.AgentId.{AgentId as AnyAgent};
ghost use Rattle.so_scene.specs.Parts.{agents_from};
ghost use Rattle.so_mbox.specs.Table.{is_entered, entered};
ghost use Rattle.so_tables.specs.AfterMboxes.{MayAbsorb, MayEffect, MayEnter, after_entry, after_effect, all_entered, all_departed};

use crate::found::Found;
use so_code::{Answer, Effect};
use so_history::EntryKind;
use so_ids::{AgentId, CoopId};
use so_mbox::Table;

/// Who is registered, and which rows and filters are active, after an entry.
pub(crate) fn absorb_mboxes(mboxes: &mut Table, found: Found, kind: EntryKind)
    requires { MayAbsorb found kind mboxes.old }
    ensures { mboxes.new ≡ after_entry found kind mboxes.old }
{
    match kind {
        EntryKind::Register { coop } => enter(mboxes, coop),
        EntryKind::Act {
            turn: _,
            effect,
            answer,
        } => match found {
            Found::Turn(turn) => acted(mboxes, turn.agent, effect, answer),
            _ => {}
        },
        EntryKind::Left { coop } => leave(mboxes, coop),
        _ => {}
    }
}

fn acted(mboxes: &mut Table, agent: AgentId, effect: Effect, answer: Answer)
    requires { MayEffect agent effect answer mboxes.old }
    ensures { mboxes.new ≡ after_effect agent effect answer mboxes.old }
{
    match answer {
        Answer::Okay => match effect {
            Effect::Register { coop } => enter(mboxes, coop),
            _ => {}
        },
        Answer::Yes => match effect {
            Effect::Subscribe { row } => match mboxes.subscribe(agent, row) {
                Ok(()) => {}
                Err(_) => unreachable!(),
            },
            Effect::Unsubscribe { row } => {
                let _was = mboxes.unsubscribe(agent, row);
            }
            Effect::SetFilter { filter } => match mboxes.set_filter(agent, filter) {
                Ok(()) => {}
                Err(_) => unreachable!(),
            },
            Effect::DropFilter { filter } => {
                let _was = mboxes.drop_filter(agent, filter);
            }
            _ => {}
        },
        _ => {}
    }
}

/// The agents of a cooperation are registered, in order.
fn enter(mboxes: &mut Table, coop: CoopId)
    requires { MayEnter coop mboxes.old }
    ensures { mboxes.new ≡ all_entered coop mboxes.old }
{
    let scene = mboxes.scene();
    let _parts = scene.parts();
    let def = scene.coop(coop);
    enter_each(mboxes, def.first, def.count);
}

/// They leave, as one after the other.
fn leave(mboxes: &mut Table, coop: CoopId)
    requires { coop.0 < length mboxes.old.scene.coops }
    ensures { mboxes.new ≡ all_departed coop mboxes.old }
{
    let scene = mboxes.scene();
    let _parts = scene.parts();
    let def = scene.coop(coop);
    mboxes.leave_all(def.first, def.count);
}

/// Registers the agents from `first` on, in order.
fn enter_each(mboxes: &mut Table, first: AgentId, count: u32)
    requires range { first.0 + count ≤ length mboxes.old.scene.agents }
    requires numbers { first.0 + count < 2 ^ 32 }
    requires nobody { All (λ (a : AnyAgent). is_entered mboxes.old a ≡ false) (agents_from first count) }
    ensures { mboxes.new ≡ entered (agents_from first count) mboxes.old }
{
    for k in 0..count {
        mboxes.enter(AgentId(first.0 + k));
    }
}
