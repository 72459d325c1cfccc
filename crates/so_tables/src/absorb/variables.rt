//! The variables absorb an entry.

ghost use Rattle.std.specs.Prelude.{◌≡◌, ◌<◌, length};
ghost use Rattle.so_scene.specs.Parts.{agents_of};
ghost use Rattle.so_tables.specs.Tables.{set_back};
ghost use Rattle.so_tables.specs.AfterVariables.{MayAct, MayEnd, MayAbsorb, after_act, after_end, after_entry};

use crate::found::Found;
use crate::variables::Variables;
use so_code::{Answer, Effect};
use so_history::EntryKind;
use so_ids::CoopId;
use so_scene::Scene;

/// The variables after an entry.
pub(crate) fn absorb_variables(
    variables: &mut Variables,
    scene: &Scene,
    found: Found,
    kind: EntryKind,
)
    requires size { length variables.old ≡ length scene.now.agents }
    requires may { MayAbsorb scene.now found kind }
    ensures { variables.new ≡ after_entry scene.now found kind variables.old }
{
    match kind {
        EntryKind::Register { coop } => enter(variables, scene, coop),
        EntryKind::Act {
            turn: _,
            effect,
            answer,
        } => acted(variables, scene, effect, answer),
        EntryKind::End { turn: _ } => ended(variables, scene, found),
        _ => {}
    }
}

fn acted(variables: &mut Variables, scene: &Scene, effect: Effect, answer: Answer)
    requires size { length variables.old ≡ length scene.now.agents }
    requires may { MayAct scene.now effect answer }
    ensures { variables.new ≡ after_act scene.now effect answer variables.old }
{
    match effect {
        Effect::Register { coop } => match answer {
            Answer::Okay => enter(variables, scene, coop),
            _ => {}
        },
        _ => {}
    }
}

fn ended(variables: &mut Variables, scene: &Scene, found: Found)
    requires size { length variables.old ≡ length scene.now.agents }
    requires may { MayEnd scene.now found }
    ensures { variables.new ≡ after_end found variables.old }
{
    let _parts = scene.parts();
    match found {
        Found::Turn(turn) => variables.bring_back(turn.safe, turn.agent, turn.vars),
        _ => {}
    }
}

/// The agents of a cooperation have those of the scene again.
fn enter(variables: &mut Variables, scene: &Scene, coop: CoopId)
    requires size { length variables.old ≡ length scene.now.agents }
    requires coop { coop.0 < length scene.now.coops }
    ensures { variables.new ≡ set_back scene.now (agents_of scene.now coop) variables.old }
{
    let _parts = scene.parts();
    let def = scene.coop(coop);
    variables.set_back(scene, def.first, def.count);
}
