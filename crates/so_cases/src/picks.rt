//! Rows of picks, as they are written.

ghost use Rattle.std.specs.Prelude.{IfOk, All, IfSome};
ghost use Rattle.so_history.specs.Chain.{IsPickInRange};

use crate::fault::CaseFault;
use so_history::Pick;
use so_ids::LaneId;
use so_scene::Scene;
use std::alloc::Global;

/// The picks that a row writes, each one of the scene's.
pub(crate) fn picks_of(alloc: Global, scene: &Scene, row: &str) -> Result<Vec<Pick>, CaseFault>
    ensures { IfOk result (λ picks. All (IsPickInRange scene.now) picks.items) }
{
    let mut picks = Vec::new(alloc);
    for word in row.split(',') {
        picks.push(pick_of(scene, word).ok_or(CaseFault::Pick)?)?;
    }
    Ok(picks)
}

/// The pick that a word writes, if it is one of the scene's.
fn pick_of(scene: &Scene, word: &str) -> Option<Pick>
    ensures { IfSome result (IsPickInRange scene.now) }
{
    match word {
        "r" => Some(Pick::Register),
        "t" => Some(Pick::Tidy),
        _ => lane_of(scene, word),
    }
}

/// The step of the lane that a word numbers, if it is one of the scene's.
fn lane_of(scene: &Scene, word: &str) -> Option<Pick>
    ensures { IfSome result (IsPickInRange scene.now) }
{
    let lane = word.parse::<u32>().ok()?;
    if lane < scene.lanes() {
        Some(Pick::Lane(LaneId(lane)))
    } else {
        None
    }
}
