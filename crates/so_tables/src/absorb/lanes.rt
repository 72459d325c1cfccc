//! The lanes absorb an entry.

ghost use Rattle.std.specs.Prelude.{◌≡◌};
ghost use Rattle.so_tables.specs.AfterLanes.{MayAbsorb, after_entry};

use crate::found::Found;
use crate::lane_turns::LaneTurns;
use so_history::EntryKind;
use so_ids::Place;

/// Which turn runs on each lane after an entry at a place.
pub(crate) fn absorb_lanes(lanes: &mut LaneTurns, found: Found, place: Place, kind: EntryKind)
    requires { MayAbsorb found kind lanes.old }
    ensures { lanes.new ≡ after_entry found place kind lanes.old }
{
    match kind {
        EntryKind::Begin {
            lane,
            demand: _,
            opening: _,
            agent: _,
        } => lanes.start(lane.0, place),
        EntryKind::End { turn: _ } => match found {
            Found::Turn(turn) => lanes.end(turn.lane.0),
            _ => {}
        },
        _ => {}
    }
}
