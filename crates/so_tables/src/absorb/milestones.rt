//! The milestones absorb an entry.

ghost use Rattle.std.specs.Prelude.{◌≡◌};
ghost use Rattle.so_tables.specs.AfterMilestones.{after_entry};

use crate::tables::Milestones;
use so_code::Effect;
use so_history::EntryKind;

/// How the run stands after an entry.
pub(crate) fn absorb_milestones(milestones: &mut Milestones, kind: EntryKind)
    ensures { milestones.new ≡ after_entry kind milestones.old }
{
    match kind {
        EntryKind::Act {
            turn: _,
            effect: Effect::Stop,
            answer: _,
        } => milestones.asked = true,
        EntryKind::Left { coop: _ } => milestones.left = true,
        EntryKind::Stop { cause: _ } => milestones.stopped = true,
        EntryKind::Abort { cause: _ } => milestones.aborted = true,
        _ => {}
    }
}
