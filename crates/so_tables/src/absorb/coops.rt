//! The cooperations absorb an entry.

ghost use Rattle.std.specs.Prelude.{◌≡◌};
ghost use Rattle.so_tables.specs.AfterCoops.{MayAbsorb, MayAct, MayEnd, after_entry, after_act, after_end};

use crate::found::Found;
use so_code::{Answer, Effect};
use so_coop::Coops;
use so_history::EntryKind;
use so_ids::Reason;

/// How the cooperations stand after an entry.
pub(crate) fn absorb_coops(coops: &mut Coops, found: Found, kind: EntryKind)
    requires { MayAbsorb found kind coops.old }
    ensures { coops.new ≡ after_entry found kind coops.old }
{
    match kind {
        EntryKind::Register { coop } => coops.enter(coop),
        EntryKind::Act {
            turn: _,
            effect,
            answer,
        } => acted(coops, effect, answer),
        EntryKind::End { turn: _ } => ended(coops, found),
        EntryKind::Leaving { coop, reason: _ } => coops.leave_begin(coop),
        EntryKind::Left { coop } => coops.left(coop),
        _ => {}
    }
}

fn acted(coops: &mut Coops, effect: Effect, answer: Answer)
    requires { MayAct effect answer coops.old }
    ensures { coops.new ≡ after_act effect answer coops.old }
{
    match effect {
        Effect::Register { coop } => match answer {
            Answer::Okay => coops.enter(coop),
            _ => {}
        },
        Effect::Deregister { coop } => {
            let _marked = coops.mark(coop, Reason::Asked);
        }
        _ => {}
    }
}

fn ended(coops: &mut Coops, found: Found)
    requires { MayEnd found coops.old }
    ensures { coops.new ≡ after_end found coops.old }
{
    match found {
        Found::Turn(turn) => {
            if turn.finishes {
                coops.finished(turn.agent);
            }
        }
        _ => {}
    }
}
