//! The step of a pick, and a row of picks: every interleaving of lanes and main.

ghost use Rattle.std.specs.Prelude.{◌≡◌, ◌<◌, ◌+◌, length, Some, None, slice_index_or};
ghost use Rattle.std.specs.List.{All};
ghost use Rattle.so_ids.specs.Ids.{party_of};
ghost use Rattle.so_code.specs.declared.effect.Move.TheVariants.{Do, Done, Fail};
ghost use Rattle.so_scene.specs.Lanes.{lanes};
ghost use Rattle.so_history.specs.Chain.{IsPickInRange, lane_entry, step_of};
ghost use Rattle.so_ledger.specs.Gates.{gated, core_after, begin_by};
ghost use Rattle.so_kernel.specs.Answers.{step_answers};
ghost use Rattle.so_kernel.specs.Hands.{IsHeld};
ghost use Rattle.so_kernel.specs.Held.{AreHeld, Moves, HasTurned, said, left, turns_left, played, stepped_by_act, stepped_by_end, turn_kept, left_by_end};

use crate::answers::{Acted, Begun, Ended, Stepped, Turn, Turned};
use crate::kernel::Kernel;
use crate::turns::Turns;
use so_code::{Effect, FailKind, Frame, Move, next};
use so_history::Pick;
use so_ids::LaneId;

/// Makes the step of a pick.
pub fn step(kernel: &mut Kernel, turns: &mut Turns, pick: Pick) -> Stepped
    requires lane { IsPickInRange kernel.old.scene pick }
    requires held { AreHeld kernel.old turns.old }
    ensures answer { result ≡ step_answers (gated kernel.old (step_of kernel.old.scene kernel.old.history pick)) }
    ensures after { kernel.new ≡ core_after kernel.old (gated kernel.old (step_of kernel.old.scene kernel.old.history pick)) }
    ensures held { AreHeld kernel.new turns.new }
{
    let _scene = kernel.scene();
    match pick {
        Pick::Register => kernel.register_next(),
        Pick::Lane(lane) => step_lane(kernel, turns, lane),
        Pick::Tidy => kernel.tidy(),
    }
}

/// Takes a demand on a lane, or makes the next step of its running turn.
fn step_lane(kernel: &mut Kernel, turns: &mut Turns, lane: LaneId) -> Stepped
    requires lane { lane.0 < lanes kernel.old.scene }
    requires held { AreHeld kernel.old turns.old }
    ensures answer { result ≡ step_answers (gated kernel.old (lane_entry kernel.old.scene kernel.old.history lane)) }
    ensures after { kernel.new ≡ core_after kernel.old (gated kernel.old (lane_entry kernel.old.scene kernel.old.history lane)) }
    ensures held { AreHeld kernel.new turns.new }
{
    let _scene = kernel.scene();
    match turns.advance(kernel, lane) {
        Some(turned) => after_turn(turns, lane, turned),
        None => step_begin(kernel, turns, lane),
    }
}

/// Lets a lane's turn go where it is over.
fn after_turn(turns: &mut Turns, lane: LaneId, turned: Turned) -> Stepped
    requires { lane.0 < length turns.old }
    ensures answer { result ≡ said turned }
    ensures turns { turns.new ≡ turns_left turned lane.0 turns.old }
{
    match turned {
        Turned::On(answer) => answer,
        Turned::Over(answer) => {
            turns.release(lane);
            answer
        }
    }
}

/// The next step of a lane's turn.
pub(crate) fn step_turn(kernel: &mut Kernel, turn: &mut Turn, lane: LaneId) -> Turned
    requires lane { lane.0 < lanes kernel.old.scene }
    requires held { IsHeld kernel.old.scene kernel.old.history turn.old }
    ensures { HasTurned kernel.old lane.0 turn.old (said result) kernel.new (left result turn.new) }
{
    let before = turn.frame;
    let scene = kernel.scene();
    let code = &scene.agent(turn.agent).code;
    match next(code, &mut turn.frame) {
        Move::Do(effect) => step_act(kernel, turn, lane, &before, effect),
        Move::Done => step_end(kernel, turn, lane, &before),
        Move::Fail(kind) => step_fail(kernel, turn, lane, &before, kind),
    }
}

/// An act of a turn.
fn step_act(
    kernel: &mut Kernel,
    turn: &mut Turn,
    lane: LaneId,
    before: &Frame,
    effect: Effect,
) -> Turned
    requires lane { lane.0 < lanes kernel.old.scene }
    requires held { IsHeld kernel.old.scene kernel.old.history (record turn.old { frame = before.now }) }
    requires moves { Moves kernel.old turn.old before.now (Do effect) }
    ensures { HasTurned kernel.old lane.0 (record turn.old { frame = before.now }) (said result) kernel.new (left result turn.new) }
{
    let _scene = kernel.scene();
    let acted = kernel.act(turn, effect);
    after_act(turn, before, acted)
}

/// A turn after its act: with the answer where it went, and as it was before its move where it didn't.
fn after_act(turn: &mut Turn, before: &Frame, acted: Acted) -> Turned
    ensures answer { said result ≡ stepped_by_act acted }
    ensures left { left result turn.new ≡ Some (turn_kept acted before.now turn.old) }
{
    match acted {
        Acted::Went => Turned::On(Stepped::Added),
        Acted::Full => {
            turn.frame = *before;
            Turned::On(Stepped::Full)
        }
        Acted::Over => {
            turn.frame = *before;
            Turned::On(Stepped::Over)
        }
    }
}

/// The end of a turn.
fn step_end(kernel: &mut Kernel, turn: &mut Turn, lane: LaneId, before: &Frame) -> Turned
    requires lane { lane.0 < lanes kernel.old.scene }
    requires held { IsHeld kernel.old.scene kernel.old.history (record turn.old { frame = before.now }) }
    requires moves { Moves kernel.old turn.old before.now Done }
    ensures { HasTurned kernel.old lane.0 (record turn.old { frame = before.now }) (said result) kernel.new (left result turn.new) }
{
    let _scene = kernel.scene();
    let ended = kernel.end(turn);
    after_end(turn, before, ended)
}

/// The exception of a turn.
fn step_fail(
    kernel: &mut Kernel,
    turn: &mut Turn,
    lane: LaneId,
    before: &Frame,
    kind: FailKind,
) -> Turned
    requires lane { lane.0 < lanes kernel.old.scene }
    requires held { IsHeld kernel.old.scene kernel.old.history (record turn.old { frame = before.now }) }
    requires moves { Moves kernel.old turn.old before.now (Fail kind) }
    ensures { HasTurned kernel.old lane.0 (record turn.old { frame = before.now }) (said result) kernel.new (left result turn.new) }
{
    let _scene = kernel.scene();
    let ended = kernel.fail(turn, kind);
    after_end(turn, before, ended)
}

/// A turn after its end: over, or as it was before its move.
fn after_end(turn: &mut Turn, before: &Frame, ended: Ended) -> Turned
    ensures answer { said result ≡ stepped_by_end ended }
    ensures left { left result turn.new ≡ left_by_end ended before.now turn.old }
{
    match ended {
        Ended::Done => Turned::Over(Stepped::Added),
        Ended::Aborted => Turned::Over(Stepped::Aborted),
        Ended::Full => {
            turn.frame = *before;
            Turned::On(Stepped::Full)
        }
        Ended::Over => {
            turn.frame = *before;
            Turned::On(Stepped::Over)
        }
    }
}

/// Takes a demand on a lane that has no turn.
fn step_begin(kernel: &mut Kernel, turns: &mut Turns, lane: LaneId) -> Stepped
    requires lane { lane.0 < lanes kernel.old.scene }
    requires none { slice_index_or turns.old lane.0 None ≡ None }
    requires held { AreHeld kernel.old turns.old }
    ensures answer { result ≡ step_answers (gated kernel.old (begin_by kernel.old (party_of lane) lane)) }
    ensures after { kernel.new ≡ core_after kernel.old (gated kernel.old (begin_by kernel.old (party_of lane) lane)) }
    ensures held { AreHeld kernel.new turns.new }
{
    let scene = kernel.scene();
    let _lanes = scene.lanes();
    match kernel.begin(lane.party(), lane) {
        Begun::Turn(turn) => {
            turns.put(lane, turn);
            Stepped::Added
        }
        Begun::Skipped => Stepped::Added,
        Begun::Nothing => Stepped::Nothing,
        Begun::Full => Stepped::Full,
        Begun::Over => Stepped::Over,
    }
}

/// Makes the step of each pick in order, and says how many entries were added.
#[tactic(auto, using(crate::proofs::AnswerLaws::counted))]
pub fn play(kernel: &mut Kernel, turns: &mut Turns, picks: &[Pick]) -> u32
    requires lanes { All (IsPickInRange kernel.old.scene) picks.now }
    requires held { AreHeld kernel.old turns.old }
    ensures after { kernel.new ≡ played kernel.old picks.now }
    ensures count { length kernel.new.history ≡ length kernel.old.history + result }
    ensures held { AreHeld kernel.new turns.new }
{
    let before = kernel.history().len();
    for pick in picks {
        let _did = step(kernel, turns, *pick);
    }
    kernel.history().len() - before
}
