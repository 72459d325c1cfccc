//! A lane's worker: one step under each holding, and the turn's moves computed outside the lock.

ghost use Rattle.std.specs.Prelude.{◌≡◌, ◌<◌, ◌≤◌, IfSome};
ghost use Rattle.so_ids.specs.Ids.{party_of as lane_party};
ghost use Rattle.so_code.specs.declared.effect.Move.TheVariants.{Do, Done, Fail};
ghost use Rattle.so_scene.specs.Lanes.{lanes};
ghost use Rattle.so_kernel.specs.Hands.{IsHeld, HasMoved};
ghost use Rattle.so_book.specs.History.{AddsAtMostOne};
ghost use Rattle.so_book.specs.Passes.{IsPassOf, party_of, seen_by, holder_of, found_by, held_value, book_of};
ghost use Rattle.so_run.specs.Lines.{made_in, line_signer};
ghost use Rattle.so_run.specs.Knowing.{Knows};
ghost use Rattle.so_run.specs.Stepping.{lines_of, HasBegun};

use crate::shared::Run;
use so_book::{Book, Held, Pass};
use so_code::{Effect, FailKind, Move, next};
use so_ids::LaneId;
use so_io::Gate;
use so_kernel::{Acted, Begun, Turn};
use so_scene::Scene;
use std::sync::Wait;

/// Takes demands on a lane, and goes through their turns, until the run is over.
pub fn work<'a, R: Wait, G: Gate>(
    rt: &R,
    book: &Book<Run<'a>>,
    gate: &G,
    pass: Pass<Run<'a>>,
    scene: &'a Scene,
    lane: LaneId,
) -> Pass<Run<'a>>
    requires pass { IsPassOf book.now pass × (party_of pass ≡ lane_party lane) }
    requires knows { Knows scene.now (seen_by pass) }
    requires lane { lane.0 < lanes scene.now }
    ensures { IsPassOf book.now result }
{
    let mut pass = pass;
    for _ in rt.forever() {
        let (after, begun) = take(rt, book, pass, scene, lane);
        pass = after;
        match begun {
            Begun::Turn(turn) => {
                gate.pass(rt, lane, turn.begun);
                pass = go_through(rt, book, pass, scene, turn);
            }
            Begun::Skipped => {}
            Begun::Nothing => pass = book.rest(rt, pass),
            Begun::Full | Begun::Over => break,
        }
    }
    pass
}

/// Takes a demand on the lane.
pub(crate) fn take<'a, R: Wait>(
    rt: &R,
    book: &Book<Run<'a>>,
    pass: Pass<Run<'a>>,
    scene: &'a Scene,
    lane: LaneId,
) -> (Pass<Run<'a>>, Begun)
    requires pass { IsPassOf book.now pass × (party_of pass ≡ lane_party lane) }
    requires knows { Knows scene.now (seen_by pass) }
    requires lane { lane.0 < lanes scene.now }
    ensures pass { IsPassOf book.now result.0 × (party_of result.0 ≡ lane_party lane) }
    ensures knows { Knows scene.now (seen_by result.0) }
    ensures turn { HasBegun scene.now (made_in (seen_by result.0)) (lane_party lane) result.1 }
{
    let mut held = book.hold(rt, pass);
    let begun = held.value_mut().begin(lane.party(), lane);
    let _after = held.value().kernel.scene();
    (close(held), begun)
}

/// Goes through a turn: computes its next move outside the lock, and makes it under a holding of its own.
fn go_through<'a, R: Wait>(
    rt: &R,
    book: &Book<Run<'a>>,
    pass: Pass<Run<'a>>,
    scene: &'a Scene,
    turn: Turn,
) -> Pass<Run<'a>>
    requires pass { IsPassOf book.now pass × (party_of pass ≡ turn.by) }
    requires knows { Knows scene.now (seen_by pass) }
    requires held { IsHeld scene.now (made_in (seen_by pass)) turn }
    ensures pass { IsPassOf book.now result × (party_of result ≡ turn.by) }
    ensures knows { Knows scene.now (seen_by result) }
{
    let mut pass = pass;
    let mut turn = turn;
    for _ in rt.forever() {
        let code = &scene.agent(turn.agent).code;
        match next(code, &mut turn.frame) {
            Move::Do(effect) => {
                let (after, held) = act(rt, book, pass, scene, turn, effect);
                pass = after;
                let Some(goes_on) = held else { break };
                turn = goes_on;
            }
            Move::Done => {
                pass = end(rt, book, pass, scene, turn);
                break;
            }
            Move::Fail(kind) => {
                pass = fail(rt, book, pass, scene, turn, kind);
                break;
            }
        }
    }
    pass
}

/// A turn that moved acts. It comes back where the run goes on.
pub(crate) fn act<'a, R: Wait>(
    rt: &R,
    book: &Book<Run<'a>>,
    pass: Pass<Run<'a>>,
    scene: &'a Scene,
    mut turn: Turn,
    effect: Effect,
) -> (Pass<Run<'a>>, Option<Turn>)
    requires pass { IsPassOf book.now pass × (party_of pass ≡ turn.by) }
    requires knows { Knows scene.now (seen_by pass) }
    requires moved { HasMoved scene.now (made_in (seen_by pass)) turn (Do effect) }
    ensures pass { IsPassOf book.now result.0 × (party_of result.0 ≡ turn.by) }
    ensures knows { Knows scene.now (seen_by result.0) }
    ensures turn { IfSome result.1 (λ t. IsHeld scene.now (made_in (seen_by result.0)) t × (t.by ≡ turn.by)) }
{
    let mut held = book.hold(rt, pass);
    let _before = held.value().kernel.scene();
    let acted = held.value_mut().act(&mut turn, effect);
    let _after = held.value().kernel.scene();
    let pass = close(held);
    match acted {
        Acted::Went => (pass, Some(turn)),
        Acted::Full | Acted::Over => (pass, None),
    }
}

/// A turn whose code is over ends.
pub(crate) fn end<'a, R: Wait>(
    rt: &R,
    book: &Book<Run<'a>>,
    pass: Pass<Run<'a>>,
    scene: &'a Scene,
    turn: Turn,
) -> Pass<Run<'a>>
    requires pass { IsPassOf book.now pass × (party_of pass ≡ turn.by) }
    requires knows { Knows scene.now (seen_by pass) }
    requires moved { HasMoved scene.now (made_in (seen_by pass)) turn Done }
    ensures pass { IsPassOf book.now result × (party_of result ≡ turn.by) }
    ensures knows { Knows scene.now (seen_by result) }
{
    let mut held = book.hold(rt, pass);
    let _before = held.value().kernel.scene();
    held.value_mut().end(turn);
    let _after = held.value().kernel.scene();
    close(held)
}

/// A turn fails by its exception.
pub(crate) fn fail<'a, R: Wait>(
    rt: &R,
    book: &Book<Run<'a>>,
    pass: Pass<Run<'a>>,
    scene: &'a Scene,
    turn: Turn,
    kind: FailKind,
) -> Pass<Run<'a>>
    requires pass { IsPassOf book.now pass × (party_of pass ≡ turn.by) }
    requires knows { Knows scene.now (seen_by pass) }
    requires moved { HasMoved scene.now (made_in (seen_by pass)) turn (Fail kind) }
    ensures pass { IsPassOf book.now result × (party_of result ≡ turn.by) }
    ensures knows { Knows scene.now (seen_by result) }
{
    let mut held = book.hold(rt, pass);
    let _before = held.value().kernel.scene();
    held.value_mut().fail(turn, kind);
    let _after = held.value().kernel.scene();
    close(held)
}

/// Gives the run up, for the last time where it doesn't go on.
pub(crate) fn close<'a>(held: Held<'_, Run<'a>>) -> Pass<Run<'a>>
    requires { AddsAtMostOne line_signer (holder_of held) (found_by held) (lines_of (held_value held)) }
    ensures seen { seen_by result ≡ lines_of (held_value held.entry) }
    ensures same { (party_of result ≡ holder_of held.entry) × IsPassOf (book_of held.entry) result }
{
    if held.value().goes_on() {
        held.close()
    } else {
        held.close_last()
    }
}
