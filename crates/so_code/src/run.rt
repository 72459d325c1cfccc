//! The next move of a turn.

ghost use Rattle.std.specs.Prelude.{◌≡◌};
ghost use Rattle.so_code.specs.Machine.{after};
ghost use Rattle.so_code.specs.Places.{HasPlaces};
ghost use Rattle.so_code.specs.Running.{IsFrame, IsAwake};
ghost use Rattle.so_code.specs.declared.effect.Effect.{Effect as AnyEffect};

use crate::code::Code;
use crate::effect::Move;
use crate::frame::{Frame, Todo};
use crate::instr::Instr;

/// Runs the code up to the next move.
fn run(code: &[Instr], frame: &mut Frame) -> Move
    requires code { HasPlaces code.now }
    requires frame { IsFrame code.now frame.old }
    ensures step { (result, frame.new) ≡ after code.now frame.old }
    ensures frame { IsFrame code.now frame.new }
    ensures waits { (effect : AnyEffect) → result ≡ Move.Do effect → frame.new.todo ≡ Todo.Wait effect }
{
    // a plan has at most 33 parts, and each of them, and what comes before them, takes fewer steps than the bracket
    for _step in 0..34 * (2 * code.len() + 3) {
        if let Some(found) = frame.step(code) {
            return found;
        }
    }
    unreachable!()
}

/// The next move of a turn: runs the code up to an effect, the end or an exception.
pub fn next(code: &Code, frame: &mut Frame) -> Move
    requires frame { IsFrame code.now frame.old }
    requires awake { IsAwake frame.old.todo }
    ensures step { (result, frame.new) ≡ after code.now frame.old }
    ensures frame { IsFrame code.now frame.new }
    ensures waits { (effect : AnyEffect) → result ≡ Move.Do effect → frame.new.todo ≡ Todo.Wait effect }
{
    run(code.instrs(), frame)
}
