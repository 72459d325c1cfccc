//! What runs a turn: the interpreter, or a program's own object with the same code.

ghost use Rattle.std.specs.Prelude.{◌≡◌, List};
ghost use Rattle.so_code.specs.declared.instr.Instr.{Instr as AnyInstr};
ghost use Rattle.so_code.specs.declared.effect.Effect.{Effect as AnyEffect};
ghost use Rattle.so_code.specs.Machine.{after};
ghost use Rattle.so_code.specs.Running.{IsFrame, IsAwake};

use crate::code::Code;
use crate::effect::Move;
use crate::frame::{Frame, Todo};
use crate::run::next;

/// Gives the moves of a code.
pub trait Behaviour: Drop {
    ghost instrs: { Self → List AnyInstr };

    /// The code whose moves it gives.
    fn code(&self) -> &Code
        ensures { result.now ≡ instrs self.now };

    /// The next move of a turn that runs this code.
    fn next(&self, frame: &mut Frame) -> Move
        requires frame { IsFrame (instrs self.now) frame.old }
        requires awake { IsAwake frame.old.todo }
        ensures step { (result, frame.new) ≡ after (instrs self.now) frame.old }
        ensures frame { IsFrame (instrs self.now) frame.new }
        ensures waits { (effect : AnyEffect) → result ≡ Move.Do effect → frame.new.todo ≡ Todo.Wait effect };
}

/// The interpreter.
#[derive(Drop)]
pub struct Script {
    code: Code,
}

impl Script {
    /// The interpreter of this code.
    pub fn new(code: Code) -> Script
        ensures { result.code ≡ code }
    {
        Script { code }
    }
}

impl Behaviour for Script {
    ghost instrs = { λ s. s.code };

    fn code(&self) -> &Code {
        &self.code
    }

    fn next(&self, frame: &mut Frame) -> Move {
        next(&self.code, frame)
    }
}
