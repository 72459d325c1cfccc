//! The interpreter beside a box of a program's own, an agent that logs what it gets and sends it back.

ghost use Rattle.std.specs.Prelude.{◌≡◌, IsTrue, IfOk, ◌↔◌};
ghost use Rattle.so_twins.specs.Echo.{echo_code, echoed};

use so_code::{
    Args, Behaviour, Body, Code, Effect, Frame, Instr, Move, Operand, Script, Todo, next,
};
use so_ids::{Chosen, MboxId, MsgId, Opening, Payload, RowId, Target, TextId, Vars};
use std::alloc::{AllocError, Global};
use std::marker::Model;

/// Gives the row's first move at once, and the others by the interpreter.
#[derive(Drop)]
struct Echo {
    code: Code,
}

impl Model for Echo {
    ghost use Rattle.std.specs.Prelude.{◌≡◌, List};
    ghost use Rattle.so_code.specs.declared.instr.Instr.{Instr};
    ghost use Rattle.so_twins.specs.Echo.{echo_code};

    ghost Value = { List Instr };

    ghost view = { λ c. c.code };

    ghost invariant = { λ c. c.code ≡ echo_code };
}

impl Echo {
    fn new(code: Code) -> Echo
        requires { code ≡ echo_code }
        ensures { result ≡ echo_code }
    {
        Echo { code }
    }
}

fn is_row(body: Body) -> bool
    ensures { IsTrue result ↔ (body ≡ Body.Row (record { 0 = 0 })) }
{
    match body {
        Body::Row(row) => row.0 == 0,
        _ => false,
    }
}

fn opens_row(todo: Todo) -> bool
    ensures { IsTrue result ↔ (todo ≡ Todo.Open (Body.Row (record { 0 = 0 }))) }
{
    match todo {
        Todo::Open(body) => is_row(body),
        _ => false,
    }
}

fn log_field(frame: &mut Frame) -> Move
    ensures { (result, frame.new) ≡ echoed frame.old }
{
    let line = Effect::Log {
        text: TextId(0),
        payload: Payload {
            fields: [frame.msg.fields[0], 0, 0, 0],
            used: 1,
        },
    };
    frame.todo = Todo::Wait(line);
    frame.place = 2;
    Move::Do(line)
}

impl Behaviour for Echo {
    ghost instrs = { λ c. c };

    fn code(&self) -> &Code {
        &self.code
    }

    #[tactic(auto, using(crate::proofs::EchoLaws::rows))]
    fn next(&self, frame: &mut Frame) -> Move {
        let _instrs = self.code.instrs();
        if opens_row(frame.todo) {
            log_field(frame)
        } else {
            next(&self.code, frame)
        }
    }
}

/// The code of that agent.
fn echoing(alloc: Global) -> Result<Code, AllocError>
    ensures { IfOk result (λ code. code ≡ echo_code) }
{
    let first_field = Args {
        list: [
            Operand::Msg(0),
            Operand::Num(0),
            Operand::Num(0),
            Operand::Num(0),
        ],
        used: 1,
    };
    let instrs = Vec::from_array(
        alloc,
        [
            Instr::End { body: Body::Start },
            Instr::End { body: Body::Finish },
            Instr::Log {
                text: TextId(0),
                args: first_field,
            },
            Instr::Send {
                target: Target::Mbox(MboxId(0)),
                msg: MsgId(1),
                args: first_field,
            },
            Instr::End {
                body: Body::Row(RowId(0)),
            },
        ],
    )?;
    Ok(Code::new(instrs))
}

/// Tells whether the interpreter and the box give the same first move of the row, which logs the field, and leave the
/// same frame.
pub(crate) fn agree(alloc: Global) -> Result<bool, AllocError> {
    let script: Box<dyn Behaviour> = Box::new(alloc, Script::new(echoing(alloc)?))?;
    let echo: Box<dyn Behaviour> = Box::new(alloc, Echo::new(echoing(alloc)?))?;
    let payload = Payload {
        fields: [7, 0, 0, 0],
        used: 1,
    };
    let row = Opening::Event(Chosen::Run { row: RowId(0) });
    let mut first = Frame::begin(row, Vars([0; 16]), payload);
    let mut second = first;
    let line = Move::Do(Effect::Log {
        text: TextId(0),
        payload,
    });
    let are_same = echo.code().differs(script.code()).is_none();
    let logs = script.next(&mut first) == line && echo.next(&mut second) == line;
    Ok(are_same && logs && first == second)
}
