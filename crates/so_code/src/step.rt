//! One step of a turn: an instruction, or what the frame does next by itself.

ghost use Rattle.std.specs.Prelude.{◌≡◌, ◌+◌, ◌-◌, ◌<◌, ◌≤◌, ◌^◌, length, Some, None, IfSome, slice_get};
ghost use Rattle.so_code.specs.Machine.{act_at, enter_body, landed, plan_step, leave, take_step, handle_step, open_step, step, state_in, ran_one, with_todo};
ghost use Rattle.so_code.specs.Places.{HasPlaces, IsAt};
ghost use Rattle.so_code.specs.Running.{IsFrame};

use crate::bodies::body_at;
use crate::effect::{Effect, Move};
use crate::frame::{Frame, Todo};
use crate::instr::{Body, Instr};
use crate::receives::{handler_at, past};
use so_ids::{Chosen, Opening, StateId};

fn instr_at(code: &[Instr], place: u32) -> Instr
    requires { place < length code.now }
    ensures here { slice_get code.now place ≡ Some result }
    ensures at { IsAt code.now place result }
{
    code[place as usize]
}

impl Frame {
    /// The instruction at the place.
    fn act_at(&mut self, code: &[Instr]) -> Option<Move>
        requires code { HasPlaces code.now }
        requires place { self.old.place < length code.now }
        requires exits { self.old.plan.n_exits ≤ 16 }
        requires enters { self.old.plan.n_enters ≤ 16 }
        ensures { (result, self.new) ≡ act_at (slice_get code.now self.old.place) self.old }
    {
        self.act(instr_at(code, self.place))
    }

    fn go_to(&mut self, place: u32)
        ensures { self.new ≡ record self.old { todo = Todo.Act; place = place } }
    {
        self.todo = Todo::Act;
        self.place = place;
    }

    /// To a body's first instruction, where the code has the body.
    fn open_step(&mut self, place: Option<u32>) -> Option<Move>
        ensures { (result, self.new) ≡ open_step place self.old }
    {
        match place {
            None => self.is_done(),
            Some(place) => {
                self.go_to(place);
                None
            }
        }
    }

    /// To the first act of an exit or enter body, or past one that isn't there.
    fn enter_body(&mut self, place: Option<u32>)
        requires { self.old.ran < 255 }
        ensures { (None, self.new) ≡ enter_body place self.old }
    {
        match place {
            None => self.ran += 1,
            Some(place) => self.go_to(place),
        }
    }

    /// The switch is over.
    pub(crate) fn landed(&mut self)
        ensures { self.new ≡ landed self.old.back self.old.opening self.old }
    {
        match (self.back, self.opening) {
            (Some(place), _) => {
                self.go_to(place);
                self.back = None;
            }
            (None, Opening::Event(Chosen::Transfer { .. })) => self.todo = Todo::Choose,
            (None, _) => self.todo = Todo::Over,
        }
    }

    /// The plan's next part: its exit bodies, the entry of its leaf, its enter bodies.
    fn plan_step(&mut self, code: &[Instr]) -> Option<Move>
        requires code { length code.now ≤ 1024 }
        requires exits { self.old.plan.n_exits ≤ 16 }
        requires enters { self.old.plan.n_enters ≤ 16 }
        ensures { (result, self.new) ≡ plan_step code.now self.old }
    {
        if self.ran < self.plan.n_exits {
            let left = self.plan.exits[self.ran as usize];
            self.enter_body(body_at(code, Body::Exit(left)));
            None
        } else if self.ran == self.plan.n_exits {
            self.does(Effect::SetState {
                leaf: self.plan.leaf,
            })
        } else if self.ran - self.plan.n_exits - 1 < self.plan.n_enters {
            let entered = self.plan.enters[(self.ran - self.plan.n_exits - 1) as usize];
            self.enter_body(body_at(code, Body::Enter(entered)));
            None
        } else {
            self.landed();
            None
        }
    }

    /// Leaves the receive: the message that was put aside comes back.
    fn leave(&mut self, ans: u8, code: &[Instr])
        requires code { length code.now ≤ 1024 }
        requires receive { self.old.receive < length code.now }
        ensures { self.new ≡ leave ans code.now self.old }
    {
        self.go_to(past(code, self.receive));
        self.msg = self.aside;
        self.ans = ans as i64;
    }

    /// The next take, where the receive is not at its counts.
    fn take_step(&mut self, code: &[Instr]) -> Option<Move>
        requires code { length code.now ≤ 1024 }
        requires receive { self.old.receive < length code.now }
        ensures { (result, self.new) ≡ take_step code.now self.old }
    {
        if self.handles_left == 0 {
            self.leave(1, code);
            None
        } else if self.extracts_left == 0 {
            self.leave(2, code);
            None
        } else {
            self.does(Effect::Take {
                place: self.receive,
            })
        }
    }

    /// To the handler of the message, or to the next take.
    fn handle_step(&mut self, place: Option<u32>)
        ensures { (None, self.new) ≡ handle_step place self.old }
    {
        match place {
            None => self.todo = Todo::Take,
            Some(place) => self.go_to(place),
        }
    }

    /// One step, which gives a move or goes on by itself.
    pub(crate) fn step(&mut self, code: &[Instr]) -> Option<Move>
        requires code { HasPlaces code.now }
        requires frame { IsFrame code.now self.old }
        ensures { (result, self.new) ≡ step code.now self.old }
    {
        match self.todo {
            Todo::Act => self.act_at(code),
            Todo::Open(body) => self.open_step(body_at(code, body)),
            Todo::Switch(to) => self.does(Effect::Switch { to }),
            Todo::Choose => self.does(Effect::Choose),
            Todo::Plan => self.plan_step(code),
            Todo::Take => self.take_step(code),
            Todo::Handle { case, msg } => {
                self.handle_step(handler_at(code, self.receive, case, msg));
                None
            }
            Todo::Past(ans) => {
                self.leave(ans, code);
                None
            }
            Todo::Raise(kind) => self.fails(kind),
            Todo::Over | Todo::Wait(_) => self.is_done(),
        }
    }
}
