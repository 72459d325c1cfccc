//! What one instruction does.

ghost use Rattle.std.specs.Prelude.{◌≡◌, ◌+◌, ◌-◌, ◌<◌, ◌≤◌, ◌↔◌, IsTrue, ◌^◌};
ghost use Rattle.so_code.specs.Machine.{act, does, fails, put_if, is_done, plan_left, plan_goes_on, body_ended, goes_on, next_by, with_todo};
ghost use Rattle.so_code.specs.Values.{put};
ghost use Rattle.so_code.specs.Valid.{IsDest, HasParts};
ghost use Rattle.so_code.specs.Places.{reach};
ghost use Rattle.so_code.specs.declared.effect.Effect.TheVariants.{Switch, Receive};

use crate::effect::{Effect, FailKind, Move};
use crate::frame::{Frame, Todo};
use crate::instr::{Body, Dest, Instr};
use crate::values::{difference_of, product_of, sum_of};
use so_ids::StateId;

impl Frame {
    /// Asks for an effect, and waits for its answer.
    pub(crate) fn does(&mut self, effect: Effect) -> Option<Move>
        ensures { (result, self.new) ≡ does effect self.old }
    {
        self.todo = Todo::Wait(effect);
        Some(Move::Do(effect))
    }

    pub(crate) fn fails(&mut self, kind: FailKind) -> Option<Move>
        ensures { (result, self.new) ≡ fails kind self.old }
    {
        self.todo = Todo::Over;
        Some(Move::Fail(kind))
    }

    /// Goes on, so many instructions further.
    fn next_by(&mut self, n: u32) -> Option<Move>
        requires { self.old.place + n < 2 ^ 32 }
        ensures { (result, self.new) ≡ goes_on (next_by n self.old) }
    {
        self.place += n;
        None
    }

    /// Writes a number, and goes on.
    fn set(&mut self, to: Dest, n: i64) -> Option<Move>
        requires dest { IsDest to }
        requires room { self.old.place + 1 < 2 ^ 32 }
        ensures { (result, self.new) ≡ goes_on (next_by 1 (put self.old to n)) }
    {
        self.put(to, n);
        self.next_by(1)
    }

    /// Writes a number that fits, and goes on.
    fn put_if(&mut self, to: Dest, n: Option<i64>) -> Option<Move>
        requires dest { IsDest to }
        requires room { self.old.place + 1 < 2 ^ 32 }
        ensures { (result, self.new) ≡ put_if to n self.old }
    {
        match n {
            None => self.fails(FailKind::Overflow),
            Some(n) => self.set(to, n),
        }
    }

    pub(crate) fn is_done(&mut self) -> Option<Move>
        ensures { (result, self.new) ≡ is_done self.old }
    {
        self.todo = Todo::Over;
        Some(Move::Done)
    }

    /// Whether the plan is not at its end.
    fn has_plan(&self) -> bool
        requires exits { self.now.plan.n_exits ≤ 16 }
        requires enters { self.now.plan.n_enters ≤ 16 }
        ensures { IsTrue result ↔ (0 < plan_left self.now) }
    {
        self.ran < self.plan.n_exits + 1 + self.plan.n_enters
    }

    /// What follows an exit or enter body: the plan.
    fn plan_goes_on(&mut self) -> Option<Move>
        requires exits { self.old.plan.n_exits ≤ 16 }
        requires enters { self.old.plan.n_enters ≤ 16 }
        ensures { (result, self.new) ≡ plan_goes_on self.old }
    {
        if self.has_plan() {
            self.ran += 1;
            self.todo = Todo::Plan;
            None
        } else {
            self.is_done()
        }
    }

    /// What follows a body.
    fn body_ended(&mut self, body: Body) -> Option<Move>
        requires exits { self.old.plan.n_exits ≤ 16 }
        requires enters { self.old.plan.n_enters ≤ 16 }
        ensures { (result, self.new) ≡ body_ended body self.old }
    {
        match body {
            Body::Enter(_) | Body::Exit(_) => self.plan_goes_on(),
            Body::Start | Body::Finish | Body::Row(_) | Body::Thread => self.is_done(),
        }
    }

    /// Asks for a switch, after which it comes back behind this instruction.
    fn switch(&mut self, to: StateId) -> Option<Move>
        requires { self.old.place + 1 < 2 ^ 32 }
        ensures { (result, self.new) ≡ does (Switch to) (record self.old { back = Some (self.old.place + 1) }) }
    {
        self.back = Some(self.place + 1);
        self.does(Effect::Switch { to })
    }

    /// Begins a receive of at most so many messages, and puts the own message aside.
    fn receive(&mut self, handle_n: u32, extract_n: u32) -> Option<Move>
        ensures { (result, self.new) ≡ does (Receive self.old.place) (record self.old { receive = self.old.place; handles_left = handle_n; extracts_left = extract_n; aside = self.old.msg }) }
    {
        self.receive = self.place;
        self.handles_left = handle_n;
        self.extracts_left = extract_n;
        self.aside = self.msg;
        self.does(Effect::Receive { place: self.place })
    }

    /// Leaves a handler of a receive: one message less, and the next take.
    fn back(&mut self) -> Option<Move>
        ensures { (result, self.new) ≡ goes_on (with_todo Todo.Take (record self.old { handles_left = self.old.handles_left - 1 })) }
    {
        self.handles_left = self.handles_left.saturating_sub(1);
        self.todo = Todo::Take;
        None
    }

    /// One instruction.
    pub(crate) fn act(&mut self, instr: Instr) -> Option<Move>
        requires parts { HasParts instr }
        requires reach { self.old.place + reach instr + 1 < 2 ^ 32 }
        requires exits { self.old.plan.n_exits ≤ 16 }
        requires enters { self.old.plan.n_enters ≤ 16 }
        ensures { (result, self.new) ≡ act instr self.old }
    {
        match instr {
            Instr::Set { to, a } => self.set(to, self.value(a)),
            Instr::Add { to, a, b } => self.put_if(to, sum_of(self.value(a), self.value(b))),
            Instr::Sub { to, a, b } => self.put_if(to, difference_of(self.value(a), self.value(b))),
            Instr::Mul { to, a, b } => self.put_if(to, product_of(self.value(a), self.value(b))),
            Instr::If { a, cmp, b, count } => {
                if cmp.holds(self.value(a), self.value(b)) {
                    self.next_by(1)
                } else {
                    self.next_by(count + 1)
                }
            }
            Instr::Skip { count } => self.next_by(count + 1),
            Instr::Throw { a } => self.fails(FailKind::Thrown(self.value(a))),
            Instr::Switch { to } => self.switch(to),
            Instr::Stop => self.does(Effect::Stop),
            Instr::Receive {
                handle_n,
                extract_n,
                ..
            } => self.receive(handle_n, extract_n),
            Instr::Case { .. } => self.next_by(1),
            Instr::Back => self.back(),
            Instr::End { body } => self.body_ended(body),
            Instr::Log { text, args } => self.does(Effect::Log {
                text,
                payload: self.payload(args),
            }),
            Instr::Send { target, msg, args } => self.does(Effect::Send {
                target,
                msg,
                payload: self.payload(args),
            }),
            Instr::Delayed {
                target,
                msg,
                ms,
                args,
            } => self.does(Effect::Delayed {
                target,
                msg,
                payload: self.payload(args),
                ms,
            }),
            Instr::Timer {
                slot,
                target,
                msg,
                ms,
                period,
                args,
            } => self.does(Effect::Timer {
                slot,
                target,
                msg,
                payload: self.payload(args),
                ms,
                period,
            }),
            Instr::Cancel { slot } => self.does(Effect::Cancel { slot }),
            Instr::Subscribe { row } => self.does(Effect::Subscribe { row }),
            Instr::Unsubscribe { row } => self.does(Effect::Unsubscribe { row }),
            Instr::SetFilter { filter } => self.does(Effect::SetFilter { filter }),
            Instr::DropFilter { filter } => self.does(Effect::DropFilter { filter }),
            Instr::Register { coop } => self.does(Effect::Register { coop }),
            Instr::Deregister { coop } => self.does(Effect::Deregister { coop }),
            Instr::Close { chain, keep } => self.does(Effect::Close { chain, keep }),
        }
    }
}
