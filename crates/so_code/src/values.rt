//! What operands are worth, and what acts on them give.

ghost use Rattle.std.specs.Prelude.{◌≡◌, ◌+ℤ◌, ◌-ℤ◌, ◌*ℤ◌};
ghost use Rattle.so_code.specs.Values.{in_range, holds, value, put, payload};
ghost use Rattle.so_code.specs.Valid.{IsOperand, IsDest, AreArgs};

use crate::frame::Frame;
use crate::instr::{Args, Cmp, Dest, Operand};
use so_ids::Payload;

/// The sum, where it fits.
pub(crate) fn sum_of(a: i64, b: i64) -> Option<i64>
    ensures { result ≡ in_range (a +ℤ b) }
{
    a.checked_add(b)
}

pub(crate) fn difference_of(a: i64, b: i64) -> Option<i64>
    ensures { result ≡ in_range (a -ℤ b) }
{
    a.checked_sub(b)
}

pub(crate) fn product_of(a: i64, b: i64) -> Option<i64>
    ensures { result ≡ in_range (a *ℤ b) }
{
    a.checked_mul(b)
}

impl Cmp {
    /// Tells whether the comparison holds of two numbers.
    pub fn holds(self, a: i64, b: i64) -> bool
        ensures { result ≡ holds self a b }
    {
        match self {
            Cmp::Eq => a == b,
            Cmp::Ne => a != b,
            Cmp::Lt => a < b,
            Cmp::Le => a <= b,
            Cmp::Gt => b < a,
            Cmp::Ge => b <= a,
        }
    }
}

impl Frame {
    pub(crate) fn value(&self, a: Operand) -> i64
        requires { IsOperand a }
        ensures { result ≡ value self.now a }
    {
        match a {
            Operand::Num(n) => n,
            Operand::Var(k) => self.vars.0[k as usize],
            Operand::Msg(k) => self.msg.fields[k as usize],
            Operand::Temp(k) => self.temps[k as usize],
            Operand::Ans => self.ans,
        }
    }

    pub(crate) fn put(&mut self, to: Dest, n: i64)
        requires { IsDest to }
        ensures { self.new ≡ put self.old to n }
    {
        match to {
            Dest::Var(k) => self.vars.0[k as usize] = n,
            Dest::Temp(k) => self.temps[k as usize] = n,
        }
    }

    /// The values of the operands.
    pub(crate) fn payload(&self, args: Args) -> Payload
        requires { AreArgs args }
        ensures { result ≡ payload self.now args }
    {
        Payload {
            fields: [
                self.value(args.list[0]),
                self.value(args.list[1]),
                self.value(args.list[2]),
                self.value(args.list[3]),
            ],
            used: args.used,
        }
    }
}
