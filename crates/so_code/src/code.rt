//! A checked code, and where it differs from another.

ghost use Rattle.std.specs.Prelude.{◌≡◌, ◌<◌, ◌≤◌, length, Some, IsNone, IfSome, IsTrue, ◌↔◌};
ghost use Rattle.so_code.specs.Differs.{IsFirstDifference};
ghost use Rattle.so_code.specs.Shape.{IsCode};

use crate::instr::Instr;
use std::marker::Model;

/// The code of an agent or a plain thread, as the list of its instructions.
///
/// It has at most 1,024 instructions, with numbers in range. It is made of bodies, each closed by the
/// `End` that names it: those of an agent in the order start, finish, enter and exit of each declared
/// state, rows; or the one of a thread. A receive is followed by its handlers, each from its `Case` to
/// its `Back`, with no receive and no switch in them, and no switch is in an enter or exit body. A
/// jump goes forward over whole acts of its own list.
#[derive(Drop)]
pub struct Code {
    instrs: Vec<Instr>,
}

impl Model for Code {
    ghost use Rattle.std.specs.Prelude.{List};
    ghost use Rattle.so_code.specs.declared.instr.Instr.{Instr};
    ghost use Rattle.so_code.specs.Shape.{IsCode};

    ghost Value = { List Instr };

    ghost view = { λ c. c.instrs.items };

    ghost invariant = { λ c. IsCode c.instrs.items };
}

impl Code {
    /// The code of these instructions.
    pub fn new(instrs: Vec<Instr>) -> Code
        requires { IsCode instrs.items }
        ensures { result ≡ instrs.items }
    {
        Code { instrs }
    }

    /// Its instructions.
    pub fn instrs(&self) -> &[Instr]
        ensures value { result.now ≡ self.now }
        ensures keeps { IsCode self.now }
    {
        &self.instrs
    }

    /// The number of the first instruction that differs, or the shorter length where one code begins
    /// the other; None exactly where they are equal.
    #[tactic(auto, using(crate::proofs::SameCodes::differences))]
    pub fn differs(&self, other: &Code) -> Option<u32>
        ensures same { IsNone result ↔ (self.now ≡ other.now) }
        ensures differs { IfSome result (IsFirstDifference self.now other.now) }
    {
        difference(&self.instrs, &other.instrs)
    }
}

#[tactic(auto, using(crate::proofs::SameInstrs::sames))]
fn is_same(a: Instr, b: Instr) -> bool
    ensures { IsTrue result ↔ (a ≡ b) }
{
    a == b
}

#[tactic(auto, using(crate::proofs::SameCodes::codes))]
fn difference(a: &[Instr], b: &[Instr]) -> Option<u32>
    requires a { length a.now ≤ 1024 }
    requires b { length b.now ≤ 1024 }
    ensures same { IsNone result → a.now ≡ b.now }
    ensures differs { IfSome result (IsFirstDifference a.now b.now) }
{
    let shorter = a.len().min(b.len());
    for place in 0..shorter {
        if !is_same(a[place], b[place]) {
            return Some(place as u32);
        }
    }
    if a.len() == b.len() {
        None
    } else {
        Some(shorter as u32)
    }
}
