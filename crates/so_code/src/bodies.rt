//! Where the bodies of a code stand.

ghost use Rattle.std.specs.Prelude.{◌≡◌, ◌≤◌, length};
ghost use Rattle.so_code.specs.Bodies.{same_body, is_end, ends_body, body_at};

use crate::instr::{Body, Instr};

fn same_body(a: Body, b: Body) -> bool
    ensures { result ≡ same_body a b }
{
    match (a, b) {
        (Body::Start, Body::Start) => true,
        (Body::Finish, Body::Finish) => true,
        (Body::Thread, Body::Thread) => true,
        (Body::Enter(a), Body::Enter(b)) => a == b,
        (Body::Exit(a), Body::Exit(b)) => a == b,
        (Body::Row(a), Body::Row(b)) => a == b,
        _ => false,
    }
}

fn is_end(instr: Instr) -> bool
    ensures { result ≡ is_end instr }
{
    matches!(instr, Instr::End { .. })
}

fn ends_body(body: Body, instr: Instr) -> bool
    ensures { result ≡ ends_body body instr }
{
    match instr {
        Instr::End { body: other } => same_body(other, body),
        _ => false,
    }
}

/// Where a body begins.
pub(crate) fn body_at(code: &[Instr], body: Body) -> Option<u32>
    requires { length code.now ≤ 1024 }
    ensures { result ≡ body_at code.now body }
{
    let mut start = 0;
    for (place, instr) in code.iter().enumerate() {
        if ends_body(body, *instr) {
            return Some(start);
        }
        if is_end(*instr) {
            start = place as u32 + 1;
        }
    }
    None
}
