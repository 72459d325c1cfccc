//! Where the handlers of a receive stand.

ghost use Rattle.std.specs.Prelude.{◌≡◌, ◌+◌, ◌<◌, ◌≤◌, length, drop, false};
ghost use Rattle.so_code.specs.Receives.{is_case, is_case_of, is_back, handlers_length, past, handler_from, handler_at};

use crate::instr::Instr;
use so_ids::MsgId;

fn is_case(instr: Instr) -> bool
    ensures { result ≡ is_case instr }
{
    matches!(instr, Instr::Case { .. })
}

fn is_case_of(case: u8, msg: MsgId, instr: Instr) -> bool
    ensures { result ≡ is_case_of case msg instr }
{
    match instr {
        Instr::Case {
            case: other_case,
            msg: other_msg,
        } => other_case == case && other_msg == msg,
        _ => false,
    }
}

fn is_back(instr: Instr) -> bool
    ensures { result ≡ is_back instr }
{
    matches!(instr, Instr::Back)
}

/// How many instructions the handlers at the head of the code take.
fn handlers_length(code: &[Instr]) -> usize
    ensures count { result ≡ handlers_length false code.now }
    ensures within { result ≤ length code.now }
{
    let mut inside = false;
    for (count, instr) in code.iter().enumerate() {
        if inside {
            inside = !is_back(*instr);
        } else if is_case(*instr) {
            inside = true;
        } else {
            return count;
        }
    }
    code.len()
}

/// The place after a receive and its handlers.
pub(crate) fn past(code: &[Instr], receive: u32) -> u32
    requires few { length code.now ≤ 1024 }
    requires place { receive < length code.now }
    ensures { result ≡ past code.now receive }
{
    receive + 1 + handlers_length(&code[receive as usize + 1..]) as u32
}

/// Where the handler of a case and type begins, among those at the head of the code.
fn handler_in(code: &[Instr], first: u32, case: u8, msg: MsgId) -> Option<u32>
    requires { first + length code.now ≤ 1024 }
    ensures { result ≡ handler_from case msg false first code.now }
{
    let mut inside = false;
    for (count, instr) in code.iter().enumerate() {
        if inside {
            inside = !is_back(*instr);
        } else if is_case_of(case, msg, *instr) {
            return Some(first + count as u32 + 1);
        } else if is_case(*instr) {
            inside = true;
        } else {
            return None;
        }
    }
    None
}

/// Where the receive's handler of a case and type begins.
pub(crate) fn handler_at(code: &[Instr], receive: u32, case: u8, msg: MsgId) -> Option<u32>
    requires few { length code.now ≤ 1024 }
    requires place { receive < length code.now }
    ensures { result ≡ handler_at code.now receive case msg }
{
    handler_in(&code[receive as usize + 1..], receive + 1, case, msg)
}
