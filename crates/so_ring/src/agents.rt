//! The agents of a ring.

ghost use Rattle.std.specs.Prelude.{◌≡◌, ◌<◌, ◌≤◌, IfOk};
ghost use Rattle.so_scene.specs.Parts.{no_agent};
ghost use Rattle.so_ring.specs.Ring.{most_in_ring, after, send_token, start_acts, rest_in_ring, code_in_ring, token_row, name_in_ring, agent_in_ring, ring_agents};

use crate::parts::{named, one};
use so_code::{Args, Body, Cmp, Code, Dest, Instr, Operand};
use so_ids::{CoopId, DispId, MboxId, MsgId, Priority, RowId, StateId, Target, Vars};
use so_scene::{AgentDef, Items, Name};
use so_state::{Row, RowKind, Tree};
use std::alloc::{AllocError, Global};

/// How often each agent passes the token on.
const ROUNDS: u32 = 10;

/// The agents, in order.
pub(crate) fn agents_of(alloc: Global, count: u32) -> Result<Items<AgentDef>, AllocError>
    requires some { 1 ≤ count }
    requires few { count ≤ most_in_ring }
    ensures { IfOk result (λ agents. agents ≡ ring_agents count) }
{
    let mut agents = Items::new(alloc);
    for k in 0..count {
        agents.push(agent_of(alloc, count, k)?)?;
    }
    Ok(agents)
}

/// An agent by its number.
fn agent_of(alloc: Global, count: u32, k: u32) -> Result<AgentDef, AllocError>
    requires few { count ≤ most_in_ring }
    requires within { k < count }
    ensures { IfOk result (λ agent. agent ≡ agent_in_ring count k) }
{
    let row = token_row(k);
    Ok(AgentDef {
        name: name_of(alloc, k)?,
        coop: CoopId(0),
        disp: DispId(1),
        group: None,
        priority: lowest(),
        vars: Vars([0; 16]),
        state_names: Items::new(alloc),
        tree: Tree::flat(alloc),
        rows: one(alloc, row)?,
        row_ids: one(alloc, None)?,
        filters: Items::new(alloc),
        code: code_of(alloc, count, k)?,
    })
}

/// The priority of an agent that names none.
fn lowest() -> Priority
    ensures { result ≡ no_agent.priority }
{
    Priority { level: 0 }
}

/// The name of an agent.
fn name_of(alloc: Global, k: u32) -> Result<Name, AllocError>
    requires { k < most_in_ring }
    ensures { IfOk result (λ name. name ≡ name_in_ring k) }
{
    let text = format!(in alloc; "a{k}")?;
    Ok(named(text.as_str()))
}

/// An agent takes the token from its own mbox.
fn token_row(k: u32) -> Row
    ensures { result ≡ token_row k }
{
    Row {
        mbox: MboxId(k),
        msg: MsgId(0),
        state: StateId(0),
        kind: RowKind::Run,
        safe: false,
        active: true,
    }
}

/// The agent after this one.
fn after(count: u32, k: u32) -> u32
    requires { k < count }
    ensures { result ≡ after count k }
{
    if k + 1 == count { 0 } else { k + 1 }
}

/// A send of the token.
fn send_token(to: u32, number: Operand) -> Instr
    ensures { result ≡ send_token to number }
{
    Instr::Send {
        target: Target::Mbox(MboxId(to)),
        msg: MsgId(0),
        args: Args {
            list: [number, Operand::Num(0), Operand::Num(0), Operand::Num(0)],
            used: 1,
        },
    }
}

/// The code of an agent.
fn code_of(alloc: Global, count: u32, k: u32) -> Result<Code, AllocError>
    requires few { count ≤ most_in_ring }
    requires within { k < count }
    ensures { IfOk result (λ code. code ≡ code_in_ring count k) }
{
    let mut instrs = start_of(alloc, count, k)?;
    instrs.extend_from_slice(&rest_of(after(count, k)))?;
    Ok(Code::new(instrs))
}

/// What an agent does as it starts.
fn start_of(alloc: Global, count: u32, k: u32) -> Result<Vec<Instr>, AllocError>
    requires few { count ≤ most_in_ring }
    requires within { k < count }
    ensures { IfOk result (λ instrs. instrs.items ≡ start_acts count k) }
{
    let mut instrs = Vec::new(alloc);
    if k == 0 {
        let number = Operand::Num(i64::from(ROUNDS * count));
        instrs.push(send_token(after(count, 0), number))?;
    }
    Ok(instrs)
}

/// The code of an agent after what it does as it starts.
fn rest_of(next: u32) -> [Instr; 8]
    ensures { result ≡ rest_in_ring next }
{
    [
        Instr::End { body: Body::Start },
        Instr::End { body: Body::Finish },
        Instr::If {
            a: Operand::Msg(0),
            cmp: Cmp::Gt,
            b: Operand::Num(0),
            count: 3,
        },
        Instr::Sub {
            to: Dest::Temp(0),
            a: Operand::Msg(0),
            b: Operand::Num(1),
        },
        send_token(next, Operand::Temp(0)),
        Instr::Skip { count: 1 },
        Instr::Stop,
        Instr::End {
            body: Body::Row(RowId(0)),
        },
    ]
}
