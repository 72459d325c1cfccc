//! Acts as values.

ghost use Rattle.std.specs.Prelude.{◌≡◌, ◌++◌, ◌+◌, ◌<◌, codes, drop, map, take, length, IfOk};
ghost use Rattle.serde_json.specs.Data.{Data, array, item, no_items};
ghost use Rattle.serde_json.specs.View.{view, items_of};
ghost use Rattle.so_code.specs.Bodies.{is_end};
ghost use Rattle.so_scene_data.specs.Sources.{acts_in, behind};
ghost use Rattle.so_scene_data.specs.ActData.{act_one, act_two, act_three, act_of, if_data, operand_data, dest_data, count_data, text_data, args_data, act_data, acts_data};

use crate::operands::{cmp_value, count_value, dest_value, operand_value};
use crate::words::{
    coop_name, filter_name, message_name, row_name, state_name, target_name, text, text_bytes,
};
use serde_json::{Value, json};
use so_code::{Args, Cmp, Dest, Instr, Operand};
use so_scene::{AgentDef, SceneParts};
use std::alloc::{AllocError, Global};

fn act_one(alloc: Global, word: &str, a: Value) -> Result<Value, AllocError>
    ensures { IfOk result (λ v. view v ≡ act_one word.now (view a)) }
{
    json!(in alloc; [word, a])
}

fn act_two(alloc: Global, word: &str, a: Value, b: Value) -> Result<Value, AllocError>
    ensures { IfOk result (λ v. view v ≡ act_two word.now (view a) (view b)) }
{
    json!(in alloc; [word, a, b])
}

fn act_three(alloc: Global, word: &str, a: Value, b: Value, c: Value) -> Result<Value, AllocError>
    ensures { IfOk result (λ v. view v ≡ act_three word.now (view a) (view b) (view c)) }
{
    json!(in alloc; [word, a, b, c])
}

fn with_count(alloc: Global, word: &str, count: u32) -> Result<Value, AllocError>
    ensures { IfOk result (λ v. view v ≡ act_one word.now (count_data count)) }
{
    act_one(alloc, word, count_value(count))
}

fn with_operand(alloc: Global, word: &str, a: Operand) -> Result<Value, AllocError>
    ensures { IfOk result (λ v. view v ≡ act_one word.now (operand_data a)) }
{
    let a = operand_value(alloc, a)?;
    act_one(alloc, word, a)
}

fn with_name(alloc: Global, word: &str, name: &[u8]) -> Result<Value, AllocError>
    ensures { IfOk result (λ v. view v ≡ act_one word.now (text_data name.now)) }
{
    let name = Value::try_from_str(alloc, text(name))?;
    act_one(alloc, word, name)
}

fn set_value(alloc: Global, to: Dest, a: Operand) -> Result<Value, AllocError>
    ensures { IfOk result (λ v. view v ≡ act_two (codes "set") (dest_data to) (operand_data a)) }
{
    let to = dest_value(alloc, to)?;
    let a = operand_value(alloc, a)?;
    act_two(alloc, "set", to, a)
}

fn compute_value(
    alloc: Global,
    word: &str,
    to: Dest,
    a: Operand,
    b: Operand,
) -> Result<Value, AllocError>
    ensures { IfOk result (λ v. view v ≡ act_three word.now (dest_data to) (operand_data a) (operand_data b)) }
{
    let to = dest_value(alloc, to)?;
    let a = operand_value(alloc, a)?;
    let b = operand_value(alloc, b)?;
    act_three(alloc, word, to, a, b)
}

fn if_value(
    alloc: Global,
    a: Operand,
    cmp: Cmp,
    b: Operand,
    count: u32,
) -> Result<Value, AllocError>
    ensures { IfOk result (λ v. view v ≡ if_data a cmp b count) }
{
    let a = operand_value(alloc, a)?;
    let cmp = cmp_value(alloc, cmp)?;
    let b = operand_value(alloc, b)?;
    let count = count_value(count);
    json!(in alloc; ["if", a, cmp, b, count])
}

/// The operands that are used.
fn used(args: &Args) -> &[Operand]
    ensures { result.now ≡ take args.now.used args.now.list }
{
    let used = args.used as usize;
    if used < 4 {
        &args.list[..used]
    } else {
        &args.list
    }
}

fn with_operands(alloc: Global, list: Vec<Value>, operands: &[Operand]) -> Result<Value, AllocError>
    ensures { IfOk result (λ v. view v ≡ array (items_of (map view list.items ++ map operand_data operands.now))) }
{
    let mut list = list;
    for operand in operands {
        list.push(operand_value(alloc, *operand)?)?;
    }
    Ok(Value::Array(list))
}

fn log_value(alloc: Global, name: &[u8], args: &Args) -> Result<Value, AllocError>
    ensures { IfOk result (λ v. view v ≡ act_of (codes "log") (item (text_data name.now) (args_data args.now))) }
{
    let mut list = Vec::new(alloc);
    list.push(Value::try_from_str(alloc, "log")?)?;
    list.push(Value::try_from_str(alloc, text(name))?)?;
    with_operands(alloc, list, used(args))
}

fn send_value(alloc: Global, target: &[u8], msg: &[u8], args: &Args) -> Result<Value, AllocError>
    ensures { IfOk result (λ v. view v ≡ act_of (codes "send") (item (text_data target.now) (item (text_data msg.now) (args_data args.now)))) }
{
    let mut list = Vec::new(alloc);
    list.push(Value::try_from_str(alloc, "send")?)?;
    list.push(Value::try_from_str(alloc, text(target))?)?;
    list.push(Value::try_from_str(alloc, text(msg))?)?;
    with_operands(alloc, list, used(args))
}

fn no_act(alloc: Global) -> Value
    ensures { view result ≡ array no_items }
{
    Value::Array(Vec::new(alloc))
}

/// An act.
fn act_value(
    alloc: Global,
    scene: &SceneParts,
    agent: &AgentDef,
    instr: Instr,
) -> Result<Value, AllocError>
    ensures { IfOk result (λ v. view v ≡ act_data scene.now agent.now instr) }
{
    match instr {
        Instr::Set { to, a } => set_value(alloc, to, a),
        Instr::Add { to, a, b } => compute_value(alloc, "add", to, a, b),
        Instr::Sub { to, a, b } => compute_value(alloc, "sub", to, a, b),
        Instr::Mul { to, a, b } => compute_value(alloc, "mul", to, a, b),
        Instr::If { a, cmp, b, count } => if_value(alloc, a, cmp, b, count),
        Instr::Skip { count } => with_count(alloc, "skip", count),
        Instr::Throw { a } => with_operand(alloc, "throw", a),
        Instr::Log { text, args } => log_value(alloc, text_bytes(scene, text), &args),
        Instr::Send { target, msg, args } => send_value(
            alloc,
            target_name(scene, target),
            message_name(scene, msg),
            &args,
        ),
        Instr::Switch { to } => with_name(alloc, "switch", state_name(agent, to)),
        Instr::Subscribe { row } => with_name(alloc, "subscribe", row_name(agent, row)),
        Instr::Unsubscribe { row } => with_name(alloc, "unsubscribe", row_name(agent, row)),
        Instr::SetFilter { filter } => with_name(alloc, "set_filter", filter_name(agent, filter)),
        Instr::DropFilter { filter } => with_name(alloc, "drop_filter", filter_name(agent, filter)),
        Instr::Register { coop } => with_name(alloc, "register", coop_name(scene, coop)),
        Instr::Deregister { coop } => with_name(alloc, "deregister", coop_name(scene, coop)),
        Instr::Stop => json!(in alloc; ["stop"]),
        Instr::Delayed { .. } => Ok(no_act(alloc)),
        Instr::Timer { .. } => Ok(no_act(alloc)),
        Instr::Cancel { .. } => Ok(no_act(alloc)),
        Instr::Close { .. } => Ok(no_act(alloc)),
        Instr::Receive { .. } => Ok(no_act(alloc)),
        Instr::Case { .. } => Ok(no_act(alloc)),
        Instr::Back => Ok(no_act(alloc)),
        Instr::End { .. } => Ok(no_act(alloc)),
    }
}

fn is_end(instr: &Instr) -> bool
    ensures { result ≡ is_end instr.now }
{
    matches!(instr, Instr::End { .. })
}

/// The acts up to the next end.
pub(crate) fn acts_value(
    alloc: Global,
    scene: &SceneParts,
    agent: &AgentDef,
    code: &[Instr],
) -> Result<Value, AllocError>
    ensures { IfOk result (λ v. view v ≡ acts_data scene.now agent.now (acts_in code.now)) }
{
    let mut list = Vec::new(alloc);
    for instr in code {
        if is_end(instr) {
            return Ok(Value::Array(list));
        }
        list.push(act_value(alloc, scene, agent, *instr)?)?;
    }
    Ok(Value::Array(list))
}

fn past(code: &[Instr], at: usize) -> &[Instr]
    requires { at < length code.now }
    ensures { result.now ≡ drop (at + 1) code.now }
{
    &code[at + 1..]
}

/// What stands behind the next end.
pub(crate) fn behind(code: &[Instr]) -> &[Instr]
    ensures { result.now ≡ behind code.now }
{
    for (at, instr) in code.iter().enumerate() {
        if is_end(instr) {
            return past(code, at);
        }
    }
    &[]
}
