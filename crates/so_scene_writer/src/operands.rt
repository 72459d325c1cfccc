//! Operands and comparisons as values.

ghost use Rattle.std.specs.Prelude.{◌≡◌, IfOk};
ghost use Rattle.serde_json.specs.View.{view};
ghost use Rattle.so_scene_data.specs.ActData.{var_word, field_word, temp_word, operand_data, dest_data, cmp_data, cmp_word, count_data};

use serde_json::Value;
use so_code::{Cmp, Dest, Operand};
use std::alloc::{AllocError, Global};

fn var_word(k: u8) -> &'static str
    ensures { result.now ≡ var_word k }
{
    match k {
        0 => "v0",
        1 => "v1",
        2 => "v2",
        3 => "v3",
        4 => "v4",
        5 => "v5",
        6 => "v6",
        7 => "v7",
        8 => "v8",
        9 => "v9",
        10 => "v10",
        11 => "v11",
        12 => "v12",
        13 => "v13",
        14 => "v14",
        15 => "v15",
        _ => "",
    }
}

fn field_word(k: u8) -> &'static str
    ensures { result.now ≡ field_word k }
{
    match k {
        0 => "m0",
        1 => "m1",
        2 => "m2",
        3 => "m3",
        _ => "",
    }
}

fn temp_word(k: u8) -> &'static str
    ensures { result.now ≡ temp_word k }
{
    match k {
        0 => "t0",
        1 => "t1",
        2 => "t2",
        3 => "t3",
        _ => "",
    }
}

/// An operand: a number or a word.
pub(crate) fn operand_value(alloc: Global, operand: Operand) -> Result<Value, AllocError>
    ensures { IfOk result (λ v. view v ≡ operand_data operand) }
{
    match operand {
        Operand::Num(number) => Ok(Value::from(number)),
        Operand::Var(k) => Value::try_from_str(alloc, var_word(k)),
        Operand::Msg(k) => Value::try_from_str(alloc, field_word(k)),
        Operand::Temp(k) => Value::try_from_str(alloc, temp_word(k)),
        Operand::Ans => Value::try_from_str(alloc, "ans"),
    }
}

/// What an act writes.
pub(crate) fn dest_value(alloc: Global, dest: Dest) -> Result<Value, AllocError>
    ensures { IfOk result (λ v. view v ≡ dest_data dest) }
{
    match dest {
        Dest::Var(k) => Value::try_from_str(alloc, var_word(k)),
        Dest::Temp(k) => Value::try_from_str(alloc, temp_word(k)),
    }
}

fn cmp_word(cmp: Cmp) -> &'static str
    ensures { result.now ≡ cmp_word cmp }
{
    match cmp {
        Cmp::Eq => "==",
        Cmp::Ne => "!=",
        Cmp::Lt => "<",
        Cmp::Le => "<=",
        Cmp::Gt => ">",
        Cmp::Ge => ">=",
    }
}

/// A comparison.
pub(crate) fn cmp_value(alloc: Global, cmp: Cmp) -> Result<Value, AllocError>
    ensures { IfOk result (λ v. view v ≡ cmp_data cmp) }
{
    Value::try_from_str(alloc, cmp_word(cmp))
}

/// A count.
pub(crate) fn count_value(count: u32) -> Value
    ensures { view result ≡ count_data count }
{
    Value::from(count)
}
