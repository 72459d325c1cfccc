//! What a value stands for, or what is wrong with it.

ghost use Rattle.std.specs.Prelude.{◌≡◌, ◌≤◌, IfOk, option_map};
ghost use Rattle.serde_json.specs.View.{view};
ghost use Rattle.so_scene_fields.specs.Values.{integer_of, small_number, numbered, disp_kind_named, disp_kind_of, disp_kind_in, fifo_named, fifo_of, group_in, operand_named, operand_of, dest_named, dest_of, cmp_named, cmp_of, name_of, text_of, count_of, number_of, quote_of, is_safe, flag_of, only_true, read_or, history_named, history_of, string_in, name_in, id_in, Views};

use serde_json::Value;
use so_code::{Cmp, Dest, Operand};
use so_scene::{DispKind, Fifo, Name, is_name, is_text};
use so_state::History;

/// What is wrong with a value whose place is known elsewhere.
#[derive(Clone, Copy, PartialEq, Eq)]
pub enum Trouble {
    WrongShape,
    OutOfRange,
    UnknownName,
    NotBuilt,
}

/// An integer of 64 bits.
pub fn integer(value: &Value) -> Result<i64, Trouble>
    ensures { result ≡ integer_of (view value.now) }
{
    match value.as_number() {
        Some(number) => number.as_i64().ok_or(Trouble::OutOfRange),
        None => Err(Trouble::WrongShape),
    }
}

/// A number from 0 to 19 in decimal.
fn small(digits: &[u8]) -> Option<u8>
    ensures { result ≡ small_number digits.now }
{
    match digits {
        [a] => if a.is_ascii_digit() {
            Some(*a - 48)
        } else {
            None
        },
        [49, b] => if b.is_ascii_digit() {
            Some(*b - 38)
        } else {
            None
        },
        _ => None,
    }
}

/// The number behind the letter, below the limit.
#[tactic(auto, unfolding(crate::specs::Values::numbered))]
fn after(letter: u8, limit: u8, text: &[u8]) -> Option<u8>
    ensures { result ≡ numbered letter limit text.now }
{
    let [first, digits @ ..] = text else {
        return None;
    };
    if *first != letter {
        return None;
    }
    let number = small(digits)?;
    if number < limit { Some(number) } else { None }
}

fn operand_by_name(text: &str) -> Option<Operand>
    ensures { result ≡ operand_named text.now }
{
    let bytes = text.as_bytes();
    if let Some(n) = after(b'v', 16, bytes) {
        return Some(Operand::Var(n));
    }
    if let Some(n) = after(b'm', 4, bytes) {
        return Some(Operand::Msg(n));
    }
    if let Some(n) = after(b't', 4, bytes) {
        return Some(Operand::Temp(n));
    }
    if text == "ans" {
        Some(Operand::Ans)
    } else {
        None
    }
}

/// What an act reads.
pub fn operand(value: &Value) -> Result<Operand, Trouble>
    ensures { result ≡ operand_of (view value.now) }
{
    if value.is_number() {
        return integer(value).map(Operand::Num);
    }
    match value.as_str() {
        Some(text) => operand_by_name(text).ok_or(Trouble::WrongShape),
        None => Err(Trouble::WrongShape),
    }
}

fn dest_by_name(text: &str) -> Option<Dest>
    ensures { result ≡ dest_named text.now }
{
    let bytes = text.as_bytes();
    if let Some(n) = after(b'v', 16, bytes) {
        return Some(Dest::Var(n));
    }
    after(b't', 4, bytes).map(Dest::Temp)
}

/// What an act writes.
pub fn dest(value: &Value) -> Result<Dest, Trouble>
    ensures { result ≡ dest_of (view value.now) }
{
    match value.as_str() {
        Some(text) => dest_by_name(text).ok_or(Trouble::WrongShape),
        None => Err(Trouble::WrongShape),
    }
}

fn cmp_by_name(text: &str) -> Option<Cmp>
    ensures { result ≡ cmp_named text.now }
{
    match text {
        "==" => Some(Cmp::Eq),
        "!=" => Some(Cmp::Ne),
        "<" => Some(Cmp::Lt),
        "<=" => Some(Cmp::Le),
        ">" => Some(Cmp::Gt),
        ">=" => Some(Cmp::Ge),
        _ => None,
    }
}

/// How two numbers are compared.
pub fn comparison(value: &Value) -> Result<Cmp, Trouble>
    ensures { result ≡ cmp_of (view value.now) }
{
    match value.as_str() {
        Some(text) => cmp_by_name(text).ok_or(Trouble::WrongShape),
        None => Err(Trouble::WrongShape),
    }
}

/// A name.
pub fn name(value: &Value) -> Result<&str, Trouble>
    ensures { Views result (name_of (view value.now)) }
{
    match value.as_str() {
        Some(text) => if is_name(text.as_bytes()) {
            Ok(text)
        } else {
            Err(Trouble::WrongShape)
        },
        None => Err(Trouble::WrongShape),
    }
}

/// A text.
pub fn text(value: &Value) -> Result<&str, Trouble>
    ensures { Views result (text_of (view value.now)) }
{
    match value.as_str() {
        Some(text) => if is_text(text.as_bytes()) {
            Ok(text)
        } else {
            Err(Trouble::WrongShape)
        },
        None => Err(Trouble::WrongShape),
    }
}

/// A number of acts, of so many that follow.
pub fn count(rest: usize, value: &Value) -> Result<usize, Trouble>
    ensures { result ≡ count_of rest (view value.now) }
{
    let number = integer(value)?;
    if number < 0 {
        return Err(Trouble::OutOfRange);
    }
    let number = number as usize;
    if number > rest {
        Err(Trouble::OutOfRange)
    } else {
        Ok(number)
    }
}

/// A number from `low` to `high`.
pub fn number(low: usize, high: usize, value: &Value) -> Result<usize, Trouble>
    ensures value { result ≡ number_of low high (view value.now) }
    ensures range { IfOk result (λ n. n ≤ high) }
{
    let number = count(high, value)?;
    if number < low {
        Err(Trouble::OutOfRange)
    } else {
        Ok(number)
    }
}

/// How many events of a priority are taken in its turn.
pub fn quote(value: &Value) -> Result<usize, Trouble>
    ensures value { result ≡ quote_of (view value.now) }
    ensures range { IfOk result (λ n. n ≤ 1000) }
{
    number(1, 1000, value)
}

/// `true` or `false`.
pub fn flag(value: &Value) -> Result<bool, Trouble>
    ensures { result ≡ flag_of (view value.now) }
{
    value.as_bool().ok_or(Trouble::WrongShape)
}

/// The flag of a field, this one where it has none.
pub fn flag_or(default: bool, found: Option<&Value>) -> bool
    ensures { result ≡ read_or default flag_of (option_map (λ v. view v.now) found.entry) }
{
    match found {
        Some(value) => match flag(value) {
            Ok(flag) => flag,
            Err(_) => default,
        },
        None => default,
    }
}

/// Tells whether the handler of a row is marked as thread-safe.
pub fn is_safe(row: &Value) -> bool
    ensures { result ≡ is_safe (view row.now) }
{
    flag_or(false, row.get("safe"))
}

/// `true`.
pub fn only_true(value: &Value) -> Result<bool, Trouble>
    ensures { result ≡ only_true (view value.now) }
{
    if flag(value)? {
        Ok(true)
    } else {
        Err(Trouble::WrongShape)
    }
}

fn history_by_name(text: &str) -> Option<History>
    ensures { result ≡ history_named text.now }
{
    match text {
        "none" => Some(History::None),
        "shallow" => Some(History::Shallow),
        "deep" => Some(History::Deep),
        _ => None,
    }
}

/// The history of a state.
pub fn history(value: &Value) -> Result<History, Trouble>
    ensures { result ≡ history_of (view value.now) }
{
    match value.as_str() {
        Some(text) => history_by_name(text).ok_or(Trouble::WrongShape),
        None => Err(Trouble::WrongShape),
    }
}

fn disp_kind_by_name(text: &str) -> Option<DispKind>
    ensures { result ≡ disp_kind_named text.now }
{
    match text {
        "one_thread" => Some(DispKind::OneThread),
        "active_obj" => Some(DispKind::ActiveObj),
        "active_group" => Some(DispKind::ActiveGroup),
        "thread_pool" => Some(DispKind::ThreadPool),
        "adv_thread_pool" => Some(DispKind::AdvThreadPool),
        "strictly_ordered" => Some(DispKind::StrictlyOrdered),
        "quoted_round_robin" => Some(DispKind::QuotedRoundRobin),
        "one_per_prio" => Some(DispKind::OnePerPrio),
        _ => None,
    }
}

/// A kind of dispatcher.
pub fn disp_kind(value: &Value) -> Result<DispKind, Trouble>
    ensures { result ≡ disp_kind_of (view value.now) }
{
    match value.as_str() {
        Some(text) => disp_kind_by_name(text).ok_or(Trouble::WrongShape),
        None => Err(Trouble::WrongShape),
    }
}

/// The kind of a dispatcher, `one_thread` where it has none.
pub fn disp_kind_in(value: &Value) -> DispKind
    ensures { result ≡ disp_kind_in (view value.now) }
{
    match value.get("kind") {
        Some(value) => match disp_kind(value) {
            Ok(kind) => kind,
            Err(_) => DispKind::OneThread,
        },
        None => DispKind::OneThread,
    }
}

fn fifo_by_name(text: &str) -> Option<Fifo>
    ensures { result ≡ fifo_named text.now }
{
    match text {
        "cooperation" => Some(Fifo::Cooperation),
        "individual" => Some(Fifo::Individual),
        _ => None,
    }
}

/// Which agents of a pool share a queue.
pub fn fifo(value: &Value) -> Result<Fifo, Trouble>
    ensures { result ≡ fifo_of (view value.now) }
{
    match value.as_str() {
        Some(text) => fifo_by_name(text).ok_or(Trouble::WrongShape),
        None => Err(Trouble::WrongShape),
    }
}

/// The string of a field, empty where it has none.
pub fn string_in<'v>(value: &'v Value, key: &str) -> &'v str
    ensures { result.now ≡ string_in key.now (view value.now) }
{
    match value.get(key) {
        Some(found) => match found.as_str() {
            Some(text) => text,
            None => "",
        },
        None => "",
    }
}

/// The name of an object, empty where it has none.
pub fn name_in(value: &Value) -> &str
    ensures { result.now ≡ name_in (view value.now) }
{
    let text = string_in(value, "name");
    if is_name(text.as_bytes()) { text } else { "" }
}

/// The name of an object, of no bytes where it has none.
pub fn object_name(value: &Value) -> Name
    ensures { result ≡ name_in (view value.now) }
{
    match Name::of(name_in(value)) {
        Some(name) => name,
        None => Name::none(),
    }
}

/// The id of an object, if it has one.
pub fn id_in(value: &Value) -> Option<Name>
    ensures { result ≡ id_in (view value.now) }
{
    Name::of(string_in(value, "id"))
}

/// The group of an agent, if it has one.
pub fn group_in(value: &Value) -> Option<Name>
    ensures { result ≡ group_in (view value.now) }
{
    Name::of(string_in(value, "group"))
}
