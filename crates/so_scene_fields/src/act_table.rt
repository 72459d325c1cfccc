//! The words of acts, what stands behind each, and which may stand where.

ghost use Rattle.std.specs.Prelude.{◌≡◌, option_map};
ghost use Rattle.serde_json.specs.View.{view, items_view};
ghost use Rattle.so_scene_fields.specs.ActTable.{word_named, args_of, needed_of, is_to_temporary, is_safe_act, is_allowed, handler_acts};

use crate::values::{dest, is_safe};
use serde_json::Value;
use so_code::Dest;

/// The word of an act.
#[derive(Clone, Copy, PartialEq, Eq)]
pub enum Word {
    Set,
    Add,
    Sub,
    Mul,
    If,
    Skip,
    Throw,
    Log,
    Send,
    Delayed,
    Timer,
    Cancel,
    Switch,
    Subscribe,
    Unsubscribe,
    SetFilter,
    DropFilter,
    Register,
    Deregister,
    Stop,
    Close,
    Receive,
}

/// What may stand behind a word.
#[derive(Clone, Copy, PartialEq, Eq)]
pub enum Arg {
    /// A text of up to 64 bytes.
    Text,
    /// A name.
    Name,
    /// A variable or a temporary.
    Dest,
    /// A number, or what holds one.
    Operand,
    /// A comparison.
    Cmp,
    /// A number of acts that follow in the list.
    Count,
}

/// Which acts a list may hold.
#[derive(Clone, Copy, PartialEq, Eq)]
pub enum Allowed {
    /// All that are built.
    AnyAct,
    /// All but a switch: those of a state's enter and exit.
    NoSwitch,
    /// Those that change nothing which their agent keeps: those of a handler that is safe.
    Safe,
}

static SET: [Arg; 2] = [Arg::Dest, Arg::Operand];

static SUM: [Arg; 3] = [Arg::Dest, Arg::Operand, Arg::Operand];

static IF: [Arg; 4] = [Arg::Operand, Arg::Cmp, Arg::Operand, Arg::Count];

static SKIP: [Arg; 1] = [Arg::Count];

static THROW: [Arg; 1] = [Arg::Operand];

static LOG: [Arg; 5] = [
    Arg::Text,
    Arg::Operand,
    Arg::Operand,
    Arg::Operand,
    Arg::Operand,
];

static SEND: [Arg; 6] = [
    Arg::Name,
    Arg::Name,
    Arg::Operand,
    Arg::Operand,
    Arg::Operand,
    Arg::Operand,
];

static ONE_NAME: [Arg; 1] = [Arg::Name];

static STOP: [Arg; 0] = [];

/// The word that a text is.
pub(crate) fn word_by_name(text: &str) -> Option<Word>
    ensures { result ≡ word_named text.now }
{
    match text {
        "set" => Some(Word::Set),
        "add" => Some(Word::Add),
        "sub" => Some(Word::Sub),
        "mul" => Some(Word::Mul),
        "if" => Some(Word::If),
        "skip" => Some(Word::Skip),
        "throw" => Some(Word::Throw),
        "log" => Some(Word::Log),
        "send" => Some(Word::Send),
        "delayed" => Some(Word::Delayed),
        "timer" => Some(Word::Timer),
        "cancel" => Some(Word::Cancel),
        "switch" => Some(Word::Switch),
        "subscribe" => Some(Word::Subscribe),
        "unsubscribe" => Some(Word::Unsubscribe),
        "set_filter" => Some(Word::SetFilter),
        "drop_filter" => Some(Word::DropFilter),
        "register" => Some(Word::Register),
        "deregister" => Some(Word::Deregister),
        "stop" => Some(Word::Stop),
        "close" => Some(Word::Close),
        "receive" => Some(Word::Receive),
        _ => None,
    }
}

/// What stands behind the word of an act that is built.
pub(crate) fn args(word: Word) -> Option<&'static [Arg]>
    ensures { option_map (λ args. args.now) result ≡ args_of word }
{
    match word {
        Word::Set => Some(&SET),
        Word::Add | Word::Sub | Word::Mul => Some(&SUM),
        Word::If => Some(&IF),
        Word::Skip => Some(&SKIP),
        Word::Throw => Some(&THROW),
        Word::Log => Some(&LOG),
        Word::Send => Some(&SEND),
        Word::Switch => Some(&ONE_NAME),
        Word::Subscribe | Word::Unsubscribe => Some(&ONE_NAME),
        Word::SetFilter | Word::DropFilter => Some(&ONE_NAME),
        Word::Register | Word::Deregister => Some(&ONE_NAME),
        Word::Stop => Some(&STOP),
        Word::Delayed | Word::Timer | Word::Cancel | Word::Close | Word::Receive => None,
    }
}

/// How many of these must stand there.
pub(crate) fn needed(word: Word) -> usize
    ensures { result ≡ needed_of word }
{
    match word {
        Word::Set => 2,
        Word::Add | Word::Sub | Word::Mul => 3,
        Word::If => 4,
        Word::Skip => 1,
        Word::Throw => 1,
        Word::Log => 1,
        Word::Send => 2,
        Word::Switch => 1,
        Word::Subscribe | Word::Unsubscribe => 1,
        Word::SetFilter | Word::DropFilter => 1,
        Word::Register | Word::Deregister => 1,
        _ => 0,
    }
}

/// Tells whether the first item behind a word is a temporary.
fn is_to_temporary(list: &[Value]) -> bool
    ensures { result ≡ is_to_temporary (items_view list.now) }
{
    match list {
        [first, ..] => match dest(first) {
            Ok(Dest::Temp(_)) => true,
            Ok(Dest::Var(_)) => false,
            Err(_) => false,
        },
        [] => false,
    }
}

/// Tells whether an act of this word and these items changes nothing that its agent keeps: no variable, state,
/// subscription, filter or timer.
fn is_safe_act(word: Word, list: &[Value]) -> bool
    ensures { result ≡ is_safe_act word (items_view list.now) }
{
    match word {
        Word::Set | Word::Add | Word::Sub | Word::Mul => is_to_temporary(list),
        Word::Timer | Word::Cancel | Word::Switch => false,
        Word::Subscribe | Word::Unsubscribe => false,
        Word::SetFilter | Word::DropFilter => false,
        _ => true,
    }
}

/// Tells whether an act of this word and these items may stand in such a list.
pub fn is_allowed(allowed: Allowed, word: Word, list: &[Value]) -> bool
    ensures { result ≡ is_allowed allowed word (items_view list.now) }
{
    match allowed {
        Allowed::AnyAct => true,
        Allowed::NoSwitch => word != Word::Switch,
        Allowed::Safe => is_safe_act(word, list),
    }
}

/// Which acts the handler of a row may hold.
pub fn handler_acts(row: &Value) -> Allowed
    ensures { result ≡ handler_acts (view row.now) }
{
    if is_safe(row) {
        Allowed::Safe
    } else {
        Allowed::AnyAct
    }
}
