//! Writers of places and faults into a line.

ghost use Rattle.std.specs.Prelude.{◌≡◌, ◌+◌, ◌*◌, ◌≤◌, ◌++◌, length, decimal, option_map};
ghost use Rattle.std.specs.List.{flat_map};
ghost use Rattle.arrayvec.specs.ArrayVec.{array_vec_len};
ghost use Rattle.so_fault.specs.Faults.{spelling, step_words, place_words, at_words, fault_words};

use crate::fault::SceneFault;
use crate::place::{Field, PlaceStep, ScenePlace};
use so_lines::{LineBuf, put, put_word};

impl Field {
    /// Its key in the file.
    pub fn key(self) -> &'static str
        ensures key { result.now ≡ spelling self }
        ensures short { length result.now ≤ 13 }
    {
        match self {
            Field::Version => "version",
            Field::Autoshutdown => "autoshutdown",
            Field::Reaction => "reaction",
            Field::Messages => "messages",
            Field::Mboxes => "mboxes",
            Field::Chains => "chains",
            Field::Dispatchers => "dispatchers",
            Field::Coops => "coops",
            Field::Threads => "threads",
            Field::Name => "name",
            Field::Kind => "kind",
            Field::Capacity => "capacity",
            Field::Overflow => "overflow",
            Field::Wait => "wait",
            Field::Slots => "slots",
            Field::Fifo => "fifo",
            Field::Quotes => "quotes",
            Field::Parent => "parent",
            Field::AtStart => "at_start",
            Field::Agents => "agents",
            Field::Disp => "disp",
            Field::Group => "group",
            Field::Priority => "priority",
            Field::Native => "native",
            Field::Vars => "vars",
            Field::States => "states",
            Field::Limits => "limits",
            Field::Filters => "filters",
            Field::Start => "start",
            Field::Finish => "finish",
            Field::On => "on",
            Field::Initial => "initial",
            Field::History => "history",
            Field::Limit => "limit",
            Field::Enter => "enter",
            Field::Exit => "exit",
            Field::Msg => "msg",
            Field::Max => "max",
            Field::Over => "over",
            Field::Id => "id",
            Field::Mbox => "mbox",
            Field::Field => "field",
            Field::Cmp => "cmp",
            Field::Value => "value",
            Field::Active => "active",
            Field::State => "state",
            Field::Do => "do",
            Field::Switch => "switch",
            Field::Transfer => "transfer",
            Field::Suppress => "suppress",
            Field::Dead => "dead",
            Field::Safe => "safe",
            Field::Cases => "cases",
            Field::Chain => "chain",
            Field::HandleN => "handle_n",
            Field::ExtractN => "extract_n",
            Field::EmptyTimeout => "empty_timeout",
            Field::TotalTime => "total_time",
            Field::NoWait => "no_wait",
        }
    }
}

/// Appends a step, as `/start` or `/0`.
fn put_step(buf: &mut LineBuf, step: PlaceStep)
    requires { array_vec_len buf.old + 14 ≤ 512 }
    ensures items { buf.new.items ≡ buf.old.items ++ step_words step }
    ensures len { array_vec_len buf.new ≤ array_vec_len buf.old + 14 }
{
    match step {
        PlaceStep::Key(field) => {
            put(buf, b"/");
            put(buf, field.key().as_bytes());
        }
        PlaceStep::At(position) => put_word(buf, b"/", position),
    }
}

fn put_steps(buf: &mut LineBuf, steps: &[PlaceStep])
    requires { array_vec_len buf.old + 14 * length steps.now ≤ 512 }
    ensures items { buf.new.items ≡ buf.old.items ++ flat_map step_words steps.now }
    ensures len { array_vec_len buf.new ≤ array_vec_len buf.old + 14 * length steps.now }
{
    for step in steps {
        put_step(buf, *step);
    }
}

/// Appends a place, as `/coops/0/agents/1/start/0`, the root as `/`.
#[tactic(auto, unfolding(crate::specs::Faults::place_words))]
pub fn put_place(buf: &mut LineBuf, place: &ScenePlace)
    requires { array_vec_len buf.old + 224 ≤ 512 }
    ensures items { buf.new.items ≡ buf.old.items ++ place_words place.now }
    ensures len { array_vec_len buf.new ≤ array_vec_len buf.old + 224 }
{
    match place.steps() {
        [] => put(buf, b"/"),
        steps => put_steps(buf, steps),
    }
}

fn put_at(buf: &mut LineBuf, place: Option<&ScenePlace>)
    requires { array_vec_len buf.old + 228 ≤ 512 }
    ensures items { buf.new.items ≡ buf.old.items ++ at_words (option_map (λ p. p.now) place.entry) }
    ensures len { array_vec_len buf.new ≤ array_vec_len buf.old + 228 }
{
    match place {
        Some(place) => {
            put(buf, b" at ");
            put_place(buf, place);
        }
        None => {}
    }
}

/// Appends a fault, as `wrong_shape at /coops/0`.
pub fn put_fault(buf: &mut LineBuf, fault: &SceneFault)
    requires { array_vec_len buf.old + 244 ≤ 512 }
    ensures items { buf.new.items ≡ buf.old.items ++ fault_words fault.now }
    ensures len { array_vec_len buf.new ≤ array_vec_len buf.old + 244 }
{
    put(buf, fault.word().as_bytes());
    put_at(buf, fault.place());
}
