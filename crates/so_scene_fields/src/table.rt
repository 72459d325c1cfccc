//! The fields of each kind of object, in their order.

ghost use Rattle.std.specs.Prelude.{◌≡◌};
ghost use Rattle.so_scene_fields.specs.Table.{rules_of, objects_of, space_of, key_of, required, optional, later};

use crate::act_table::Allowed;
use so_fault::Field;
use so_ids::limits::{MOST_COOPS, MOST_MBOXES, MOST_MESSAGES, MOST_ROWS, MOST_SLOTS, MOST_STATES};

/// The kinds of object.
#[derive(Clone, Copy, PartialEq, Eq)]
pub enum ObjectKind {
    Scene,
    Message,
    Dispatcher,
    Coop,
    Agent,
    State,
    Filter,
    Row,
}

/// The name spaces. Each agent has its own for its states, for its rows, and for its filters.
#[derive(Clone, Copy, PartialEq, Eq)]
pub enum Space {
    Messages,
    /// The dispatchers, of which `default` is the first.
    Dispatchers,
    Coops,
    /// The agents, each of which has a mbox of its own, and the named mboxes.
    Mboxes,
    States,
    Rows,
    Filters,
}

/// What a field holds.
#[derive(Clone, Copy, PartialEq, Eq)]
pub enum Form {
    /// The number 1.
    One,
    /// A name.
    Name,
    /// A name of this space.
    NameIn(Space),
    /// A name other than `default`.
    StateName,
    /// The name of a state that the agent declares.
    DeclaredState,
    /// The name of such a state, or `default`.
    AnyState,
    /// `none`, `shallow` or `deep`.
    History,
    /// A list of at most so many names of mboxes.
    Mboxes(usize),
    /// `message` or `signal`.
    MessageKind,
    /// A kind of dispatcher.
    DispKind,
    /// `cooperation` or `individual`.
    Fifo,
    /// A list of eight numbers from 1 to 1,000, that of priority 0 first.
    Quotes,
    /// `true` or `false`.
    Flag,
    /// `true`.
    OnlyTrue,
    /// A comparison.
    Cmp,
    /// An integer of 64 bits.
    AnyNumber,
    /// A number from the first to the second.
    Number(usize, usize),
    /// A list of at most so many numbers.
    Numbers(usize),
    /// A list of objects, with its limit if it has one.
    Objects(ObjectKind, Option<usize>),
    /// A list of at most 256 acts, of those that are allowed there.
    Acts(Allowed),
    /// The same, of those that the handler of the row may hold.
    Handler,
    /// What isn't built.
    Later,
}

/// A field of an object.
#[derive(Clone, Copy, PartialEq, Eq)]
pub struct Rule {
    pub field: Field,
    pub required: bool,
    pub form: Form,
}

static SCENE: [Rule; 9] = [
    Rule {
        field: Field::Version,
        required: true,
        form: Form::One,
    },
    Rule {
        field: Field::Autoshutdown,
        required: false,
        form: Form::Flag,
    },
    Rule {
        field: Field::Reaction,
        required: false,
        form: Form::Later,
    },
    Rule {
        field: Field::Messages,
        required: false,
        form: Form::Objects(ObjectKind::Message, Some(MOST_MESSAGES)),
    },
    Rule {
        field: Field::Mboxes,
        required: false,
        form: Form::Mboxes(MOST_MBOXES),
    },
    Rule {
        field: Field::Chains,
        required: false,
        form: Form::Later,
    },
    Rule {
        field: Field::Dispatchers,
        required: false,
        form: Form::Objects(ObjectKind::Dispatcher, Some(63)),
    },
    Rule {
        field: Field::Coops,
        required: false,
        form: Form::Objects(ObjectKind::Coop, Some(MOST_COOPS)),
    },
    Rule {
        field: Field::Threads,
        required: false,
        form: Form::Later,
    },
];

static MESSAGE: [Rule; 2] = [
    Rule {
        field: Field::Name,
        required: true,
        form: Form::Name,
    },
    Rule {
        field: Field::Kind,
        required: false,
        form: Form::MessageKind,
    },
];

static DISPATCHER: [Rule; 6] = [
    Rule {
        field: Field::Name,
        required: true,
        form: Form::Name,
    },
    Rule {
        field: Field::Kind,
        required: true,
        form: Form::DispKind,
    },
    Rule {
        field: Field::Slots,
        required: false,
        form: Form::Number(1, MOST_SLOTS as usize),
    },
    Rule {
        field: Field::Threads,
        required: false,
        form: Form::Number(1, 64),
    },
    Rule {
        field: Field::Fifo,
        required: false,
        form: Form::Fifo,
    },
    Rule {
        field: Field::Quotes,
        required: false,
        form: Form::Quotes,
    },
];

static COOP: [Rule; 5] = [
    Rule {
        field: Field::Name,
        required: true,
        form: Form::Name,
    },
    Rule {
        field: Field::Parent,
        required: false,
        form: Form::NameIn(Space::Coops),
    },
    Rule {
        field: Field::AtStart,
        required: false,
        form: Form::Flag,
    },
    Rule {
        field: Field::Reaction,
        required: false,
        form: Form::Later,
    },
    Rule {
        field: Field::Agents,
        required: true,
        form: Form::Objects(ObjectKind::Agent, None),
    },
];

static AGENT: [Rule; 13] = [
    Rule {
        field: Field::Name,
        required: true,
        form: Form::Name,
    },
    Rule {
        field: Field::Disp,
        required: false,
        form: Form::NameIn(Space::Dispatchers),
    },
    Rule {
        field: Field::Group,
        required: false,
        form: Form::Name,
    },
    Rule {
        field: Field::Priority,
        required: false,
        form: Form::Number(0, 7),
    },
    Rule {
        field: Field::Reaction,
        required: false,
        form: Form::Later,
    },
    Rule {
        field: Field::Native,
        required: false,
        form: Form::Later,
    },
    Rule {
        field: Field::Vars,
        required: false,
        form: Form::Numbers(16),
    },
    Rule {
        field: Field::States,
        required: false,
        form: Form::Objects(ObjectKind::State, Some(MOST_STATES)),
    },
    Rule {
        field: Field::Limits,
        required: false,
        form: Form::Later,
    },
    Rule {
        field: Field::Filters,
        required: false,
        form: Form::Objects(ObjectKind::Filter, Some(32)),
    },
    Rule {
        field: Field::Start,
        required: false,
        form: Form::Acts(Allowed::AnyAct),
    },
    Rule {
        field: Field::Finish,
        required: false,
        form: Form::Acts(Allowed::AnyAct),
    },
    Rule {
        field: Field::On,
        required: false,
        form: Form::Objects(ObjectKind::Row, Some(MOST_ROWS)),
    },
];

static STATE: [Rule; 7] = [
    Rule {
        field: Field::Name,
        required: true,
        form: Form::StateName,
    },
    Rule {
        field: Field::Parent,
        required: false,
        form: Form::DeclaredState,
    },
    Rule {
        field: Field::Initial,
        required: false,
        form: Form::Flag,
    },
    Rule {
        field: Field::History,
        required: false,
        form: Form::History,
    },
    Rule {
        field: Field::Limit,
        required: false,
        form: Form::Later,
    },
    Rule {
        field: Field::Enter,
        required: false,
        form: Form::Acts(Allowed::NoSwitch),
    },
    Rule {
        field: Field::Exit,
        required: false,
        form: Form::Acts(Allowed::NoSwitch),
    },
];

static FILTER: [Rule; 7] = [
    Rule {
        field: Field::Id,
        required: false,
        form: Form::Name,
    },
    Rule {
        field: Field::Mbox,
        required: true,
        form: Form::NameIn(Space::Mboxes),
    },
    Rule {
        field: Field::Msg,
        required: true,
        form: Form::NameIn(Space::Messages),
    },
    Rule {
        field: Field::Field,
        required: true,
        form: Form::Number(0, 3),
    },
    Rule {
        field: Field::Cmp,
        required: true,
        form: Form::Cmp,
    },
    Rule {
        field: Field::Value,
        required: true,
        form: Form::AnyNumber,
    },
    Rule {
        field: Field::Active,
        required: false,
        form: Form::Flag,
    },
];

static ROW: [Rule; 11] = [
    Rule {
        field: Field::Id,
        required: false,
        form: Form::Name,
    },
    Rule {
        field: Field::Msg,
        required: true,
        form: Form::NameIn(Space::Messages),
    },
    Rule {
        field: Field::Mbox,
        required: false,
        form: Form::NameIn(Space::Mboxes),
    },
    Rule {
        field: Field::State,
        required: false,
        form: Form::AnyState,
    },
    Rule {
        field: Field::Do,
        required: false,
        form: Form::Handler,
    },
    Rule {
        field: Field::Switch,
        required: false,
        form: Form::AnyState,
    },
    Rule {
        field: Field::Transfer,
        required: false,
        form: Form::AnyState,
    },
    Rule {
        field: Field::Suppress,
        required: false,
        form: Form::OnlyTrue,
    },
    Rule {
        field: Field::Dead,
        required: false,
        form: Form::OnlyTrue,
    },
    Rule {
        field: Field::Safe,
        required: false,
        form: Form::Flag,
    },
    Rule {
        field: Field::Active,
        required: false,
        form: Form::Flag,
    },
];

/// The fields of an object of this kind.
pub fn rules(kind: ObjectKind) -> &'static [Rule]
    ensures { result.now ≡ rules_of kind }
{
    match kind {
        ObjectKind::Scene => &SCENE,
        ObjectKind::Message => &MESSAGE,
        ObjectKind::Dispatcher => &DISPATCHER,
        ObjectKind::Coop => &COOP,
        ObjectKind::Agent => &AGENT,
        ObjectKind::State => &STATE,
        ObjectKind::Filter => &FILTER,
        ObjectKind::Row => &ROW,
    }
}

/// The objects that a field lists.
pub(crate) fn objects(form: Form) -> Option<ObjectKind>
    ensures { result ≡ objects_of form }
{
    match form {
        Form::Objects(kind, _) => Some(kind),
        _ => None,
    }
}

/// The space in which an object declares its name, or its id if it has one.
pub fn declares(kind: ObjectKind) -> Option<Space>
    ensures { result ≡ space_of kind }
{
    match kind {
        ObjectKind::Message => Some(Space::Messages),
        ObjectKind::Dispatcher => Some(Space::Dispatchers),
        ObjectKind::Coop => Some(Space::Coops),
        ObjectKind::Agent => Some(Space::Mboxes),
        ObjectKind::State => Some(Space::States),
        ObjectKind::Row => Some(Space::Rows),
        ObjectKind::Filter => Some(Space::Filters),
        _ => None,
    }
}

/// The field that declares a name of a space.
pub fn key(space: Space) -> Field
    ensures { result ≡ key_of space }
{
    match space {
        Space::Rows | Space::Filters => Field::Id,
        _ => Field::Name,
    }
}
