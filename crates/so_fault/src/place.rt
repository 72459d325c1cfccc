//! Where in a scene's file a fault lies.

ghost use Rattle.std.specs.Prelude.{◌≡◌, ◌<◌, ◌≤◌, length, [], ◌∷◌, ◌++◌};

use arrayvec::ArrayVec;
use std::marker::Model;

/// The names of fields, in the order in which the objects of a scene have them.
#[derive(Clone, Copy, PartialEq, Eq)]
pub enum Field {
    Version,
    Autoshutdown,
    Reaction,
    Messages,
    Mboxes,
    Chains,
    Dispatchers,
    Coops,
    Threads,
    Name,
    Kind,
    Capacity,
    Overflow,
    Wait,
    Slots,
    Fifo,
    Quotes,
    Parent,
    AtStart,
    Agents,
    Disp,
    Group,
    Priority,
    Native,
    Vars,
    States,
    Limits,
    Filters,
    Start,
    Finish,
    On,
    Initial,
    History,
    Limit,
    Enter,
    Exit,
    Msg,
    Max,
    Over,
    Id,
    Mbox,
    Field,
    Cmp,
    Value,
    Active,
    State,
    Do,
    Switch,
    Transfer,
    Suppress,
    Dead,
    Safe,
    Cases,
    Chain,
    HandleN,
    ExtractN,
    EmptyTimeout,
    TotalTime,
    NoWait,
}

/// A step from a value to one inside it.
#[derive(Clone, Copy, PartialEq, Eq)]
pub enum PlaceStep {
    /// To the value of a field.
    Key(Field),
    /// To the item of a list at this position, from 0.
    At(u32),
}

impl Default for PlaceStep {
    /// To the first item.
    fn default() -> PlaceStep
        ensures { result ≡ PlaceStep.At 0 }
    {
        PlaceStep::At(0)
    }
}

/// A path of at most 16 steps from the root of the file, as the list of its steps.
#[derive(Drop)]
pub struct ScenePlace {
    steps: ArrayVec<PlaceStep, 16>,
}

impl Model for ScenePlace {
    ghost use Rattle.std.specs.Prelude.{◌≤◌, List, length};
    ghost use Rattle.so_fault.specs.declared.place.PlaceStep.{PlaceStep};

    ghost Value = { List PlaceStep };

    ghost view = { λ place. place.steps.items };

    ghost invariant = { λ place. length place.steps.items ≤ 16 };
}

impl ScenePlace {
    /// The root of the file.
    pub fn root() -> ScenePlace
        ensures { result ≡ [] }
    {
        ScenePlace {
            steps: ArrayVec::new(),
        }
    }

    /// The steps from the root.
    pub fn steps(&self) -> &[PlaceStep]
        ensures value { result.now ≡ self.now }
        ensures few { length result.now ≤ 16 }
    {
        self.steps.as_slice()
    }

    /// The place one step further in.
    pub fn step(&self, step: PlaceStep) -> ScenePlace
        requires { length self.now < 16 }
        ensures { result ≡ self.now ++ step ∷ [] }
    {
        let mut place = self.copy();
        place.steps.push(step);
        place
    }

    /// The same place.
    pub fn copy(&self) -> ScenePlace
        ensures { result ≡ self.now }
    {
        let mut steps = ArrayVec::new();
        for step in self.steps.as_slice() {
            steps.push(*step);
        }
        ScenePlace { steps }
    }
}
