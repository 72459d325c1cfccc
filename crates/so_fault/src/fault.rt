//! Why bytes give no scene.

ghost use Rattle.std.specs.Prelude.{◌≡◌, option_map};
ghost use Rattle.so_fault.specs.Faults.{fault_word, fault_place, tree_word};
ghost use Rattle.so_fault.specs.declared.fault.SceneRefusal.TheVariants as refusal;

use crate::place::ScenePlace;
use so_ids::NoMemory;
use so_state::TreeFault;
use std::alloc::AllocError;

/// The first fault of a scene's bytes, with its place.
#[derive(Drop)]
pub enum SceneFault {
    /// The bytes have no JSON reading.
    NotJson,
    /// A version that is an integer and isn't 1.
    BadVersion(ScenePlace),
    /// A required field is absent.
    Missing(ScenePlace),
    /// A value that isn't of the kind that is asked for, or an object with a key or without a field that its
    /// kind forbids or wants.
    WrongShape(ScenePlace),
    /// A name that an earlier one of its name space has.
    Twice(ScenePlace),
    /// A name that nothing has.
    UnknownName(ScenePlace),
    /// A number, or the length of a list, that isn't in its range.
    OutOfRange(ScenePlace),
    /// A rule of state trees that an agent's states break, at the state that the fault names.
    Tree(ScenePlace, TreeFault),
    /// A field, an act or a scene of a kind that this version doesn't play yet.
    NotBuilt(ScenePlace),
}

/// Why there is no scene.
#[derive(Drop)]
pub enum SceneRefusal {
    Fault(SceneFault),
    NoMemory,
}

impl From<NoMemory> for SceneRefusal {
    ghost from_gives = { λ _ e. e ≡ refusal.NoMemory };

    fn from(_refused: NoMemory) -> SceneRefusal {
        SceneRefusal::NoMemory
    }
}

impl From<AllocError> for SceneRefusal {
    ghost from_gives = { λ _ e. e ≡ refusal.NoMemory };

    fn from(_refused: AllocError) -> SceneRefusal {
        SceneRefusal::NoMemory
    }
}

impl SceneFault {
    /// Its word.
    pub fn word(&self) -> &'static str
        ensures { result.now ≡ fault_word self.now }
    {
        match self {
            SceneFault::NotJson => "not_json",
            SceneFault::BadVersion(_) => "bad_version",
            SceneFault::Missing(_) => "missing",
            SceneFault::WrongShape(_) => "wrong_shape",
            SceneFault::Twice(_) => "twice",
            SceneFault::UnknownName(_) => "unknown_name",
            SceneFault::OutOfRange(_) => "out_of_range",
            SceneFault::Tree(_, fault) => tree_word(*fault),
            SceneFault::NotBuilt(_) => "not_built",
        }
    }

    /// Its place; `None` exactly for bytes without a reading.
    pub fn place(&self) -> Option<&ScenePlace>
        ensures { option_map (λ place. place.now) result ≡ fault_place self.now }
    {
        match self {
            SceneFault::NotJson => None,
            SceneFault::BadVersion(place) => Some(place),
            SceneFault::Missing(place) => Some(place),
            SceneFault::WrongShape(place) => Some(place),
            SceneFault::Twice(place) => Some(place),
            SceneFault::UnknownName(place) => Some(place),
            SceneFault::OutOfRange(place) => Some(place),
            SceneFault::Tree(place, _) => Some(place),
            SceneFault::NotBuilt(place) => Some(place),
        }
    }
}

/// The word of a fault of a state tree.
fn tree_word(fault: TreeFault) -> &'static str
    ensures { result.now ≡ tree_word fault }
{
    match fault {
        TreeFault::UnknownState(_) => "unknown_state",
        TreeFault::CycleOfParents(_) => "cycle_of_parents",
        TreeFault::TooDeep(_) => "too_deep",
        TreeFault::NoInitial(_) => "no_initial",
        TreeFault::TwoInitials(_) => "two_initials",
    }
}
