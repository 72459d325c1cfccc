//! What an agent remembers of the leaves that it has entered.

ghost use Rattle.std.specs.Prelude.{◌≡◌, ◌<◌, List, [], ◌∷◌, All, Some, if◌then◌else◌};
ghost use Rattle.so_ids.specs.declared.StateId.{StateId as StateNumber};
ghost use Rattle.so_state.specs.declared.states.State.{State as StateRecord};
ghost use Rattle.so_state.specs.States.{is_on};
ghost use Rattle.so_state.specs.Memory.{kept, StandsFor};

use crate::hierarchy::Tree;
use so_ids::StateId;
use std::marker::Model;

/// For each state the leaf below it that was entered last, which is all that a switch asks of the
/// leaves entered so far.
#[derive(Drop)]
pub struct Memory {
    last: [Option<StateId>; 64],
}

impl Model for Memory {
    ghost use Rattle.std.specs.Prelude.{List, Option};
    ghost use Rattle.so_ids.specs.declared.StateId.{StateId};

    ghost Value = { List (Option StateId) };

    ghost view = { λ m. m.last };
}

impl Memory {
    /// Nothing was entered yet.
    pub fn new() -> Memory
        ensures { (states : List StateRecord) → StandsFor states result [] }
    {
        Memory { last: [None; 64] }
    }

    /// The leaf below a state that was entered last.
    pub(crate) fn newest_below(&self, s: StateId) -> Option<StateId>
        ensures { result ≡ kept self.now s }
    {
        *self.last.get(s.0 as usize)?
    }
}

/// The leaf has been entered.
pub fn remember(tree: &Tree, memory: &mut Memory, leaf: StateId)
    ensures { (leaves : List StateNumber) → StandsFor tree.now memory.old leaves → StandsFor tree.now memory.new (leaf ∷ leaves) }
{
    let path = tree.path(leaf);
    write_above(&mut memory.last, path.after_first(), leaf);
}

/// Writes the leaf to the places of the states above it.
fn write_above(last: &mut [Option<StateId>; 64], above: &[StateId], leaf: StateId)
    requires { All (λ s. s.0 < 64) above.now }
    ensures { (s : StateNumber) → kept last.new s ≡ (if is_on above.now s then Some leaf else kept last.old s) }
{
    for s in above {
        last[s.0 as usize] = Some(leaf);
    }
}
