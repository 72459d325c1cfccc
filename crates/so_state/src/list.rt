//! A list of at most sixteen states, in place.

ghost use Rattle.std.specs.Prelude.{◌≡◌, ◌<◌, ◌≤◌, [], ◌∷◌, ◌++◌, length, drop, filter, reverse, not};
ghost use Rattle.so_state.specs.Plan.{padded};
ghost use Rattle.so_state.specs.States.{path, is_on};

use crate::states::{State, parent_of};
use so_ids::StateId;
use std::marker::Model;

/// A list of at most sixteen states, as many as a tree is deep.
#[derive(Drop)]
pub struct StateList {
    list: [StateId; 16],
    used: usize,
}

impl Model for StateList {
    ghost use Rattle.std.specs.Prelude.{List, take};
    ghost use Rattle.so_ids.specs.declared.StateId.{StateId};
    ghost use Rattle.so_state.specs.Padded.{IsPadded};

    ghost Value = { List StateId };

    ghost view = { λ p. take p.used p.list };

    ghost invariant = { λ p. IsPadded p.used p.list };
}

impl StateList {
    /// The states, in order.
    pub fn as_slice(&self) -> &[StateId]
        ensures { result.now ≡ self.now }
    {
        &self.list[..self.used]
    }

    pub(crate) fn new() -> StateList
        ensures { result ≡ [] }
    {
        StateList {
            list: [StateId(0); 16],
            used: 0,
        }
    }

    #[tactic(auto, using(crate::proofs::Padded::pads))]
    pub(crate) fn push(&mut self, s: StateId)
        requires { length self.old < 16 }
        ensures { self.new ≡ self.old ++ s ∷ [] }
    {
        self.list[self.used] = s;
        self.used += 1;
    }

    /// All but the first.
    #[tactic(auto, using(crate::proofs::Padded::pads))]
    pub(crate) fn after_first(&self) -> &[StateId]
        requires { 0 < length self.now }
        ensures { result.now ≡ drop 1 self.now }
    {
        &self.list[1..self.used]
    }

    /// The sixteen places, and how many are used.
    #[tactic(auto, using(crate::proofs::Padded::pads))]
    pub(crate) fn into_parts(self) -> ([StateId; 16], u8)
        ensures places { result.0 ≡ padded self }
        ensures used { result.1 ≡ length self }
    {
        let StateList { list, used } = self;
        (list, used as u8)
    }
}

/// The state and its ancestors, from inner to outer.
#[tactic(auto, using(crate::proofs::Walk::steps))]
pub(crate) fn path_of(states: &[State], s: StateId) -> StateList
    requires { length (path states.now s) ≤ 16 }
    ensures { result ≡ path states.now s }
{
    let mut list = StateList::new();
    list.push(s);
    let mut at = s;
    for _step in 0..states.len() {
        match parent_of(states, at) {
            None => return list,
            Some(parent) => {
                list.push(parent);
                at = parent;
            }
        }
    }
    list
}

/// Tells whether the state is in the list.
pub(crate) fn is_on(list: &[StateId], s: StateId) -> bool
    ensures { result ≡ is_on list.now s }
{
    list.iter().any(|other| s == *other)
}

/// The states of a list that are not in the other one.
pub(crate) fn outside(list: &[StateId], other: &[StateId]) -> StateList
    requires { length list.now ≤ 16 }
    ensures states { result ≡ filter (λ s. not (is_on other.now s)) list.now }
    ensures fits { length result ≤ 16 }
{
    let mut rest = StateList::new();
    for s in list {
        if !is_on(other, *s) {
            rest.push(*s);
        }
    }
    rest
}

/// The list from its end.
pub(crate) fn reversed(list: &[StateId]) -> StateList
    requires { length list.now ≤ 16 }
    ensures { result ≡ reverse list.now }
{
    let mut back = StateList::new();
    for index in 0..list.len() {
        back.push(list[list.len() - 1 - index]);
    }
    back
}
