//! A checked list of states, and what can be read of it.

ghost use Rattle.std.specs.Prelude.{◌≡◌, ◌<◌, ◌≤◌, ◌↔◌, [], All, IsTrue, length, vec_len};
ghost use Rattle.so_state.specs.Fault.{checked, IsTree};

use crate::faults::{TreeFault, tree_fault};
use crate::list::{StateList, is_on, path_of, reversed};
use crate::states::{History, State, initial_of, is_composite, parent_of, state_of};
use so_ids::StateId;
use std::alloc::Global;
use std::marker::Model;

/// The declared states of an agent, at most 63, which break no rule of state trees.
#[derive(Drop)]
pub struct Tree {
    states: Vec<State>,
}

impl Model for Tree {
    ghost use Rattle.std.specs.Prelude.{List};
    ghost use Rattle.so_state.specs.declared.states.State.{State};
    ghost use Rattle.so_state.specs.Fault.{IsTree};

    ghost Value = { List State };

    ghost view = { λ t. t.states.items };

    ghost invariant = { λ t. IsTree t.states.items };
}

impl Tree {
    /// The tree of these states, or the first rule that one of them breaks with the least state that
    /// does. The rules are tried in the order of [`TreeFault`].
    pub fn check(states: Vec<State>) -> Result<Tree, TreeFault>
        requires { vec_len states ≤ 63 }
        ensures { result ≡ checked states.items }
    {
        match tree_fault(&states) {
            None => Ok(Tree { states }),
            Some(fault) => Err(fault),
        }
    }

    /// The tree of an agent that declares no state, and so is always in `default`.
    #[tactic(auto, using(crate::proofs::TreeFacts::flats))]
    pub fn flat(alloc: Global) -> Tree
        ensures { result ≡ [] }
    {
        Tree {
            states: Vec::new(alloc),
        }
    }

    /// The declared states: element k, from 0, is state k + 1.
    pub fn states(&self) -> &[State]
        ensures states { result.now ≡ self.now }
        ensures rules { IsTree self.now }
    {
        &self.states
    }

    /// Gives the list of states back.
    pub fn into_states(self) -> Vec<State>
        ensures { result.items ≡ self }
    {
        let Tree { states } = self;
        states
    }
}

impl Tree {
    ghost use Rattle.so_state.specs.States.{state_of, parent_of, initial_of, history_of, limit_of, is_leaf, is_or_below, ancestors, path};
    ghost use Rattle.std.specs.Prelude.{reverse};

    /// How many states are declared.
    pub fn len(&self) -> usize
        ensures count { result ≡ length self.now }
        ensures few { result ≤ 63 }
    {
        self.states.len()
    }

    /// Tells whether the agent declares no state.
    pub fn is_empty(&self) -> bool
        ensures { IsTrue result ↔ (self.now ≡ []) }
    {
        self.states.is_empty()
    }

    /// What was declared of a state, `None` exactly where it isn't declared.
    pub fn state(&self, s: StateId) -> Option<State>
        ensures { result ≡ state_of self.now s }
    {
        state_of(&self.states, s)
    }

    /// The parent of a state.
    pub fn parent(&self, s: StateId) -> Option<StateId>
        ensures { result ≡ parent_of self.now s }
    {
        parent_of(&self.states, s)
    }

    /// The initial substate of a state, `None` exactly where it has no substate.
    pub fn initial(&self, s: StateId) -> Option<StateId>
        ensures { result ≡ initial_of self.now s }
    {
        initial_of(&self.states, s)
    }

    /// The history of a state, which is `None` where none was declared.
    pub fn history(&self, s: StateId) -> History
        ensures { result ≡ history_of self.now s }
    {
        self.state(s).map_or(History::None, |state| state.history)
    }

    /// The time limit of a state, in milliseconds, and the state to switch to.
    pub fn limit(&self, s: StateId) -> Option<(u32, StateId)>
        ensures { result ≡ limit_of self.now s }
    {
        self.state(s)?.limit
    }

    /// Tells whether a state has no substate, and so can be an agent's current state.
    pub fn is_leaf(&self, s: StateId) -> bool
        ensures { result ≡ is_leaf self.now s }
    {
        !is_composite(&self.states, s)
    }

    /// Tells whether `low` is the state or lies below it: an agent in the leaf `low` is in the state
    /// (SObjectizer's `is_active`).
    pub fn is_or_below(&self, s: StateId, low: StateId) -> bool
        ensures { result ≡ is_or_below self.now s low }
    {
        is_on(self.path(low).as_slice(), s)
    }

    /// A state and its ancestors, from inner to outer.
    #[tactic(auto, using(crate::proofs::TreeFacts::fits))]
    pub fn path(&self, s: StateId) -> StateList
        ensures path { result ≡ path self.now s }
        ensures fits { length result ≤ 16 }
        ensures above { All (λ a. a.0 < 64) (ancestors self.now s) }
    {
        path_of(&self.states, s)
    }

    /// A state and its ancestors, from outer to inner.
    pub fn path_down(&self, s: StateId) -> StateList
        ensures path { result ≡ reverse (path self.now s) }
    {
        reversed(self.path(s).as_slice())
    }
}
