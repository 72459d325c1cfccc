//! What is declared of a state, and the look-ups in a list of declared states.

ghost use Rattle.std.specs.Prelude.{◌≡◌, ◌<◌, ◌≤◌, length, position, IfSome};
ghost use Rattle.so_state.specs.States.{is_this, state_of, parent_of, is_substate_of, is_initial_of, is_composite, initial_of};

use so_ids::StateId;

/// Where a switch to a composite state leads once a state below it was entered (SObjectizer's
/// `history_t`).
#[derive(Clone, Copy, PartialEq, Eq)]
pub enum History {
    /// To its initial substate.
    None,
    /// To its substate that was entered last.
    Shallow,
    /// To the leaf below it that was entered last.
    Deep,
}

/// A declared state (SObjectizer's `state_t`).
#[derive(Clone, Copy, PartialEq, Eq)]
pub struct State {
    /// The state that it is a substate of.
    pub parent: Option<StateId>,
    /// Whether it is the substate that its parent is entered by (SObjectizer's `initial_substate_of`).
    pub initial: bool,
    pub history: History,
    /// SObjectizer's `time_limit`: after so many milliseconds, the agent switches to this state.
    pub limit: Option<(u32, StateId)>,
}

/// Tells whether the state is there and this one.
pub(crate) fn is_this(s: StateId, other: Option<StateId>) -> bool
    ensures { result ≡ is_this s other }
{
    match other {
        None => false,
        Some(other) => other == s,
    }
}

/// What was declared of a state.
#[tactic(auto, using(crate::proofs::Walk::lookups))]
pub(crate) fn state_of(states: &[State], s: StateId) -> Option<State>
    ensures { result ≡ state_of states.now s }
{
    if s.0 == 0 {
        None
    } else {
        states.get(s.0 as usize - 1).copied()
    }
}

/// The parent of a state.
pub(crate) fn parent_of(states: &[State], s: StateId) -> Option<StateId>
    ensures { result ≡ parent_of states.now s }
{
    state_of(states, s)?.parent
}

/// Tells whether this is what was declared of a substate of `s`.
pub(crate) fn is_substate_of(s: StateId, state: &State) -> bool
    ensures { result ≡ is_substate_of s state.now }
{
    is_this(s, state.parent)
}

/// Tells whether this is what was declared of an initial substate of `s`.
pub(crate) fn is_initial_of(s: StateId, state: &State) -> bool
    ensures { result ≡ is_initial_of s state.now }
{
    is_substate_of(s, state) && state.initial
}

/// Tells whether a state has substates.
pub(crate) fn is_composite(states: &[State], s: StateId) -> bool
    ensures { result ≡ is_composite states.now s }
{
    states.iter().any(|state| is_substate_of(s, state))
}

/// The initial substate of a state.
pub(crate) fn initial_of(states: &[State], s: StateId) -> Option<StateId>
    requires { length states.now ≤ 63 }
    ensures { result ≡ initial_of states.now s }
{
    match initial_place(states, s) {
        None => None,
        Some(k) => Some(StateId(k as u32 + 1)),
    }
}

/// The place of the initial substate in the list.
fn initial_place(states: &[State], s: StateId) -> Option<usize>
    ensures place { result ≡ position (is_initial_of s) states.now }
    ensures within { IfSome result (λ k. k < length states.now) }
{
    states.iter().position(|state| is_initial_of(s, state))
}
