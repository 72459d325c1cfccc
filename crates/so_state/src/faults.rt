//! The five rules that a list of states is checked by.

ghost use Rattle.std.specs.Prelude.{◌≡◌, ◌≤◌, length, map, find};
ghost use Rattle.so_state.specs.States.{declared, depth, is_below};
ghost use Rattle.so_state.specs.Fault.{is_known_parent, is_known_limit, names_known_states, initials, breaks, tree_fault};
ghost use Rattle.so_state.specs.Rules.{fault_of};

use crate::states::{State, is_composite, is_initial_of, parent_of, state_of};
use so_ids::StateId;

/// A rule of state trees, with the state that breaks it.
#[derive(Clone, Copy, PartialEq, Eq)]
pub enum TreeFault {
    /// Its parent isn't declared, or its time limit leads to a state that is neither declared nor
    /// `default`.
    UnknownState(StateId),
    /// It is its own ancestor.
    CycleOfParents(StateId),
    /// It lies deeper than 16, where a state without a parent has the depth 1.
    TooDeep(StateId),
    /// It has substates, and none of them is initial.
    NoInitial(StateId),
    /// More than one of its substates is initial.
    TwoInitials(StateId),
}

/// The rules, in the order in which they are tried.
#[derive(Clone, Copy)]
pub(crate) enum Rule {
    KnownStates,
    NoCycle,
    DepthOfSixteen,
    SomeInitial,
    OneInitial,
}

fn fault_of(rule: Rule, s: StateId) -> TreeFault
    ensures { result ≡ fault_of rule s }
{
    match rule {
        Rule::KnownStates => TreeFault::UnknownState(s),
        Rule::NoCycle => TreeFault::CycleOfParents(s),
        Rule::DepthOfSixteen => TreeFault::TooDeep(s),
        Rule::SomeInitial => TreeFault::NoInitial(s),
        Rule::OneInitial => TreeFault::TwoInitials(s),
    }
}

/// The first fault of a list of states: of the first rule that one breaks, at the least that does.
#[tactic(auto, using(crate::proofs::Lists::finds), unfolding(crate::specs::Fault::tree_fault))]
pub(crate) fn tree_fault(states: &[State]) -> Option<TreeFault>
    requires { length states.now ≤ 63 }
    ensures { result ≡ tree_fault states.now }
{
    least(states, Rule::KnownStates)
        .or_else(|| least(states, Rule::NoCycle))
        .or_else(|| least(states, Rule::DepthOfSixteen))
        .or_else(|| least(states, Rule::SomeInitial))
        .or_else(|| least(states, Rule::OneInitial))
}

/// The rule's fault at the least state that breaks it.
#[tactic(auto, using(crate::proofs::Lists::numbers))]
fn least(states: &[State], rule: Rule) -> Option<TreeFault>
    requires { length states.now ≤ 63 }
    ensures { result ≡ find (breaks states.now) (map (fault_of rule) (declared states.now)) }
{
    for k in 0..states.len() as u32 {
        let fault = fault_of(rule, StateId(k + 1));
        if breaks(states, fault) {
            return Some(fault);
        }
    }
    None
}

fn breaks(states: &[State], fault: TreeFault) -> bool
    requires { length states.now ≤ 63 }
    ensures { result ≡ breaks states.now fault }
{
    match fault {
        TreeFault::UnknownState(s) => !names_known_states(states, state_of(states, s)),
        TreeFault::CycleOfParents(s) => is_own_ancestor(states, s),
        TreeFault::TooDeep(s) => depth(states, s) > 16,
        TreeFault::NoInitial(s) => is_composite(states, s) && initials(states, s) == 0,
        TreeFault::TwoInitials(s) => initials(states, s) > 1,
    }
}

fn is_known_parent(states: &[State], parent: Option<StateId>) -> bool
    ensures { result ≡ is_known_parent states.now parent }
{
    match parent {
        None => true,
        Some(parent) => 0 < parent.0 && parent.0 as usize <= states.len(),
    }
}

fn is_known_limit(states: &[State], limit: Option<(u32, StateId)>) -> bool
    ensures { result ≡ is_known_limit states.now limit }
{
    match limit {
        None => true,
        Some((_, target)) => target.0 as usize <= states.len(),
    }
}

fn names_known_states(states: &[State], state: Option<State>) -> bool
    ensures { result ≡ names_known_states states.now state }
{
    match state {
        None => true,
        Some(state) => is_known_parent(states, state.parent) && is_known_limit(states, state.limit),
    }
}

/// How many initial substates a state has.
fn initials(states: &[State], s: StateId) -> usize
    ensures { result ≡ initials states.now s }
{
    states
        .iter()
        .filter(|state| is_initial_of(s, state))
        .count()
}

/// How deep a state lies, 1 at the top, however many states there are above it.
#[tactic(auto, using(crate::proofs::Walk::steps))]
fn depth(states: &[State], s: StateId) -> usize
    requires { length states.now ≤ 63 }
    ensures { result ≡ depth states.now s }
{
    let mut at = s;
    let mut depth = 1;
    for _step in 0..states.len() {
        match parent_of(states, at) {
            None => return depth,
            Some(parent) => {
                at = parent;
                depth += 1;
            }
        }
    }
    depth
}

#[tactic(auto, using(crate::proofs::Walk::steps))]
fn is_own_ancestor(states: &[State], s: StateId) -> bool
    ensures { result ≡ is_below states.now s s }
{
    let mut at = s;
    for _step in 0..states.len() {
        match parent_of(states, at) {
            None => return false,
            Some(parent) => {
                if s == parent {
                    return true;
                }
                at = parent;
            }
        }
    }
    false
}
