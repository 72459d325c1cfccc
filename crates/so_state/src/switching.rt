//! Where a switch leads, and what is left and entered on the way.

ghost use Rattle.std.specs.Prelude.{◌≡◌, List, length};
ghost use Rattle.so_ids.specs.declared.StateId.{StateId as StateNumber};
ghost use Rattle.so_state.specs.Memory.{kept, StandsFor};
ghost use Rattle.so_state.specs.Plan.{toward, resolve_within, exits, enters, plan_of, plan_to, plan};

use crate::hierarchy::Tree;
use crate::leaves::Memory;
use crate::list::{StateList, outside, reversed};
use crate::states::{History, is_this};
use so_ids::{Plan, StateId};

/// The switch of an agent from its current leaf to a state, by what it remembers. It is `None` exactly
/// where the state stands for the current leaf. Exit handlers run in the order of `exits`, then the
/// state is set, then enter handlers run in the order of `enters`.
#[tactic(auto, using(crate::proofs::Down::plans))]
pub fn switch_plan(tree: &Tree, memory: &Memory, from: StateId, to: StateId) -> Option<Plan>
    ensures { (leaves : List StateNumber) → StandsFor tree.now memory.now leaves → result ≡ plan tree.now leaves from to }
{
    plan_to(tree, from, resolve(tree, memory, to))
}

/// The leaf that a state stands for.
#[tactic(auto, using(crate::proofs::Down::downs))]
fn resolve(tree: &Tree, memory: &Memory, to: StateId) -> StateId
    ensures { result ≡ resolve_within (length tree.now) tree.now (kept memory.now) to }
{
    let mut at = to;
    for _step in 0..tree.len() {
        let Some(initial) = tree.initial(at) else {
            return at;
        };
        match (tree.history(at), memory.newest_below(at)) {
            (History::Deep, Some(low)) => return low,
            (History::Shallow, Some(low)) => at = toward(tree, at, low).unwrap_or(initial),
            (History::Deep | History::Shallow, None) | (History::None, _) => at = initial,
        }
    }
    at
}

/// The direct substate of a state on the way down to a state below it.
fn toward(tree: &Tree, s: StateId, low: StateId) -> Option<StateId>
    ensures { result ≡ toward tree.now s low }
{
    tree.path(low)
        .as_slice()
        .iter()
        .copied()
        .find(|c| is_this(s, tree.parent(*c)))
}

/// What is left on the way from a state to a leaf.
fn exits(tree: &Tree, from: StateId, leaf: StateId) -> StateList
    ensures { result ≡ exits tree.now from leaf }
{
    outside(tree.path(from).as_slice(), tree.path(leaf).as_slice())
}

/// What is entered on the way, from the outermost.
fn enters(tree: &Tree, from: StateId, leaf: StateId) -> StateList
    ensures { result ≡ enters tree.now from leaf }
{
    reversed(outside(tree.path(leaf).as_slice(), tree.path(from).as_slice()).as_slice())
}

fn plan_of(leaf: StateId, exits: StateList, enters: StateList) -> Plan
    ensures { result ≡ plan_of leaf exits enters }
{
    let (exits, n_exits) = exits.into_parts();
    let (enters, n_enters) = enters.into_parts();
    Plan {
        leaf,
        exits,
        n_exits,
        enters,
        n_enters,
    }
}

/// The way to a leaf, `None` where it is the current one.
fn plan_to(tree: &Tree, from: StateId, leaf: StateId) -> Option<Plan>
    ensures { result ≡ plan_to tree.now from leaf }
{
    if leaf == from {
        return None;
    }
    Some(plan_of(leaf, exits(tree, from, leaf), enters(tree, from, leaf)))
}
