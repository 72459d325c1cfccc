//! The names of an agent's states and the ids of its rows and filters, by which its acts name them.

ghost use Rattle.std.specs.Prelude.{◌≡◌, ◌<◌, ◌+◌, map, length, IfSome};
ghost use Rattle.serde_json.specs.View.{view, items_view};
ghost use Rattle.so_scene.specs.Names.{number_in};
ghost use Rattle.so_scene_passes.specs.Scope.{number_with, is_id, ids_of, names_of, scope_of, no_scope, state_number};
ghost use Rattle.so_scene_fields.specs.Reads.{Returns};

use serde_json::Value;
use so_fault::SceneRefusal;
use so_scene::{Items, Name};
use so_scene_fields::values::{id_in, object_name};
use so_scene_fields::walk::list;
use std::alloc::Global;

/// The name of each state of an agent, and the id of each row and each filter that has one, in their order.
#[derive(Drop)]
pub struct Scope {
    pub states: Items<Name>,
    pub rows: Items<Option<Name>>,
    pub filters: Items<Option<Name>>,
}

impl Scope {
    /// No names and no ids.
    pub fn new(alloc: Global) -> Scope
        ensures { result ≡ no_scope }
    {
        Scope {
            states: Items::new(alloc),
            rows: Items::new(alloc),
            filters: Items::new(alloc),
        }
    }

    /// The names and ids of an agent.
    pub fn of(alloc: Global, agent: &Value) -> Result<Scope, SceneRefusal>
        ensures { Returns (scope_of (view agent.now)) result }
    {
        Ok(Scope {
            states: names(alloc, list(agent.get("states")))?,
            rows: ids(alloc, list(agent.get("on")))?,
            filters: ids(alloc, list(agent.get("filters")))?,
        })
    }

    /// The number of a state: 0 is `default`, and the declared ones follow.
    pub fn state(&self, name: &str) -> Option<usize>
        ensures { result ≡ state_number self.now name.now }
    {
        if name == "default" {
            return Some(0);
        }
        match declared(self.states.as_slice(), name) {
            Some(k) => Some(number_of(self.states.as_slice(), k)),
            None => None,
        }
    }
}

/// The place of a name in a list.
pub(crate) fn declared(names: &[Name], name: &str) -> Option<usize>
    ensures place { result ≡ number_in names.now name.now }
    ensures within { IfSome result (λ k. k < length names.now) }
{
    names
        .iter()
        .position(|other| name.as_bytes() == other.bytes())
}

/// The number of the state at this place of the declared ones.
fn number_of(states: &[Name], k: usize) -> usize
    requires { k < length states.now }
    ensures { result ≡ 1 + k }
{
    let _states = states.len();
    1 + k
}

/// The name of each object in a list.
fn names(alloc: Global, list: &[Value]) -> Result<Items<Name>, SceneRefusal>
    ensures { Returns (names_of (items_view list.now)) result }
{
    let mut names = Items::new(alloc);
    for value in list {
        names.push(object_name(value))?;
    }
    Ok(names)
}

/// The id of each object in a list.
fn ids(alloc: Global, list: &[Value]) -> Result<Items<Option<Name>>, SceneRefusal>
    ensures { Returns (ids_of (items_view list.now)) result }
{
    let mut ids = Items::new(alloc);
    for value in list {
        ids.push(id_in(value))?;
    }
    Ok(ids)
}

fn is_id(name: &str, id: &Option<Name>) -> bool
    ensures { result ≡ is_id name.now id.now }
{
    match id {
        Some(id) => name.as_bytes() == id.bytes(),
        None => false,
    }
}

/// The number of what has this id.
pub fn number_with(ids: &[Option<Name>], name: &str) -> Option<usize>
    ensures { result ≡ number_with ids.now name.now }
{
    ids.iter().position(|id| is_id(name, id))
}
