//! The groups of agents on dispatchers of the kind active_group. A group has its number among those of its dispatcher, in the
//! order in which agents name them.

ghost use Rattle.std.specs.Prelude.{◌≡◌, ◌≤◌, ◌∷◌, [], ◌++◌, Ok};
ghost use Rattle.so_scene.specs.Names.{number_in};
ghost use Rattle.so_scene_build.specs.Groups.{is_of, names_for, with_name, with_group, group_number, group_lists};
ghost use Rattle.so_scene_fields.specs.Reads.{Returns};
ghost use Rattle.so_scene_fields.specs.Visits.{Leaves};
ghost use Rattle.so_scene_build.specs.CodeBuilder.{number_or_next};

use so_fault::SceneRefusal;
use so_ids::DispId;
use so_scene::{Items, Name};
use so_scene_fields::walk::position;
use std::alloc::Global;

/// A group of a dispatcher.
#[derive(Drop)]
pub struct Group {
    pub disp: DispId,
    pub name: Name,
}

fn is_of(disp: DispId, group: &Group) -> bool
    ensures { result ≡ is_of disp group.now }
{
    group.disp == disp
}

/// Adds the name of a group, if it is one of the dispatcher.
#[tactic(auto, unfolding(crate::specs::Groups::names_for))]
fn push_if(names: &mut Items<Name>, disp: DispId, group: &Group) -> Result<(), SceneRefusal>
    ensures { Leaves (Ok (names.old ++ names_for disp (group.now ∷ []))) result names.new }
{
    if !is_of(disp, group) {
        return Ok(());
    }
    names.push(group.name.copy())?;
    Ok(())
}

/// The names of a dispatcher's groups, by number.
fn names_for(alloc: Global, groups: &[Group], disp: DispId) -> Result<Items<Name>, SceneRefusal>
    ensures { Returns (names_for disp groups.now) result }
{
    let mut names = Items::new(alloc);
    for group in groups {
        push_if(&mut names, disp, group)?;
    }
    Ok(names)
}

fn place(names: &[Name], name: &Name) -> Option<usize>
    ensures { result ≡ number_in names.now name.now }
{
    names.iter().position(|other| name.bytes() == other.bytes())
}

/// The number of a name: its own, or the next.
fn number(names: &[Name], name: &Name) -> u32
    ensures { result ≡ number_or_next (number_in names.now name.now) names.now }
{
    match place(names, name) {
        Some(n) => position(n),
        None => position(names.len()),
    }
}

/// The number of an agent's group, if it names one.
pub(crate) fn group_number(
    alloc: Global,
    groups: &[Group],
    disp: DispId,
    name: Option<Name>,
) -> Result<Option<u32>, SceneRefusal>
    ensures { Returns (group_number disp name groups.now) result }
{
    let Some(name) = name else {
        return Ok(None);
    };
    let names = names_for(alloc, groups, disp)?;
    Ok(Some(number(names.as_slice(), &name)))
}

/// Adds a group that its dispatcher doesn't have yet.
fn add_name(
    alloc: Global,
    groups: &mut Items<Group>,
    disp: DispId,
    name: Name,
) -> Result<(), SceneRefusal>
    ensures { Leaves (Ok (with_name disp name groups.old)) result groups.new }
{
    let names = names_for(alloc, groups.as_slice(), disp)?;
    if place(names.as_slice(), &name).is_some() {
        return Ok(());
    }
    groups.push(Group { disp, name })?;
    Ok(())
}

/// Adds an agent's group, if it names one.
pub(crate) fn add_group(
    alloc: Global,
    groups: &mut Items<Group>,
    disp: DispId,
    name: Option<Name>,
) -> Result<(), SceneRefusal>
    ensures { Leaves (Ok (with_group disp name groups.old)) result groups.new }
{
    match name {
        Some(name) => add_name(alloc, groups, disp, name),
        None => Ok(()),
    }
}

fn push_list(lists: &mut Items<Items<Name>>, names: Items<Name>) -> Result<(), SceneRefusal>
    ensures { Leaves (Ok (lists.old ++ names ∷ [])) result lists.new }
{
    lists.push(names)?;
    Ok(())
}

/// For each of so many dispatchers the names of its groups.
pub fn group_lists(
    alloc: Global,
    groups: &[Group],
    dispatchers: usize,
) -> Result<Items<Items<Name>>, SceneRefusal>
    requires { dispatchers ≤ 64 }
    ensures { Returns (group_lists groups.now dispatchers) result }
{
    let mut lists = Items::new(alloc);
    for k in 0..dispatchers {
        let names = names_for(alloc, groups, DispId(k as u32))?;
        push_list(&mut lists, names)?;
    }
    Ok(lists)
}
