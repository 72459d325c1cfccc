//! The walk over the fields of a document.
ghost use Rattle.std.specs.Prelude.{◌≡◌, ◌<◌, ◌≤◌, ◌+◌, ◌*◌, Result, None, true, false, length, option_map};
ghost use Rattle.serde_json.specs.View.{view, items_view};
ghost use Rattle.so_scene_fields.specs.Table.{rules_of, objects_of};
ghost use Rattle.so_scene_fields.specs.Visits.{Visit, enters, tries, leaves, visits, fields_of, field_visits, items_from, list_of, in_objects, narrow, run, LeavesIf, Skips};
ghost use Rattle.so_fault.specs.declared.fault.SceneFault.{SceneFault};

use crate::table::{Form, ObjectKind, Rule, objects, rules};
use serde_json::Value;
use so_fault::{PlaceStep, ScenePlace, SceneRefusal};

/// The position as a step has it.
pub fn position(i: usize) -> u32
    ensures { result ≡ narrow i }
{
    i.min(0xffff_ffff) as u32
}

/// The items of a list, none of any other value.
pub fn list(found: Option<&Value>) -> &[Value]
    ensures { items_view result.now ≡ list_of (option_map (λ v. view v.now) found.entry) }
{
    match found {
        Some(Value::Array(list)) => list,
        _ => &[],
    }
}

/// What a pass does at each visit of a walk: `step` is its definition.
pub trait Pass {
    ghost step: { Self → Visit → Result Self SceneFault };

    /// Whether memory may run out.
    ghost lack: { Type 0 };

    /// Tells whether the pass has something to do at fields of this form. The walk passes over the others.
    fn wants(form: Form) -> bool
        ensures { result ≡ false → Skips step form };

    /// An object begins.
    fn enter(
        &mut self,
        kind: ObjectKind,
        place: &ScenePlace,
        value: &Value,
    ) -> Result<(), SceneRefusal>
        requires { length place.now < 15 }
        ensures { LeavesIf lack (step self.old (enters kind place.now (view value.now))) result self.new };

    /// A field of the object is tried, with what stands there.
    fn field(
        &mut self,
        rule: Rule,
        place: &ScenePlace,
        object: &Value,
        found: Option<&Value>,
    ) -> Result<(), SceneRefusal>
        requires { length place.now < 16 }
        ensures { LeavesIf lack (step self.old (tries rule place.now (view object.now) (option_map (λ v. view v.now) found.entry))) result self.new };

    /// The object ends.
    fn leave(
        &mut self,
        kind: ObjectKind,
        place: &ScenePlace,
        value: &Value,
    ) -> Result<(), SceneRefusal>
        ensures { LeavesIf lack (step self.old (leaves kind place.now (view value.now))) result self.new };
}

/// Tells whether a pass has nothing to do at a field of this form, nor at objects in it.
fn skips<P: Pass>(form: Form) -> bool
    ensures { result ≡ true → Skips P.step form × (objects_of form ≡ None) }
{
    if P::wants(form) {
        return false;
    }
    objects(form).is_none()
}

/// Visits an object and what is in it, so many levels deep.
#[cycle(walk)]
pub fn object<P: Pass>(
    pass: &mut P,
    levels: u8,
    kind: ObjectKind,
    place: &ScenePlace,
    value: &Value,
) -> Result<(), SceneRefusal>
    requires { length place.now + 2 * levels ≤ 15 }
    ensures { LeavesIf P.lack (run P.step pass.old (visits levels kind place.now (view value.now))) result pass.new }
{
    if levels == 0 {
        return Ok(());
    }
    pass.enter(kind, place, value)?;
    fields(pass, levels - 1, rules(kind), place, value)?;
    pass.leave(kind, place, value)
}

#[cycle(walk)]
fn fields<P: Pass>(
    pass: &mut P,
    levels: u8,
    rules: &[Rule],
    place: &ScenePlace,
    value: &Value,
) -> Result<(), SceneRefusal>
    requires { length place.now + 2 * levels + 2 ≤ 15 }
    ensures { LeavesIf P.lack (run P.step pass.old (fields_of (visits levels) rules.now place.now (view value.now))) result pass.new }
{
    for rule in rules {
        one_field(pass, levels, *rule, place, value)?;
    }
    Ok(())
}

#[cycle(walk)]
fn one_field<P: Pass>(
    pass: &mut P,
    levels: u8,
    rule: Rule,
    place: &ScenePlace,
    value: &Value,
) -> Result<(), SceneRefusal>
    requires { length place.now + 2 * levels + 2 ≤ 15 }
    ensures { LeavesIf P.lack (run P.step pass.old (field_visits (visits levels) rule place.now (view value.now))) result pass.new }
{
    if skips::<P>(rule.form) {
        return Ok(());
    }
    let at = place.step(PlaceStep::Key(rule.field));
    let found = value.get(rule.field.key());
    pass.field(rule, &at, value, found)?;
    inside(pass, levels, objects(rule.form), &at, found)
}

#[cycle(walk)]
fn inside<P: Pass>(
    pass: &mut P,
    levels: u8,
    objects: Option<ObjectKind>,
    place: &ScenePlace,
    found: Option<&Value>,
) -> Result<(), SceneRefusal>
    requires { length place.now + 2 * levels + 1 ≤ 15 }
    ensures { LeavesIf P.lack (run P.step pass.old (in_objects (visits levels) objects place.now (option_map (λ v. view v.now) found.entry))) result pass.new }
{
    match objects {
        Some(kind) => items(pass, levels, kind, place, list(found)),
        None => Ok(()),
    }
}

#[cycle(walk)]
fn items<P: Pass>(
    pass: &mut P,
    levels: u8,
    kind: ObjectKind,
    place: &ScenePlace,
    list: &[Value],
) -> Result<(), SceneRefusal>
    requires { length place.now + 2 * levels + 1 ≤ 15 }
    ensures { LeavesIf P.lack (run P.step pass.old (items_from (visits levels kind) place.now 0 (items_view list.now))) result pass.new }
{
    for (i, item) in list.iter().enumerate() {
        object(
            pass,
            levels,
            kind,
            &place.step(PlaceStep::At(position(i))),
            item,
        )?;
    }
    Ok(())
}
