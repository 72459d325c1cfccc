//! The third pass: each name and id that is used is declared, and an agent has a group exactly where its dispatcher wants one.

ghost use Rattle.std.specs.Prelude.{◌≡◌, ◌<◌, length, option_map, slice_index_or, false, Ok};
ghost use Rattle.serde_json.specs.Find.{as_str};
ghost use Rattle.serde_json.specs.View.{view, items_view};
ghost use Rattle.so_scene_passes.specs.Shape.{acts_from};
ghost use Rattle.so_scene_fields.specs.Visits.{list_of, Leaves};
ghost use Rattle.so_scene_passes.specs.Scope.{all_states};
ghost use Rattle.so_scene_passes.specs.Known.{absent_from, name_trouble, has_signal, signal_trouble, send_trouble, id_trouble, first_id_trouble, first_state_trouble, first_coop_trouble, word_unknown, act_unknown, form_unknown, field_unknown, uses_names, group_unfit, kind_at, object_unknown, entered, knows, known_step};
ghost use Rattle.so_scene_passes.specs.Twice.{disp_number_in};

use crate::declare::Declared;
use crate::scope::{Scope, declared, number_with};
use crate::shape::{at, fault_at};
use serde_json::Value;
use so_fault::{Field, PlaceStep, SceneFault, ScenePlace, SceneRefusal};
use so_scene::{DispKind, Name};
use so_scene_fields::act_table::Word;
use so_scene_fields::acts::parts;
use so_scene_fields::table::{Form, ObjectKind, Rule, Space};
use so_scene_fields::values::Trouble;
use so_scene_fields::walk::{Pass, list, position};

impl Declared {
    fn name(&self, space: Space, value: &Value) -> Option<Trouble>
        ensures { result ≡ name_trouble self.now space (as_str (view value.now)) }
    {
        match value.as_str() {
            Some(name) => match self.number(space, name) {
                Some(_) => None,
                None => Some(Trouble::UnknownName),
            },
            None => None,
        }
    }

    fn is_signal(&self, message: &Value) -> bool
        ensures { result ≡ has_signal self.now (as_str (view message.now)) }
    {
        match message.as_str() {
            Some(name) => match self.number(Space::Messages, name) {
                Some(i) => {
                    let signals = self.signals.as_slice();
                    i < signals.len() && signals[i]
                },
                None => false,
            },
            None => false,
        }
    }

    fn send(&self, list: &[Value]) -> Option<Trouble>
        ensures { result ≡ send_trouble self.now (items_view list.now) }
    {
        match list {
            [target, message, operands @ ..] => {
                if let Some(trouble) = self.name(Space::Mboxes, target) {
                    return Some(trouble);
                }
                if let Some(trouble) = self.name(Space::Messages, message) {
                    return Some(trouble);
                }
                if operands.is_empty() {
                    return None;
                }
                if self.is_signal(message) {
                    Some(Trouble::OutOfRange)
                } else {
                    None
                }
            }
            [_target] => None,
            [] => None,
        }
    }
}

impl Declared {
    fn first_coop(&self, list: &[Value]) -> Option<Trouble>
        ensures { result ≡ first_coop_trouble self.now (items_view list.now) }
    {
        match list {
            [first, ..] => self.name(Space::Coops, first),
            [] => None,
        }
    }
}

/// Whether an agent at this place may have a group, or none, on a dispatcher of this kind.
fn group_unfit(kind: Option<DispKind>, place: &ScenePlace, given: bool) -> Option<SceneFault>
    requires { length place.now < 16 }
    ensures { result ≡ group_unfit kind place.now given }
{
    match kind {
        None => None,
        Some(DispKind::ActiveGroup) => if given {
            None
        } else {
            Some(SceneFault::Missing(place.step(PlaceStep::Key(Field::Group))))
        },
        Some(_) => if given {
            Some(SceneFault::WrongShape(place.copy()))
        } else {
            None
        },
    }
}

impl Declared {
    /// The kind of the dispatcher of this number.
    fn kind_at(&self, number: usize) -> DispKind
        ensures { result ≡ kind_at self.now number }
    {
        let kinds = self.kinds.as_slice();
        if number == 0 || number > kinds.len() {
            DispKind::OneThread
        } else {
            kinds[number - 1]
        }
    }

    /// The kind of an agent's dispatcher.
    fn kind_of(&self, agent: &Value) -> Option<DispKind>
        ensures { result ≡ option_map (kind_at self.now) (disp_number_in self.now (view agent.now)) }
    {
        match self.disp_of(agent) {
            Some(number) => Some(self.kind_at(number)),
            None => None,
        }
    }

    /// What is wrong with an object as a whole.
    fn unfit(&self, kind: ObjectKind, place: &ScenePlace, value: &Value) -> Option<SceneFault>
        requires { length place.now < 16 }
        ensures { result ≡ object_unknown kind self.now place.now (view value.now) }
    {
        match kind {
            ObjectKind::Agent => group_unfit(
                self.kind_of(value),
                place,
                value.get("group").is_some(),
            ),
            _ => None,
        }
    }
}

/// Whether a name is one of these.
fn declared_state(names: &[Name], value: &Value) -> Option<Trouble>
    ensures { result ≡ absent_from names.now (as_str (view value.now)) }
{
    match value.as_str() {
        Some(name) => match declared(names, name) {
            Some(_) => None,
            None => Some(Trouble::UnknownName),
        },
        None => None,
    }
}

impl Scope {
    /// Whether a name is that of a state.
    fn any_state(&self, value: &Value) -> Option<Trouble>
        ensures { result ≡ absent_from (all_states self.now) (as_str (view value.now)) }
    {
        match value.as_str() {
            Some(name) => match self.state(name) {
                Some(_) => None,
                None => Some(Trouble::UnknownName),
            },
            None => None,
        }
    }

    fn first_state(&self, list: &[Value]) -> Option<Trouble>
        ensures { result ≡ first_state_trouble self.now (items_view list.now) }
    {
        match list {
            [first, ..] => self.any_state(first),
            [] => None,
        }
    }
}

/// Whether an id is one of these.
fn id(ids: &[Option<Name>], value: &Value) -> Option<Trouble>
    ensures { result ≡ id_trouble ids.now (as_str (view value.now)) }
{
    match value.as_str() {
        Some(name) => match number_with(ids, name) {
            Some(_) => None,
            None => Some(Trouble::UnknownName),
        },
        None => None,
    }
}

fn first_id(ids: &[Option<Name>], list: &[Value]) -> Option<Trouble>
    ensures { result ≡ first_id_trouble ids.now (items_view list.now) }
{
    match list {
        [first, ..] => id(ids, first),
        [] => None,
    }
}

/// The third pass: all names, and the states and ids of the agent that is visited.
#[derive(Drop)]
pub struct Known {
    pub names: Declared,
    pub scope: Scope,
}

/// Tells whether a field of this form uses names.
fn uses_names(form: Form) -> bool
    ensures { result ≡ uses_names form }
{
    match form {
        Form::NameIn(_) | Form::DeclaredState | Form::AnyState => true,
        Form::Acts(_) | Form::Handler => true,
        _ => false,
    }
}

impl Known {
    /// All names, outside of an agent.
    pub fn new(names: Declared) -> Known
        ensures { result ≡ knows names }
    {
        let alloc = names.messages.alloc();
        Known {
            names,
            scope: Scope::new(alloc),
        }
    }

    fn word(&self, word: Word, list: &[Value]) -> Option<Trouble>
        ensures { result ≡ word_unknown self.now word (items_view list.now) }
    {
        match word {
            Word::Send => self.names.send(list),
            Word::Switch => self.scope.first_state(list),
            Word::Subscribe | Word::Unsubscribe => first_id(self.scope.rows.as_slice(), list),
            Word::SetFilter | Word::DropFilter => first_id(self.scope.filters.as_slice(), list),
            Word::Register | Word::Deregister => self.names.first_coop(list),
            _ => None,
        }
    }

    fn act(&self, value: &Value) -> Option<Trouble>
        ensures { result ≡ act_unknown self.now (view value.now) }
    {
        match parts(value) {
            Some((word, list)) => self.word(word, list),
            None => None,
        }
    }

    fn acts(&self, place: &ScenePlace, list: &[Value]) -> Option<SceneFault>
        requires { length place.now < 16 }
        ensures { result ≡ acts_from (λ rest d. act_unknown self.now d) place.now 0 (items_view list.now) }
    {
        for (i, act) in list.iter().enumerate() {
            match self.act(act) {
                Some(trouble) => return Some(fault_at(
                    &place.step(PlaceStep::At(position(i))),
                    trouble,
                )),
                None => {}
            }
        }
        None
    }

    fn form(&self, form: Form, place: &ScenePlace, value: &Value) -> Option<SceneFault>
        requires { length place.now < 16 }
        ensures { result ≡ form_unknown self.now form place.now (view value.now) }
    {
        match form {
            Form::NameIn(space) => at(place, self.names.name(space, value)),
            Form::DeclaredState => at(place, declared_state(self.scope.states.as_slice(), value)),
            Form::AnyState => at(place, self.scope.any_state(value)),
            Form::Acts(_) | Form::Handler => self.acts(place, list(Some(value))),
            _ => None,
        }
    }

    fn tried(&self, form: Form, place: &ScenePlace, found: Option<&Value>) -> Option<SceneFault>
        requires { length place.now < 16 }
        ensures { result ≡ field_unknown self.now form place.now (option_map (λ v. view v.now) found.entry) }
    {
        match found {
            Some(value) => self.form(form, place, value),
            None => None,
        }
    }

    /// An agent names its own states and ids.
    fn begin(&mut self, kind: ObjectKind, value: &Value) -> Result<(), SceneRefusal>
        ensures { Leaves (Ok (entered kind (view value.now) self.old)) result self.new }
    {
        match kind {
            ObjectKind::Agent => {
                let alloc = self.names.messages.alloc();
                self.scope = Scope::of(alloc, value)?;
                Ok(())
            }
            _ => Ok(()),
        }
    }
}

impl Pass for Known {
    ghost use Rattle.so_scene_passes.specs.Known.{known_step};

    ghost step = { known_step };

    ghost lack = { Unit {0} };

    fn wants(form: Form) -> bool {
        uses_names(form)
    }

    fn enter(
        &mut self,
        kind: ObjectKind,
        place: &ScenePlace,
        value: &Value,
    ) -> Result<(), SceneRefusal> {
        if let Some(fault) = self.names.unfit(kind, place, value) {
            return Err(SceneRefusal::Fault(fault));
        }
        self.begin(kind, value)
    }

    fn field(
        &mut self,
        rule: Rule,
        place: &ScenePlace,
        _object: &Value,
        found: Option<&Value>,
    ) -> Result<(), SceneRefusal> {
        match self.tried(rule.form, place, found) {
            Some(fault) => Err(SceneRefusal::Fault(fault)),
            None => Ok(()),
        }
    }

    fn leave(
        &mut self,
        _kind: ObjectKind,
        _place: &ScenePlace,
        _value: &Value,
    ) -> Result<(), SceneRefusal> {
        Ok(())
    }
}
