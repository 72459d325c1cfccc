//! The first pass: the shape of each object and field.

ghost use Rattle.std.specs.Prelude.{◌≡◌, ◌<◌, Some, length, option_map};
ghost use Rattle.serde_json.specs.Find.{as_array, as_number, as_object, as_str};
ghost use Rattle.serde_json.specs.View.{view, items_view, members_view};
ghost use Rattle.so_scene_fields.specs.Table.{rules_of};
ghost use Rattle.so_scene_fields.specs.Acts.{act_trouble};
ghost use Rattle.so_scene.specs.Checked.{is_pool, has_quotes};
ghost use Rattle.so_scene_fields.specs.Values.{name_of};
ghost use Rattle.so_scene_passes.specs.Shape.{placed, trouble_at, is_known, has_unknown, unknown_in, version_fault, kind_trouble, state_name_trouble, item_trouble, first_of, is_within, list_trouble, fixed_trouble, quote_trouble, acts_from, acts_fault, form_fault, field_fault, has, effects, is_dead_breach, is_safe_breach, is_row_breach, is_pool_breach, is_quotes_breach, is_disp_breach, is_initial, is_breach, shape_step};

use serde_json::{Map, Value};
use so_fault::{Field, PlaceStep, SceneFault, ScenePlace, SceneRefusal};
use so_scene::DispKind;
use so_scene_fields::act_table::{Allowed, handler_acts};
use so_scene_fields::acts::act_fault;
use so_scene_fields::table::{Form, ObjectKind, Rule, rules};
use so_scene_fields::values::{
    Trouble, comparison, disp_kind, disp_kind_in, fifo, flag, flag_or, history, integer, is_safe,
    name, number, only_true, quote,
};
use so_scene_fields::walk::{Pass, position};

pub(crate) fn fault_at(place: &ScenePlace, trouble: Trouble) -> SceneFault
    ensures { result ≡ placed place.now trouble }
{
    match trouble {
        Trouble::WrongShape => SceneFault::WrongShape(place.copy()),
        Trouble::OutOfRange => SceneFault::OutOfRange(place.copy()),
        Trouble::UnknownName => SceneFault::UnknownName(place.copy()),
        Trouble::NotBuilt => SceneFault::NotBuilt(place.copy()),
    }
}

pub(crate) fn at(place: &ScenePlace, trouble: Option<Trouble>) -> Option<SceneFault>
    ensures { result ≡ trouble_at place.now trouble }
{
    match trouble {
        Some(trouble) => Some(fault_at(place, trouble)),
        None => None,
    }
}

fn is_a_key(rules: &[Rule], name: &str) -> bool
    ensures { result ≡ is_known rules.now name.now }
{
    for rule in rules {
        if rule.field.key() == name {
            return true;
        }
    }
    false
}

fn has_unknown_key(rules: &[Rule], members: &Map<String, Value>) -> bool
    ensures { result ≡ has_unknown rules.now (members_view members.now.entries) }
{
    for (name, _) in members {
        if !is_a_key(rules, name.as_str()) {
            return true;
        }
    }
    false
}

fn version(place: &ScenePlace, value: &Value) -> Option<SceneFault>
    ensures { result ≡ version_fault place.now (as_number (view value.now)) }
{
    match value.as_number() {
        Some(number) => match number.as_i64() {
            Some(1) => None,
            Some(_) => Some(SceneFault::BadVersion(place.copy())),
            None => Some(SceneFault::OutOfRange(place.copy())),
        },
        None => Some(SceneFault::WrongShape(place.copy())),
    }
}

fn message_kind(value: &Value) -> Option<Trouble>
    ensures { result ≡ kind_trouble (as_str (view value.now)) }
{
    match value.as_str() {
        Some("message") => None,
        Some("signal") => None,
        Some(_) => Some(Trouble::WrongShape),
        None => Some(Trouble::WrongShape),
    }
}

/// Tells whether a dispatcher of this kind is a pool.
fn is_pool(kind: DispKind) -> bool
    ensures { result ≡ is_pool kind }
{
    match kind {
        DispKind::ThreadPool | DispKind::AdvThreadPool => true,
        _ => false,
    }
}

/// Tells whether a dispatcher of this kind has quotes.
fn has_quotes(kind: DispKind) -> bool
    ensures { result ≡ has_quotes kind }
{
    kind == DispKind::QuotedRoundRobin
}

/// What is wrong with the name of a state.
fn state_name(value: &Value) -> Option<Trouble>
    ensures { result ≡ state_name_trouble (name_of (view value.now)) }
{
    match name(value) {
        Ok(name) => if name == "default" {
            Some(Trouble::WrongShape)
        } else {
            None
        },
        Err(trouble) => Some(trouble),
    }
}

/// What a list of a field holds.
#[derive(Clone, Copy, PartialEq, Eq)]
enum ItemKind {
    Number,
    Name,
    Quote,
    Object,
}

/// What is wrong with an item of this kind.
fn item(kind: ItemKind, value: &Value) -> Option<Trouble>
    ensures { result ≡ item_trouble kind (view value.now) }
{
    match kind {
        ItemKind::Number => integer(value).err(),
        ItemKind::Name => name(value).err(),
        ItemKind::Quote => quote(value).err(),
        ItemKind::Object => if value.is_object() {
            None
        } else {
            Some(Trouble::WrongShape)
        },
    }
}

/// The first trouble of an item.
fn first_trouble(kind: ItemKind, list: &[Value]) -> Option<Trouble>
    ensures { result ≡ first_of (item_trouble kind) (items_view list.now) }
{
    for value in list {
        match item(kind, value) {
            Some(trouble) => return Some(trouble),
            None => {}
        }
    }
    None
}

fn is_within(limit: Option<usize>, len: usize) -> bool
    ensures { result ≡ is_within limit len }
{
    match limit {
        Some(limit) => len <= limit,
        None => true,
    }
}

/// What is wrong with a list that may have so many items.
fn few(kind: ItemKind, limit: Option<usize>, list: &[Value]) -> Option<Trouble>
    ensures { result ≡ list_trouble limit (item_trouble kind) (Some (items_view list.now)) }
{
    if is_within(limit, list.len()) {
        first_trouble(kind, list)
    } else {
        Some(Trouble::OutOfRange)
    }
}

fn items(kind: ItemKind, limit: Option<usize>, value: &Value) -> Option<Trouble>
    ensures { result ≡ list_trouble limit (item_trouble kind) (as_array (view value.now)) }
{
    match value.as_array() {
        Some(list) => few(kind, limit, list),
        None => Some(Trouble::WrongShape),
    }
}

fn quote_list(list: &[Value]) -> Option<Trouble>
    ensures { result ≡ fixed_trouble 8 quote_trouble (Some (items_view list.now)) }
{
    if list.len() == 8 {
        first_trouble(ItemKind::Quote, list)
    } else {
        Some(Trouble::WrongShape)
    }
}

fn quotes(value: &Value) -> Option<Trouble>
    ensures { result ≡ fixed_trouble 8 quote_trouble (as_array (view value.now)) }
{
    match value.as_array() {
        Some(list) => quote_list(list),
        None => Some(Trouble::WrongShape),
    }
}

fn first_act(allowed: Allowed, place: &ScenePlace, list: &[Value]) -> Option<SceneFault>
    requires { length place.now < 16 }
    ensures { result ≡ acts_from (act_trouble allowed) place.now 0 (items_view list.now) }
{
    for (i, act) in list.iter().enumerate() {
        match act_fault(allowed, list.len() - i - 1, act) {
            Some(trouble) => return Some(fault_at(
                &place.step(PlaceStep::At(position(i))),
                trouble,
            )),
            None => {}
        }
    }
    None
}

fn act_list(allowed: Allowed, place: &ScenePlace, list: &[Value]) -> Option<SceneFault>
    requires { length place.now < 16 }
    ensures { result ≡ acts_fault allowed place.now (Some (items_view list.now)) }
{
    if list.len() > 256 {
        return Some(SceneFault::OutOfRange(place.copy()));
    }
    first_act(allowed, place, list)
}

fn acts(allowed: Allowed, place: &ScenePlace, value: &Value) -> Option<SceneFault>
    requires { length place.now < 16 }
    ensures { result ≡ acts_fault allowed place.now (as_array (view value.now)) }
{
    match value.as_array() {
        Some(list) => act_list(allowed, place, list),
        None => Some(SceneFault::WrongShape(place.copy())),
    }
}

/// What is wrong with the value of a field of this object.
fn form(form: Form, place: &ScenePlace, object: &Value, value: &Value) -> Option<SceneFault>
    requires { length place.now < 16 }
    ensures { result ≡ form_fault form place.now (view object.now) (view value.now) }
{
    match form {
        Form::One => version(place, value),
        Form::Name => at(place, name(value).err()),
        Form::NameIn(_) | Form::DeclaredState | Form::AnyState => at(place, name(value).err()),
        Form::StateName => at(place, state_name(value)),
        Form::History => at(place, history(value).err()),
        Form::Mboxes(limit) => at(place, items(ItemKind::Name, Some(limit), value)),
        Form::MessageKind => at(place, message_kind(value)),
        Form::DispKind => at(place, disp_kind(value).err()),
        Form::Fifo => at(place, fifo(value).err()),
        Form::Quotes => at(place, quotes(value)),
        Form::Flag => at(place, flag(value).err()),
        Form::OnlyTrue => at(place, only_true(value).err()),
        Form::Cmp => at(place, comparison(value).err()),
        Form::AnyNumber => at(place, integer(value).err()),
        Form::Number(low, high) => at(place, number(low, high, value).err()),
        Form::Numbers(limit) => at(place, items(ItemKind::Number, Some(limit), value)),
        Form::Objects(_, limit) => at(place, items(ItemKind::Object, limit, value)),
        Form::Acts(allowed) => acts(allowed, place, value),
        Form::Handler => acts(handler_acts(object), place, value),
        Form::Later => Some(SceneFault::NotBuilt(place.copy())),
    }
}

fn field(
    rule: Rule,
    place: &ScenePlace,
    object: &Value,
    found: Option<&Value>,
) -> Option<SceneFault>
    requires { length place.now < 16 }
    ensures { result ≡ field_fault rule place.now (view object.now) (option_map (λ v. view v.now) found.entry) }
{
    match found {
        Some(value) => form(rule.form, place, object, value),
        None => if rule.required {
            Some(SceneFault::Missing(place.copy()))
        } else {
            None
        },
    }
}

fn unknown(kind: ObjectKind, value: &Value) -> bool
    ensures { result ≡ unknown_in (rules_of kind) (as_object (view value.now)) }
{
    match value.as_object() {
        Some(members) => has_unknown_key(rules(kind), members),
        None => false,
    }
}

fn has(field: Field, value: &Value) -> u8
    ensures { result ≡ has field (view value.now) }
{
    if value.get(field.key()).is_some() {
        1
    } else {
        0
    }
}

/// How many effects a row has.
fn effects(value: &Value) -> u8
    ensures { result ≡ effects (view value.now) }
{
    has(Field::Do, value)
        + has(Field::Switch, value)
        + has(Field::Transfer, value)
        + has(Field::Suppress, value)
}

/// A dead-letter row without a handler, or with a state.
fn dead_breach(value: &Value) -> bool
    ensures { result ≡ is_dead_breach (view value.now) }
{
    has(Field::Dead, value) > has(Field::Do, value)
        || has(Field::Dead, value) + has(Field::State, value) > 1
}

/// A safe row without a handler.
fn safe_breach(value: &Value) -> bool
    ensures { result ≡ is_safe_breach (view value.now) }
{
    is_safe(value) && has(Field::Do, value) == 0
}

fn row_breach(value: &Value) -> bool
    ensures { result ≡ is_row_breach (view value.now) }
{
    effects(value) != 1 || dead_breach(value) || safe_breach(value)
}

/// Threads or a parameter of its queues, of a dispatcher that isn't a pool.
fn pool_breach(value: &Value) -> bool
    ensures { result ≡ is_pool_breach (view value.now) }
{
    if is_pool(disp_kind_in(value)) {
        return false;
    }
    has(Field::Threads, value) + has(Field::Fifo, value) > 0
}

/// Quotes of another kind of dispatcher.
fn quotes_breach(value: &Value) -> bool
    ensures { result ≡ is_quotes_breach (view value.now) }
{
    if has_quotes(disp_kind_in(value)) {
        return false;
    }
    has(Field::Quotes, value) == 1
}

fn disp_breach(value: &Value) -> bool
    ensures { result ≡ is_disp_breach (view value.now) }
{
    pool_breach(value) || quotes_breach(value)
}

fn breach(kind: ObjectKind, value: &Value) -> bool
    ensures { result ≡ is_breach kind (view value.now) }
{
    match kind {
        ObjectKind::Dispatcher => disp_breach(value),
        ObjectKind::Row => row_breach(value),
        ObjectKind::State => flag_or(false, value.get("initial")) && has(Field::Parent, value) == 0,
        _ => false,
    }
}

/// The first pass. It keeps nothing.
#[derive(Drop)]
pub struct Shape {}

impl Pass for Shape {
    ghost step = { shape_step };

    ghost lack = { ⊥ };

    fn wants(_form: Form) -> bool {
        true
    }

    fn enter(
        &mut self,
        kind: ObjectKind,
        place: &ScenePlace,
        value: &Value,
    ) -> Result<(), SceneRefusal> {
        if unknown(kind, value) {
            return Err(SceneRefusal::Fault(SceneFault::WrongShape(place.copy())));
        }
        Ok(())
    }

    fn field(
        &mut self,
        rule: Rule,
        place: &ScenePlace,
        object: &Value,
        found: Option<&Value>,
    ) -> Result<(), SceneRefusal> {
        match field(rule, place, object, found) {
            Some(fault) => Err(SceneRefusal::Fault(fault)),
            None => Ok(()),
        }
    }

    fn leave(
        &mut self,
        kind: ObjectKind,
        place: &ScenePlace,
        value: &Value,
    ) -> Result<(), SceneRefusal> {
        if breach(kind, value) {
            return Err(SceneRefusal::Fault(SceneFault::WrongShape(place.copy())));
        }
        Ok(())
    }
}
