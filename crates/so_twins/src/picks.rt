//! The picks of dispatchers, each beside the plain one.

ghost use Rattle.std.specs.Prelude.{◌≡◌, ◌<◌, length};
ghost use Rattle.so_scene.specs.Lanes.{keys, lanes};
ghost use Rattle.so_queue.specs.Queues.{keys_of};
ghost use Rattle.so_twins.specs.Classes.{class_of};

use crate::draw::{drawn, next_random};
use so_disp_adv::{HeadClass, Heads};
use so_disp_prio::Prio;
use so_fault::SceneRefusal;
use so_ids::{DemandId, KeyId, LaneId, NoMemory, Place, Priority};
use so_queue::Queues;
use so_scene::Scene;
use so_scene_json::read_scene;
use std::alloc::Global;

/// How many calls are drawn.
const CALLS: u32 = 500;

/// How many demands may wait.
const ROOM: u32 = 40;

/// Scenes with dispatchers of each kind.
pub(crate) const SCENES: [(&str, &str); 7] = [
    (
        "one queue",
        r#"{"version":1,"coops":[{"name":"main","agents":[{"name":"a"}]}]}"#,
    ),
    (
        "three queues",
        r#"{"version":1,"dispatchers":[{"name":"d","kind":"thread_pool","threads":1,"fifo":"individual"}],"coops":[{"name":"main","agents":[{"name":"f"},{"name":"x","disp":"d"},{"name":"y","disp":"d"}]}]}"#,
    ),
    (
        "lanes of their own",
        r#"{"version":1,"dispatchers":[{"name":"o","kind":"active_obj"},{"name":"g","kind":"active_group"}],"coops":[{"name":"main","agents":[{"name":"a","disp":"o"},{"name":"b","disp":"o"},{"name":"c","disp":"g","group":"r"},{"name":"d","disp":"g","group":"s"},{"name":"e","disp":"g","group":"r"}]}]}"#,
    ),
    (
        "strictly_ordered",
        r#"{"version":1,"dispatchers":[{"name":"d","kind":"strictly_ordered"}],"coops":[{"name":"main","agents":[{"name":"f"},{"name":"a","disp":"d","priority":7},{"name":"b","disp":"d","priority":3},{"name":"c","disp":"d"}]}]}"#,
    ),
    (
        "quoted_round_robin",
        r#"{"version":1,"dispatchers":[{"name":"d","kind":"quoted_round_robin","quotes":[1,1,1,2,1,1,1,3]}],"coops":[{"name":"main","agents":[{"name":"f"},{"name":"a","disp":"d","priority":7},{"name":"b","disp":"d","priority":3},{"name":"c","disp":"d"}]}]}"#,
    ),
    (
        "one_per_prio",
        r#"{"version":1,"dispatchers":[{"name":"d","kind":"one_per_prio"}],"coops":[{"name":"main","agents":[{"name":"f"},{"name":"a","disp":"d","priority":7},{"name":"b","disp":"d","priority":3},{"name":"c","disp":"d"}]}]}"#,
    ),
    (
        "adv_thread_pool",
        r#"{"version":1,"dispatchers":[{"name":"d","kind":"adv_thread_pool","threads":2,"fifo":"individual"}],"coops":[{"name":"main","agents":[{"name":"f"},{"name":"a","disp":"d"},{"name":"b","disp":"d"},{"name":"c","disp":"d"}]}]}"#,
    ),
];

/// A call on the queues.
#[derive(Clone, Copy)]
enum Step {
    /// A demand of this place for a queue, with a priority.
    Push(u32, u8, u32),
    /// The first demand of a queue and priority is taken.
    Take(u32, u8),
    /// A turn of the queue begins, a thread-safe one or an exclusive one.
    Start(u32, bool),
    /// Such a turn ends.
    End(u32, bool),
}

/// Every third demand is exclusive, every third thread-safe, and every third is skipped.
struct ByPlace;

impl Heads for ByPlace {
    ghost class = { λ heads d. class_of d };

    fn class(&self, demand: DemandId) -> HeadClass
        ensures { result ≡ class_of demand }
    {
        match demand.place.0 % 3 {
            0 => HeadClass::Exclusive,
            1 => HeadClass::Safe,
            _ => HeadClass::Skip,
        }
    }
}

fn push(queues: &mut Queues, key: KeyId, level: u8, place: u32)
    requires { key.0 < keys_of queues.old }
    ensures { keys_of queues.new ≡ keys_of queues.old }
{
    if let Some(priority) = Priority::of(level) {
        let demand = DemandId {
            place: Place(place),
            k: 0,
        };
        if queues.may_push(demand) {
            queues.push(key, priority, demand);
        }
    }
}

fn take(queues: &mut Queues, key: KeyId, level: u8)
    requires { key.0 < keys_of queues.old }
    ensures { keys_of queues.new ≡ keys_of queues.old }
{
    if let Some(priority) = Priority::of(level) {
        if queues.front_of(key, priority).is_some() {
            let _taken = queues.take(key, priority);
        }
    }
}

fn start(queues: &mut Queues, key: KeyId, safe: bool)
    requires { key.0 < keys_of queues.old }
    ensures { keys_of queues.new ≡ keys_of queues.old }
{
    let (safe_turns, exclusive) = queues.running(key);
    let runs = if safe { safe_turns } else { exclusive };
    if runs < 100 {
        queues.started(key, safe);
    }
}

fn end(queues: &mut Queues, key: KeyId, safe: bool)
    requires { key.0 < keys_of queues.old }
    ensures { keys_of queues.new ≡ keys_of queues.old }
{
    let (safe_turns, exclusive) = queues.running(key);
    let runs = if safe { safe_turns } else { exclusive };
    if runs > 0 {
        queues.ended(key, safe);
    }
}

/// Makes a call where it may be made.
fn make(queues: &mut Queues, count: u32, step: Step)
    requires { keys_of queues.old ≡ count }
    ensures { keys_of queues.new ≡ count }
{
    match step {
        Step::Push(key, level, place) if key < count => push(queues, KeyId(key), level, place),
        Step::Take(key, level) if key < count => take(queues, KeyId(key), level),
        Step::Start(key, safe) if key < count => start(queues, KeyId(key), safe),
        Step::End(key, safe) if key < count => end(queues, KeyId(key), safe),
        _ => {}
    }
}

/// A taking moves the round of the last lane's dispatcher.
fn take_round(scene: &Scene, prio: &mut Prio, step: Step)
    requires { length prio.old ≡ length scene.now.dispatchers }
    ensures { length prio.new ≡ length scene.now.dispatchers }
{
    let lanes = scene.lanes();
    if let Step::Take(_, level) = step {
        if let Some(priority) = Priority::of(level) {
            if lanes > 0 {
                prio.took(scene, LaneId(lanes - 1), priority);
            }
        }
    }
}

/// A call that is drawn.
fn step_of(draw: u32, place: u32, count: u32) -> Step
    requires { 0 < count }
{
    let key = draw % count;
    let level = (draw / 512 % 8) as u8;
    let safe = draw / 64 % 4 == 0;
    match draw / 4096 % 8 {
        0 | 1 | 2 => Step::Push(key, level, place),
        3 | 4 => Step::Take(key, level),
        5 => Step::Start(key, safe),
        _ => Step::End(key, safe),
    }
}

/// Tells whether both picks of each kind give the same for a lane.
fn are_alike(scene: &Scene, queues: &Queues, prio: &Prio, lane: LaneId) -> bool
    requires lane { lane.0 < lanes scene.now }
    requires keys { keys_of queues.now ≡ keys scene.now }
    requires rounds { length prio.now ≡ length scene.now.dispatchers }
{
    let plain = so_disp_excl::plain_pick(scene, queues, lane);
    let safe = so_disp_adv::plain_pick(scene, queues, &ByPlace, lane);
    so_disp_excl::pick(scene, queues, lane) == plain
        && so_disp_adv::pick(scene, queues, &ByPlace, lane) == safe
        && prio.pick(scene, queues, lane) == prio.plain_pick(scene, queues, lane)
}

/// Tells whether they do for each lane.
fn all_alike(scene: &Scene, queues: &Queues, prio: &Prio) -> bool
    requires keys { keys_of queues.now ≡ keys scene.now }
    requires rounds { length prio.now ≡ length scene.now.dispatchers }
{
    let mut alike = true;
    for lane in 0..scene.lanes() {
        alike = are_alike(scene, queues, prio, LaneId(lane)) && alike;
    }
    alike
}

/// Tells whether the picks on a scene agree after each call.
fn agree_on(alloc: Global, scene: &Scene) -> Result<bool, NoMemory> {
    let count = scene.keys();
    let mut queues = Queues::with(alloc, count, ROOM)?;
    let mut prio = Prio::with(alloc, scene)?;
    let mut seed = 7u64;
    let mut alike = true;
    for place in 0..CALLS {
        if count > 0 {
            seed = next_random(seed);
            let step = step_of(drawn(seed), place, count);
            make(&mut queues, count, step);
            take_round(scene, &mut prio, step);
        }
        alike = all_alike(scene, &queues, &prio) && alike;
    }
    Ok(alike)
}

/// Tells whether the picks on the scene of a text agree.
pub(crate) fn agree(alloc: Global, text: &str) -> Result<bool, SceneRefusal> {
    let scene = read_scene(alloc, text.as_bytes())?;
    match agree_on(alloc, &scene) {
        Ok(agree) => Ok(agree),
        Err(NoMemory) => Err(SceneRefusal::NoMemory),
    }
}
