//! Both kinds of queues.
ghost use Rattle.std.specs.Prelude.{◌≡◌, ◌<◌};
ghost use Rattle.so_queue.specs.Queues.{keys_of};

use crate::draw::{drawn, next_random};
use so_ids::{DemandId, KeyId, NoMemory, Place, Priority};
use so_queue::{PlainQueues, Queues};
use std::alloc::Global;

/// How many calls are drawn.
const CALLS: u32 = 6_000;

/// Pushes into both where that is allowed.
fn push_both(
    queues: &mut Queues,
    plain: &mut PlainQueues,
    key: KeyId,
    priority: Priority,
    demand: DemandId,
)
    requires key { key.0 < keys_of queues.old }
    requires same { queues.old ≡ plain.old }
    ensures same { queues.new ≡ plain.new }
    ensures keys { keys_of queues.new ≡ keys_of queues.old }
{
    if queues.may_push(demand) {
        queues.push(key, priority, demand);
        plain.push(key, priority, demand);
    }
}

/// Takes from both where a demand waits, and tells whether both gave the same.
fn take_both(queues: &mut Queues, plain: &mut PlainQueues, key: KeyId, priority: Priority) -> bool
    requires key { key.0 < keys_of queues.old }
    requires same { queues.old ≡ plain.old }
    ensures same { queues.new ≡ plain.new }
    ensures keys { keys_of queues.new ≡ keys_of queues.old }
{
    let front = queues.front_of(key, priority);
    if front != plain.front_of(key, priority) {
        return false;
    }
    if front.is_none() {
        return true;
    }
    let taken = queues.take(key, priority);
    taken == plain.take(key, priority)
}

/// Tells whether both say the same of a key and of the ring.
fn are_alike(queues: &Queues, plain: &PlainQueues, key: KeyId) -> bool
    requires key { key.0 < keys_of queues.now }
    requires same { queues.now ≡ plain.now }
{
    let front = queues.front(key);
    if front != plain.front(key) || queues.ready() != plain.ready() {
        return false;
    }
    if front.is_none() {
        return true;
    }
    queues.ready_after(key) == plain.ready_after(key)
}

/// One call on both that is drawn, and whether both answered alike.
fn call_both(queues: &mut Queues, plain: &mut PlainQueues, place: u32, draw: u32) -> bool
    requires keys { keys_of queues.old ≡ 5 }
    requires same { queues.old ≡ plain.old }
    ensures same { queues.new ≡ plain.new }
    ensures keys { keys_of queues.new ≡ 5 }
{
    let key = KeyId(draw % 5);
    let Some(priority) = Priority::of((draw / 5 % 8) as u8) else {
        return false;
    };
    if draw / 64 % 2 == 1 {
        return take_both(queues, plain, key, priority);
    }
    let demand = DemandId {
        place: Place(place),
        k: draw % 3,
    };
    push_both(queues, plain, key, priority, demand);
    are_alike(queues, plain, key)
}

/// Tells whether both kinds answer each call alike.
pub(crate) fn agree(alloc: Global) -> Result<bool, NoMemory> {
    let mut queues = Queues::with(alloc, 5, 40)?;
    let mut plain = PlainQueues::with(alloc, 5, 40)?;
    let mut seed = 11u64;
    let mut alike = true;
    for place in 0..CALLS {
        seed = next_random(seed);
        alike = call_both(&mut queues, &mut plain, place, drawn(seed)) && alike;
    }
    Ok(alike)
}
