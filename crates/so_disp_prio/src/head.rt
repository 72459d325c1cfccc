//! Which demand of a queue comes first, by the kind of its dispatcher.
ghost use Rattle.std.specs.Prelude.{◌≡◌, ◌<◌, ◌&&◌};
ghost use Rattle.so_scene.specs.Rounds.{has_left, moved, next_priority};
ghost use Rattle.so_lists.specs.Lists.{first_below};
ghost use Rattle.so_queue.specs.Queues.{keys_of};
ghost use Rattle.so_disp_prio.specs.Pick.{waits_with, from_top, head_by};

use so_ids::{DemandId, KeyId, Priority};
use so_queue::Queues;
use so_scene::{DispDef, DispKind, Round, next_lower};

/// The demand of a queue that comes first on this dispatcher, in this round.
pub(crate) fn head(def: &DispDef, round: Round, queues: &Queues, key: KeyId) -> Option<DemandId>
    requires { key.0 < keys_of queues.now }
    ensures { result ≡ head_by def.now.kind def.now.quotes round queues.now key }
{
    match def.kind {
        DispKind::StrictlyOrdered => first_from_top(queues, key),
        DispKind::QuotedRoundRobin => queues.front_of(
            key,
            moved_priority(round, &def.quotes, queues, key),
        ),
        _ => queues.front(key),
    }
}

/// The first demand of the highest priority that has one.
fn first_from_top(queues: &Queues, key: KeyId) -> Option<DemandId>
    requires { key.0 < keys_of queues.now }
    ensures { result ≡ first_below (from_top queues.now key) 8 }
{
    for k in 0..8u8 {
        let first = queues.front_of(key, Priority { level: 7 - k });
        if first.is_some() {
            return first;
        }
    }
    None
}

/// The priority of the round before the next taking: its own where its quote isn't used up and it has a demand, else
/// the next that has one.
#[tactic(auto, unfolding(so_scene::specs::Rounds::moved))]
fn moved_priority(round: Round, quotes: &[u32; 8], queues: &Queues, key: KeyId) -> Priority
    requires { key.0 < keys_of queues.now }
    ensures { result ≡ (moved quotes.now (waits_with queues.now key) round).priority }
{
    if stays(round, quotes, queues, key) {
        round.priority
    } else {
        next_priority(queues, key, round.priority)
    }
}

/// Tells whether the quote of the round isn't used up and its priority has a demand.
fn stays(round: Round, quotes: &[u32; 8], queues: &Queues, key: KeyId) -> bool
    requires { key.0 < keys_of queues.now }
    ensures { result ≡ (has_left quotes.now round && waits_with queues.now key round.priority.level) }
{
    round.has_left(quotes) && queues.front_of(key, round.priority).is_some()
}

/// The first priority below this one that has a demand, with p7 after p0 and this one last. This one where none has.
fn next_priority(queues: &Queues, key: KeyId, from: Priority) -> Priority
    requires { key.0 < keys_of queues.now }
    ensures { result ≡ next_priority (waits_with queues.now key) from }
{
    let mut at = from;
    for step in 0..8u8 {
        at = next_lower(at);
        if queues.front_of(key, at).is_some() {
            return at;
        }
    }
    from
}
