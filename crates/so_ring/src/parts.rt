//! The parts of a ring.

ghost use Rattle.std.specs.Prelude.{◌≡◌, ◌≤◌, [], ◌∷◌, true, IfOk};
ghost use Rattle.so_scene.specs.Parts.{default_disp};
ghost use Rattle.so_scene.specs.Words.{is_name};
ghost use Rattle.so_ring.specs.Ring.{most_in_ring, token, pool, ring_coop, ring};

use crate::agents::agents_of;
use so_ids::{AgentId, NoMemory};
use so_scene::{CoopDef, DispDef, DispKind, Fifo, Items, MessageDef, Name, Scene, SceneParts};
use std::alloc::{AllocError, Global};

/// The most agents of a ring.
pub const MOST_IN_RING: u32 = 4_000;

/// The ring of so many agents, 1 to 4,000.
pub fn ring(alloc: Global, count: u32) -> Result<Scene, NoMemory>
    requires some { 1 ≤ count }
    requires few { count ≤ most_in_ring }
    ensures { IfOk result (λ scene. scene ≡ ring count) }
{
    let parts = parts_of(alloc, count)?;
    Scene::new(alloc, parts)
}

/// Its parts.
fn parts_of(alloc: Global, count: u32) -> Result<SceneParts, AllocError>
    requires some { 1 ≤ count }
    requires few { count ≤ most_in_ring }
    ensures { IfOk result (λ parts. parts ≡ ring count) }
{
    Ok(SceneParts {
        messages: one(alloc, token())?,
        mboxes: Items::new(alloc),
        dispatchers: two(alloc, default_disp(), pool())?,
        groups: two(alloc, Items::new(alloc), Items::new(alloc))?,
        coops: one(alloc, coop_of(count))?,
        agents: agents_of(alloc, count)?,
        texts: Items::new(alloc),
        autoshutdown: true,
    })
}

/// A list of one.
pub(crate) fn one<T: Drop>(alloc: Global, item: T) -> Result<Items<T>, AllocError>
    ensures { IfOk result (λ items. items ≡ item ∷ []) }
{
    let mut items = Items::new(alloc);
    items.push(item)?;
    Ok(items)
}

/// A list of two.
fn two<T: Drop>(alloc: Global, first: T, second: T) -> Result<Items<T>, AllocError>
    ensures { IfOk result (λ items. items ≡ first ∷ second ∷ []) }
{
    let mut items = one(alloc, first)?;
    items.push(second)?;
    Ok(items)
}

/// The name that this text is.
pub(crate) fn named(text: &str) -> Name
    requires { is_name text.now ≡ true }
    ensures { result ≡ text.now }
{
    match Name::of(text) {
        Some(name) => name,
        None => unreachable!(),
    }
}

/// The type of the token.
fn token() -> MessageDef
    ensures { result ≡ token }
{
    MessageDef {
        name: named("token"),
        signal: false,
    }
}

/// The dispatcher `default`.
fn default_disp() -> DispDef
    ensures { result ≡ default_disp }
{
    DispDef {
        name: named("default"),
        kind: DispKind::OneThread,
        slots: 4096,
        threads: 4,
        fifo: Fifo::Cooperation,
        quotes: [20; 8],
    }
}

/// The pool on whose threads the agents run.
fn pool() -> DispDef
    ensures { result ≡ pool }
{
    DispDef {
        name: named("pool"),
        kind: DispKind::ThreadPool,
        slots: 4096,
        threads: 4,
        fifo: Fifo::Individual,
        quotes: [20; 8],
    }
}

/// The cooperation of all agents.
fn coop_of(count: u32) -> CoopDef
    ensures { result ≡ ring_coop count }
{
    CoopDef {
        name: named("ring"),
        parent: None,
        at_start: true,
        first: AgentId(0),
        count,
    }
}
