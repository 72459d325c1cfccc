//! What holds of every legal history. Each law is the contract of a function that does nothing.
#![tactic(auto)]

ghost use Rattle.std.specs.Prelude.{◌≡◌, ◌↔◌, ◌<◌, List, None, length, true};
ghost use Rattle.so_ids.specs.declared.AgentId.{AgentId};
ghost use Rattle.so_ids.specs.declared.CoopId.{CoopId};
ghost use Rattle.so_scene.specs.declared.parts.SceneParts.{SceneParts};
ghost use Rattle.so_scene.specs.Checked.{IsScene};
ghost use Rattle.so_history.specs.declared.entry.Entry.{Entry};
ghost use Rattle.so_history.specs.Coops.{leaving};
ghost use Rattle.so_history.specs.Steps.{is_over, Legal};
ghost use Rattle.so_history.specs.Finishing.{unfinished, IsQuiet};
ghost use Rattle.so_history.specs.Chain.{first};
ghost use Rattle.so_history.specs.Facts.{NoOverlap, TakenOnce, InOrder, ByChoice, WholeCoops, StartsAndFinishes};
ghost use Rattle.so_history.specs.Sharing.{SharesByRule, NumbersQueues};

/// Of two turns whose agents share a queue, the earlier ends before the later begins, unless both are thread-safe.
pub fn no_overlap()
    ensures { (s : SceneParts) (h : List Entry) → Legal s h → NoOverlap s h }
{}

/// Each demand is taken at most once.
pub fn taken_once()
    ensures { (s : SceneParts) (h : List Entry) → Legal s h → TakenOnce h }
{}

/// Of two demands whose agents share a queue, and have one priority where the dispatcher goes by priority, the later
/// is taken only after the earlier.
pub fn in_order()
    ensures { (s : SceneParts) (h : List Entry) → Legal s h → InOrder s h }
{}

/// Each turn begins with what is chosen for its demand at that moment, and each skip is chosen so too.
pub fn by_choice()
    ensures { (s : SceneParts) (h : List Entry) → Legal s h → ByChoice s h }
{}

/// A registration asks each agent to start and a refused one none; a leaving asks each to finish; when a cooperation has
/// left, nothing is left of its agents, and its children left before it.
pub fn whole_coops()
    ensures { (s : SceneParts) (h : List Entry) → Legal s h → WholeCoops s h }
{}

/// From a registration on, an agent's first demand is to start, and its last before its cooperation's Left is to finish.
pub fn starts_and_finishes()
    ensures { (s : SceneParts) (h : List Entry) → IsScene s → Legal s h → StartsAndFinishes s h }
{}

/// Of a cooperation that is leaving, no demand waits and no turn runs as soon as its agents' finish turns are over.
pub fn finishes_all()
    ensures { (s : SceneParts) (h : List Entry) (c : CoopId) → IsScene s → Legal s h → leaving h c ≡ true → unfinished s h c ≡ 0 → IsQuiet s h c }
{}

/// Two agents of a scene share a queue exactly where they are bound to one dispatcher, and it puts them together: a
/// one_thread, a strictly_ordered and a quoted_round_robin any two; an active_obj none but an agent and itself; an
/// active_group those of a group; a thread_pool and an adv_thread_pool those of a cooperation, or none but an agent and
/// itself; and a one_per_prio those of a priority.
pub fn shares_by_rule()
    ensures { (s : SceneParts) (a b : AgentId) → IsScene s → a.0 < length s.agents → b.0 < length s.agents → SharesByRule s a b }
{}

/// The queues of two agents have one number exactly where the agents share a queue.
pub fn numbers_queues()
    ensures { (s : SceneParts) (a b : AgentId) → a.0 < length s.agents → b.0 < length s.agents → NumbersQueues s a b }
{}

/// There is no first step exactly where the run is over.
pub fn goes_on()
    ensures { (s : SceneParts) (h : List Entry) → IsScene s → Legal s h → (first s h ≡ None) ↔ (is_over s h ≡ true) }
{}
