//! All facts of a legal history, beside the six of `so_history`, and how a run ends. Each law is the contract of a
//! function that does nothing. That a history is legal exactly where it has them is told in `so_exact`.
#![tactic(auto)]

ghost use Rattle.std.specs.Prelude.{List};
ghost use Rattle.so_scene.specs.declared.parts.SceneParts.{SceneParts};
ghost use Rattle.so_scene.specs.Checked.{IsScene};
ghost use Rattle.so_history.specs.declared.entry.Entry.{Entry};
ghost use Rattle.so_history.specs.Steps.{Legal};
ghost use Rattle.so_facts.specs.Choosing.{ByDemand};
ghost use Rattle.so_facts.specs.Firsts.{TakenFirst};
ghost use Rattle.so_facts.specs.Lanes.{LanesInTurn};
ghost use Rattle.so_facts.specs.Refusals.{ByAdmission};
ghost use Rattle.so_facts.specs.Leavings.{ByReason};
ghost use Rattle.so_facts.specs.Lives.{WholeLives};
ghost use Rattle.so_facts.specs.Moves.{WhileRunning};
ghost use Rattle.so_facts.specs.Acts.{ByCode};
ghost use Rattle.so_facts.specs.Ends.{WentOn, EndsWhereOver};
ghost use Rattle.so_facts.specs.All.{HasAllFacts};

/// By demand: each turn begins for a demand that waits then, with what is chosen for it, which is nothing to be skipped.
pub fn by_demand()
    ensures { (s : SceneParts) (h : List Entry) → Legal s h → ByDemand s h }
{}

/// Taken first: a lane takes the earliest demand of those that it may take; a strictly_ordered dispatcher goes by the
/// highest priority, and a quoted_round_robin one by that of its round.
pub fn taken_first()
    ensures { (s : SceneParts) (h : List Entry) → Legal s h → TakenFirst s h }
{}

/// Lanes in turn: of two turns of one lane the earlier ends before the later begins, and a lane takes demands only of
/// agents that it serves.
pub fn lanes_in_turn()
    ensures { (s : SceneParts) (h : List Entry) → IsScene s → Legal s h → LanesInTurn s h }
{}

/// By admission: main tries its cooperations in turn; one is registered where admission allows it, and refused for the
/// cause that admission gives; a refusal leaves all as it was.
pub fn by_admission()
    ensures { (s : SceneParts) (h : List Entry) → Legal s h → ByAdmission s h }
{}

/// By reason: a cooperation begins to leave for a reason that it has then, and the run stops for a cause that it has
/// then.
pub fn by_reason()
    ensures { (s : SceneParts) (h : List Entry) → Legal s h → ByReason s h }
{}

/// Whole lives: a turn begins only while its agent's cooperation is there; between a registration and the next Left an
/// agent's first turn is its start, and its last is its finish, which has ended by then.
pub fn whole_lives()
    ensures { (s : SceneParts) (h : List Entry) → IsScene s → Legal s h → WholeLives s h }
{}

/// While running: what moves a turn comes while that runs, from the party that began it; any other entry is signed by
/// main, or by the lane's party.
pub fn while_running()
    ensures { (s : SceneParts) (h : List Entry) → Legal s h → WhileRunning h }
{}

/// By code: each move of a turn is what its agent's code does next, and each act is answered by the rules as things
/// stand then.
pub fn by_code()
    ensures { (s : SceneParts) (h : List Entry) → Legal s h → ByCode s h }
{}

/// It went on: before none of its entries was the run over.
pub fn went_on()
    ensures { (s : SceneParts) (h : List Entry) → Legal s h → WentOn s h }
{}

/// All of these, and the six facts of `so_history`.
pub fn has_all_facts()
    ensures { (s : SceneParts) (h : List Entry) → IsScene s → Legal s h → HasAllFacts s h }
{}

/// Where a run is over nothing may follow and no step is next; anywhere else some pick has a step; and what is next, or
/// the step of a pick, may follow.
pub fn ends_where_over()
    ensures { (s : SceneParts) (h : List Entry) → IsScene s → Legal s h → EndsWhereOver s h }
{}
