//! What the answers mean. Each law is the contract of a function that does nothing.

ghost use Rattle.std.specs.Prelude.{◌≡◌, Some, None};
ghost use Rattle.so_ids.specs.declared.CoopId.{CoopId};
ghost use Rattle.so_ids.specs.declared.Refusal.{Refusal};
ghost use Rattle.so_scene.specs.declared.parts.SceneParts.{SceneParts};
ghost use Rattle.so_scene.specs.Cooperations.{Standing, admission};
ghost use Rattle.so_coop.specs.Coops.{CoopTable, left_next};
ghost use Rattle.so_coop.specs.Laws.{IsFirstCause, IsAdmitted, IsNextLeft};

/// A refusal names the first cause that holds, and the first agent for which it does.
pub fn names_first_cause()
    ensures { (s : SceneParts) (st : Standing) (c : CoopId) (cause : Refusal) → admission s st c ≡ Some cause → IsFirstCause s st c cause }
{}

/// Where a registration isn't refused, no cause holds.
pub fn has_no_cause()
    ensures { (s : SceneParts) (st : Standing) (c : CoopId) → admission s st c ≡ None → IsAdmitted s st c }
{}

/// Who leaves next is the least that is leaving, has no finish turn to come, and isn't the parent of a registered
/// one.
pub fn leaves_after_children()
    ensures { (t : CoopTable) (c : CoopId) → left_next t ≡ Some c → IsNextLeft t c }
{}
