//! A history is legal exactly where it has all facts. Wrong histories, with the fact that refuses each, stand in
//! `proofs/Wrong.antt`.
#![tactic(auto)]

ghost use Rattle.std.specs.Prelude.{◌↔◌, List};
ghost use Rattle.so_scene.specs.declared.parts.SceneParts.{SceneParts};
ghost use Rattle.so_scene.specs.Checked.{IsScene};
ghost use Rattle.so_history.specs.declared.entry.Entry.{Entry};
ghost use Rattle.so_history.specs.Steps.{Legal};
ghost use Rattle.so_facts.specs.All.{HasAllFacts};

/// A history of a checked scene is legal exactly where it has all facts: no wrong one has them.
pub fn exactly_legal()
    ensures { (s : SceneParts) (h : List Entry) → IsScene s → Legal s h ↔ HasAllFacts s h }
{}
