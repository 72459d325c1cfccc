//! The first legal step, in the order of the simulation.

ghost use Rattle.std.specs.Prelude.{◌≡◌, None, Err};
ghost use Rattle.so_scene.specs.Lanes.{lanes};
ghost use Rattle.so_history.specs.Chain.{first};
ghost use Rattle.so_ledger.specs.Gates.{gated, core_after};
ghost use Rattle.so_kernel.specs.Answers.{step_answers};
ghost use Rattle.so_kernel.specs.Held.{AreHeld};
ghost use Rattle.so_ledger.specs.declared.gate.Barred.TheVariants.{Nothing};
ghost use Rattle.so_env.specs.Runs.{NoneRuns, lanes_entry, tidy_first, free_first};

use so_history::Pick;
use so_ids::LaneId;
use so_kernel::{Kernel, Stepped, Turns, step};

/// Makes the first legal step.
pub(crate) fn step_first(kernel: &mut Kernel, turns: &mut Turns) -> Stepped
    requires held { AreHeld kernel.old turns.old }
    ensures answer { result ≡ step_answers (gated kernel.old (first kernel.old.scene kernel.old.history)) }
    ensures after { kernel.new ≡ core_after kernel.old (gated kernel.old (first kernel.old.scene kernel.old.history)) }
    ensures held { AreHeld kernel.new turns.new }
{
    let _scene = kernel.scene();
    match turns.first() {
        Some(lane) => step(kernel, turns, Pick::Lane(lane)),
        None => step_free(kernel, turns),
    }
}

/// Makes the first legal step where no turn runs.
fn step_free(kernel: &mut Kernel, turns: &mut Turns) -> Stepped
    requires held { AreHeld kernel.old turns.old }
    requires free { NoneRuns kernel.old }
    ensures answer { result ≡ step_answers (gated kernel.old (free_first kernel.old)) }
    ensures after { kernel.new ≡ core_after kernel.old (gated kernel.old (free_first kernel.old)) }
    ensures held { AreHeld kernel.new turns.new }
{
    match step(kernel, turns, Pick::Register) {
        Stepped::Nothing => step_tidy(kernel, turns),
        answer => answer,
    }
}

/// Tidies, or takes the first demand.
fn step_tidy(kernel: &mut Kernel, turns: &mut Turns) -> Stepped
    requires held { AreHeld kernel.old turns.old }
    requires free { NoneRuns kernel.old }
    ensures answer { result ≡ step_answers (gated kernel.old (tidy_first kernel.old)) }
    ensures after { kernel.new ≡ core_after kernel.old (gated kernel.old (tidy_first kernel.old)) }
    ensures held { AreHeld kernel.new turns.new }
{
    match step(kernel, turns, Pick::Tidy) {
        Stepped::Nothing => step_lanes(kernel, turns),
        answer => answer,
    }
}

/// Takes the first demand that a lane may take.
fn step_lanes(kernel: &mut Kernel, turns: &mut Turns) -> Stepped
    requires held { AreHeld kernel.old turns.old }
    requires free { NoneRuns kernel.old }
    requires going { gated kernel.old None ≡ Err Nothing }
    ensures answer { result ≡ step_answers (gated kernel.old (lanes_entry kernel.old (lanes kernel.old.scene))) }
    ensures after { kernel.new ≡ core_after kernel.old (gated kernel.old (lanes_entry kernel.old (lanes kernel.old.scene))) }
    ensures held { AreHeld kernel.new turns.new }
{
    let lanes = kernel.scene().lanes();
    for lane in kernel.first_lane()..lanes {
        match step(kernel, turns, Pick::Lane(LaneId(lane))) {
            Stepped::Nothing => {}
            answer => return answer,
        }
    }
    Stepped::Nothing
}
