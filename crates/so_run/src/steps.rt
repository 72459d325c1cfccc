//! The steps of a run that is shared. Each adds at most one line, which its party signs.

ghost use Rattle.std.specs.Prelude.{◌≡◌, ◌<◌, ◌≤◌, [], None, IfOk, IsFalse, true, is_some};
ghost use Rattle.so_ids.specs.Ids.{main_party};
ghost use Rattle.so_ids.specs.Limits.{most_units};
ghost use Rattle.so_code.specs.declared.effect.Move.TheVariants.{Do, Done, Fail};
ghost use Rattle.so_scene.specs.Lanes.{lanes};
ghost use Rattle.so_history.specs.Steps.{IsSigner, is_over};
ghost use Rattle.so_kernel.specs.Hands.{IsHeld, HasMoved};
ghost use Rattle.so_run.specs.Stepping.{lines_of, marked_by, IsStepOf, HasBegun, HasStopped};

use crate::shared::Run;
use so_code::{Effect, FailKind};
use so_ids::{LaneId, NoMemory, PartyId};
use so_kernel::{Acted, Begun, Ended, Kernel, RunState, Stepped, Turn};
use so_scene::Scene;
use std::alloc::Global;

impl<'a> Run<'a> {
    /// A run that has not begun.
    pub(crate) fn open(alloc: Global, scene: &'a Scene, units: u32) -> Result<Run<'a>, NoMemory>
        requires { units ≤ most_units }
        ensures { IfOk result (λ r. (r.scene ≡ scene.entry) × (r.full ≡ None) × (r.kernel.history ≡ []) × (r.kernel.limit ≡ units)) }
    {
        Ok(Run {
            scene,
            kernel: Kernel::make(alloc, scene, units)?,
            full: None,
        })
    }

    /// Tells whether the run goes on.
    pub(crate) fn goes_on(&self) -> bool
        ensures { IsFalse result → HasStopped self.now }
    {
        match self.kernel.state() {
            RunState::Going => true,
            RunState::Finished | RunState::Aborted | RunState::Full => false,
        }
    }

    /// A lane takes a demand.
    pub(crate) fn begin(&mut self, by: PartyId, lane: LaneId) -> Begun
        requires lane { lane.0 < lanes self.old.kernel.scene }
        requires signer { IsSigner by lane }
        ensures step { IsStepOf by self.old self.new }
        ensures turn { HasBegun self.new.kernel.scene self.new.kernel.history by result }
    {
        let begun = self.kernel.begin(by, lane);
        self.full = marked_by(&self.kernel, by, self.full);
        begun
    }

    /// A turn acts.
    pub(crate) fn act(&mut self, turn: &mut Turn, effect: Effect) -> Acted
        requires moved { HasMoved self.old.kernel.scene self.old.kernel.history turn.old (Do effect) }
        ensures step { IsStepOf turn.old.by self.old self.new }
        ensures held { result ≡ Acted.Went → IsHeld self.new.kernel.scene self.new.kernel.history turn.new }
        ensures by { turn.new.by ≡ turn.old.by }
    {
        let by = turn.by;
        let acted = self.kernel.act(turn, effect);
        self.full = marked_by(&self.kernel, by, self.full);
        acted
    }

    /// A turn ends.
    pub(crate) fn end(&mut self, turn: Turn)
        requires moved { HasMoved self.old.kernel.scene self.old.kernel.history turn Done }
        ensures step { IsStepOf turn.by self.old self.new }
    {
        let by = turn.by;
        let _ended = self.kernel.end(&turn);
        self.full = marked_by(&self.kernel, by, self.full);
    }

    /// A turn fails.
    pub(crate) fn fail(&mut self, turn: Turn, kind: FailKind)
        requires moved { HasMoved self.old.kernel.scene self.old.kernel.history turn (Fail kind) }
        ensures step { IsStepOf turn.by self.old self.new }
    {
        let by = turn.by;
        let _failed = self.kernel.fail(&turn, kind);
        self.full = marked_by(&self.kernel, by, self.full);
    }

    /// Main registers its next cooperation.
    pub(crate) fn register_next(&mut self) -> Stepped
        ensures step { IsStepOf main_party self.old self.new }
    {
        let stepped = self.kernel.register_next();
        self.full = marked_by(&self.kernel, PartyId(0), self.full);
        stepped
    }

    /// Main's next step.
    pub(crate) fn lead(&mut self, registering: bool) -> Stepped
        ensures step { IsStepOf main_party self.old self.new }
    {
        if registering {
            self.register_next()
        } else {
            self.tidy()
        }
    }

    /// Main tidies.
    pub(crate) fn tidy(&mut self) -> Stepped
        ensures step { IsStepOf main_party self.old self.new }
    {
        let stepped = self.kernel.tidy();
        self.full = marked_by(&self.kernel, PartyId(0), self.full);
        stepped
    }
}

/// Who signs the mark of Full after a party's step.
fn marked_by(kernel: &Kernel, by: PartyId, full: Option<PartyId>) -> Option<PartyId>
    ensures { result ≡ marked_by by kernel.now.full full }
{
    let _scene = kernel.scene();
    match (kernel.state(), full) {
        (RunState::Full, None) => Some(by),
        _ => full,
    }
}
