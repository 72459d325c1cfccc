//! The kernel and its steps. Each adds at most one entry, the one that its definition gives.

ghost use Rattle.std.specs.Prelude.{◌≡◌, ℕ, ◌<◌, ◌≤◌, ◌↔◌, [], true, false, IfOk, Some, None};
ghost use Rattle.so_ids.specs.Limits.{most_units};
ghost use Rattle.so_scene.specs.Checked.{IsScene};
ghost use Rattle.so_scene.specs.Lanes.{lanes};
ghost use Rattle.so_code.specs.declared.effect.Move.TheVariants.{Do, Done, Fail};
ghost use Rattle.so_history.specs.Units.{units};
ghost use Rattle.so_history.specs.Steps.{finished, is_over, IsSigner, Legal};
ghost use Rattle.so_history.specs.Coops.{aborted};
ghost use Rattle.so_history.specs.Chain.{registration, tidying};
ghost use Rattle.so_history.specs.Order.{pick};
ghost use Rattle.so_ledger.specs.Gates.{gated, core_after, begin_by};
ghost use Rattle.so_ledger.specs.Kept.{HasTooLarge};
ghost use Rattle.so_kernel.specs.Answers.{step_answers, act_answers, end_answers, fail_answers};
ghost use Rattle.so_kernel.specs.Hands.{IsHeld, HasMoved, IsBegun, act_entry, end_entry, fail_entry, turn_after};

use crate::answers::{Acted, Begun, Ended, RunState, Stepped, Turn};
use crate::hands::{add_act, add_taking, found_turn};
use so_code::{Effect, FailKind};
use so_deliver::Outcomes;
use so_history::{AbortCause, Entry, EntryKind, History};
use so_ids::{LaneId, NoMemory, PartyId};
use so_ledger::{Barred, Ledger};
use so_scene::Scene;
use so_tables::Found;
use std::alloc::Global;
use std::marker::Model;

/// The core of a run of a scene.
#[derive(Drop)]
pub struct Kernel<'a> {
    ledger: Ledger<'a>,
    /// Where a delivery is planned.
    outcomes: Outcomes,
}

impl<'a> Model for Kernel<'a> {
    ghost use Rattle.std.specs.Prelude.{◌≤◌, length};
    ghost use Rattle.so_ledger.specs.Shapes.{Core};

    ghost Value = { Core };

    ghost view = { λ k. k.ledger };

    ghost invariant = { λ k. length k.ledger.scene.agents ≤ k.outcomes.room };
}

impl<'a> Kernel<'a> {
    /// A kernel with an empty history, which may spend so many units. Nothing after it takes memory.
    pub fn make(alloc: Global, scene: &'a Scene, units: u32) -> Result<Kernel<'a>, NoMemory>
        requires { units ≤ most_units }
        ensures { IfOk result (λ k. k ≡ record { scene = scene.now; limit = units; history = []; full = false }) }
    {
        Ok(Kernel {
            ledger: Ledger::make(alloc, scene, units)?,
            outcomes: Outcomes::with(alloc, scene.agents())?,
        })
    }

    /// The scene. It also tells what the kernel keeps: the history is legal and within its units, and the mark of Full
    /// stands only where a legal step doesn't fit.
    pub fn scene(&self) -> &'a Scene
        ensures value { result.now ≡ self.now.scene }
        ensures scene { IsScene self.now.scene }
        ensures legal { Legal self.now.scene self.now.history }
        ensures within { units self.now.scene self.now.history ≤ self.now.limit }
        ensures few { self.now.limit ≤ most_units }
        ensures full { self.now.full ≡ true → HasTooLarge self.now.scene self.now.limit self.now.history }
    {
        self.ledger.scene()
    }

    /// The history so far.
    pub fn history(&self) -> &History
        ensures entries { result.now.entries ≡ self.now.history }
        ensures limit { result.now.limit ≡ self.now.limit }
    {
        self.ledger.history()
    }

    /// The units that the history has cost.
    pub fn spent(&self) -> u32
        ensures { result ≡ units self.now.scene self.now.history }
    {
        self.ledger.spent()
    }

    /// Gives the history up.
    pub fn close(self) -> History
        ensures entries { result.entries ≡ self.entry.history }
        ensures limit { result.limit ≡ self.entry.limit }
        ensures legal { Legal self.entry.scene self.entry.history }
    {
        let Kernel {
            ledger,
            outcomes: _,
        } = self;
        ledger.close()
    }

    /// How the run stands. Full says that a step didn't fit.
    pub fn state(&self) -> RunState
        ensures finished { (result ≡ RunState.Finished) ↔ (finished self.now.scene self.now.history ≡ true) }
        ensures aborted { (result ≡ RunState.Aborted) ↔ ((aborted self.now.history ≡ true) × (finished self.now.scene self.now.history ≡ false)) }
        ensures full { (result ≡ RunState.Full) ↔ ((self.now.full ≡ true) × (is_over self.now.scene self.now.history ≡ false)) }
    {
        if self.ledger.is_finished() {
            RunState::Finished
        } else if self.ledger.is_aborted() {
            RunState::Aborted
        } else if self.ledger.is_full() {
            RunState::Full
        } else {
            RunState::Going
        }
    }

    /// Main's next registration: a Register or a Refuse. Nothing where none is left.
    pub fn register_next(&mut self) -> Stepped
        ensures answer { result ≡ step_answers (gated self.old (registration self.old.scene self.old.history)) }
        ensures after { self.new ≡ core_after self.old (gated self.old (registration self.old.scene self.old.history)) }
    {
        let next = self.ledger.registration();
        match self.ledger.gate(next) {
            Ok(entry) => {
                self.ledger.add(entry, Found::Nothing, &self.outcomes);
                Stepped::Added
            }
            Err(why) => Stepped::refused(why),
        }
    }

    /// The first of: the run stops since a turn asked for it, it stops since all cooperations are gone, the least cooperation
    /// with a reason leaves, the least that may leave has left, the run stops since nothing is left to do.
    pub fn tidy(&mut self) -> Stepped
        ensures answer { result ≡ step_answers (gated self.old (tidying self.old.scene self.old.history)) }
        ensures after { self.new ≡ core_after self.old (gated self.old (tidying self.old.scene self.old.history)) }
    {
        let next = self.ledger.tidying();
        match self.ledger.gate(next) {
            Ok(entry) => {
                self.ledger.add(entry, Found::Nothing, &self.outcomes);
                Stepped::Added
            }
            Err(why) => Stepped::refused(why),
        }
    }

    /// A lane before which no lane may take a demand, at most one past the last.
    pub fn first_lane(&self) -> u32
        ensures within { result ≤ lanes self.now.scene }
        ensures none { (l : ℕ) → l < result → pick self.now.scene self.now.history (record { 0 = l }) ≡ None }
    {
        self.ledger.first_lane()
    }

    /// Takes the first demand that a free lane may take: its turn begins, or it is skipped.
    pub fn begin(&mut self, by: PartyId, lane: LaneId) -> Begun
        requires lane { lane.0 < lanes self.old.scene }
        requires signer { IsSigner by lane }
        ensures answer { IsBegun self.new by lane (gated self.old (begin_by self.old by lane)) result }
        ensures after { self.new ≡ core_after self.old (gated self.old (begin_by self.old by lane)) }
    {
        let picked = self.ledger.pick(lane);
        let next = self.ledger.taking(by, lane, picked);
        match self.ledger.gate(next) {
            Ok(entry) => match picked {
                Some(demand) => add_taking(&mut self.ledger, &self.outcomes, entry, lane, demand),
                None => unreachable!(),
            },
            Err(why) => Begun::refused(why),
        }
    }

    /// Carries out the effect of the turn's move. A turn that went has the answer in its frame.
    pub fn act(&mut self, turn: &mut Turn, effect: Effect) -> Acted
        requires moved { HasMoved self.old.scene self.old.history turn.old (Do effect) }
        ensures answer { result ≡ act_answers (gated self.old (Some (act_entry self.old turn.old effect))) }
        ensures after { self.new ≡ core_after self.old (gated self.old (Some (act_entry self.old turn.old effect))) }
        ensures turn { turn.new ≡ turn_after self.old (gated self.old (Some (act_entry self.old turn.old effect))) turn.old effect }
        ensures held { result ≡ Acted.Went → IsHeld self.new.scene self.new.history turn.new }
    {
        let _scene = self.ledger.scene();
        let answer = self
            .ledger
            .answer_to(turn.agent, turn.event, effect, &mut self.outcomes);
        let entry = Entry {
            by: turn.by,
            kind: EntryKind::Act {
                turn: turn.begun,
                effect,
                answer,
            },
        };
        match self.ledger.gate(Some(entry)) {
            Ok(entry) => {
                add_act(
                    &mut self.ledger,
                    &self.outcomes,
                    entry,
                    turn,
                    effect,
                    answer,
                );
                Acted::Went
            }
            Err(why) => Acted::refused(why),
        }
    }

    /// Ends a turn whose code is over.
    pub fn end(&mut self, turn: &Turn) -> Ended
        requires moved { HasMoved self.old.scene self.old.history turn.now Done }
        ensures answer { result ≡ end_answers (gated self.old (Some (end_entry turn.now))) }
        ensures after { self.new ≡ core_after self.old (gated self.old (Some (end_entry turn.now))) }
    {
        let found = found_turn(self.ledger.scene(), turn);
        let entry = Entry {
            by: turn.by,
            kind: EntryKind::End { turn: turn.begun },
        };
        match self.ledger.gate(Some(entry)) {
            Ok(entry) => {
                self.ledger.add(entry, Found::Turn(found), &self.outcomes);
                Ended::Done
            }
            Err(Barred::Over) => Ended::Over,
            Err(_) => Ended::Full,
        }
    }

    /// Fails a turn by its exception. Every agent's reaction is to abort, so far.
    pub fn fail(&mut self, turn: &Turn, kind: FailKind) -> Ended
        requires moved { HasMoved self.old.scene self.old.history turn.now (Fail kind) }
        ensures answer { result ≡ fail_answers (gated self.old (Some (fail_entry turn.now kind))) }
        ensures after { self.new ≡ core_after self.old (gated self.old (Some (fail_entry turn.now kind))) }
    {
        let entry = Entry {
            by: turn.by,
            kind: EntryKind::Abort {
                cause: AbortCause::Exception(turn.begun, kind),
            },
        };
        match self.ledger.gate(Some(entry)) {
            Ok(entry) => {
                self.ledger.add(entry, Found::Nothing, &self.outcomes);
                Ended::Aborted
            }
            Err(Barred::Over) => Ended::Over,
            Err(_) => Ended::Full,
        }
    }
}
