//! What holds of the turns of a code. Each law is the contract of a function that does nothing.
#![tactic(auto)]

ghost use Rattle.std.specs.Prelude.{◌≡◌, ◌+◌, ◌++◌, ◌≤◌, List, true, false, length, replicate, slice_get, Some, None};
ghost use Rattle.std.specs.List.{AllByRecursion};
ghost use Rattle.so_ids.specs.declared.StateId.{StateId as StateNumber};
ghost use Rattle.so_code.specs.declared.effect.Answer.{Answer as AnyAnswer};
ghost use Rattle.so_code.specs.declared.effect.Answer.TheVariants.{Okay};
ghost use Rattle.so_code.specs.declared.effect.Effect.{Effect as AnyEffect};
ghost use Rattle.so_code.specs.declared.effect.Move.{Move as AnyMove};
ghost use Rattle.so_code.specs.declared.effect.Move.TheVariants.{Do};
ghost use Rattle.so_code.specs.declared.frame.Frame.{Frame as AnyFrame};
ghost use Rattle.so_code.specs.declared.instr.Cmp.{Cmp as AnyCmp};
ghost use Rattle.so_code.specs.declared.instr.Operand.{Operand as AnyOperand};
ghost use Rattle.so_code.specs.declared.instr.Instr.{Instr as AnyInstr};
ghost use Rattle.so_code.specs.Values.{holds, value};
ghost use Rattle.so_code.specs.Shape.{IsCode};
ghost use Rattle.so_code.specs.Machine.{plan_step, step, after};
ghost use Rattle.so_code.specs.Running.{IsFrame};
ghost use Rattle.so_code.specs.Origins.{Origin};
ghost use Rattle.so_code.specs.Own.{RunsActs, IsOwnAct, is_own};
ghost use Rattle.so_code_laws.specs.Turns.{effects_by, effects_in, is_straight, lines_of, is_log, at_place, BeginsWith, first_place, IsIf, GoesOnWith};
ghost use Rattle.so_code_laws.specs.Plans.{plan_parts, do_part, TransfersOnce};

/// Where a step gives a move, that is the turn's next one.
pub fn step_moves()
    ensures { (code : List AnyInstr) (f g : AnyFrame) (move : AnyMove) →
        IsCode code → IsFrame code f → step code f ≡ (Some move, g) → after code f ≡ (move, g) }
{}

/// Where a step gives none, the next move is that of the frame after the step. So the next move is what the steps come to,
/// whatever number of them its definition allows.
pub fn step_goes_on()
    ensures { (code : List AnyInstr) (f g : AnyFrame) →
        IsCode code → IsFrame code f → step code f ≡ (None, g) → after code f ≡ after code g }
{}

/// A turn whose body has no jump asks for the effects of the body's acts, in their order, until an
/// act or an answer raises an exception.
pub fn acts_in_order()
    ensures { (code acts : List AnyInstr) (f : AnyFrame) (answers : List AnyAnswer) → (begins : BeginsWith code acts f) →
        AllByRecursion (λ i. is_straight i ≡ true) acts →
        effects_by (after code) answers f ≡ effects_in acts answers (at_place (first_place begins) f) }
{}

/// A turn whose body has log acts alone writes their lines in their order, with the values that it
/// began with.
pub fn lines_in_order()
    ensures { (code acts : List AnyInstr) (f : AnyFrame) → BeginsWith code acts f →
        AllByRecursion (λ i. is_log i ≡ true) acts →
        effects_by (after code) (replicate (length acts) Okay) f ≡ lines_of f acts }
{}

/// Where its comparison is true, an `if` goes on with the next act.
pub fn if_goes_on()
    ensures { (code : List AnyInstr) (f : AnyFrame) (a : AnyOperand) (cmp : AnyCmp) (b : AnyOperand) (passed rest : List AnyInstr) →
        IsCode code → IsFrame code f → IsIf code f a cmp b passed rest → holds cmp (value f a) (value f b) ≡ true →
        GoesOnWith code f (f.place + 1) (passed ++ rest) }
{}

/// Where its comparison is false, an `if` passes over exactly its acts.
pub fn if_passes_over()
    ensures { (code : List AnyInstr) (f : AnyFrame) (a : AnyOperand) (cmp : AnyCmp) (b : AnyOperand) (passed rest : List AnyInstr) →
        IsCode code → IsFrame code f → IsIf code f a cmp b passed rest → holds cmp (value f a) (value f b) ≡ false →
        GoesOnWith code f (f.place + (length passed + 1)) rest }
{}

/// A plan does its parts in order: the exits, the entry of its leaf, the enters.
pub fn plan_in_order()
    ensures { (code : List AnyInstr) (f : AnyFrame) →
        f.plan.n_exits ≤ length f.plan.exits → f.plan.n_enters ≤ length f.plan.enters →
        plan_step code f ≡ do_part code (slice_get (plan_parts f.plan) f.ran) f }
{}

/// A state transfers an event once: its second transfer is an exception.
pub fn transfers_once()
    ensures { (f : AnyFrame) (from to : StateNumber) → TransfersOnce f from to }
{}

/// Each effect comes from an act of the code, or from a switch, a transfer or a receive.
pub fn effects_come_from_acts()
    ensures { (code : List AnyInstr) (f g : AnyFrame) (e : AnyEffect) →
        IsCode code → IsFrame code f → after code f ≡ (Do e, g) → Origin code e g }
{}

/// A code without switch and receive asks only for the effects of its own acts.
pub fn only_own_acts()
    ensures { (code : List AnyInstr) (f g : AnyFrame) (e : AnyEffect) →
        IsCode code → AllByRecursion (λ i. is_own i ≡ true) code → IsFrame code f → RunsActs f →
        after code f ≡ (Do e, g) → IsOwnAct code is_own e g }
{}
