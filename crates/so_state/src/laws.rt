//! What a reader may rely on, as laws: each function's clause is the law, and there is nothing to run.

ghost use Rattle.std.specs.Prelude.{◌≡◌, ℕ, ◌≤◌, ◌↔◌, All, Bool, true, false, not, ◌&&◌, List, [], ◌∷◌, ◌++◌, length, take, reverse, Some, None, IfSome, MatchOption, is_some};
ghost use Rattle.std.specs.List.{IsDistinct};
ghost use Rattle.so_ids.specs.declared.StateId.{StateId};
ghost use Rattle.so_ids.specs.declared.MboxId.{MboxId};
ghost use Rattle.so_ids.specs.declared.MsgId.{MsgId};
ghost use Rattle.so_ids.specs.declared.Chosen.{Chosen};
ghost use Rattle.so_state.specs.declared.states.State.{State};
ghost use Rattle.so_state.specs.declared.faults.TreeFault.{TreeFault};
ghost use Rattle.so_state.specs.declared.choice.Row.{Row};
ghost use Rattle.so_state.specs.States.{same_state, is_on, is_declared, is_composite, is_leaf, parent_of, limit_of, initial_of, path, is_or_below};
ghost use Rattle.so_state.specs.Fault.{named, breaks, tree_fault, IsTree, IsFirstFault};
ghost use Rattle.so_state.specs.Plan.{newest_below, down, resolve, exits, enters, staying, padded, plan};
ghost use Rattle.so_state.specs.Choice.{row_in, dead_row, answering, choice_by, chosen, IsAnswer};

// ---- trees

/// The check finds the first fault: no state breaks an earlier rule, and no lesser state breaks this one.
pub fn the_first_fault_is_found()
    ensures { (states : List State) (fault : TreeFault) →
        (tree_fault states ≡ Some fault) ↔ IsFirstFault states fault }
{}

/// The check finds no fault exactly where no declared state breaks a rule.
pub fn no_fault_is_found_where_there_is_none()
    ensures { (states : List State) →
        (tree_fault states ≡ None) ↔
        ((fault : TreeFault) → is_declared states (named fault) ≡ true → breaks states fault ≡ false) }
{}

/// The parent of a state is declared, and its time limit leads to a declared state or to `default`.
pub fn a_tree_names_known_states()
    ensures parent { (states : List State) (s : StateId) → IsTree states →
        IfSome (parent_of states s) (λ parent. is_declared states parent ≡ true) }
    ensures limit { (states : List State) (s : StateId) → IsTree states →
        IfSome (limit_of states s) (λ limit. (limit.1).0 ≤ length states) }
{}

/// Above a state come its parent and what is above the parent.
pub fn a_path_goes_on_as_the_parents()
    ensures { (states : List State) (s : StateId) → IsTree states →
        MatchOption (parent_of states s)
        (path states s ≡ s ∷ [])
        (λ parent. path states s ≡ s ∷ path states parent) }
{}

/// No state comes twice on a path, so that none lies above itself.
pub fn a_path_has_no_state_twice()
    ensures { (states : List State) (s : StateId) → IsTree states →
        IsDistinct same_state (path states s) }
{}

/// A path has at most sixteen states, so that a plan has room for what is left and entered.
pub fn a_path_fits_a_plan()
    ensures { (states : List State) (s : StateId) → IsTree states → length (path states s) ≤ 16 }
{}

/// What is or lies below a state is or lies below all that this state lies below.
pub fn below_what_lies_below()
    ensures { (states : List State) (high middle low : StateId) → IsTree states →
        is_or_below states high middle ≡ true → is_or_below states middle low ≡ true →
        is_or_below states high low ≡ true }
{}

/// A state has an initial substate exactly where it has substates, and that is one of them.
pub fn a_composite_state_has_an_initial_substate()
    ensures has_one { (states : List State) (s : StateId) → IsTree states →
        is_some (initial_of states s) ≡ is_composite states s }
    ensures is_substate { (states : List State) (s : StateId) →
        IfSome (initial_of states s) (λ initial. parent_of states initial ≡ Some s) }
{}

// ---- switches

/// A state without substates stands for itself. A composite state stands for what the next state down
/// stands for: by its history the leaf last entered below it, the substate last entered, or the initial
/// substate.
pub fn a_state_stands_for_what_the_next_one_down_does()
    ensures { (states : List State) (leaves : List StateId) (s : StateId) → IsTree states →
        resolve states leaves s ≡
        down (resolve states leaves) states s (newest_below states leaves s) (initial_of states s) }
{}

/// A switch ends in a leaf, where those entered so far were leaves.
pub fn a_switch_ends_in_a_leaf()
    ensures { (states : List State) (leaves : List StateId) (to : StateId) → IsTree states →
        All (λ leaf. is_leaf states leaf ≡ true) leaves →
        is_leaf states (resolve states leaves to) ≡ true }
{}

/// A switch ends in its target or below.
pub fn a_switch_ends_at_its_target_or_below()
    ensures { (states : List State) (leaves : List StateId) (to : StateId) → IsTree states →
        is_or_below states to (resolve states leaves to) ≡ true }
{}

/// A switch to a state of the agent ends in a state of the agent.
pub fn a_switch_ends_in_a_state_of_the_agent()
    ensures { (states : List State) (leaves : List StateId) (to : StateId) → IsTree states →
        to.0 ≤ length states → (resolve states leaves to).0 ≤ length states }
{}

/// A switch changes nothing exactly where its target resolves to the current leaf.
pub fn a_switch_is_none_exactly_at_the_current_leaf()
    ensures { (states : List State) (leaves : List StateId) (from to : StateId) →
        (plan states leaves from to ≡ None) ↔ (resolve states leaves to ≡ from) }
{}

/// The states left are the first of the old leaf's path, so exit handlers run from the leaf upwards;
/// all above them stays.
pub fn exits_run_from_the_leaf_upwards()
    ensures { (states : List State) (from leaf : StateId) → IsTree states →
        path states from ≡ exits states from leaf ++ staying states from leaf }
{}

/// The states entered are the last down to the new leaf, so enter handlers run from outer to inner; all
/// above them stays, and is what stays above the old leaf.
pub fn enters_run_down_to_the_leaf()
    ensures { (states : List State) (from leaf : StateId) → IsTree states →
        reverse (path states leaf) ≡ reverse (staying states from leaf) ++ enters states from leaf }
{}

/// A state is left exactly where it is or lies above the old leaf, and neither is nor lies above the
/// new one.
pub fn what_is_left()
    ensures { (states : List State) (from leaf s : StateId) →
        is_on (exits states from leaf) s ≡
        (is_on (path states from) s && not (is_on (path states leaf) s)) }
{}

/// A state is entered exactly where it is or lies above the new leaf, and neither is nor lies above the
/// old one.
pub fn what_is_entered()
    ensures { (states : List State) (from leaf s : StateId) →
        is_on (enters states from leaf) s ≡
        (is_on (path states leaf) s && not (is_on (path states from) s)) }
{}

/// A common ancestor of the two leaves is neither left nor entered.
pub fn a_common_ancestor_stays()
    ensures left { (states : List State) (from leaf s : StateId) → is_on (path states from) s ≡ true →
        is_on (path states leaf) s ≡ true → is_on (exits states from leaf) s ≡ false }
    ensures entered { (states : List State) (from leaf s : StateId) → is_on (path states from) s ≡ true →
        is_on (path states leaf) s ≡ true → is_on (enters states from leaf) s ≡ false }
{}

/// The list of states that a plan shows is the first of its sixteen places.
pub fn a_plan_shows_its_states()
    ensures used { (list : List StateId) → take (length list) (padded list) ≡ list }
    ensures places { (list : List StateId) → length list ≤ 16 → length (padded list) ≡ 16 }
{}

// ---- choice

/// The first state from the leaf upwards that has an active row for the event decides, whatever rows the
/// states above it and the dead letters have: a row that suppresses ends the search as any other does.
pub fn the_nearest_state_with_a_row_decides()
    ensures { (states : List State) (rows : List Row) (active : List Bool)
        (leaf : StateId) (mbox : MboxId) (msg : MsgId) (inner outer : List StateId) (s : StateId) (k : ℕ) →
        path states leaf ≡ inner ++ s ∷ outer →
        All (λ t. row_in rows active mbox msg t ≡ None) inner →
        row_in rows active mbox msg s ≡ Some k →
        chosen states rows active leaf mbox msg ≡ choice_by rows (Some k) }
{}

/// A dead-letter row is looked for only where neither the leaf nor a state above it has a row.
pub fn a_dead_letter_row_answers_where_no_state_has_a_row()
    ensures { (states : List State) (rows : List Row) (active : List Bool)
        (leaf : StateId) (mbox : MboxId) (msg : MsgId) →
        All (λ t. row_in rows active mbox msg t ≡ None) (path states leaf) →
        chosen states rows active leaf mbox msg ≡ choice_by rows (dead_row rows active mbox msg) }
{}

/// The row that answers is active and for the event, and it is a dead-letter row or one of the leaf or of
/// a state above it.
pub fn a_row_that_answers_is_active_and_for_the_event()
    ensures { (states : List State) (rows : List Row) (active : List Bool)
        (leaf : StateId) (mbox : MboxId) (msg : MsgId) (k : ℕ) →
        answering rows active mbox msg (path states leaf) ≡ Some k →
        IsAnswer rows active mbox msg (path states leaf) k }
{}

/// Nothing is chosen exactly where no row answers.
pub fn nothing_is_chosen_exactly_where_no_row_answers()
    ensures { (states : List State) (rows : List Row) (active : List Bool)
        (leaf : StateId) (mbox : MboxId) (msg : MsgId) →
        (chosen states rows active leaf mbox msg ≡ Chosen.Nothing) ↔
        (answering rows active mbox msg (path states leaf) ≡ None) }
{}
