//! Which row of an agent's table answers an event.

ghost use Rattle.std.specs.Prelude.{◌≡◌, ◌<◌, ◌^◌, length, IfSome};
ghost use Rattle.so_state.specs.Choice.{is_dead, is_for, row_in, dead_row, answering, choice_of, chosen};

use crate::hierarchy::Tree;
use so_ids::{Chosen, MboxId, MsgId, RowId, StateId};

/// What a row does with its event.
#[derive(Clone, Copy, PartialEq, Eq)]
pub enum RowKind {
    /// It runs its handler.
    Run,
    /// SObjectizer's `just_switch_to`.
    Switch(StateId),
    /// SObjectizer's `transfer_to_state`.
    Transfer(StateId),
    /// SObjectizer's `suppress`.
    Suppress,
    /// It runs its handler where no state has a row for the event (SObjectizer's dead-letter handler).
    Dead,
}

/// A subscription of an agent: what it does with events of a type from a mbox, while the agent is in a
/// state.
#[derive(Clone, Copy, PartialEq, Eq)]
pub struct Row {
    pub mbox: MboxId,
    pub msg: MsgId,
    /// The state that it belongs to. A dead-letter row belongs to none, and has 0 here.
    pub state: StateId,
    pub kind: RowKind,
    /// Whether its handler is marked thread-safe.
    pub safe: bool,
    /// Whether it is active when the agent is registered.
    pub active: bool,
}

impl RowKind {
    /// Tells whether it is a dead-letter row's.
    pub fn is_dead(self) -> bool
        ensures { result ≡ is_dead self }
    {
        match self {
            RowKind::Run | RowKind::Switch(_) | RowKind::Transfer(_) | RowKind::Suppress => false,
            RowKind::Dead => true,
        }
    }
}

impl Row {
    /// Tells whether it is for events of the type from the mbox.
    pub fn is_for(&self, mbox: MboxId, msg: MsgId) -> bool
        ensures { result ≡ is_for mbox msg self.now }
    {
        self.mbox == mbox && self.msg == msg
    }
}

/// What an agent's table chooses for an event of the type from the mbox, in the leaf. `active` tells
/// which of the rows are active. The first active row of the leaf decides, without one that of its
/// parent, and so on; where no state has one, the first active dead-letter row decides.
pub fn choose(
    tree: &Tree,
    rows: &[Row],
    active: &[bool],
    leaf: StateId,
    mbox: MboxId,
    msg: MsgId,
) -> Chosen
    requires { length rows.now < 2 ^ 32 }
    ensures { result ≡ chosen tree.now rows.now active.now leaf mbox msg }
{
    match answering(rows, active, mbox, msg, tree.path(leaf).as_slice()) {
        None => Chosen::Nothing,
        Some(k) => choice_of(RowId(k as u32), rows[k].state, rows[k].kind),
    }
}

/// The row of the first of these states that has one, and without one the dead-letter row.
#[tactic(auto, using(crate::proofs::Along::steps))]
fn answering(
    rows: &[Row],
    active: &[bool],
    mbox: MboxId,
    msg: MsgId,
    states: &[StateId],
) -> Option<usize>
    ensures row { result ≡ answering rows.now active.now mbox msg states.now }
    ensures within { IfSome result (λ k. k < length rows.now) }
{
    for s in states {
        let row = row_in(rows, active, mbox, msg, *s);
        if row.is_some() {
            return row;
        }
    }
    dead_row(rows, active, mbox, msg)
}

/// The first active row of the state.
#[tactic(auto, unfolding(crate::specs::Choice::row_in))]
fn row_in(rows: &[Row], active: &[bool], mbox: MboxId, msg: MsgId, s: StateId) -> Option<usize>
    ensures row { result ≡ row_in rows.now active.now mbox msg s }
    ensures within { IfSome result (λ k. k < length rows.now) }
{
    rows.iter().zip(active).position(|(row, on)| *on
        && row.is_for(mbox, msg)
        && !row.kind.is_dead()
        && row.state == s)
}

/// The first active dead-letter row.
#[tactic(auto, unfolding(crate::specs::Choice::dead_row))]
fn dead_row(rows: &[Row], active: &[bool], mbox: MboxId, msg: MsgId) -> Option<usize>
    ensures row { result ≡ dead_row rows.now active.now mbox msg }
    ensures within { IfSome result (λ k. k < length rows.now) }
{
    rows.iter().zip(active).position(|(row, on)| *on && row.is_for(mbox, msg) && row.kind.is_dead())
}

/// What a row of this number, state and kind chooses.
fn choice_of(number: RowId, s: StateId, kind: RowKind) -> Chosen
    ensures { result ≡ choice_of number s kind }
{
    match kind {
        RowKind::Run => Chosen::Run { row: number },
        RowKind::Switch(to) => Chosen::Switch { to },
        RowKind::Transfer(to) => Chosen::Transfer { from: s, to },
        RowKind::Suppress => Chosen::Suppressed,
        RowKind::Dead => Chosen::Dead { row: number },
    }
}
