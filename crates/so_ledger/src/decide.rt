//! What main may add next, read off the tables, and what an entry costs.

ghost use Rattle.std.specs.Prelude.{◌≡◌, ◌<◌, ◌≤◌, IfSome, length};
ghost use Rattle.so_lists.specs.Lists.{is_empty};
ghost use Rattle.so_scene.specs.Cooperations.{admission, leaving_next};
ghost use Rattle.so_history.specs.Coops.{roster, next_coop, all_tried, standing};
ghost use Rattle.so_history.specs.Demands.{waiting};
ghost use Rattle.so_history.specs.Turns.{running};
ghost use Rattle.so_history.specs.Units.{cost};
ghost use Rattle.so_history.specs.Steps.{left_next, finished, is_over, is_auto, is_idle, may_stop, MayFollow};
ghost use Rattle.so_history.specs.Chain.{by_main, registering, registration, stop_entry, leaving_entry, left_entry, tidying};
ghost use Rattle.so_coop.specs.Coops.{answer_to};
ghost use Rattle.so_ledger.specs.Gates.{queued_by_act, NamesCoop};

use crate::ledger::Ledger;
use so_code::{Answer, Effect};
use so_history::{Entry, EntryKind, StopCause};
use so_ids::{CoopId, PartyId, Reason, Refusal};

impl<'a> Ledger<'a> {
    /// Main's next registration.
    #[tactic(auto, unfolding(so_history::specs::Chain::registration))]
    pub fn registration(&self) -> Option<Entry>
        ensures value { result ≡ registration self.now.scene self.now.history }
        ensures row { IfSome result (λ e. MayFollow self.now.scene self.now.history e.by e.kind) }
    {
        match self.next_coop() {
            Some(coop) => Some(by_main(self.registering(coop))),
            None => None,
        }
    }

    /// The cooperation that main registers next.
    fn next_coop(&self) -> Option<CoopId>
        ensures { result ≡ next_coop self.now.scene self.now.history }
    {
        self.tables.attempts.next()
    }

    /// What main's registration of a cooperation comes to: it is registered, or refused.
    fn registering(&self, coop: CoopId) -> EntryKind
        requires { coop.0 < length self.now.scene.coops }
        ensures { result ≡ registering coop (admission self.now.scene (standing self.now.history) coop) }
    {
        match self.admit(coop) {
            Ok(()) => EntryKind::Register { coop },
            Err(cause) => EntryKind::Refuse { coop, cause },
        }
    }

    /// Whether a cooperation may be registered now, or why not.
    pub(crate) fn admit(&self, coop: CoopId) -> Result<(), Refusal>
        requires { coop.0 < length self.now.scene.coops }
        ensures { result ≡ answer_to (admission self.now.scene (standing self.now.history) coop) }
    {
        self.tables
            .coops
            .admit(coop, self.tables.milestones.stopped)
    }

    /// Tells whether nothing follows.
    pub(crate) fn is_over(&self) -> bool
        ensures { result ≡ is_over self.now.scene self.now.history }
    {
        self.is_finished() || self.tables.milestones.aborted
    }

    /// Tells whether the run is finished.
    #[tactic(auto, unfolding(so_history::specs::Steps::finished))]
    pub fn is_finished(&self) -> bool
        ensures { result ≡ finished self.now.scene self.now.history }
    {
        self.tables.milestones.stopped && self.none_present() && self.none_waits()
    }

    /// Tells whether no cooperation is registered.
    fn none_present(&self) -> bool
        ensures { result ≡ is_empty (roster self.now.history) }
    {
        self.tables.coops.present() == 0
    }

    /// What an entry costs.
    pub(crate) fn cost(&self, entry: Entry) -> u32
        requires { MayFollow self.now.scene self.now.history entry.by entry.kind }
        ensures value { result ≡ cost self.now.scene self.now.history entry }
        ensures few { result ≤ 4097 }
    {
        match entry.kind {
            EntryKind::Register { coop } => 1 + self.scene.coop(coop).count,
            EntryKind::Leaving { coop, reason: _ } => 1 + self.scene.coop(coop).count,
            EntryKind::Act {
                turn: _,
                effect,
                answer,
            } => 1 + self.queued_by_act(effect, answer),
            _ => 1,
        }
    }

    /// How many demands an act with this answer queues.
    fn queued_by_act(&self, effect: Effect, answer: Answer) -> u32
        requires { NamesCoop self.now.scene effect }
        ensures { result ≡ queued_by_act self.now.scene effect answer }
    {
        match answer {
            Answer::Sent(sent) => sent.queued,
            Answer::Okay => match effect {
                Effect::Register { coop } => self.scene.coop(coop).count,
                _ => 0,
            },
            _ => 0,
        }
    }

    /// What is to be tidied.
    #[tactic(auto, unfolding(so_history::specs::Chain::tidying))]
    pub fn tidying(&self) -> Option<Entry>
        ensures value { result ≡ tidying self.now.scene self.now.history }
        ensures row { IfSome result (λ e. MayFollow self.now.scene self.now.history e.by e.kind) }
    {
        if let Some(entry) = self.stop_entry(StopCause::Asked) {
            return Some(entry);
        }
        if let Some(entry) = self.stop_entry(StopCause::Auto) {
            return Some(entry);
        }
        if let Some(entry) = self.leaving_entry() {
            return Some(entry);
        }
        if let Some(entry) = self.left_entry() {
            return Some(entry);
        }
        self.stop_entry(StopCause::Idle)
    }

    /// The Stop of this cause, if it may be made.
    fn stop_entry(&self, cause: StopCause) -> Option<Entry>
        ensures { result ≡ stop_entry self.now.scene self.now.history cause }
    {
        if self.may_stop(cause) {
            Some(by_main(EntryKind::Stop { cause }))
        } else {
            None
        }
    }

    /// Tells whether the run may stop for this cause.
    fn may_stop(&self, cause: StopCause) -> bool
        ensures { result ≡ may_stop self.now.scene self.now.history cause }
    {
        let milestones = self.tables.milestones;
        match cause {
            StopCause::Asked => !milestones.stopped && milestones.asked,
            StopCause::Auto => !milestones.stopped && !milestones.asked && self.is_auto(),
            StopCause::Idle => {
                !milestones.stopped && !milestones.asked && !self.is_auto() && self.is_idle()
            }
        }
    }

    /// The Leaving of the least cooperation that has a reason, if one has.
    fn leaving_entry(&self) -> Option<Entry>
        ensures { result ≡ leaving_entry self.now.scene self.now.history }
    {
        match self.leaving_next() {
            Some((coop, reason)) => Some(by_main(EntryKind::Leaving { coop, reason })),
            None => None,
        }
    }

    /// The Left of the least cooperation that may leave, if one may.
    fn left_entry(&self) -> Option<Entry>
        ensures { result ≡ left_entry self.now.scene self.now.history }
    {
        match self.left_next() {
            Some(coop) => Some(by_main(EntryKind::Left { coop })),
            None => None,
        }
    }

    /// The least cooperation that has a reason to leave, with it.
    fn leaving_next(&self) -> Option<(CoopId, Reason)>
        ensures { result ≡ leaving_next self.now.scene (standing self.now.history) }
    {
        self.tables
            .coops
            .leaving_next(self.tables.milestones.stopped)
    }

    /// The least cooperation that may leave for good.
    fn left_next(&self) -> Option<CoopId>
        ensures { result ≡ left_next self.now.scene self.now.history }
    {
        self.tables.coops.left_next()
    }

    /// Tells whether the scene stops when all its cooperations are gone, and they are.
    #[tactic(auto, unfolding(so_history::specs::Coops::all_gone))]
    fn is_auto(&self) -> bool
        ensures { result ≡ is_auto self.now.scene self.now.history }
    {
        self.scene.autoshutdown()
            && self.all_tried()
            && self.tables.milestones.left
            && self.none_present()
    }

    /// Tells whether nothing is left to do.
    #[tactic(auto, unfolding(so_history::specs::Steps::is_idle))]
    fn is_idle(&self) -> bool
        ensures { result ≡ is_idle self.now.scene self.now.history }
    {
        self.all_tried()
            && self.none_waits()
            && self.none_runs()
            && self.leaving_next().is_none()
            && self.left_next().is_none()
    }

    /// Tells whether main has tried all its registrations.
    fn all_tried(&self) -> bool
        ensures { result ≡ all_tried self.now.scene self.now.history }
    {
        self.next_coop().is_none()
    }

    /// Tells whether no demand waits.
    fn none_waits(&self) -> bool
        ensures { result ≡ is_empty (waiting self.now.scene self.now.history) }
    {
        self.tables.events.is_empty()
    }

    /// Tells whether no turn runs.
    fn none_runs(&self) -> bool
        ensures { result ≡ is_empty (running self.now.history) }
    {
        self.tables.lanes.all_free()
    }
}

/// An entry that main signs.
fn by_main(kind: EntryKind) -> Entry
    ensures { result ≡ by_main kind }
{
    Entry {
        by: PartyId::MAIN,
        kind,
    }
}
