//! Which cooperation is to leave next and why, and which has left.

ghost use Rattle.std.specs.Prelude.{◌≡◌, ◌<◌, length, false};
ghost use Rattle.so_scene.specs.Cooperations.{coop_number, parent_leaves, reason_unmarked, reason_of, leaving_at, leaving_next, has_child};
ghost use Rattle.so_coop.specs.Coops.{IsCoopOf, standing, has_ended, ended_at, left_next};

use crate::coops::Coops;
use so_ids::{CoopId, Reason};

impl<'a> Coops<'a> {
    /// The least cooperation that has a reason to leave, with it: its mark; without one, that its named parent is
    /// leaving; without that, that a stop was made. `None` exactly where none has.
    pub fn leaving_next(&self, stopped: bool) -> Option<(CoopId, Reason)>
        ensures { result ≡ leaving_next self.now.scene (standing self.now stopped) }
    {
        if self.counts.staying == 0 {
            return None;
        }
        if self.counts.leaving == 0 && self.counts.marked == 0 && !stopped {
            return None;
        }
        for k in 0..self.scene.coops() {
            let leaving = self.leaving_at(CoopId(k), stopped);
            if leaving.is_some() {
                return leaving;
            }
        }
        None
    }

    /// The least cooperation that is leaving, whose agents' finish turns are over and that has no child registered.
    /// `None` exactly where there is none.
    pub fn left_next(&self) -> Option<CoopId>
        ensures { result ≡ left_next self.now }
    {
        if self.counts.leaving == 0 {
            return None;
        }
        for k in 0..self.scene.coops() {
            let ended = self.ended_at(CoopId(k));
            if ended.is_some() {
                return ended;
            }
        }
        None
    }

    /// The cooperation with its reason, if it has one.
    fn leaving_at(&self, coop: CoopId, stopped: bool) -> Option<(CoopId, Reason)>
        requires { IsCoopOf self.now.scene coop }
        ensures { result ≡ leaving_at self.now.scene (standing self.now stopped) coop.0 }
    {
        match self.reason(coop, stopped) {
            Some(reason) => Some((coop, reason)),
            None => None,
        }
    }

    /// Why the cooperation is to leave, if it is registered and not leaving yet.
    fn reason(&self, coop: CoopId, stopped: bool) -> Option<Reason>
        requires { IsCoopOf self.now.scene coop }
        ensures { result ≡ reason_of self.now.scene (standing self.now stopped) coop }
    {
        let stands = self.stands(coop);
        if !stands.present {
            return None;
        }
        if stands.leaving {
            return None;
        }
        match stands.mark {
            Some(reason) => Some(reason),
            None => self.reason_unmarked(coop, stopped),
        }
    }

    /// Its reason without a mark.
    fn reason_unmarked(&self, coop: CoopId, stopped: bool) -> Option<Reason>
        requires { IsCoopOf self.now.scene coop }
        ensures { result ≡ reason_unmarked self.now.scene (standing self.now stopped) coop }
    {
        if self.parent_leaves(self.scene.coop(coop).parent) {
            Some(Reason::Parent)
        } else if stopped {
            Some(Reason::Shutdown)
        } else {
            None
        }
    }

    /// Tells whether this is a named parent that is leaving.
    fn parent_leaves(&self, parent: Option<CoopId>) -> bool
        ensures { result ≡ parent_leaves (standing self.now false) parent }
    {
        match parent {
            None => false,
            Some(parent) => self.stands(parent).leaving,
        }
    }

    /// The cooperation, if it has ended.
    fn ended_at(&self, coop: CoopId) -> Option<CoopId>
        requires { IsCoopOf self.now.scene coop }
        ensures { result ≡ ended_at self.now coop.0 }
    {
        if self.has_ended(coop) {
            Some(coop)
        } else {
            None
        }
    }

    /// Tells whether the cooperation is leaving, its agents' finish turns are over, and it has no child registered.
    fn has_ended(&self, coop: CoopId) -> bool
        requires { IsCoopOf self.now.scene coop }
        ensures { result ≡ has_ended self.now coop }
    {
        let stands = self.stands(coop);
        stands.leaving && stands.unfinished == 0 && !self.has_child(coop)
    }

    /// Tells whether a cooperation is registered that has this one as its named parent.
    fn has_child(&self, coop: CoopId) -> bool
        requires { IsCoopOf self.now.scene coop }
        ensures { result ≡ has_child self.now.scene (standing self.now false) coop }
    {
        self.children[coop.0 as usize] > 0
    }
}
