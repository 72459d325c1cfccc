//! How many cooperations stand in which way.

ghost use Rattle.std.specs.Prelude.{◌≡◌, ◌<◌, ◌≤◌, ◌+◌, true};
ghost use Rattle.so_coop.specs.Coops.{is_present};
ghost use Rattle.so_coop.specs.Counts.{one, leaves, stays, is_marked};

use crate::coops::Coop;

/// How many cooperations are registered, how many of these leave and how many don't, and how many that don't are
/// marked.
#[derive(Clone, Copy)]
pub(crate) struct Counts {
    pub(crate) present: u32,
    pub(crate) leaving: u32,
    pub(crate) staying: u32,
    pub(crate) marked: u32,
}

impl Counts {
    /// After one cooperation stands in another way.
    pub(crate) fn changed(self, old: Coop, new: Coop) -> Counts
        requires present { (is_present old ≡ true → 0 < self.present) × (self.present ≤ 1024) }
        requires leaving { (leaves old ≡ true → 0 < self.leaving) × (self.leaving ≤ 1024) }
        requires staying { (stays old ≡ true → 0 < self.staying) × (self.staying ≤ 1024) }
        requires marked { (is_marked old ≡ true → 0 < self.marked) × (self.marked ≤ 1024) }
        ensures present { result.present + one (is_present old) ≡ self.present + one (is_present new) }
        ensures leaving { result.leaving + one (leaves old) ≡ self.leaving + one (leaves new) }
        ensures staying { result.staying + one (stays old) ≡ self.staying + one (stays new) }
        ensures marked { result.marked + one (is_marked old) ≡ self.marked + one (is_marked new) }
    {
        Counts {
            present: exchanged(self.present, old.present, new.present),
            leaving: exchanged(self.leaving, old.leaving, new.leaving),
            staying: exchanged(self.staying, old.stays(), new.stays()),
            marked: exchanged(self.marked, old.is_marked(), new.is_marked()),
        }
    }
}

/// One less where the old one was counted, and one more where the new one is.
pub(crate) fn exchanged(count: u32, old: bool, new: bool) -> u32
    requires some { old ≡ true → 0 < count }
    requires few { count ≤ 1024 }
    ensures { result + one old ≡ count + one new }
{
    match (old, new) {
        (true, false) => count - 1,
        (false, true) => count + 1,
        _ => count,
    }
}
