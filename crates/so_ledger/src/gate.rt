//! The gate: whether an entry may be added, or why not. It alone sets the mark of Full.

ghost use Rattle.std.specs.Prelude.{◌≡◌, Some, Err, IfOk, IfSome, IfErr, OnOk};
ghost use Rattle.so_history.specs.Steps.{MayFollow};
ghost use Rattle.so_ledger.specs.Kept.{MayAdd};
ghost use Rattle.so_ledger.specs.Gates.{gated, core_after};

use crate::ledger::Ledger;
use so_history::Entry;

/// Why no entry was added.
#[derive(Clone, Copy, PartialEq, Eq)]
pub enum Barred {
    /// No such step is legal.
    Nothing,
    /// The step doesn't fit the units, or an earlier one didn't.
    Full,
    /// The run is over.
    Over,
}

impl<'a> Ledger<'a> {
    /// The entry, if it may be added. A step that doesn't fit sets the mark of Full.
    #[tactic(auto, unfolding(crate::specs::Gates::gated))]
    pub fn gate(&mut self, next: Option<Entry>) -> Result<Entry, Barred>
        requires { IfSome next (λ e. MayFollow self.old.scene self.old.history e.by e.kind) }
        ensures value { result ≡ gated self.old next }
        ensures same { IfOk result (λ e. next ≡ Some e) }
        ensures ok { OnOk result (self.new ≡ self.old) }
        ensures err { IfErr result (λ why. self.new ≡ core_after self.old (Err why)) }
        ensures step { IfOk result (MayAdd self.old) }
    {
        if self.is_over() {
            return Err(Barred::Over);
        }
        if self.full {
            return Err(Barred::Full);
        }
        match next {
            Some(entry) => {
                if self.cost(entry) > self.history.limit() - self.tables.units {
                    self.full = true;
                    return Err(Barred::Full);
                }
                Ok(entry)
            }
            None => Err(Barred::Nothing),
        }
    }
}
