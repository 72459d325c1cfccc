//! What an entry makes of the ledger: each table absorbs it, with what its step found.

ghost use Rattle.std.specs.Prelude.{◌≡◌, Ok};
ghost use Rattle.so_tables.specs.AfterEvents.{IsSent};
ghost use Rattle.so_tables.specs.Found.{IsFound};
ghost use Rattle.so_ledger.specs.Kept.{MayAdd};
ghost use Rattle.so_ledger.specs.Gates.{core_after};

use crate::ledger::Ledger;
use so_deliver::Outcomes;
use so_history::Entry;
use so_ids::Place;
use so_tables::{Found, absorb_states};

impl<'a> Ledger<'a> {
    /// Adds an entry, with what its step found, and the events of the message that it sends, if it sends one.
    pub fn add(&mut self, entry: Entry, found: Found, sent: &Outcomes)
        requires ready { MayAdd self.old entry }
        requires found { IsFound self.old.scene self.old.history entry.kind found }
        requires sent { IsSent self.old.scene self.old.history entry.kind sent.now.queued }
        ensures { self.new ≡ core_after self.old (Ok entry) }
    {
        let place = Place(self.history.len());
        let cost = self.cost(entry);
        self.tables
            .absorb(self.scene, sent, found, place, entry.kind, cost);
        absorb_states(&mut self.states, self.scene, found, entry.kind);
        self.history.push(entry);
    }
}
