//! A log of numbers, each signed by a party.
ghost use Rattle.std.specs.Prelude.{◌≡◌, ◌↔◌, ◌≤◌, ◌<◌, ◌^◌, [], ◌∷◌, length, vec_capacity, reverse, IsTrue, IfOk};

use so_book::Chronicle;
use so_ids::PartyId;
use std::alloc::{AllocError, Global};

/// A number, and who signed it.
#[derive(Clone, Copy, PartialEq, Eq)]
pub struct Entry {
    pub by: PartyId,
    pub number: u32,
}

/// Entries in the order of time, up to a number that is fixed when the log is made.
#[derive(Drop)]
pub struct Log {
    pub entries: Vec<Entry>,
    pub limit: u32,
    ghost room: { (length entries.items ≤ limit) × (limit ≤ vec_capacity entries) × (limit < 2 ^ 32) },
}

impl Chronicle for Log {
    ghost use Rattle.std.specs.Prelude.{reverse};

    type Entry = Entry;

    ghost history = { λ s. reverse s.entries.items };

    ghost signer = { λ e. e.by };

    fn len(&self) -> u32 {
        self.entries.len() as u32
    }
}

impl Log {
    /// An empty log with room for this many entries.
    pub fn with_room(alloc: Global, limit: u32) -> Result<Log, AllocError>
        ensures { IfOk result (λ s. (s.entries.items ≡ []) × (s.limit ≡ limit)) }
    {
        let entries = Vec::with_capacity(alloc, limit as usize)?;
        Ok(Log { entries, limit })
    }

    /// Tells whether there is no room.
    pub fn is_full(&self) -> bool
        ensures { IsTrue result ↔ (length self.now.entries.items ≡ self.now.limit) }
    {
        self.entries.len() == self.limit as usize
    }

    /// Adds an entry.
    pub fn add(&mut self, entry: Entry)
        requires { length self.old.entries.items < self.old.limit }
        ensures { (reverse self.new.entries.items ≡ entry ∷ reverse self.old.entries.items) × (self.new.limit ≡ self.old.limit) }
    {
        self.entries.push_reserved(entry);
    }
}
