//! A machine whose parties write a log in turn.
ghost use Rattle.std.specs.Prelude.{◌≡◌, ◌<◌};

use crate::log::{Entry, Log};
use crate::party::{Machine, Went};
use so_book::Chronicle;
use so_ids::PartyId;

/// The k-th entry is that of party k modulo the number of parties. It stops when the log is full.
#[derive(Drop)]
pub struct Turns {
    pub log: Log,
    pub parties: u32,
    ghost some: { 0 < parties },
}

impl Chronicle for Turns {
    ghost use Rattle.std.specs.Prelude.{reverse};
    ghost use Rattle.so_ids.specs.declared.PartyId.{PartyId};

    type Entry = Entry;

    ghost history = { λ s. reverse s.log.entries.items };

    ghost signer = { λ e. e.by };

    fn len(&self) -> u32 {
        self.log.len()
    }
}

impl Machine for Turns {
    fn step(&mut self, by: PartyId) -> Went {
        if self.log.is_full() {
            return Went::Stopped;
        }
        let number = self.log.len();
        if number % self.parties != by.0 {
            return Went::Nothing;
        }
        self.log.add(Entry { by, number });
        Went::On
    }
}
