//! A book, the passes of its parties, and the value while a party has it.
ghost use Rattle.std.specs.Prelude.{◌≡◌, ◌+◌, ◌<◌, ◌^◌, length};
ghost use Rattle.so_book.specs.History.{signed_by};
ghost use Rattle.so_book.specs.Seats.{IsAtRest, HasSlot, note_at};

use crate::Chronicle;
use crate::rule::Turns;
use crate::view::{Start, View};
use atomic_table::{Seat, Table};
use std::alloc::Global;

/// A lock round a value, for a fixed number of parties.
#[derive(Drop)]
pub struct Book<V: Chronicle> {
    pub(crate) table: Table<Option<V>, View<V::Entry>, Start, Turns<V>, Global>,
    ghost sized: { (table.shared.table_id.words ≡ 3) × (table.shared.table_id.slots ≡ 1) },
    ghost some: { 0 < table.shared.key.seats },
}

/// The right of one party to wait for the value, and what the party knows of its history.
#[derive(Drop)]
pub struct Pass<V: Chronicle> {
    pub(crate) seat: Seat<Option<V>, View<V::Entry>>,
    // The length of the history that the party has seen.
    pub(crate) len: u32,
    ghost at_rest: { IsAtRest seat },
    ghost own: { signed_by V.signer (note_at seat).party (note_at seat).seen ≡ (note_at seat).mine },
    ghost measured: { len ≡ length (note_at seat).seen },
}

/// The value, while a party has it alone. It can't be dropped: `close` or `close_last` gives it up.
pub struct Held<'a, V: Chronicle> {
    pub(crate) book: &'a Book<V>,
    pub(crate) seat: Seat<Option<V>, View<V::Entry>>,
    pub(crate) ticket: u64,
    ghost of_book: { seat.table_id ≡ book.now.table.shared.table_id },
    ghost has_slot: { HasSlot ticket seat },
    ghost drawn: { ticket + 1 < 2 ^ 64 },
    pub(crate) value: V,
}
