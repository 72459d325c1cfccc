//! How a book is made, with a pass for each party.
ghost use Rattle.std.specs.Prelude.{All, ◌≡◌, ◌<◌, ◌≤◌, ◌^◌, [], length, vec_capacity, IfOk, IfErr};
ghost use Rattle.so_book.specs.declared.view.Stage.TheVariants.{Free};
ghost use Rattle.so_book.specs.Rule.{view_of, told_notes};
ghost use Rattle.so_book.specs.Seats.{note_at};
ghost use Rattle.so_book.specs.Passes.{seats_of, ArePartiesFrom, HasSeen};

use crate::Chronicle;
use crate::book::{Book, Pass};
use crate::rule::{Deal, Give, Open};
use crate::view::{Start, View};
use crate::words::TICKET;
use atomic_table::{Seat, Table};
use so_ids::NoMemory;
use std::alloc::Global;

impl<V: Chronicle> Book<V> {
    /// A book round the value, for this many parties. Pass k is party k's. It has seen the value's
    /// history, and the entries that it made are those that party k signed there.
    ///
    /// Without memory the value comes back.
    pub fn new(
        alloc: Global,
        value: V,
        seats: u32,
    ) -> Result<(Book<V>, Vec<Pass<V>>), (V, NoMemory)>
        requires { 0 < seats }
        ensures passes { IfOk result (λ r. (length r.1.items ≡ seats) × ArePartiesFrom r.0 0 r.1.items) }
        ensures seen { IfOk result (λ r. All (HasSeen V.signer (V.history value)) r.1.items) }
        ensures seats { IfOk result (λ r. seats_of r.0 ≡ seats) }
        ensures refused { IfErr result (λ r. r.0 ≡ value) }
    {
        let len = value.len();
        let Ok(passes) = Vec::with_capacity(alloc, seats as usize) else {
            return Err((value, NoMemory));
        };
        let words = [0, 0, u64::from(len)];
        let Ok((table, mut seat)) = Table::vacant(alloc, &words, 1, &Start { seats, len }) else {
            return Err((value, NoMemory));
        };
        table.shared.load::<Open<V>>(&mut seat, TICKET);
        let slot = table.shared.exchange(&mut seat, 0, Some(value));
        let None = slot else { unreachable!() };
        table.shared.load::<Give<V>>(&mut seat, TICKET);
        let book = Book { table };
        let passes = book.deal(seat, seats, len, passes);
        Ok((book, passes))
    }

    // Gives each party a seat of its own.
    fn deal(
        &self,
        mut seat: Seat<Option<V>, View<V::Entry>>,
        seats: u32,
        len: u32,
        mut passes: Vec<Pass<V>>,
    ) -> Vec<Pass<V>>
        requires of { seat.table_id ≡ self.now.table.shared.table_id }
        requires notes { seat.me ≡ (view_of (told_notes V.signer (note_at seat).seen 0 seats) Free, []) }
        requires room { (passes.items ≡ []) × (seats ≤ vec_capacity passes) }
        requires len { len ≡ length (note_at seat).seen }
        ensures passes { (length result.items ≡ seats) × ArePartiesFrom self.now 0 result.items }
        ensures seen { All (HasSeen V.signer (note_at seat).seen) result.items }
    {
        for _ in 0..seats {
            let seat = self.table.shared.split_seat::<Deal>(&mut seat);
            passes.push_reserved(Pass { seat, len });
        }
        passes
    }
}
