//! How a party gets the value: it draws a ticket, and waits until that ticket is served.
ghost use Rattle.std.specs.Prelude.{◌≡◌, ◌+◌, ◌<◌, ◌^◌, true};
ghost use Rattle.so_book.specs.History.{Began, signed_by, OthersAdded};
ghost use Rattle.so_book.specs.Rule.{Takes};
ghost use Rattle.so_book.specs.Seats.{IsAtRest, IsWaiting, IsSameSeat, note_at};
ghost use Rattle.so_book.specs.Passes.{IsPassOf, party_of, seen_by, made_by, knows_last};
ghost use Rattle.so_book.specs.Passes.{holder_of, found_by, had_made, found_last, held_value, book_of};

use crate::Chronicle;
use crate::book::{Book, Held, Pass};
use crate::rule::{Draw, Serve};
use crate::view::View;
use crate::words::{SERVING, TICKET, low_half};
use atomic_table::Seat;
use std::sync::Wait;

impl<V: Chronicle> Book<V> {
    /// Waits until the party is served, and hands out the value.
    ///
    /// The history began with all that the pass has seen, and the party's entries in it are those that
    /// the pass made.
    pub fn hold<R: Wait>(&self, rt: &R, pass: Pass<V>) -> Held<'_, V>
        requires { IsPassOf self.now pass }
        ensures seen { Began (seen_by pass) (V.history (held_value result)) }
        ensures made { signed_by V.signer (party_of pass) (V.history (held_value result)) ≡ made_by pass }
        ensures others { OthersAdded V.signer (party_of pass) (seen_by pass) (V.history (held_value result)) }
        ensures found { (found_by result ≡ V.history (held_value result)) × (had_made result ≡ made_by pass) }
        ensures same { (holder_of result ≡ party_of pass) × (book_of result ≡ self.now) }

        // Once `close_last` was called, that stays so.
        ensures last { knows_last pass ≡ true → found_last result ≡ true }
    {
        let Pass { mut seat, len: _ } = pass;
        let ticket = self.draw(rt, &mut seat);
        self.take(rt, &mut seat, ticket);
        let Some(value) = self.table.shared.exchange(&mut seat, 0, None) else {
            unreachable!()
        };
        Held {
            book: self,
            seat,
            ticket,
            value,
        }
    }

    // Draws a ticket. Once all 2^64 - 1 are drawn it waits for ever, so that no number comes twice.
    fn draw<R: Wait>(&self, rt: &R, seat: &mut Seat<Option<V>, View<V::Entry>>) -> u64
        requires { (seat.old.table_id ≡ self.now.table.shared.table_id) × IsAtRest seat.old }
        ensures same { IsSameSeat seat.old seat.new × (note_at seat.new ≡ note_at seat.old) }
        ensures drawn { IsWaiting result seat.new × (result + 1 < 2 ^ 64) }
    {
        for _ in rt.forever() {
            let shared = &self.table.shared;
            let next = shared.peek(TICKET);
            if next < u64::MAX {
                let found = shared.compare_exchange::<Draw<V>>(seat, TICKET, next, next + 1);
                if found == next {
                    return next;
                }
            }
        }
        unreachable!()
    }

    // Waits until the ticket is served, and takes the value's slot.
    fn take<R: Wait>(&self, rt: &R, seat: &mut Seat<Option<V>, View<V::Entry>>, ticket: u64)
        requires { (seat.old.table_id ≡ self.now.table.shared.table_id) × IsWaiting ticket seat.old }
        ensures same { IsSameSeat seat.old seat.new }
        ensures taken { Takes V.history V.signer ticket (note_at seat.old) seat.new.me }
    {
        for _ in rt.forever() {
            let shared = &self.table.shared;
            let served = shared.load::<Serve<V>>(seat, SERVING);
            if served == ticket {
                return;
            }
            shared.park(rt, SERVING, low_half(served));
        }
        unreachable!()
    }
}
