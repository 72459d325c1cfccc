//! How a party waits for others to go on.
ghost use Rattle.std.specs.Prelude.{◌≡◌, ◌≤◌, IfSome, IsNone, true};
ghost use Rattle.so_book.specs.Seats.{IsAtRest, IsSameSeat, note_at};
ghost use Rattle.so_book.specs.Passes.{IsPassOf, party_of, seen_by, made_by, knows_last};

use crate::Chronicle;
use crate::book::{Book, Pass};
use crate::rule::Look;
use crate::view::View;
use crate::words::{LENGTH, low_half};
use atomic_table::Seat;
use std::sync::Wait;

impl<V: Chronicle> Book<V> {
    /// May wait until another party has closed with a longer history than the pass has seen, or has called
    /// `close_last`.
    ///
    /// The party learns nothing by it. Nothing is promised of when it returns.
    pub fn rest<R: Wait>(&self, rt: &R, pass: Pass<V>) -> Pass<V>
        requires { IsPassOf self.now pass }
        ensures same { (party_of result ≡ party_of pass) × IsPassOf self.now result }
        ensures lists { (seen_by result ≡ seen_by pass) × (made_by result ≡ made_by pass) }
        ensures last { knows_last result ≡ knows_last pass }
    {
        let Pass { mut seat, len } = pass;
        for _ in rt.forever() {
            let Some(word) = self.sleeps_at(&mut seat, len) else {
                break;
            };
            self.table.shared.park(rt, LENGTH, low_half(word));
        }
        Pass { seat, len }
    }

    // The length's word to sleep at. There is none for a party that may go on, as one that knows that
    // `close_last` was called.
    fn sleeps_at(&self, seat: &mut Seat<Option<V>, View<V::Entry>>, len: u32) -> Option<u64>
        requires { (seat.old.table_id ≡ self.now.table.shared.table_id) × IsAtRest seat.old }
        ensures same { IsSameSeat seat.old seat.new × (seat.new.me ≡ seat.old.me) }
        ensures last { (note_at seat.old).last ≡ true → IsNone result }
        ensures short { IfSome result (λ word. word ≤ len) }
    {
        let word = self.table.shared.load::<Look<V>>(seat, LENGTH);
        if word > u64::from(len) {
            None
        } else {
            Some(word)
        }
    }
}
