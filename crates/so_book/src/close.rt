//! How a party gives the value up.
ghost use Rattle.std.specs.Prelude.{◌≡◌, ◌||◌, true};
ghost use Rattle.so_book.specs.History.{Extends, signed_by, AddsAtMostOne};
ghost use Rattle.so_book.specs.Passes.{IsPassOf, party_of, seen_by, made_by, knows_last};
ghost use Rattle.so_book.specs.Passes.{holder_of, found_by, had_made, found_last, held_value, book_of};

use crate::Chronicle;
use crate::book::{Held, Pass};
use crate::rule::{Give, Look, Write};
use crate::words::{LENGTH, SERVING, word_after};

impl<V: Chronicle> Held<'_, V> {
    /// Gives the value up. At most one entry was appended, which the party signed: so each entry has a
    /// holding of its own.
    pub fn close(self) -> Pass<V>
        requires { AddsAtMostOne V.signer (holder_of self) (found_by self) (V.history (held_value self)) }
        ensures seen { seen_by result ≡ V.history (held_value self.entry) }
        ensures made { made_by result
            ≡ signed_by V.signer (holder_of self.entry) (V.history (held_value self.entry)) }
        ensures more { Extends (found_by self.entry) (V.history (held_value self.entry))
            (had_made self.entry) (made_by result) }
        ensures same { (party_of result ≡ holder_of self.entry) × IsPassOf (book_of self.entry) result }
        ensures last { knows_last result ≡ found_last self.entry }
    {
        self.give(false)
    }

    /// The same. It also wakes all that rest, and no later `rest` waits.
    pub fn close_last(self) -> Pass<V>
        requires { AddsAtMostOne V.signer (holder_of self) (found_by self) (V.history (held_value self)) }
        ensures seen { seen_by result ≡ V.history (held_value self.entry) }
        ensures made { made_by result
            ≡ signed_by V.signer (holder_of self.entry) (V.history (held_value self.entry)) }
        ensures more { Extends (found_by self.entry) (V.history (held_value self.entry))
            (had_made self.entry) (made_by result) }
        ensures same { (party_of result ≡ holder_of self.entry) × IsPassOf (book_of self.entry) result }
        ensures last { knows_last result ≡ true }
    {
        self.give(true)
    }

    // Writes the length's word, which stays marked once it is, gives the value back, and wakes those who
    // sleep on a word that changed.
    fn give(self, last: bool) -> Pass<V>
        requires { AddsAtMostOne V.signer (holder_of self) (found_by self) (V.history (held_value self)) }
        ensures seen { seen_by result ≡ V.history (held_value self.entry) }
        ensures made { made_by result
            ≡ signed_by V.signer (holder_of self.entry) (V.history (held_value self.entry)) }
        ensures more { Extends (found_by self.entry) (V.history (held_value self.entry))
            (had_made self.entry) (made_by result) }
        ensures same { (party_of result ≡ holder_of self.entry) × IsPassOf (book_of self.entry) result }
        ensures last { knows_last result ≡ last || found_last self.entry }
    {
        let Held {
            book,
            mut seat,
            ticket,
            value,
        } = self;
        let shared = &book.table.shared;
        let before = shared.load::<Look<V>>(&mut seat, LENGTH);
        let len = value.len();
        let after = word_after(before, len, last);
        let slot = shared.exchange(&mut seat, 0, Some(value));
        let None = slot else { unreachable!() };
        shared.store::<Write<V>>(&mut seat, LENGTH, after);
        shared.store::<Give<V>>(&mut seat, SERVING, ticket + 1);
        shared.wake_all(SERVING);
        if after != before {
            shared.wake_all(LENGTH);
        }
        Pass { seat, len }
    }
}
