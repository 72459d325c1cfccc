//! A lock round one value that keeps a history, for parties that know what they have seen of it.
//!
//! A [`Book`] has the value, and each party has one [`Pass`]. A pass is the right to wait for the
//! value, and it stands for what its party knows: which party it is, the history as the party last
//! saw it, the party's own entries in it, and whether the party knows that `close_last` was called.
//! A party that is served has the value as a [`Held`], alone, until it closes. It then finds a history
//! that began with what it had seen, in which its own entries are those that it made, and it may append
//! one entry, which it signs. So nothing of what others did under the lock is lost on the way from
//! one holding to the next, and nobody signs for another. A `Held` can't be dropped, only closed.
//!
//! Histories are lists with the newest entry first. A book says of its value no more than how its history
//! goes on. What else a party has to find again, as what the value was made over, can be the oldest entry.
//!
//! Nobody promises that a wait ends, or when, who comes next, or that a thread that sleeps is woken. The
//! parties draw tickets, which are served in their order, but no clause says so.
#![tactic(auto)]

mod book;
mod close;
mod finish;
mod hold;
mod lend;
mod make;
mod rest;
mod rule;
mod view;
mod words;

ghost use Rattle.std.specs.Prelude.{◌≡◌, List, length};
ghost use Rattle.so_ids.specs.declared.PartyId.{PartyId};

pub use book::{Book, Held, Pass};

/// A value that keeps a history: a list of fewer than 2^32 entries, each signed by a party.
pub trait Chronicle {
    /// What the history consists of.
    type Entry: Copy;

    /// The entries, the newest first.
    ghost history: { Self → List Self.Entry };

    /// The party that signed an entry.
    ghost signer: { Self.Entry → PartyId };

    /// How many entries there are.
    fn len(&self) -> u32
        ensures { result ≡ length (history self.now) };
}
