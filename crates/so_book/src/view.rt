//! What a seat at a book's table knows. These types stand in proofs alone: no value of them is made, but
//! of `Start`.
use so_ids::PartyId;
use std::collections::LinkedList;

/// What a party has seen of the history, and which entries in it are its own.
pub struct Note<E> {
    pub party: PartyId,
    pub seen: LinkedList<E>,
    pub mine: LinkedList<E>,
    /// Whether the party knows that `close_last` was called.
    pub last: bool,
}

/// How far a seat is on its way to the value and back.
pub enum Stage {
    /// The book is new, and its slot is empty.
    Opens,
    /// The book is new, and its slot is out with this seat.
    Fills,
    /// It waits for nothing.
    Free,
    /// It has drawn this ticket.
    Waits(u64),
    /// It was served with this ticket, and has the value.
    Holds(u64),
    /// It has written the length's word, the second number, and is about to give the value back.
    Wrote(u64, u64),
}

/// What a seat knows. Beside a pass it has one note.
pub struct View<E> {
    pub notes: LinkedList<Note<E>>,
    pub stage: Stage,
}

/// What a book is told when it is made: how many parties there are, and the length of the history.
#[derive(Clone, Copy)]
pub struct Start {
    pub seats: u32,
    pub len: u32,
}
