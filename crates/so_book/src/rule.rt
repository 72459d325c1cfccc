//! The rule of a book's table, and what each step on it tells.
ghost use Rattle.so_book.specs.Rule.{Kept, view_of, blank_notes, drew, served, looked, wrote, gave, opened, dealt, left_over, gathered, spent};
ghost use Rattle.so_book.specs.declared.view.Stage.TheVariants.{Opens};

use crate::Chronicle;
use crate::view::{Start, View};
use atomic_table::{Join, Play, Split, TableRule};
use std::marker::PhantomData;

/// The rule: who has the value, and that each note is true.
pub struct Turns<V> {
    value: PhantomData<V>,
}

impl<V: Chronicle> TableRule<Option<V>, View<V::Entry>, Start> for Turns<V> {
    ghost holds = { λ start. Kept V.history V.signer start.seats start.len };

    ghost first = { λ start. view_of (blank_notes 0 start.seats) Opens };
}

/// A ticket is drawn.
pub(crate) struct Draw<V> {
    value: PhantomData<V>,
}

impl<V: Chronicle> Play<Option<V>, View<V::Entry>> for Draw<V> {
    ghost then = { drew V.history V.signer };
}

/// The number that is served is read, and the value is taken where it is the seat's own.
pub(crate) struct Serve<V> {
    value: PhantomData<V>,
}

impl<V: Chronicle> Play<Option<V>, View<V::Entry>> for Serve<V> {
    ghost then = { served V.history V.signer };
}

/// The length's word is read.
pub(crate) struct Look<V> {
    value: PhantomData<V>,
}

impl<V: Chronicle> Play<Option<V>, View<V::Entry>> for Look<V> {
    ghost then = { looked V.history V.signer };
}

/// The length's word is written.
pub(crate) struct Write<V> {
    value: PhantomData<V>,
}

impl<V: Chronicle> Play<Option<V>, View<V::Entry>> for Write<V> {
    ghost then = { wrote V.history V.signer };
}

/// The value is given back, and the next number is served.
pub(crate) struct Give<V> {
    value: PhantomData<V>,
}

impl<V: Chronicle> Play<Option<V>, View<V::Entry>> for Give<V> {
    ghost then = { gave V.history V.signer };
}

/// The empty slot of a new book is taken.
pub(crate) struct Open<V> {
    value: PhantomData<V>,
}

impl<V: Chronicle> Play<Option<V>, View<V::Entry>> for Open<V> {
    ghost then = { opened V.history V.signer };
}

/// The first note of a seat goes to a seat of its own.
pub(crate) struct Deal;

impl<E> Split<View<E>> for Deal {
    ghost left = { left_over };

    ghost right = { dealt };
}

/// A seat takes in the notes of another.
pub(crate) struct Gather;

impl<E> Join<View<E>> for Gather {
    ghost both = { gathered };

    ghost spent = { spent };
}
