//! What a party does with a book: it holds, adds at most one entry, and closes.
ghost use Rattle.std.specs.Prelude.{◌≡◌};
ghost use Rattle.so_book.specs.History.{AddsAtMostOne};
ghost use Rattle.so_book.specs.Passes.{IsPassOf, party_of};

use crate::log::{Entry, Log};
use so_book::{Book, Chronicle, Pass};
use so_ids::PartyId;
use std::sync::Wait;

/// How a step of a machine went.
#[derive(Drop)]
pub enum Went {
    /// A step was made.
    On,
    /// There is nothing to do for the party now.
    Nothing,
    /// The machine has stopped, and takes no more steps.
    Stopped,
}

/// A machine that parties step.
pub trait Machine: Chronicle {
    /// Makes at most one step, which the party signs.
    fn step(&mut self, by: PartyId) -> Went
        ensures { AddsAtMostOne Self.signer by (Self.history self.old) (Self.history self.new) };
}

/// Steps the machine until it stops, and rests while there is nothing to do.
pub fn work<M: Machine, R: Wait>(rt: &R, book: &Book<M>, pass: Pass<M>, by: PartyId) -> Pass<M>
    requires { IsPassOf book.now pass × (party_of pass ≡ by) }
    ensures { IsPassOf book.now result × (party_of result ≡ by) }
{
    let mut pass = pass;
    for _ in rt.forever() {
        let mut held = book.hold(rt, pass);
        match held.value_mut().step(by) {
            Went::On => pass = held.close(),
            Went::Nothing => pass = book.rest(rt, held.close()),
            Went::Stopped => {
                pass = held.close_last();
                break;
            }
        }
    }
    pass
}

/// Signs one number in the log, if it has room.
pub fn sign<R: Wait>(
    rt: &R,
    book: &Book<Log>,
    pass: Pass<Log>,
    by: PartyId,
    number: u32,
) -> Pass<Log>
    requires { IsPassOf book.now pass × (party_of pass ≡ by) }
    ensures { IsPassOf book.now result × (party_of result ≡ by) }
{
    let mut held = book.hold(rt, pass);
    if !held.value().is_full() {
        held.value_mut().add(Entry { by, number });
    }
    held.close()
}

/// Signs the numbers from 0 on, this many, each under a holding of its own.
pub fn sign_all<R: Wait>(
    rt: &R,
    book: &Book<Log>,
    pass: Pass<Log>,
    by: PartyId,
    count: u32,
) -> Pass<Log>
    requires { IsPassOf book.now pass × (party_of pass ≡ by) }
    ensures { IsPassOf book.now result × (party_of result ≡ by) }
{
    let mut pass = pass;
    for number in 0..count {
        pass = sign(rt, book, pass, by, number);
    }
    pass
}
