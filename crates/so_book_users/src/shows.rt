//! What parties leave in a book when they meet in one thread, in two and in four.

ghost use Rattle.std.specs.Prelude.{◌≡◌, ◌+◌, ◌<◌, length};
ghost use Rattle.so_book.specs.Passes.{IsPassOf, party_of, ArePartiesFrom};

use crate::log::{Entry, Log};
use crate::party::{sign, sign_all, work};
use crate::setting::{Run, Setting, lanes};
use crate::turns::Turns;
use so_book::{Book, Chronicle, Pass};
use so_ids::PartyId;
use std::alloc::AllocError;
use std::sync::Wait;
use std::thread;
use std::thread::Threads;
use std::time::{Clock, Duration};

// The pass of the last party.
fn last_of<V: Chronicle>(book: &Book<V>, passes: &mut Vec<Pass<V>>) -> Pass<V>
    requires { ArePartiesFrom book.now 0 passes.old.items × (0 < length passes.old.items) }
    ensures rest { ArePartiesFrom book.now 0 passes.new.items × (length passes.new.items + 1 ≡ length passes.old.items) }
    ensures last { IsPassOf book.now result × ((party_of result).0 ≡ length passes.new.items) }
{
    let Some(pass) = passes.pop() else {
        unreachable!()
    };
    pass
}

pub(crate) fn three_take_turns<R: Wait + AllocGlobal>(rt: &R) -> Result<bool, AllocError> {
    let log = Log::with_room(rt.alloc(), 6)?;
    let Ok((book, mut passes)) = Book::new(rt.alloc(), log, 3) else {
        return Ok(false);
    };
    let c = last_of(&book, &mut passes);
    let b = last_of(&book, &mut passes);
    let a = last_of(&book, &mut passes);
    let a = sign(rt, &book, a, PartyId(0), 0);
    let b = sign(rt, &book, b, PartyId(1), 1);
    let c = sign(rt, &book, c, PartyId(2), 2);
    let a = sign(rt, &book, a, PartyId(0), 3);
    let b = sign(rt, &book, b, PartyId(1), 4);
    let c = sign(rt, &book, c, PartyId(2), 5);
    let log = book.finish(Vec::from_array(rt.alloc(), [a, b, c])?);
    let wanted = [(0, 0), (1, 1), (2, 2), (0, 3), (1, 4), (2, 5)];
    let are_wanted = log
        .entries
        .iter()
        .map(|entry| (entry.by.0, entry.number))
        .eq(wanted);
    Ok(are_wanted)
}

// Tells whether the numbers of the party are 0, 1, 2 and so on, this many.
fn in_order(entries: &[Entry], by: PartyId, count: u32) -> bool {
    let mut next = 0;
    for entry in entries {
        if entry.by == by {
            if entry.number != next || next == u32::MAX {
                return false;
            }
            next += 1;
        }
    }
    next == count
}

pub(crate) fn two_sign<R: Threads + Wait + Sync + AllocGlobal>(rt: &R) -> Result<bool, AllocError> {
    let log = Log::with_room(rt.alloc(), 2000)?;
    let Ok((book, mut passes)) = Book::new(rt.alloc(), log, 2) else {
        return Ok(false);
    };
    let second = last_of(&book, &mut passes);
    let first = last_of(&book, &mut passes);
    let (first, second) = thread::join(
        rt,
        || -> Pass<Log>
            requires { IsPassOf book first × ((party_of first).0 ≡ 0) }
            ensures { IsPassOf book result }
        { sign_all(rt, &book, first, PartyId(0), 1000) },
        || -> Pass<Log>
            requires { IsPassOf book second × ((party_of second).0 ≡ 1) }
            ensures { IsPassOf book result }
        { sign_all(rt, &book, second, PartyId(1), 1000) },
    );
    let log = book.finish(Vec::from_array(rt.alloc(), [first, second])?);
    let entries = log.entries.as_slice();
    let is_whole = entries.len() == 2000;
    Ok(is_whole && in_order(entries, PartyId(0), 1000) && in_order(entries, PartyId(1), 1000))
}

pub(crate) fn turns_of_four<R: Threads + Wait + Sync + AllocGlobal>(
    rt: &R,
) -> Result<bool, AllocError> {
    let log = Log::with_room(rt.alloc(), 400)?;
    let Ok((book, mut passes)) = Book::new(rt.alloc(), Turns { log, parties: 4 }, 4) else {
        return Ok(false);
    };
    let d = last_of(&book, &mut passes);
    let c = last_of(&book, &mut passes);
    let b = last_of(&book, &mut passes);
    let a = last_of(&book, &mut passes);
    let ((a, b), (c, d)) = thread::join(
        rt,
        || -> (Pass<Turns>, Pass<Turns>)
            requires { (IsPassOf book a × ((party_of a).0 ≡ 0)) × (IsPassOf book b × ((party_of b).0 ≡ 1)) }
            ensures { IsPassOf book result.0 × IsPassOf book result.1 }
        { work_two(rt, &book, a, PartyId(0), b, PartyId(1)) },
        || -> (Pass<Turns>, Pass<Turns>)
            requires { (IsPassOf book c × ((party_of c).0 ≡ 2)) × (IsPassOf book d × ((party_of d).0 ≡ 3)) }
            ensures { IsPassOf book result.0 × IsPassOf book result.1 }
        { work_two(rt, &book, c, PartyId(2), d, PartyId(3)) },
    );
    let turns = book.finish(Vec::from_array(rt.alloc(), [a, b, c, d])?);
    let mut in_turn = turns.log.entries.len() == 400;
    for (k, entry) in turns.log.entries.iter().enumerate() {
        in_turn = in_turn && entry.by.0 as usize == k % 4 && entry.number as usize == k;
    }
    Ok(in_turn)
}

// Two parties step the machine in two threads.
fn work_two<R: Threads + Wait + Sync>(
    rt: &R,
    book: &Book<Turns>,
    one: Pass<Turns>,
    by: PartyId,
    other: Pass<Turns>,
    other_by: PartyId,
) -> (Pass<Turns>, Pass<Turns>)
    requires { (IsPassOf book.now one × (party_of one ≡ by)) × (IsPassOf book.now other × (party_of other ≡ other_by)) }
    ensures { IsPassOf book.now result.0 × IsPassOf book.now result.1 }
{
    thread::join(
        rt,
        || -> Pass<Turns>
            requires { IsPassOf book.now one × (party_of one ≡ by) }
            ensures { IsPassOf book.entry.now result }
        { work(rt, book, one, by) },
        || -> Pass<Turns>
            requires { IsPassOf book.now other × (party_of other ≡ other_by) }
            ensures { IsPassOf book.entry.now result }
        { work(rt, book, other, other_by) },
    )
}

// Holds once, adds nothing, and rests.
fn look_and_rest<R: Wait>(rt: &R, book: &Book<Log>, pass: Pass<Log>) -> Pass<Log>
    requires { IsPassOf book.now pass }
    ensures { IsPassOf book.now result }
{
    let held = book.hold(rt, pass);
    book.rest(rt, held.close())
}

// Closes for the last time once the others had time to rest, and rests, which doesn't wait any more.
fn close_late<R: Wait + Clock>(rt: &R, book: &Book<Log>, pass: Pass<Log>) -> Pass<Log>
    requires { IsPassOf book.now pass }
    ensures { IsPassOf book.now result }
{
    thread::sleep(rt, Duration::from_millis(3));
    let held = book.hold(rt, pass);
    book.rest(rt, held.close_last())
}

pub(crate) fn rests_end<R: Threads + Wait + Clock + Sync + AllocGlobal>(
    rt: &R,
) -> Result<bool, AllocError> {
    for _ in 0..20 {
        let log = Log::with_room(rt.alloc(), 1)?;
        let Ok((book, mut passes)) = Book::new(rt.alloc(), log, 3) else {
            return Ok(false);
        };
        let c = last_of(&book, &mut passes);
        let b = last_of(&book, &mut passes);
        let a = last_of(&book, &mut passes);
        let a = sign(rt, &book, a, PartyId(0), 7);
        let ((a, b), c) = thread::join(
            rt,
            || -> (Pass<Log>, Pass<Log>)
                requires { IsPassOf book a × IsPassOf book b }
                ensures { IsPassOf book result.0 × IsPassOf book result.1 }
            { close_beside_rest(rt, &book, a, b) },
            || -> Pass<Log>
                requires { IsPassOf book c }
                ensures { IsPassOf book result }
            { look_and_rest(rt, &book, c) },
        );
        // A mark that is there stays: a later closing that isn't the last lets a rest go on too.
        let held = book.hold(rt, b);
        let b = book.rest(rt, held.close());
        let log = book.finish(Vec::from_array(rt.alloc(), [a, b, c])?);
        if log.entries.len() != 1 {
            return Ok(false);
        }
    }
    Ok(true)
}

// One party closes for the last time while the other rests.
fn close_beside_rest<R: Threads + Wait + Clock + Sync>(
    rt: &R,
    book: &Book<Log>,
    closes: Pass<Log>,
    rests: Pass<Log>,
) -> (Pass<Log>, Pass<Log>)
    requires { IsPassOf book.now closes × IsPassOf book.now rests }
    ensures { IsPassOf book.now result.0 × IsPassOf book.now result.1 }
{
    thread::join(
        rt,
        || -> Pass<Log>
            requires { IsPassOf book.now closes }
            ensures { IsPassOf book.entry.now result }
        { close_late(rt, book, closes) },
        || -> Pass<Log>
            requires { IsPassOf book.now rests }
            ensures { IsPassOf book.entry.now result }
        { look_and_rest(rt, book, rests) },
    )
}

pub(crate) fn setting_is_known<R: Wait + AllocGlobal>(rt: &R) -> Result<bool, AllocError> {
    let setting = Setting { lanes: 3 };
    let run = Run {
        setting: &setting,
        made: Vec::new(rt.alloc()),
    };
    let Ok((book, mut passes)) = Book::new(rt.alloc(), run, 1) else {
        return Ok(false);
    };
    let Some(pass) = passes.pop() else {
        return Ok(false);
    };
    let (pass, first) = lanes(rt, &book, pass, &setting);
    let (pass, second) = lanes(rt, &book, pass, &setting);
    let run = book.finish(Vec::from_array(rt.alloc(), [pass])?);
    Ok(first == 3 && second == 3 && run.made.is_empty())
}
