//! A value that is opened over a setting, which never changes. A book says of its value no more than how
//! its history goes on, so the history begins with the setting: a party then knows under each holding that
//! the value is still over the setting that it was opened over.
ghost use Rattle.std.specs.Prelude.{◌≡◌, ◌<◌, ◌+◌, ◌^◌, length};
ghost use Rattle.so_book.specs.Passes.{IsPassOf, seen_by};
ghost use Rattle.so_book_users.specs.Opened.{IsOpenedOver};

use crate::log::Entry;
use so_book::{Book, Chronicle, Pass};
use std::sync::Wait;

/// What a run goes over.
#[derive(Drop)]
pub struct Setting {
    pub lanes: u32,
}

/// A line of a run's history.
#[derive(Clone, Copy)]
pub enum Line<'a> {
    /// The oldest line. Main signs it.
    Opened(&'a Setting),
    /// An entry that a party made.
    Made(Entry),
}

/// Entries made over a setting, in the order of time.
#[derive(Drop)]
pub struct Run<'a> {
    pub setting: &'a Setting,
    pub made: Vec<Entry>,
    ghost small: { length made.items + 1 < 2 ^ 32 },
}

impl<'a> Chronicle for Run<'a> {
    ghost use Rattle.so_book_users.specs.Opened.{lines, line_signer};

    type Entry = Line<'a>;

    ghost history = { λ s. lines s.setting s.made.items };

    ghost signer = { line_signer };

    fn len(&self) -> u32 {
        self.made.len() as u32 + 1
    }
}

/// The number of lanes that the value has under the lock, which is that of the setting.
pub fn lanes<'a, R: Wait>(
    rt: &R,
    book: &Book<Run<'a>>,
    pass: Pass<Run<'a>>,
    setting: &'a Setting,
) -> (Pass<Run<'a>>, u32)
    requires { IsPassOf book.now pass × IsOpenedOver setting.now (seen_by pass) }
    ensures lanes { result.1 ≡ setting.now.lanes }
    ensures pass { IsPassOf book.now result.0 × IsOpenedOver setting.now (seen_by result.0) }
{
    let held = book.hold(rt, pass);
    let lanes = held.value().setting.lanes;
    (held.close(), lanes)
}
