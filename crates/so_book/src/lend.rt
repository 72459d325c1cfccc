//! The value, lent while a party has it.
ghost use Rattle.std.specs.Prelude.{◌≡◌};
ghost use Rattle.std.specs.Borrow.{sem};
ghost use Rattle.so_book.specs.Lending.{LendsValue};
ghost use Rattle.so_book.specs.Passes.{held_value};

use crate::Chronicle;
use crate::book::Held;

impl<V: Chronicle> Held<'_, V> {
    /// The value.
    pub fn value(&self) -> &V
        ensures { result.now ≡ held_value self.now }
    {
        &self.value
    }

    /// The value, to be changed. What it is at the end is what `close` asks about.
    pub fn value_mut(&mut self) -> &mut V
        ensures* writes_back { sem 𝓛 (LendsValue V.row V.Entry.row V.Chronicle V.Entry.Clone self.entry result) }
        ensures value { result.now ≡ held_value self.old }
    {
        &mut self.value
    }
}
