//! The words of a book's table.
ghost use Rattle.std.specs.Prelude.{◌≡◌, ◌||◌};
ghost use Rattle.so_book.specs.Rule.{length_word, is_marked};

/// The next ticket.
pub(crate) const TICKET: usize = 0;

/// The ticket that is served.
pub(crate) const SERVING: usize = 1;

/// The length of the history, marked from the first `close_last` on.
pub(crate) const LENGTH: usize = 2;

/// A marked word is this or more.
const MARK: u64 = 1 << 32;

/// The word after a holding that found the word `before`, where the history now has this length. It is
/// marked where it was, or where this is the last closing. A thread that sleeps on a word compares its low
/// 32 bits alone, so a marked word is one more: these bits then change too, and no sleeper misses the mark.
pub(crate) fn word_after(before: u64, len: u32, last: bool) -> u64
    ensures { result ≡ length_word len (last || is_marked before) }
{
    if last || before >= MARK {
        MARK + u64::from(len) + 1
    } else {
        u64::from(len)
    }
}

/// The low 32 bits of a word, which a sleep compares.
pub(crate) fn low_half(word: u64) -> u32 {
    (word & 0xffff_ffff) as u32
}
