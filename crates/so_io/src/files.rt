//! Files that are read whole.
ghost use Rattle.std.specs.Prelude.{◌≡◌, ℕ, List, Option};
ghost use Rattle.so_io.specs.Files.{ReadsContent, ReadHasCause};

use std::alloc::Global;

/// Why a file wasn't read.
#[derive(Clone, Copy, PartialEq, Eq)]
pub enum ReadFail {
    /// The file isn't there, or reading it failed.
    Failed,
    /// The file has more bytes than were asked for.
    TooLong,
    /// Memory that was wanted isn't there.
    NoMemory,
}

/// Files by name.
pub trait Files {
    /// What the file of a name holds, where it is told.
    ghost content: { Self → List ℕ → Option (List ℕ) };

    /// How many faults there were, up to the count's last value.
    ghost faults: { Self → ℕ };

    /// The bytes of a file, of which there may be `max`. Where its content is told, `TooLong` comes
    /// exactly where it has more.
    fn read_all(&mut self, alloc: Global, path: &str, max: usize) -> Result<Vec<u8>, ReadFail>
        ensures bytes { ReadsContent (λ v. v.items) (content self.old path.now) max result }
        ensures kept { (name : List ℕ) → content self.new name ≡ content self.old name }
        ensures cause { ReadHasCause (faults self.old) (faults self.new) result };
}
