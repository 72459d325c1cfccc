//! Sinks, to which bytes are appended.
ghost use Rattle.std.specs.Prelude.{◌≡◌, ◌<◌, ◌≤◌, ℕ, List, length, IfOk, Option, None, Ok};
ghost use Rattle.std.specs.Io.KnownBytes.{WriteAppends};
ghost use Rattle.so_io.specs.Count.{HasCause};
ghost use Rattle.so_io.specs.Sink.{PutAppends};

use so_ids::Failed;

/// What bytes are written to.
pub trait Sink {
    /// What it holds, where it is told.
    ghost content: { Self → Option (List ℕ) };

    /// How many faults there were, up to the count's last value.
    ghost faults: { Self → ℕ };

    /// Appends some bytes from the front of the piece, at least one, and says how many. After a
    /// failure nothing was appended.
    fn write(&mut self, piece: &[u8]) -> Result<usize, Failed>
        requires { 0 < length piece.now }
        ensures count { IfOk result (λ n. (0 < n) × (n ≤ length piece.now)) }
        ensures bytes { WriteAppends (content self.old) (content self.new) result piece.now }
        ensures cause { HasCause (faults self.old) (faults self.new) result };
}

/// Appends the whole piece. After a failure a front part of it was appended, which isn't the whole.
pub fn put_all<K: Sink>(sink: &mut K, piece: &[u8]) -> Result<(), Failed>
    ensures bytes { PutAppends (K.content sink.old) (K.content sink.new) result piece.now }
    ensures cause { HasCause (K.faults sink.old) (K.faults sink.new) result }
{
    let mut at = 0;
    while at < piece.len() {
        let count = sink.write(&piece[at..])?;
        at += count;
    }
    Ok(())
}

/// A sink that takes every piece whole, keeps and tells nothing, and never fails.
#[derive(Clone, Copy, Default)]
pub struct NeverFails;

impl NeverFails {
    /// Makes the sink.
    pub fn new() -> NeverFails {
        NeverFails
    }
}

impl Sink for NeverFails {
    ghost content = { λ _. None };

    ghost faults = { λ _. 0 };

    fn write(&mut self, piece: &[u8]) -> Result<usize, Failed>
        ensures { result ≡ Ok (length piece.now) }
    {
        Ok(piece.len())
    }
}
