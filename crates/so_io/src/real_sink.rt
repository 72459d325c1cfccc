//! The streams of the system, of whose content nothing is told.
ghost use Rattle.std.specs.Prelude.{◌≡◌, ◌≤◌, ◌<◌, None, length, IfOk, is_ok, if◌then◌else◌};
ghost use Rattle.std.specs.Io.KnownBytes.{WriteAppends};
ghost use Rattle.so_io.specs.Count.{HasCause, counted};

use crate::sink::Sink;
use so_ids::Failed;
use std::io::{ErrorKind, Stderr, Stdout, Write};
use std::marker::Model;

/// A stream of the system. Contracts see the count of the writes that failed.
#[derive(Drop)]
pub struct RealSink<W> {
    stream: W,
    faults: u64,
}

/// Standard output.
pub type RealOut = RealSink<Stdout>;

/// Standard error.
pub type RealErr = RealSink<Stderr>;

impl<W> Model for RealSink<W> {
    ghost use Rattle.std.specs.Prelude.{ℕ};

    ghost Value = { ℕ };

    ghost view = { λ s. s.faults };
}

impl<W: Write> RealSink<W> {
    /// A sink that writes to this stream.
    pub fn new(stream: W) -> RealSink<W>
        ensures { result ≡ 0 }
    {
        RealSink { stream, faults: 0 }
    }
}

/// Writes some bytes of the piece, at least one, and tries again where it was interrupted.
#[tactic(auto, using(crate::proofs::Known::keeping))]
fn write_some<W: Write>(stream: &mut W, piece: &[u8]) -> Result<usize, Failed>
    ensures count { IfOk result (λ n. (0 < n) × (n ≤ length piece.now)) }
    ensures bytes { WriteAppends (W.contents stream.old) (W.contents stream.new) result piece.now }
{
    for _ in 0..u64::MAX {
        match stream.write(piece) {
            Ok(0) => return Err(Failed),
            Ok(count) => return Ok(count),
            Err(error) if error.kind() == ErrorKind::Interrupted => {}
            Err(_) => return Err(Failed),
        }
    }
    Err(Failed)
}

impl<W: Write> Sink for RealSink<W> {
    ghost content = { λ _. None };

    ghost faults = { λ s. s };

    fn write(&mut self, piece: &[u8]) -> Result<usize, Failed>
        requires { 0 < length piece.now }
        ensures counted { self.new ≡ (if is_ok result then self.old else counted self.old) }
        ensures count { IfOk result (λ n. (0 < n) × (n ≤ length piece.now)) }
        ensures cause { HasCause self.old self.new result }
    {
        let answer = write_some(&mut self.stream, piece);
        if answer.is_err() {
            self.faults = self.faults.saturating_add(1);
        }
        answer
    }
}
