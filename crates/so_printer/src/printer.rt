//! A text that is handed out in pieces of 4,096 bytes and a last shorter one.

ghost use Rattle.std.specs.Prelude.{◌≡◌, ◌+◌, ◌<◌, ◌≤◌, ◌^◌, ◌-◌, List, ℕ, [], ◌++◌, Option, true, false, length};
ghost use Rattle.so_printer.specs.Printing.{IsPrinting, IsPrinted, RisesAnew, IsOneAtMost};

use arrayvec::ArrayVec;
use so_io::{Sink, put_all};
use std::marker::Model;

/// How many bytes a piece has.
const PIECE_BYTES: usize = 4096;

/// Hands a text on in pieces of 4,096 bytes and a last shorter one. After a piece that failed, nothing is handed on.
#[derive(Drop)]
pub struct Printer {
    /// The bytes of the next piece so far.
    held: ArrayVec<u8, PIECE_BYTES>,
    pieces: u64,
    failed: bool,
}

impl Model for Printer {
    ghost use Rattle.so_printer.specs.Printing.{PrinterView};

    ghost Value = { PrinterView };

    ghost view = { λ p. record { held = p.held.items; pieces = p.pieces; failed = p.failed } };
}

impl Printer {
    /// A printer of an empty text.
    pub fn new() -> Printer
        ensures { result ≡ record { held = []; pieces = 0; failed = false } }
    {
        Printer {
            held: ArrayVec::new(),
            pieces: 0,
            failed: false,
        }
    }

    /// Tells whether a piece failed.
    pub fn failed(&self) -> bool
        ensures { result ≡ self.now.failed }
    {
        self.failed
    }

    /// How many pieces were handed out, one that failed among them.
    pub fn pieces(&self) -> u64
        ensures { result ≡ self.now.pieces }
    {
        self.pieces
    }

    /// Adds a line of at most 512 bytes to the text. Where a piece is full it is handed out.
    pub fn add<K: Sink>(&mut self, out: &mut K, line: &[u8])
        requires short { length line.now ≤ 512 }
        requires few { self.old.pieces < 2 ^ 64 - 1 }
        ensures text { (first : Option (List ℕ)) (text : List ℕ)
            → IsPrinting self.old.failed first (K.content out.old) self.old text
            → IsPrinting self.new.failed first (K.content out.new) self.new (text ++ line.now) }
        ensures pieces { IsOneAtMost self.old.pieces self.new.pieces }
        ensures silent { self.old.failed ≡ true → out.new ≡ out.old }
        ensures cause { RisesAnew self.old.failed self.new.failed (K.faults out.old) (K.faults out.new) }
    {
        if self.failed {
            return;
        }
        let room = PIECE_BYTES - self.held.len();
        if line.len() < room {
            self.hold(line);
            return;
        }
        self.hold(&line[..room]);
        self.pieces += 1;
        match put_all(out, self.held.as_slice()) {
            Ok(()) => {
                self.held.clear();
                self.hold(&line[room..]);
            }
            Err(_) => {
                self.failed = true;
            }
        }
    }

    /// Ends the text: hands out what is held.
    pub fn finish<K: Sink>(&mut self, out: &mut K)
        requires few { self.old.pieces < 2 ^ 64 - 1 }
        ensures text { (first : Option (List ℕ)) (text : List ℕ)
            → IsPrinting self.old.failed first (K.content out.old) self.old text
            → IsPrinted self.new.failed first (K.content out.new) self.new.pieces text }
        ensures held { self.new.failed ≡ false → self.new.held ≡ [] }
        ensures silent { self.old.failed ≡ true → out.new ≡ out.old }
        ensures cause { RisesAnew self.old.failed self.new.failed (K.faults out.old) (K.faults out.new) }
    {
        if self.failed || self.held.is_empty() {
            return;
        }
        self.pieces += 1;
        match put_all(out, self.held.as_slice()) {
            Ok(()) => self.held.clear(),
            Err(_) => {
                self.failed = true;
            }
        }
    }

    /// Holds bytes for which there is room.
    fn hold(&mut self, bytes: &[u8])
        requires { length self.old.held + length bytes.now ≤ 4096 }
        ensures held { self.new.held ≡ self.old.held ++ bytes.now }
        ensures pieces { self.new.pieces ≡ self.old.pieces }
        ensures failed { self.new.failed ≡ self.old.failed }
    {
        match self.held.try_extend_from_slice(bytes) {
            Ok(()) => {}
            Err(_) => unreachable!(),
        }
    }
}
