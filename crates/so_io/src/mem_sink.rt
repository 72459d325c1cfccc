//! A sink in memory.
ghost use Rattle.std.specs.Prelude.{◌≡◌, ◌≤◌, ◌<◌, [], Some, length, IfOk, is_ok};
ghost use Rattle.std.specs.Io.KnownBytes.{WriteAppends};
ghost use Rattle.so_io.specs.Count.{HasCause};
ghost use Rattle.so_io.specs.MemSink.{MemSinkState, writing, after_writing};

use crate::sink::Sink;
use so_ids::{Failed, NoMemory};
use std::alloc::Global;
use std::marker::Model;

/// A sink in memory, with a capacity in bytes, and the numbers of the calls that fail, counted from 0.
/// It takes a piece whole where it fits.
#[derive(Drop)]
pub struct MemSink {
    held: Vec<u8>,
    capacity: usize,
    fails: Vec<u64>,
    calls: u64,
    faults: u64,
}

impl Model for MemSink {
    ghost use Rattle.std.specs.Prelude.{◌≤◌, vec_capacity, vec_len};
    ghost use Rattle.so_io.specs.MemSink.{MemSinkState};

    ghost Value = { MemSinkState };

    ghost view = { λ s. record { held = s.held.items; capacity = s.capacity; fails = s.fails.items; calls = s.calls; faults = s.faults } };

    ghost invariant = { λ s. (vec_len s.held ≤ s.capacity) × (s.capacity ≤ vec_capacity s.held) };
}

impl MemSink {
    /// An empty sink for `capacity` bytes, whose calls of these numbers fail. All its memory is taken
    /// here.
    pub fn new(alloc: Global, capacity: usize, fails: Vec<u64>) -> Result<MemSink, NoMemory>
        ensures { IfOk result (λ s. s ≡ record { held = []; capacity = capacity; fails = fails.items; calls = 0; faults = 0 }) }
    {
        let held = Vec::with_capacity(alloc, capacity).map_err(|_| NoMemory)?;
        Ok(MemSink {
            held,
            capacity,
            fails,
            calls: 0,
            faults: 0,
        })
    }

    /// The bytes that it holds.
    pub fn bytes(&self) -> &[u8]
        ensures { result.now ≡ self.now.held }
    {
        &self.held
    }
}

impl Sink for MemSink {
    ghost content = { λ s. Some s.held };

    ghost faults = { λ s. s.faults };

    fn write(&mut self, piece: &[u8]) -> Result<usize, Failed>
        requires { 0 < length piece.now }
        ensures answer { result ≡ writing self.old piece.now }
        ensures after { self.new ≡ after_writing self.old piece.now }
        ensures cause { HasCause self.old.faults self.new.faults result }
    {
        let fails = self.fails.contains(&self.calls);
        self.calls = self.calls.saturating_add(1);
        if fails || piece.len() > self.capacity - self.held.len() {
            self.faults = self.faults.saturating_add(1);
            return Err(Failed);
        }
        match self.held.extend_from_slice(piece) {
            Ok(()) => Ok(piece.len()),
            Err(_) => unreachable!(),
        }
    }
}
