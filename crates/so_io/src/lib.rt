//! The outside, as the crates above see it: files, sinks, a clock and a gate.
//!
//! Each is a trait, with objects in memory for tests and proofs, and adapters to the system. A trait
//! says what its object holds where that is told, and counts its faults: an answer of failure comes
//! only where the count rose.
#![tactic(auto)]

mod clock;
mod files;
mod gate;
mod list_clock;
mod mem_files;
mod mem_sink;
mod real_clock;
mod real_files;
mod real_sink;
mod sink;

pub use clock::Clock;
pub use files::{Files, ReadFail};
pub use gate::{Gate, OpenGate};
pub use list_clock::ListClock;
pub use mem_files::MemFiles;
pub use mem_sink::MemSink;
pub use real_clock::RealClock;
pub use real_files::RealFiles;
pub use real_sink::{RealErr, RealOut, RealSink};
pub use sink::{NeverFails, Sink, put_all};
