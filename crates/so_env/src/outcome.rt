//! What a run gave.

use so_fault::SceneFault;
use so_history::History;

/// Why a run ended, or why there was none.
#[derive(Drop)]
pub enum Cause {
    /// The run is finished.
    Done,
    /// The command line is outside the grammar, at this word.
    Usage(u32),
    /// A step didn't fit the units.
    Limit,
    /// An exception aborted the run.
    Aborted,
    /// The bytes give no scene.
    Scene(SceneFault),
    /// The file couldn't be read.
    Read,
    /// The file is too long.
    Long,
    /// A write to the output failed.
    Write,
    /// Memory was wanting.
    Memory,
}

/// What a run gave. There is no history exactly where memory was wanting.
#[derive(Drop)]
pub struct Outcome {
    pub history: Option<History>,
    pub cause: Cause,
    /// The units that the history cost; 0 where there is none.
    pub units: u32,
    /// How many pieces were handed to the output, one that failed among them: each of 4,096 bytes, the last of fewer or
    /// as many.
    pub pieces: u64,
}
