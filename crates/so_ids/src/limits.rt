//! The limits of a scene and of a run, each named once.

/// Agents of a scene.
pub const MOST_AGENTS: usize = 4_096;

/// Cooperations of a scene.
pub const MOST_COOPS: usize = 1_024;

/// Message types of a scene.
pub const MOST_MESSAGES: usize = 256;

/// Named mboxes of a scene.
pub const MOST_MBOXES: usize = 256;

/// Lanes of all dispatchers of a scene.
pub const MOST_LANES: u32 = 256;

/// Texts of a scene.
pub const MOST_TEXTS: usize = 4_096;

/// Agents that may be bound to a dispatcher at once.
pub const MOST_SLOTS: u32 = 4_096;

/// Subscription rows of an agent.
pub const MOST_ROWS: usize = 128;

/// Declared states of an agent.
pub const MOST_STATES: usize = 63;

/// Instructions of an agent's code.
pub const MOST_INSTRUCTIONS: usize = 1_024;

/// Acts of a body.
pub const MOST_ACTS: usize = 256;

/// Units of a run: an entry costs one, and one more for each demand that it queues.
pub const MOST_UNITS: u32 = 1_000_000;
