//! The outside as it is met: the adapters to files, streams and the clock of the system, and the objects in memory.
#![tactic(auto)]

#[cfg(test)]
mod memory;
#[cfg(test)]
mod system;
