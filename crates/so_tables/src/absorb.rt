//! What an entry makes of each table: one function a table, over the entry and what its step found.

pub(crate) mod attempts;
pub(crate) mod coops;
pub(crate) mod events;
pub(crate) mod lanes;
pub(crate) mod mboxes;
pub(crate) mod milestones;
pub(crate) mod states;
pub(crate) mod variables;
