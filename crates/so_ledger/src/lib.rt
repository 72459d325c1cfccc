//! The ledger of a run: its history with the tables that stand for it.
//!
//! It is read for what may be added next, one gate lets an entry through or says why not, and what is let through is
//! added.
#![tactic(auto)]

mod add;
mod classes;
mod decide;
mod delivery;
mod gate;
mod ledger;
mod takes;

pub use gate::Barred;
pub use ledger::Ledger;
