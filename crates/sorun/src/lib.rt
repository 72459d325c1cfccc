//! The program as a function of its words, its files and its outputs.
#![tactic(auto)]

mod answer;
mod commands;
mod load;
mod message;
mod options;
mod report;
mod summary;
mod top;

pub use report::Report;
pub use top::quiet;
