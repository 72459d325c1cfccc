//! A text in pieces: a sink gets few large writes in place of one for each line.
#![tactic(auto)]

mod printer;

pub use printer::Printer;
