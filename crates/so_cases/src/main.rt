//! Plays worked cases, one a line of standard input: rows of picks on scenes, outputs that fail, and scenes that are read
//! and written back.
//!
//! A line `# TITLE` is printed as it is.
//!
//! `play PICKS SCENE` prints the trace that the picks give from an empty history: `r` is main's next registration, `t`
//! what main is to tidy, a number the next step of that lane; commas stand between them.
//!
//! `fail CALL SCENE` prints what `sim` writes where this call of the output fails, counted from 0, and then how many
//! entries the run has and how many pieces it handed out.
//!
//! `echo SCENE` prints what is written of the scene, if this is read and written again as the same.
#![tactic(auto)]

mod case;
mod echo;
mod fails;
mod fault;
mod picks;
mod play;

use case::answer;
use std::io::{self, BufRead, BufReader, Write};

fn main(rt: HostRuntime) -> io::Result<()> {
    let alloc = rt.alloc();
    let mut out = rt.stdout();
    for line in BufReader::new(alloc, rt.reader())?.lines(alloc) {
        match answer(alloc, line?.as_str()) {
            Ok(text) => out.write_all(text.as_slice())?,
            Err(fault) => println!(rt; "{}", fault.words())?,
        }
    }
    Ok(())
}
