//! Users of a book: parties that sign entries of a log, and parties that step a machine, one entry under each holding.
//!
//! They are proved against the book's contracts alone. The program lets them meet in one, two and four threads, and prints
//! what stood in the book then.
#![tactic(auto)]

mod log;
mod party;
mod setting;
mod shows;
mod turns;

use shows::{rests_end, setting_is_known, three_take_turns, turns_of_four, two_sign};
use std::io;

/// What is said of what was looked for.
fn verdict(holds: bool) -> &'static str {
    if holds {
        "as it should be"
    } else {
        "otherwise"
    }
}

fn main(rt: HostRuntime) -> io::Result<()> {
    println!(rt;
        "three parties in one thread sign in turn: {}",
        verdict(three_take_turns(&rt)?)
    )?;
    println!(rt;
        "two threads sign a thousand each: {}",
        verdict(two_sign(&rt)?)
    )?;
    println!(rt;
        "four threads write in turn and rest: {}",
        verdict(turns_of_four(&rt)?)
    )?;
    println!(rt;
        "the last closing ends every rest: {}",
        verdict(rests_end(&rt)?)
    )?;
    println!(rt;
        "the setting is known under each holding: {}",
        verdict(setting_is_known(&rt)?)
    )?;
    Ok(())
}
