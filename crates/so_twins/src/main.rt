//! Bodies that meet one contract, beside each other: the interpreter and a box, queues, timers and the picks of dispatchers, each with a plain twin,
//! on calls that are drawn. Their contracts say that both answer alike; this shows it of what was compiled.
#![tactic(auto)]

mod boxes;
mod draw;
mod picks;
mod queues;
mod timers;

use std::io;

/// What is said of a pair.
fn verdict(agree: bool) -> &'static str {
    if agree {
        "no difference"
    } else {
        "a difference"
    }
}

fn main(rt: HostRuntime) -> io::Result<()> {
    let alloc = rt.alloc();
    println!(rt; "boxes: {}", verdict(boxes::agree(alloc)?))?;
    match queues::agree(alloc) {
        Ok(agree) => println!(rt; "queues: {}", verdict(agree))?,
        Err(_) => println!(rt; "queues: no memory")?,
    }
    match timers::agree(alloc) {
        Ok(agree) => println!(rt; "timers: {}", verdict(agree))?,
        Err(_) => println!(rt; "timers: no memory")?,
    }
    for (kind, scene) in picks::SCENES {
        match picks::agree(alloc, scene) {
            Ok(agree) => println!(rt; "picks of {kind}: {}", verdict(agree))?,
            Err(_) => println!(rt; "picks of {kind}: no scene")?,
        }
    }
    Ok(())
}
