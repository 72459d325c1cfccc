//! The program `sorun`.
#![tactic(auto)]

use so_io::{RealErr, RealFiles, RealOut};
use sorun::quiet;
use std::process::ExitCode;
use std::rt::Env;
use std::{env, io};

/// The status where the words themselves took too much memory, as for every other want of it.
const NO_MEMORY: u8 = 71;

/// The words after the program's name.
fn words<R: Env + AllocGlobal>(rt: &R) -> io::Result<Vec<String>> {
    let mut words = Vec::new(rt.alloc());
    let mut args = env::args(rt)?;
    let _name = args.next();
    for word in args {
        words.push(word)?;
    }
    Ok(words)
}

fn main(rt: HostRuntime) -> ExitCode {
    let alloc = rt.alloc();
    let mut files = RealFiles::new(&rt);
    let mut out = RealOut::new(rt.stdout());
    let mut err = RealErr::new(rt.stderr());
    match words(&rt) {
        Ok(words) => {
            let report = quiet(alloc, &words, &mut files, &mut out, &mut err);
            ExitCode::from(report.status)
        }
        Err(_) => ExitCode::from(NO_MEMORY),
    }
}
