//! The files of the system, of whose content nothing is told.
ghost use Rattle.std.specs.Prelude.{◌≡◌, None};
ghost use Rattle.so_io.specs.Files.{ReadHasCause, ReadsUpTo, after_answer};

use crate::files::{Files, ReadFail};
use std::alloc::Global;
use std::fs::File;
use std::io::{ErrorKind, Read};
use std::marker::Model;

/// The files of the system. Contracts see the count of the readings that failed.
#[derive(Drop)]
pub struct RealFiles<'a, R> {
    rt: &'a R,
    faults: u64,
}

impl<'a, R> Model for RealFiles<'a, R> {
    ghost use Rattle.std.specs.Prelude.{ℕ};

    ghost Value = { ℕ };

    ghost view = { λ f. f.faults };
}

impl<'a, R: std::rt::Files> RealFiles<'a, R> {
    /// The files that this runtime reaches.
    pub fn new(rt: &'a R) -> RealFiles<'a, R>
        ensures { result ≡ 0 }
    {
        RealFiles { rt, faults: 0 }
    }
}

/// All bytes of a reader, of which there may be `max`.
fn read_up_to<R: Read + Drop>(alloc: Global, reader: R, max: usize) -> Result<Vec<u8>, ReadFail>
    ensures { ReadsUpTo (λ v. v.items) (R.remaining reader) max result }
{
    let mut bytes = Vec::new(alloc);
    let limit = (max as u64).saturating_add(1);
    match reader.take(limit).read_to_end(&mut bytes) {
        Ok(_) if bytes.len() <= max => Ok(bytes),
        Ok(_) => Err(ReadFail::TooLong),
        Err(error) if error.kind() == ErrorKind::OutOfMemory => Err(ReadFail::NoMemory),
        Err(_) => Err(ReadFail::Failed),
    }
}

/// The bytes of a file, of which there may be `max`.
fn read_file<R: std::rt::Files>(
    alloc: Global,
    rt: &R,
    path: &str,
    max: usize,
) -> Result<Vec<u8>, ReadFail> {
    let file = File::open(rt, path).map_err(|_| ReadFail::Failed)?;
    read_up_to(alloc, file, max)
}

impl<'a, R: std::rt::Files> Files for RealFiles<'a, R> {
    ghost content = { λ _ _. None };

    ghost faults = { λ f. f };

    fn read_all(&mut self, alloc: Global, path: &str, max: usize) -> Result<Vec<u8>, ReadFail>
        ensures counted { self.new ≡ after_answer self.old result }
        ensures cause { ReadHasCause self.old self.new result }
    {
        let answer = read_file(alloc, self.rt, path, max);
        if let Err(ReadFail::Failed) = answer {
            self.faults = self.faults.saturating_add(1);
        }
        answer
    }
}
