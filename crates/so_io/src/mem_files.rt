//! Files in memory.
ghost use Rattle.std.specs.Prelude.{◌≡◌, ℕ, List, option_copied, find, string_bytes};
ghost use Rattle.std.specs.Option.{option_map};
ghost use Rattle.std.specs.Str.{bytes_eq};
ghost use Rattle.so_io.specs.Files.{ReadsContent, ReadHasCause};
ghost use Rattle.so_io.specs.MemFiles.{MemFilesState, file_of, named_files, reading, after_reading, Answers};

use crate::files::{Files, ReadFail};
use std::alloc::Global;
use std::marker::Model;

/// Files in memory by name, with the numbers of the calls that fail, counted from 0. Of several
/// contents of one name the first counts.
#[derive(Drop)]
pub struct MemFiles {
    files: Vec<(String, Vec<u8>)>,
    fails: Vec<u64>,
    calls: u64,
    faults: u64,
}

impl Model for MemFiles {
    ghost use Rattle.so_io.specs.MemFiles.{MemFilesState, named_files};

    ghost Value = { MemFilesState };

    ghost view = { λ f. record { files = named_files f.files.items; fails = f.fails.items; calls = f.calls; faults = f.faults } };
}

impl MemFiles {
    /// These files, of which the calls of these numbers fail.
    pub fn new(files: Vec<(String, Vec<u8>)>, fails: Vec<u64>) -> MemFiles
        ensures { result ≡ record { files = named_files files.items; fails = fails.items; calls = 0; faults = 0 } }
    {
        MemFiles {
            files,
            fails,
            calls: 0,
            faults: 0,
        }
    }
}

/// The first file of a name.
fn find<'a>(files: &'a [(String, Vec<u8>)], name: &str) -> Option<&'a (String, Vec<u8>)>
    ensures { option_copied result ≡ find (λ file. bytes_eq (string_bytes file.0) name.now) files.now }
{
    files.iter().find(|file| file.0.as_str() == name)
}

/// The bytes of the first file of a name.
#[tactic(auto, using(crate::proofs::Named::file_of_named))]
fn content_of<'a>(files: &'a [(String, Vec<u8>)], name: &str) -> Option<&'a Vec<u8>>
    ensures { option_map (λ bytes. bytes.items) (option_copied result) ≡ file_of (named_files files.now) name.now }
{
    find(files, name).map(|file| &file.1)
}

impl Files for MemFiles {
    ghost content = { λ f name. file_of f.files name };

    ghost faults = { λ f. f.faults };

    fn read_all(&mut self, alloc: Global, path: &str, max: usize) -> Result<Vec<u8>, ReadFail>
        ensures answer { Answers (λ v. v.items) (reading self.old path.now max) result }
        ensures after { self.new ≡ after_reading self.old path.now max }
        ensures cause { ReadHasCause self.old.faults self.new.faults result }
    {
        let fails = self.fails.contains(&self.calls);
        self.calls = self.calls.saturating_add(1);
        match content_of(&self.files, path) {
            Some(bytes) if bytes.len() > max => Err(ReadFail::TooLong),
            Some(bytes) if !fails => {
                Vec::from_slice(alloc, bytes).map_err(|_| ReadFail::NoMemory)
            }
            _ => {
                self.faults = self.faults.saturating_add(1);
                Err(ReadFail::Failed)
            }
        }
    }
}
