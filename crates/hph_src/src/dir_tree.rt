ghost use Rattle.std.specs.Prelude.{◌≡◌, ◌≤◌, ℕ, Some, None, IfSome};
ghost use Rattle.hph_src.specs.Faults.{HasRisen};
ghost use Rattle.hph_src.specs.Tree.{Extends, Tells};

use crate::{ReadAnswer, Tree};
use std::fs::OpenOptions;
use std::io::{ErrorKind, Read};
use std::marker::Model;
use std::rt::Files;

/// How many bytes one read asks for.
const BUFFER_LEN: usize = 4096;

/// The files of a runtime. A contract sees the count of its faults, and nothing of the files.
#[derive(Drop)]
pub struct DirTree<'a, R: Files> {
    runtime: &'a R,
    faults: u64,
}

impl<'a, R: Files> Model for DirTree<'a, R> {
    ghost Value = { ℕ };

    ghost view = { λ t. t.faults };
}

impl<'a, R: Files> DirTree<'a, R> {
    /// The files of `runtime`, with no fault so far.
    pub fn new(runtime: &'a R) -> DirTree<'a, R>
        ensures { result ≡ 0 }
    {
        DirTree { runtime, faults: 0 }
    }

    /// How many reads have failed.
    pub fn faults(&self) -> u64
        ensures { result ≡ self.now }
    {
        self.faults
    }

    fn fail(&mut self) -> ReadAnswer
        ensures failed { result ≡ ReadAnswer.Failed }
        ensures never_falls { self.old ≤ self.new }
        ensures counted { HasRisen self.old self.new }
    {
        self.faults = self.faults.saturating_add(1);
        ReadAnswer::Failed
    }
}

impl<'a, R: Files> Tree for DirTree<'a, R> {
    ghost files = { λ _. None };

    ghost faults = { λ t. t };

    fn read(&mut self, path: &str, limit: u32, into: &mut Vec<u8>) -> ReadAnswer {
        let start = into.len();
        let answer = append_file(self.runtime, path, limit, into);
        if answer == ReadAnswer::Found {
            return ReadAnswer::Found;
        }
        into.truncate(start);
        if answer == ReadAnswer::Failed {
            return self.fail();
        }
        answer
    }
}

// Adds to `into` up to the first failure, and leaves it to the caller to take back what was added.
fn append_file<R: Files>(runtime: &R, path: &str, limit: u32, into: &mut Vec<u8>) -> ReadAnswer
    ensures { Extends into.old.items into.new.items limit result }
{
    let mut options = OpenOptions::new();
    options.read(true);
    match options.open(runtime, path) {
        Ok(mut file) => append_rest(&mut file, limit, into),
        Err(error) => match error.kind() {
            ErrorKind::NotFound | ErrorKind::NotADirectory => ReadAnswer::Absent,
            ErrorKind::OutOfMemory => ReadAnswer::NoMemory,
            _ => ReadAnswer::Failed,
        },
    }
}

// Reads no further than one buffer past the limit, so that a file without end is too long as well.
fn append_rest<F: Read>(reader: &mut F, limit: u32, into: &mut Vec<u8>) -> ReadAnswer
    ensures extended { Extends into.old.items into.new.items limit result }
    ensures told { IfSome (F.remaining reader.old) (λ file.
        Tells (Some file) limit into.old.items into.new.items result) }
{
    let mut buffer = [0u8; BUFFER_LEN];
    let mut left = limit as usize;
    loop {
        let count = match reader.read(&mut buffer) {
            Ok(0) => return ReadAnswer::Found,
            Ok(count) => count,
            Err(error) if error.kind() == ErrorKind::OutOfMemory => return ReadAnswer::NoMemory,
            Err(_) => return ReadAnswer::Failed,
        };
        if count > left {
            return ReadAnswer::TooLong;
        }
        if into.extend_from_slice(&buffer[..count]).is_err() {
            return ReadAnswer::NoMemory;
        }
        left -= count;
    }
}
