ghost use Rattle.std.specs.Prelude.{◌≡◌, Some, []};

use crate::{PutAnswer, ReadAnswer, Sink, Tree};
use std::alloc::Global;
use std::collections::BTreeMap;
use std::marker::Model;

/// A tree of files in memory, which never fails. A contract sees the files.
#[derive(Debug, Drop)]
pub struct MemTree {
    files: BTreeMap<String, Vec<u8>>,
}

impl Model for MemTree {
    ghost use Rattle.hph_src.specs.Files.{Files, coded_files, files_of};

    ghost Value = { Files };

    ghost coded = { coded_files };

    ghost view = { λ t. files_of t.files.entries };
}

impl MemTree {
    ghost use Rattle.hph_src.specs.Files.{files_of};

    /// The tree with these files, by their paths.
    pub fn new(files: BTreeMap<String, Vec<u8>>) -> MemTree
        ensures { result ≡ files_of files.entries }
    {
        MemTree { files }
    }
}

#[tactic(auto, using(crate::proofs::FileLemmas::file_rules))]
impl Tree for MemTree {
    ghost files = { λ t. Some t };

    ghost faults = { λ _. 0 };

    fn read(&mut self, path: &str, limit: u32, into: &mut Vec<u8>) -> ReadAnswer {
        let Some(bytes) = self.files.get(path) else {
            return ReadAnswer::Absent;
        };
        if bytes.len() > limit as usize {
            return ReadAnswer::TooLong;
        }
        match into.extend_from_slice(bytes) {
            Ok(()) => ReadAnswer::Found,
            Err(_) => ReadAnswer::NoMemory,
        }
    }
}

/// A sink in memory, which never fails. A contract sees the list of the bytes that it has taken.
#[derive(Debug, Drop)]
pub struct MemSink {
    bytes: Vec<u8>,
}

impl Model for MemSink {
    ghost use Rattle.std.specs.Prelude.{List, ℕ};

    ghost Value = { List ℕ };

    ghost view = { λ s. s.bytes.items };
}

impl MemSink {
    /// A sink that has taken nothing.
    pub fn new(alloc: Global) -> MemSink
        ensures { result ≡ [] }
    {
        MemSink {
            bytes: Vec::new(alloc),
        }
    }

    /// The bytes that the sink has taken.
    pub fn bytes(&self) -> &[u8]
        ensures { result.now ≡ self.now }
    {
        &self.bytes
    }
}

impl Sink for MemSink {
    ghost content = { λ s. Some s };

    ghost faults = { λ _. 0 };

    fn put(&mut self, piece: &[u8]) -> PutAnswer {
        match self.bytes.extend_from_slice(piece) {
            Ok(()) => PutAnswer::All,
            Err(_) => PutAnswer::NoMemory,
        }
    }
}
