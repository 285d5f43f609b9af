ghost use Rattle.std.specs.Prelude.{◌≡◌, ◌+◌, ◌≤◌, ◌<◌, ◌↔◌, Some, [], Contains, length};
ghost use Rattle.hph_src.specs.Faults.{HasRisen};
ghost use Rattle.hph_src.specs.Files.{file_at};
ghost use Rattle.hph_src.specs.Script.{after_read, after_put};
ghost use Rattle.hph_src.specs.Sink.{Grows};
ghost use Rattle.hph_src.specs.Tree.{Fills, Tells};

use crate::{MemTree, PutAnswer, ReadAnswer, Sink, Tree};
use std::alloc::Global;
use std::marker::Model;

/// A tree in memory that fails at certain calls of `read`. A contract sees its script.
#[derive(Debug, Drop)]
pub struct ScriptTree {
    tree: MemTree,
    failing: Vec<u64>,
    calls: u64,
    faults: u64,
}

impl Model for ScriptTree {
    ghost use Rattle.hph_src.specs.Script.{ReadScript, coded_read_script};

    ghost Value = { ReadScript };

    ghost coded = { coded_read_script };

    ghost view = { λ t. record { files = t.tree; failing = t.failing.items; calls = t.calls; faults = t.faults } };
}

impl ScriptTree {
    /// The tree whose calls of `read` with these numbers fail. Calls are numbered from 0.
    pub fn new(tree: MemTree, failing: Vec<u64>) -> ScriptTree
        ensures { result ≡ record { files = tree; failing = failing.items; calls = 0; faults = 0 } }
    {
        ScriptTree {
            tree,
            failing,
            calls: 0,
            faults: 0,
        }
    }
}

impl Tree for ScriptTree {
    ghost files = { λ t. Some t.files };

    ghost faults = { λ t. t.faults };

    fn read(&mut self, path: &str, limit: u32, into: &mut Vec<u8>) -> ReadAnswer
        ensures fills { Fills into.old.items into.new.items limit result }
        ensures told { Tells (file_at self.old.files path.now) limit into.old.items into.new.items result }
        ensures same { self.new.files ≡ self.old.files }
        ensures never_falls { self.old.faults ≤ self.new.faults }
        ensures cause { result ≡ ReadAnswer.Failed → HasRisen self.old.faults self.new.faults }

        ensures exact { (result ≡ ReadAnswer.Failed) ↔ Contains self.old.failing self.old.calls }
        ensures after { self.new ≡ after_read self.old result }
    {
        let call = self.calls;
        self.calls = call.saturating_add(1);
        if self.failing.contains(&call) {
            self.faults = self.faults.saturating_add(1);
            return ReadAnswer::Failed;
        }
        self.tree.read(path, limit, into)
    }
}

/// A sink in memory that takes so many bytes in all: of a piece that would pass them it takes what fits, and fails.
/// A contract sees its script.
#[derive(Debug, Drop)]
pub struct ScriptSink {
    bytes: Vec<u8>,
    limit: u64,
    faults: u64,
}

impl Model for ScriptSink {
    ghost use Rattle.std.specs.Prelude.{◌≤◌, vec_len};
    ghost use Rattle.hph_src.specs.Script.{PutScript};

    ghost Value = { PutScript };

    ghost view = { λ s. record { content = s.bytes.items; limit = s.limit; faults = s.faults } };

    ghost invariant = { λ s. vec_len s.bytes ≤ s.limit };
}

impl ScriptSink {
    /// A sink that has taken nothing, and takes `limit` bytes in all.
    pub fn new(alloc: Global, limit: u64) -> ScriptSink
        ensures { result ≡ record { content = []; limit = limit; faults = 0 } }
    {
        ScriptSink {
            bytes: Vec::new(alloc),
            limit,
            faults: 0,
        }
    }

    /// The bytes that the sink has taken.
    pub fn bytes(&self) -> &[u8]
        ensures { result.now ≡ self.now.content }
    {
        &self.bytes
    }
}

impl Sink for ScriptSink {
    ghost content = { λ s. Some s.content };

    ghost faults = { λ s. s.faults };

    fn put(&mut self, piece: &[u8]) -> PutAnswer
        ensures grown { Grows (Some self.old.content) (Some self.new.content) piece.now result }
        ensures never_falls { self.old.faults ≤ self.new.faults }
        ensures cause { result ≡ PutAnswer.Failed → HasRisen self.old.faults self.new.faults }

        ensures fits { result ≡ PutAnswer.All → length self.old.content + length piece.now ≤ self.old.limit }
        ensures full { result ≡ PutAnswer.Failed → self.old.limit < length self.old.content + length piece.now }
        ensures after { self.new ≡ after_put self.old piece.now result }
    {
        let room = self.limit - self.bytes.len() as u64;
        let taken = piece.len().min(room as usize);
        if self.bytes.extend_from_slice(&piece[..taken]).is_err() {
            return PutAnswer::NoMemory;
        }
        if taken < piece.len() {
            self.faults = self.faults.saturating_add(1);
            return PutAnswer::Failed;
        }
        PutAnswer::All
    }
}
