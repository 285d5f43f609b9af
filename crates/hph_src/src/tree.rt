ghost use Rattle.std.specs.Prelude.{◌≡◌, ◌≤◌, ℕ, Option, IfSome};
ghost use Rattle.hph_src.specs.Faults.{HasRisen};
ghost use Rattle.hph_src.specs.Files.{Files, file_at};
ghost use Rattle.hph_src.specs.Tree.{Fills, Tells};

/// How a read of a file ended.
#[derive(Clone, Copy, Debug, PartialEq, Eq)]
pub enum ReadAnswer {
    /// The file's bytes were added to the buffer.
    Found,
    /// There is no file at the path.
    Absent,
    /// The file has more bytes than the limit.
    TooLong,
    /// The tree could not read the file, and has counted a fault.
    Failed,
    /// The buffer could not grow.
    NoMemory,
}

/// A tree of files, read by their paths.
pub trait Tree {
    /// What each file holds, where the tree tells its files.
    ghost files: { Self → Option Files };

    /// How many reads have failed.
    ghost faults: { Self → ℕ };

    /// Adds the bytes of the file at `path` to `into`, where there are at most `limit` of them. Any answer but `Found`
    /// leaves `into` as it was.
    fn read(&mut self, path: &str, limit: u32, into: &mut Vec<u8>) -> ReadAnswer
        ensures fills { Fills into.old.items into.new.items limit result }
        ensures told { IfSome (files self.old) (λ files.
            Tells (file_at files path.now) limit into.old.items into.new.items result) }
        ensures same { files self.new ≡ files self.old }
        ensures never_falls { faults self.old ≤ faults self.new }
        ensures cause { result ≡ ReadAnswer.Failed → HasRisen (faults self.old) (faults self.new) };
}
