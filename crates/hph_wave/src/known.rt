//! Known paths, in the order of the files.
ghost use Rattle.std.specs.Prelude.{◌≡◌, ◌++◌, ◌∷◌, ℕ, List, [], length, map, slice_get, string_bytes, IfOk, OnOk};
ghost use Rattle.std.specs.Option.{option_map};
ghost use Rattle.hph_program.specs.Program.{files_limit};
ghost use Rattle.hph_wave.specs.Known.{known_after, spelled};

use indexmap::IndexSet;
use std::alloc::{AllocError, Global};
use std::marker::Model;

/// The most files that a program may have.
const FILES_LIMIT: usize = 4096;

/// The normalised paths of a program's files, each once, in the order of the files: those that were read, and behind them those
/// of the next wave. Contracts see their bytes.
#[derive(Drop)]
pub struct KnownPaths {
    paths: IndexSet<String>,
}

impl Model for KnownPaths {
    ghost use Rattle.std.specs.Prelude.{ℕ, List};
    ghost use Rattle.hph_wave.specs.Known.{spelled};

    ghost Value = { List (List ℕ) };

    ghost view = { λ k. spelled k.paths.keys };
}

impl KnownPaths {
    /// The path of the main file alone.
    pub fn new(alloc: Global, main: String) -> Result<KnownPaths, AllocError>
        ensures { IfOk result (λ known. known ≡ string_bytes main ∷ []) }
    {
        let mut paths = IndexSet::new(alloc);
        insert(&mut paths, main)?;
        Ok(KnownPaths { paths })
    }

    /// How many files there are.
    pub fn len(&self) -> usize
        ensures { result ≡ length self.now }
    {
        self.paths.len()
    }

    /// The paths, in order.
    pub fn as_slice(&self) -> &[String]
        ensures { spelled result.now ≡ self.now }
    {
        self.paths.as_slice()
    }

    /// The path of the first file past the limit of files, if there are so many.
    pub fn past_limit(&self) -> Option<&str>
        ensures { option_map (λ p. p.now) result ≡ slice_get self.now files_limit }
    {
        match self.paths.get_index(FILES_LIMIT) {
            Some(path) => Some(path.as_str()),
            None => None,
        }
    }

    /// Takes the paths that a file includes, in order of text: those that aren't known yet come behind the others, each once.
    /// Where memory runs out, some of them are left out.
    pub fn meet(&mut self, included: Vec<String>) -> Result<(), AllocError>
        ensures { (known met : List (List ℕ)) → self.old ≡ known_after known met → OnOk result (self.new ≡ known_after known (met ++ spelled included.items)) }
    {
        for path in included {
            insert(&mut self.paths, path)?;
        }
        Ok(())
    }
}

/// Puts a path behind others, unless it is among them.
fn insert(paths: &mut IndexSet<String>, path: String) -> Result<(), AllocError>
    ensures { (known met : List (List ℕ)) → spelled paths.old.keys ≡ known_after known met → OnOk result (spelled paths.new.keys ≡ known_after known (met ++ string_bytes path ∷ [])) }
{
    match paths.insert_full(path) {
        Ok(_) => Ok(()),
        Err(_) => Err(AllocError),
    }
}
