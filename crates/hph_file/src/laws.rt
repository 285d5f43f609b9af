//! What holds of every file: contracts of functions that do nothing.
ghost use Rattle.std.specs.Prelude.{◌≡◌, ℕ, List, Some, None};
ghost use Rattle.hph_ast.specs.declared.program.FileTree.{FileTree};
ghost use Rattle.hph_ast.specs.Faults.{FileFault, FirstFault};
ghost use Rattle.hph_file.specs.Answers.{IsRead, SameFault};

use hph_fstmt::one_file;
use hph_lex::one_reading;

/// A file has one tree at most, and then no fault.
pub fn one_tree()
    ensures tree { (bytes : List ℕ) (x y : FileTree) → IsRead bytes x → IsRead bytes y → x ≡ y }
    ensures no_fault { (bytes : List ℕ) (tree : FileTree) (fault : FileFault) → IsRead bytes tree → FirstFault bytes (Some fault) → ⊥ }
{
    one_reading();
    one_file();
}

/// A file has one first fault at most.
pub fn one_first_fault()
    ensures { (bytes : List ℕ) (x y : FileFault) → FirstFault bytes (Some x) → FirstFault bytes (Some y) → SameFault x y }
{
    one_reading();
    one_file();
}
