ghost use Rattle.std.specs.Prelude.{◌≡◌, ◌⊎◌, map, string_bytes, None, IfSome};
ghost use Rattle.hph_src.specs.Faults.{HasRisen};
ghost use Rattle.hph_src.specs.Files.{file_at};
ghost use Rattle.hph_drive.specs.Words.{main_of};
ghost use Rattle.hph_drive.specs.Answers.{SaysOfFile, Succeeds, NamesFile, LeavesAlone, Reports};

use crate::Status;
use crate::build::build;
use crate::words::main_path;
use hph_file::one_tree;
use hph_src::{Gate, PutAnswer, Sink, Tree};
use std::alloc::Global;
use std::thread::Threads;

/// Does what the words ask for: `build MAIN` reads the file MAIN of `tree` and writes its module to `out`.
/// The answer's line goes to `err`.
pub fn hphpc<R: Threads + Sync, T: Tree, O: Sink, E: Sink, G: Gate + Sync>(
    _rt: &R,
    alloc: Global,
    words: &[String],
    tree: &mut T,
    out: &mut O,
    err: &mut E,
    _gate: &G,
) -> Status
    // Usage comes exactly where the words are wrong.
    ensures usage_only { result ≡ Status.Usage → main_of (map string_bytes words.now) ≡ None }
    ensures usage { main_of (map string_bytes words.now) ≡ None → (result ≡ Status.Usage) ⊎ (result ≡ Status.NoMemory) }

    // Where the tree tells its files, each answer says what holds of MAIN's file, and what was written.
    ensures says { IfSome (main_of (map string_bytes words.now)) (λ path. IfSome (T.files tree.old) (λ files.
        SaysOfFile (file_at files path) (O.content out.old) (O.content out.new) result)) }
    ensures succeeds { IfSome (main_of (map string_bytes words.now)) (λ path. IfSome (T.files tree.old) (λ files.
        Succeeds (file_at files path) (HasRisen (T.faults tree.old) (T.faults tree.new)) (HasRisen (O.faults out.old) (O.faults out.new)) result)) }
    ensures names { IfSome (main_of (map string_bytes words.now)) (λ path. NamesFile path result) }

    // A fault of reading or writing has its cause in this call.
    ensures read_fault { result ≡ Status.ReadFault → HasRisen (T.faults tree.old) (T.faults tree.new) }
    ensures write_fault { result ≡ Status.WriteFault → HasRisen (O.faults out.old) (O.faults out.new) }

    ensures untouched { LeavesAlone (O.content out.old) (O.content out.new) result }
    ensures reports { Reports (E.content err.old) (E.content err.new) (HasRisen (E.faults err.old) (E.faults err.new)) result }
{
    let status = answered(alloc, words, tree, out);
    reported(alloc, status, err)
}

/// The answer, before its line is written.
fn answered<T: Tree, O: Sink>(alloc: Global, words: &[String], tree: &mut T, out: &mut O) -> Status
    ensures usage_only { result ≡ Status.Usage → main_of (map string_bytes words.now) ≡ None }
    ensures usage { main_of (map string_bytes words.now) ≡ None → result ≡ Status.Usage }
    ensures says { IfSome (main_of (map string_bytes words.now)) (λ path. IfSome (T.files tree.old) (λ files.
        SaysOfFile (file_at files path) (O.content out.old) (O.content out.new) result)) }
    ensures succeeds { IfSome (main_of (map string_bytes words.now)) (λ path. IfSome (T.files tree.old) (λ files.
        Succeeds (file_at files path) (HasRisen (T.faults tree.old) (T.faults tree.new)) (HasRisen (O.faults out.old) (O.faults out.new)) result)) }
    ensures names { IfSome (main_of (map string_bytes words.now)) (λ path. NamesFile path result) }
    ensures read_fault { result ≡ Status.ReadFault → HasRisen (T.faults tree.old) (T.faults tree.new) }
    ensures write_fault { result ≡ Status.WriteFault → HasRisen (O.faults out.old) (O.faults out.new) }
    ensures untouched { LeavesAlone (O.content out.old) (O.content out.new) result }
{
    one_tree();
    match main_path(words) {
        Some(path) => build(alloc, path, tree, out),
        None => Status::Usage,
    }
}

/// Writes the answer's line. Only want of memory changes the answer, and a put that fails doesn't.
fn reported<E: Sink>(alloc: Global, status: Status, err: &mut E) -> Status
    ensures same { (result ≡ status) ⊎ (result ≡ Status.NoMemory) }
    ensures reports { Reports (E.content err.old) (E.content err.new) (HasRisen (E.faults err.old) (E.faults err.new)) result }
{
    let Ok(line) = status.line(alloc) else {
        return Status::NoMemory;
    };
    match err.put(line.as_str().as_bytes()) {
        PutAnswer::All => status,
        PutAnswer::Failed => status,
        PutAnswer::NoMemory => Status::NoMemory,
    }
}
