ghost use Rattle.std.specs.Prelude.{◌≡◌, IfSome};
ghost use Rattle.hph_src.specs.Faults.{HasRisen};
ghost use Rattle.hph_src.specs.Files.{file_at};
ghost use Rattle.hph_drive.specs.Answers.{SaysOfFile, NamesFile, LeavesAlone, SaysOfPut};

use crate::Status;
use crate::fault::status_of;
use hph_ast::{LimitName, Refusal};
use hph_compile::compiled;
use hph_src::{PutAnswer, ReadAnswer, Sink, Tree};
use std::alloc::Global;

/// The most bytes that a source file may have.
const FILE_LIMIT: u32 = 1 << 20;

/// Writes the module of the file at `path` to `out`.
pub fn build<T: Tree, O: Sink>(alloc: Global, path: &str, tree: &mut T, out: &mut O) -> Status
    ensures says { IfSome (T.files tree.old) (λ files. SaysOfFile (file_at files path.now) (O.content out.old) (O.content out.new) result) }
    ensures names { NamesFile path.now result }
    ensures not_usage { result ≡ Status.Usage → ⊥ }
    ensures read_fault { result ≡ Status.ReadFault → HasRisen (T.faults tree.old) (T.faults tree.new) }
    ensures write_fault { result ≡ Status.WriteFault → HasRisen (O.faults out.old) (O.faults out.new) }
    ensures untouched { LeavesAlone (O.content out.old) (O.content out.new) result }
{
    let Ok(file) = String::from_str(alloc, path) else {
        return Status::NoMemory;
    };
    let mut source = Vec::new(alloc);
    match tree.read(path, FILE_LIMIT, &mut source) {
        ReadAnswer::Found => match compiled(alloc, &source) {
            Ok(bytes) => written(&bytes, out),
            Err(fault) => status_of(fault, file),
        },
        ReadAnswer::Absent => Status::Refused(Refusal::Missing { path: file }),
        ReadAnswer::TooLong => Status::Refused(Refusal::Limit {
            name: LimitName::FileBytes,
            file,
        }),
        ReadAnswer::Failed => Status::ReadFault,
        ReadAnswer::NoMemory => Status::NoMemory,
    }
}

/// Writes a module whole.
fn written<O: Sink>(bytes: &[u8], out: &mut O) -> Status
    ensures { SaysOfPut bytes.now (O.content out.old) (O.content out.new) (HasRisen (O.faults out.old) (O.faults out.new)) result }
{
    match out.put(bytes) {
        PutAnswer::All => Status::Built,
        PutAnswer::Failed => Status::WriteFault,
        PutAnswer::NoMemory => Status::NoMemory,
    }
}
