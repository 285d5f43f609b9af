//! Lexing and parsing the files of a wave, side by side.
ghost use Rattle.std.specs.Prelude.{◌≡◌, IfErr, IfOk, List, MatchResult, string_bytes};
ghost use Rattle.std.specs.List.{AllZip};
ghost use Rattle.hph_file.specs.Answers.{IsFirst};
ghost use Rattle.hph_include.specs.Answers.{IsDueTo};
ghost use Rattle.hph_include.specs.Faults.{FirstOf};
ghost use Rattle.hph_include.specs.Waves.{IsFaultOf, IsFileOf, IsFrontOf, contents_of, paths_of};
ghost use Rattle.hph_include.specs.Refusals.{refusal_of};
ghost use Rattle.hph_include.specs.declared.source.Source.{Source};

use crate::fault::FrontFault;
use crate::source::Source;
use hph_ast::{File, Refusal, Spot};
use hph_file::{FileFault, front};
use rayon::prelude::*;
use sqlite_items::Items;
use std::alloc::{AllocError, Global};
use std::thread::Threads;

/// The files of sources, or the first fault of the first of them that has one.
pub fn parse_all<R: Threads + Sync>(
    rt: &R,
    alloc: Global,
    sources: &[Source],
) -> Result<Vec<File>, FrontFault>
    ensures files { IfOk result (λ files. AllZip IsFileOf sources.now files.items) }
    ensures faulty { IfErr result (IsDueTo ⊥ (FirstOf (paths_of sources.now) (contents_of sources.now))) }
{
    let fronts = fronts(rt, alloc, sources)?;
    all_or_first_fault(alloc, fronts)
}

/// The file of each source, or its first fault, from as many threads as there are processors.
fn fronts<R: Threads + Sync>(
    rt: &R,
    alloc: Global,
    sources: &[Source],
) -> Result<Vec<Result<File, FrontFault>>, AllocError>
    ensures { IfOk result (λ fronts. AllZip IsFrontOf sources.now fronts.items) }
{
    sources
        .par_iter()
        .with_min_len(1)
        .map(
            |source: &Source| -> Result<File, FrontFault>
                ensures { IsFrontOf source.now result }
            { front_of(alloc, source) },
        )
        .collect(rt, alloc)
}

/// All files; or the fault of the first that has one.
fn all_or_first_fault(
    alloc: Global,
    fronts: Vec<Result<File, FrontFault>>,
) -> Result<Vec<File>, FrontFault>
    ensures files { (sources : List Source) → AllZip IsFrontOf sources fronts.items → IfOk result (λ files. AllZip IsFileOf sources files.items) }
    ensures faulty { (sources : List Source) → AllZip IsFrontOf sources fronts.items → IfErr result (IsDueTo ⊥ (FirstOf (paths_of sources) (contents_of sources))) }
{
    let mut files = Vec::new(alloc);
    for front in fronts {
        files.push(front?)?;
    }
    Ok(files)
}

/// The file of a source, or its first fault.
fn front_of(alloc: Global, source: &Source) -> Result<File, FrontFault>
    ensures { IsFrontOf source.now result }
{
    let path = String::from_str(alloc, source.path.as_str())?;
    let bytes = Items::from_slice(alloc, source.bytes.as_slice())?;
    match front(alloc, source.bytes.as_slice()) {
        Ok(parsed) => Ok(File {
            path,
            bytes,
            tokens: parsed.tokens,
            tree: parsed.tree,
        }),
        Err(fault) => Err(refused(fault, path)),
    }
}

/// A fault of the file at a path.
fn refused(fault: FileFault, file: String) -> FrontFault
    ensures { result ≡ refusal_of fault file }
{
    let refusal = match fault {
        FileFault::Lex { kind, offset } => Refusal::Lex {
            kind,
            spot: Spot { file, offset },
        },
        FileFault::Construct { kind, offset } => Refusal::Construct {
            kind,
            spot: Spot { file, offset },
        },
        FileFault::TooDeep { offset } => Refusal::TooDeep {
            spot: Spot { file, offset },
        },
        FileFault::Syntax { offset } => Refusal::Syntax {
            spot: Spot { file, offset },
        },
        FileFault::NoMemory => return FrontFault::NoMemory,
    };
    FrontFault::Refused(refusal)
}
