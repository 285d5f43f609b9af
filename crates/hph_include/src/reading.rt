//! Reading the files of a wave.
ghost use Rattle.std.specs.Prelude.{◌≡◌, ◌≤◌, ◌<◌, ◌+◌, ◌∷◌, [], IfErr, IfOk, IfSome, MatchResult, length, map, string_bytes};
ghost use Rattle.hph_program.specs.Program.{all_bytes_limit, file_bytes_limit};
ghost use Rattle.hph_src.specs.Faults.{HasRisen};
ghost use Rattle.hph_wave.specs.Known.{spelled};
ghost use Rattle.hph_include.specs.Answers.{IsDueTo};
ghost use Rattle.hph_include.specs.Faults.{AreRead, Stops};
ghost use Rattle.hph_include.specs.Reading.{IsRead, total_of};
ghost use Rattle.hph_include.specs.Waves.{contents_of, paths_of};

use crate::fault::FrontFault;
use crate::source::Source;
use hph_ast::{LimitName, Refusal};
use hph_src::{ReadAnswer, Tree};
use sqlite_items::Items;
use std::alloc::Global;

/// The most bytes that a file may have.
const FILE_BYTES_LIMIT: u32 = 1048576;

/// The most bytes that all files together may have.
pub const ALL_BYTES_LIMIT: usize = 4194304;

/// The files at some paths, read in order up to the first fault. `bytes` counts the bytes of all files so far.
pub fn read_all<T: Tree>(
    alloc: Global,
    tree: &mut T,
    paths: &[String],
    bytes: &mut usize,
) -> Result<Vec<Source>, FrontFault>
    requires { bytes.old ≤ all_bytes_limit }
    ensures paths { IfOk result (λ sources. paths_of sources.items ≡ spelled paths.now) }
    ensures counted { IfOk result (λ sources. bytes.new ≡ bytes.old + total_of sources.items) }
    ensures short { bytes.new ≤ all_bytes_limit }
    ensures read { IfSome (T.files tree.old) (λ files. IfOk result (λ sources. AreRead files bytes.old (spelled paths.now) (contents_of sources.items))) }
    ensures stops { IfErr result (IsDueTo (HasRisen (T.faults tree.old) (T.faults tree.new))
        (λ fault. IfSome (T.files tree.old) (λ files. Stops files bytes.old (spelled paths.now) fault))) }
    ensures same { T.files tree.new ≡ T.files tree.old }
    ensures never_falls { T.faults tree.old ≤ T.faults tree.new }
{
    let mut sources = Vec::new(alloc);
    for path in paths {
        let source = read_one(alloc, tree, path.as_str(), bytes)?;
        sources.push(source)?;
    }
    Ok(sources)
}

/// The file at a path; or why it isn't read.
fn read_one<T: Tree>(
    alloc: Global,
    tree: &mut T,
    path: &str,
    bytes: &mut usize,
) -> Result<Source, FrontFault>
    requires { bytes.old ≤ all_bytes_limit }
    ensures path { IfOk result (λ source. string_bytes source.path ≡ path.now) }
    ensures counted { IfOk result (λ source. bytes.new ≡ bytes.old + length source.bytes) }
    ensures short { bytes.new ≤ all_bytes_limit }
    ensures read { IfSome (T.files tree.old) (λ files. IfOk result (λ source. IsRead files bytes.old path.now source)) }
    ensures stops { IfErr result (IsDueTo (HasRisen (T.faults tree.old) (T.faults tree.new))
        (λ fault. IfSome (T.files tree.old) (λ files. Stops files bytes.old (path.now ∷ []) fault))) }
    ensures same { T.files tree.new ≡ T.files tree.old }
    ensures never_falls { T.faults tree.old ≤ T.faults tree.new }
{
    let path = String::from_str(alloc, path)?;
    let mut content = Vec::new(alloc);
    match tree.read(path.as_str(), FILE_BYTES_LIMIT, &mut content) {
        ReadAnswer::Found => counted(path, content, bytes),
        ReadAnswer::Absent => Err(FrontFault::Refused(Refusal::Missing { path })),
        ReadAnswer::TooLong => Err(past_limit(LimitName::FileBytes, path)),
        ReadAnswer::Failed => Err(FrontFault::ReadFault),
        ReadAnswer::NoMemory => Err(FrontFault::NoMemory),
    }
}

/// A file with this content, where all files so far aren't too long together.
fn counted(path: String, content: Vec<u8>, bytes: &mut usize) -> Result<Source, FrontFault>
    requires short { length content.items ≤ file_bytes_limit }
    requires within { bytes.old ≤ all_bytes_limit }
    ensures source { IfOk result (λ source. (source.path ≡ path) × (source.bytes ≡ content.items)) }
    ensures counted { IfOk result (λ source. (bytes.new ≡ bytes.old + length content.items) × (bytes.new ≤ all_bytes_limit)) }
    ensures stays { IfErr result (λ fault. bytes.new ≡ bytes.old) }
    ensures past { IfErr result (λ fault. (fault ≡ FrontFault.Refused (Refusal.Limit LimitName.AllBytes path)) × (all_bytes_limit < bytes.old + length content.items)) }
{
    if content.len() > ALL_BYTES_LIMIT - *bytes {
        return Err(past_limit(LimitName::AllBytes, path));
    }
    *bytes += content.len();
    Ok(Source {
        path,
        bytes: Items::from_vec(content),
    })
}

/// A limit that is passed at a file.
fn past_limit(name: LimitName, file: String) -> FrontFault
    ensures { result ≡ FrontFault.Refused (Refusal.Limit name file) }
{
    FrontFault::Refused(Refusal::Limit { name, file })
}
