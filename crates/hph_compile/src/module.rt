//! A file's module.
ghost use Rattle.std.specs.Prelude.{◌≤◌, IfOk, IfErr, length};
ghost use Rattle.hph_compile.specs.Headline.{CompilesTo};
ghost use Rattle.hph_compile.specs.Sources.{IsFaultOf, file_limit};

use crate::fault::SourceFault;
use hph_size::{texts_are_nodes, texts_are_short};
use std::alloc::Global;

/// The bytes of a file's module.
pub fn compiled(alloc: Global, source: &[u8]) -> Result<Vec<u8>, SourceFault>
    requires { length source.now ≤ file_limit }
    ensures compiled { IfOk result (λ bytes. CompilesTo source.now bytes.items) }
    ensures fault { IfErr result (IsFaultOf source.now) }
{
    texts_are_short();
    texts_are_nodes();
    let tree = hph_file::read(alloc, source)?;
    let texts = hph_text::texts(alloc, &tree)?;
    let module = hph_lowm::module(alloc, texts.as_slice())?;
    let bytes = hph_wenc::write(alloc, &module)?;
    Ok(bytes)
}
