//! Modules and their sections (Core Specification 1.0, 5.5).
ghost use Rattle.std.specs.Prelude.{◌≡◌, ◌<◌, ◌^◌, ◌++◌, length, IfOk, OnOk};
ghost use Rattle.std.specs.List.{AllByRecursion};
ghost use Rattle.hph_wasm.specs.ModuleGrammar.{SpellsModule};
ghost use Rattle.hph_wasm.specs.Spelling.{section_bytes, spelling, IsWritable};
ghost use Rattle.hph_wenc.specs.Sections.{section_number};

use crate::code::codes;
use crate::functions::type_indices;
use crate::laws::spellings_are_spelled;
use crate::put::{Put, put_bytes, put_vector};
use crate::tables::table_types;
use hph_wasm::Module;
use std::alloc::{AllocError, Global};

/// The sections that are written, with their numbers (5.5.2).
#[derive(Clone, Copy)]
enum SectionId {
    Types = 1,
    Imports = 2,
    Functions = 3,
    Tables = 4,
    Memories = 5,
    Globals = 6,
    Exports = 7,
    Elements = 9,
    Codes = 10,
    Segments = 11,
}

/// The magic number and the version that every module begins with (5.5.15).
const HEADER: [u8; 8] = [0x00, b'a', b's', b'm', 0x01, 0x00, 0x00, 0x00];

/// The bytes of a module: its shortest numbers, the longest runs of equal locals, and no empty
/// section (Core Specification 1.0, 5.5.15). The only error is that memory ran out.
pub fn write(alloc: Global, m: &Module) -> Result<Vec<u8>, AllocError>
    requires { IsWritable m.now }
    ensures shortest { IfOk result (λ bytes. bytes.items ≡ spelling m.now) }
    ensures spelled { IfOk result (λ bytes. SpellsModule bytes.items m.now) }
{
    spellings_are_spelled();
    let indices = type_indices(alloc, m.funcs.as_slice())?;
    let tables = table_types(alloc, m.tables.as_slice())?;
    let codes = codes(alloc, m.funcs.as_slice())?;
    let mut out = Vec::from_slice(alloc, &HEADER)?;
    put_section(alloc, &mut out, SectionId::Types, m.types.as_slice())?;
    put_section(alloc, &mut out, SectionId::Imports, m.imports.as_slice())?;
    put_section(alloc, &mut out, SectionId::Functions, &indices)?;
    put_section(alloc, &mut out, SectionId::Tables, &tables)?;
    put_section(alloc, &mut out, SectionId::Memories, m.memories.as_slice())?;
    put_section(alloc, &mut out, SectionId::Globals, m.globals.as_slice())?;
    put_section(alloc, &mut out, SectionId::Exports, m.exports.as_slice())?;
    put_section(alloc, &mut out, SectionId::Elements, m.elements.as_slice())?;
    put_section(alloc, &mut out, SectionId::Codes, &codes)?;
    put_section(alloc, &mut out, SectionId::Segments, m.segments.as_slice())?;
    Ok(out)
}

/// Adds a section, unless it has nothing.
fn put_section<T: Put>(
    alloc: Global,
    out: &mut Vec<u8>,
    id: SectionId,
    items: &[T],
) -> Result<(), AllocError>
    requires few { length items.now < 2 ^ 32 }
    requires short { length (section_bytes (section_number id) T.spelling items.now) < 2 ^ 32 }
    ensures put { OnOk result
        (out.new.items ≡ out.old.items ++ section_bytes (section_number id) T.spelling items.now) }
    ensures fit { OnOk result (AllByRecursion T.fits items.now) }
{
    if items.is_empty() {
        return Ok(());
    }
    let mut content = Vec::new(alloc);
    put_vector(&mut content, items)?;
    out.push(id as u8)?;
    put_bytes(out, &content)
}
