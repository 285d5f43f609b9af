//! Modules (Core Specification 1.0, 5.5.15).
ghost use Rattle.std.specs.Prelude.{◌≡◌, ◌<◌, ◌≤◌, ◌^◌, ℕ, List, [], length, IfOk, IfErr};
ghost use Rattle.hph_wasm.specs.Grammar.{Exactly};
ghost use Rattle.hph_wasm.specs.ModuleGrammar.{SpellsModule, parts_of, header};
ghost use Rattle.hph_wasm.specs.Spelling.{IsWritable};
ghost use Rattle.hph_wasm.specs.Reading.{ReadSoFar};
ghost use Rattle.hph_wasm.specs.Unsupported.{IsSupported, IsUnsupported, IsMalformed, Nowhere};
ghost use Rattle.hph_wasm.specs.declared.feature.Feature.{Feature};
ghost use Rattle.hph_wasm.specs.declared.module.Module.{Module};
ghost use Rattle.hph_wread.specs.Reading.{Took, Fails};
ghost use Rattle.hph_wdec.specs.Answers.{IsFault, IsFaultLeaving, IsModule, IsFeatureAt, IsRefusal};
ghost use Rattle.hph_wdec.specs.Next.{parts_read};

use crate::functions::functions;
use crate::module_fault::ModuleFault;
use crate::sections::Sections;
use hph_wasm::{Module, one_module, one_unsupported_feature, sections_are_read_in_turn};
use hph_wenc::write;
use hph_wread::{Fault, fixed_byte};
use std::alloc::Global;

/// The magic number and the version that every module begins with.
const HEADER: [u8; 8] = [0x00, b'a', b's', b'm', 0x01, 0x00, 0x00, 0x00];

/// The module that the bytes spell, if nothing that is left out stands in them (5.5.15). Parts are read from the front, and the
/// first fault is told: something that is left out is met before what is wrong behind it. Takes time and memory for what is
/// spelled, each run of locals counted, and not for what sizes and counts promise.
pub fn read(alloc: Global, bytes: &[u8]) -> Result<Module, ModuleFault>
    requires short { length bytes.now < 2 ^ 32 }
    ensures spelled { IfOk result (λ m. SpellsModule bytes.now m) }
    ensures supported { IfOk result IsSupported }
    ensures fault { IfErr result (IsFault bytes.now) }
    // With enough memory no other answer is possible.
    ensures spells { (m : Module) → SpellsModule bytes.now m → IsSupported m → IsModule m result }
    ensures unsupported { (at : ℕ) (name : Feature) → IsUnsupported bytes.now at name → IsFeatureAt at name result }
    ensures malformed { IsMalformed bytes.now → IsRefusal result }
{
    one_module();
    one_unsupported_feature();
    match module(alloc, bytes) {
        Ok(m) => Ok(m),
        Err(fault) => Err(counted_from_the_front(bytes, fault)),
    }
}

/// A module that is written and read again: the module itself, unless memory runs out.
pub fn read_written(alloc: Global, m: &Module) -> Result<Module, ModuleFault>
    requires writable { IsWritable m.now }
    requires supported { IsSupported m.now }
    ensures { IsModule m.now result }
{
    let Ok(bytes) = write(alloc, m) else {
        return Err(ModuleFault::NoMemory);
    };
    read(alloc, &bytes)
}

/// The fault, with its place as an offset.
fn counted_from_the_front(bytes: &[u8], fault: Fault) -> ModuleFault
    requires short { length bytes.now < 2 ^ 32 }
    requires fault { IsFaultLeaving bytes.now fault }
    ensures { IsFault bytes.now result }
{
    match fault {
        Fault::Malformed(left) => ModuleFault::Malformed((bytes.len() - left) as u32),
        Fault::Unsupported(left, feature) => {
            ModuleFault::Unsupported((bytes.len() - left) as u32, feature)
        }
        Fault::NoMemory => ModuleFault::NoMemory,
    }
}

/// The module that the bytes spell.
fn module(alloc: Global, bytes: &[u8]) -> Result<Module, Fault>
    ensures spelled { IfOk result (λ m. SpellsModule bytes.now m) }
    ensures supported { IfOk result IsSupported }
    ensures fault { IfErr result (IsFaultLeaving bytes.now) }
{
    sections_are_read_in_turn();
    let sections = all_sections(alloc, bytes)?;
    if sections.codes.len() != sections.functions.len() {
        return Err(Fault::Malformed(0));
    }
    let funcs = functions(alloc, sections.functions, sections.codes)?;
    Ok(Module {
        types: sections.types,
        imports: sections.imports,
        funcs,
        tables: sections.tables,
        memories: sections.memories,
        globals: sections.globals,
        exports: sections.exports,
        elements: sections.elements,
        segments: sections.segments,
    })
}

/// What the sections give.
fn all_sections(alloc: Global, bytes: &[u8]) -> Result<Sections, Fault>
    ensures read { IfOk result (λ s. (sections : List (ℕ × List ℕ)) × ReadSoFar bytes.now (parts_read s) sections []) }
    ensures fault { IfErr result (IsFaultLeaving bytes.now) }
{
    sections_are_read_in_turn();
    let mut sections = Sections::new(alloc);
    let mut rest = behind_header(bytes)?;
    while !rest.is_empty() {
        rest = sections.add(alloc, rest)?;
    }
    Ok(sections)
}

/// What stands behind the magic number and the version.
fn behind_header(bytes: &[u8]) -> Result<&[u8], Fault>
    ensures read { IfOk result (λ rest. Took (Exactly header) bytes.now rest.now) }
    ensures stopped { IfErr result (λ e. Fails (Exactly header) Nowhere bytes.now e) }
{
    let mut rest = bytes;
    for byte in HEADER {
        rest = fixed_byte(rest, byte)?;
    }
    Ok(rest)
}
