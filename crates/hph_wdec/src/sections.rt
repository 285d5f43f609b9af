//! Sections (Core Specification 1.0, 5.5.2 and 5.5.3), and what those that were read gave.
ghost use Rattle.std.specs.Prelude.{◌≡◌, ℕ, [], length, IfOk, IfErr, OnOk};
ghost use Rattle.hph_wasm.specs.Unsupported.{Nowhere, AreSupported};
ghost use Rattle.hph_wread.specs.Reading.{Took, Fails};
ghost use Rattle.hph_wdec.specs.Next.{parts_read, kind_of, CustomContent, ContentOf, StopsSized, Gives, NextIs, Next, StopsNext};

use crate::code::{FuncCode, codes};
use crate::entries::content;
use crate::forms::{
    ExportForm, GlobalForm, ImportForm, MemoryForm, TableForm, TypeForm, TypeIndexForm,
};
use crate::kinds::{CUSTOM, START, SectionKind, section_kind};
use crate::segments::{ElementForm, SegmentForm};
use hph_wasm::{
    Element, Export, Feature, FuncType, Global, Import, Limits, Segment, types_are_read_in_one_way,
};
use hph_wread::{Fault, counted_bytes, first_byte};
use sqlite_items::Items;
use std::alloc;

/// What the sections of a module gave so far, and the number of the last one that isn't custom, or 0.
#[derive(Debug, Drop)]
pub struct Sections {
    pub types: Items<FuncType>,
    pub imports: Items<Import>,
    /// The number of each function's type.
    pub functions: Items<u32>,
    pub tables: Items<Limits>,
    pub memories: Items<Limits>,
    pub globals: Items<Global>,
    pub exports: Items<Export>,
    pub elements: Items<Element>,
    pub codes: Items<FuncCode>,
    pub segments: Items<Segment>,
    pub last: u8,
}

impl Sections {
    /// No sections.
    pub fn new(alloc: alloc::Global) -> Sections
        ensures { result ≡ record {
          types = [];
          imports = [];
          functions = [];
          tables = [];
          memories = [];
          globals = [];
          exports = [];
          elements = [];
          codes = [];
          segments = [];
          last = 0;
        } }
    {
        Sections {
            types: Items::new(alloc),
            imports: Items::new(alloc),
            functions: Items::new(alloc),
            tables: Items::new(alloc),
            memories: Items::new(alloc),
            globals: Items::new(alloc),
            exports: Items::new(alloc),
            elements: Items::new(alloc),
            codes: Items::new(alloc),
            segments: Items::new(alloc),
            last: 0,
        }
    }

    /// Adds the section at the head of the bytes, and gives what stands behind it. A section that isn't custom has to have a
    /// higher number than the one before it (5.5.15).
    pub fn add<'a>(&mut self, alloc: alloc::Global, bytes: &'a [u8]) -> Result<&'a [u8], Fault>
        ensures read { IfOk result (λ rest.
            Took (NextIs (parts_read self.old) self.old.last (parts_read self.new) self.new.last) bytes.now rest.now) }
        ensures supported { AreSupported (parts_read self.old) → OnOk result (AreSupported (parts_read self.new)) }
        ensures stopped { IfErr result (λ e.
            Fails (Next (parts_read self.old) self.old.last) (StopsNext (parts_read self.old) self.old.last) bytes.now e) }
    {
        let Some((number, behind)) = first_byte(bytes) else {
            return Err(Fault::Malformed(bytes.len()));
        };
        if number == CUSTOM {
            return custom(behind);
        }
        if number <= self.last {
            return Err(Fault::Malformed(bytes.len()));
        }
        if number == START {
            return Err(Fault::Unsupported(bytes.len(), Feature::Start));
        }
        let Some(kind) = section_kind(number) else {
            return Err(Fault::Malformed(bytes.len()));
        };
        let rest = self.add_content(alloc, kind, behind)?;
        self.last = number;
        Ok(rest)
    }

    /// Puts the content of a section of this kind in its place.
    fn add_content<'a>(
        &mut self,
        alloc: alloc::Global,
        kind: SectionKind,
        bytes: &'a [u8],
    ) -> Result<&'a [u8], Fault>
        ensures read { IfOk result (λ rest.
            Took (Gives (kind_of kind) (parts_read self.old) (parts_read self.new)) bytes.now rest.now) }
        ensures last { self.new.last ≡ self.old.last }
        ensures supported { AreSupported (parts_read self.old) → OnOk result (AreSupported (parts_read self.new)) }
        ensures stopped { IfErr result (λ e.
            Fails (ContentOf (kind_of kind) (parts_read self.old)) (StopsSized (kind_of kind) (parts_read self.old)) bytes.now e) }
    {
        match kind {
            SectionKind::Types => content::<TypeForm>(alloc, bytes, &mut self.types),
            SectionKind::Imports => content::<ImportForm>(alloc, bytes, &mut self.imports),
            SectionKind::Functions => content::<TypeIndexForm>(alloc, bytes, &mut self.functions),
            SectionKind::Tables => content::<TableForm>(alloc, bytes, &mut self.tables),
            SectionKind::Memories => content::<MemoryForm>(alloc, bytes, &mut self.memories),
            SectionKind::Globals => content::<GlobalForm>(alloc, bytes, &mut self.globals),
            SectionKind::Exports => content::<ExportForm>(alloc, bytes, &mut self.exports),
            SectionKind::Elements => content::<ElementForm>(alloc, bytes, &mut self.elements),
            SectionKind::Codes => codes(alloc, self.functions.len(), bytes, &mut self.codes),
            SectionKind::Segments => {
                if self.codes.len() != self.functions.len() {
                    return Err(Fault::Malformed(bytes.len()));
                }
                content::<SegmentForm>(alloc, bytes, &mut self.segments)
            }
        }
    }
}

/// What stands behind a custom section's content, which has to begin with a name (5.5.3).
fn custom(bytes: &[u8]) -> Result<&[u8], Fault>
    ensures read { IfOk result (λ rest. Took CustomContent bytes.now rest.now) }
    ensures stopped { IfErr result (λ e. Fails CustomContent Nowhere bytes.now e) }
{
    types_are_read_in_one_way();
    let (content, rest) = counted_bytes(bytes)?;
    match counted_bytes(content) {
        Ok((name, _)) => match str::from_utf8(name) {
            Ok(_) => Ok(rest),
            Err(_) => Err(Fault::Malformed(content.len() + rest.len())),
        },
        Err(Fault::Malformed(_)) => Err(Fault::Malformed(content.len() + rest.len())),
        Err(fault) => Err(fault),
    }
}
