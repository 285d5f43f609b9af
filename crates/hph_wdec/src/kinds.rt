//! The numbers of sections (Core Specification 1.0, 5.5.2).
ghost use Rattle.std.specs.Prelude.{◌≡◌, MatchOption};
ghost use Rattle.hph_wasm.specs.Unsupported.{Kind, number_of};
ghost use Rattle.hph_wdec.specs.Next.{kind_of};

/// A kind of sections that are neither custom nor left out.
#[derive(Clone, Copy, Debug, PartialEq, Eq)]
pub enum SectionKind {
    Types,
    Imports,
    Functions,
    Tables,
    Memories,
    Globals,
    Exports,
    Elements,
    Codes,
    Segments,
}

/// The number of custom sections.
pub const CUSTOM: u8 = 0;

/// The number of the start section, which is left out.
pub const START: u8 = 8;

/// The kind of the sections of this number.
pub fn section_kind(number: u8) -> Option<SectionKind>
    ensures { MatchOption result ((kind : Kind) → ¬ (number_of kind ≡ number)) (λ kind. number_of (kind_of kind) ≡ number) }
{
    match number {
        1 => Some(SectionKind::Types),
        2 => Some(SectionKind::Imports),
        3 => Some(SectionKind::Functions),
        4 => Some(SectionKind::Tables),
        5 => Some(SectionKind::Memories),
        6 => Some(SectionKind::Globals),
        7 => Some(SectionKind::Exports),
        9 => Some(SectionKind::Elements),
        10 => Some(SectionKind::Codes),
        11 => Some(SectionKind::Segments),
        _ => None,
    }
}
