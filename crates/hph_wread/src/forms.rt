//! Instructions by their opcodes (Core Specification 1.0, 5.4).
ghost use Rattle.std.specs.Prelude.{◌≡◌, ℕ, MatchOption};
ghost use Rattle.hph_wasm.specs.Codes.{opcode};
ghost use Rattle.hph_wasm.specs.Unsupported.{left_out};
ghost use Rattle.hph_wasm.specs.declared.instr.Instr.{Instr};
ghost use Rattle.hph_wread.specs.Forms.{block_code, index_code, indexed, access_code, accessed, IsNumeric, IsBare, IsPlain};
ghost use Rattle.hph_wread.specs.declared.forms.BlockForm.{BlockForm};
ghost use Rattle.hph_wread.specs.declared.forms.IndexForm.{IndexForm};
ghost use Rattle.hph_wread.specs.declared.forms.AccessForm.{AccessForm};

use crate::opcodes::{
    binary_32, binary_64, comparison_32, comparison_64, load, narrow_load, narrow_store, store,
    unary_32, unary_64, zero_test,
};
use hph_wasm::{Feature, Instr, MemArg, NarrowLoad, NarrowStore, Sign, ValType};

/// An instruction that begins a block.
#[derive(Clone, Copy, Debug, PartialEq, Eq)]
pub enum BlockForm {
    Block,
    Loop,
    If,
}

/// An instruction whose one immediate is an index.
#[derive(Clone, Copy, Debug, PartialEq, Eq)]
pub enum IndexForm {
    Br,
    BrIf,
    Call,
    LocalGet,
    LocalSet,
    LocalTee,
    GlobalGet,
    GlobalSet,
}

/// An instruction whose immediates are a memory argument.
#[derive(Clone, Copy, Debug, PartialEq, Eq)]
pub enum AccessForm {
    Load(ValType),
    LoadNarrow(NarrowLoad),
    Store(ValType),
    StoreNarrow(NarrowStore),
}

/// The form of an opcode that begins a block.
pub fn block_form(code: u8) -> Option<BlockForm>
    ensures { MatchOption result (IsPlain code) (λ f. block_code f ≡ code) }
{
    match code {
        0x02 => Some(BlockForm::Block),
        0x03 => Some(BlockForm::Loop),
        0x04 => Some(BlockForm::If),
        _ => None,
    }
}

/// The form of an opcode that an index stands behind.
pub fn index_form(code: u8) -> Option<IndexForm>
    ensures { MatchOption result ((f : IndexForm) → ¬ (index_code f ≡ code)) (λ f. index_code f ≡ code) }
{
    match code {
        0x0C => Some(IndexForm::Br),
        0x0D => Some(IndexForm::BrIf),
        0x10 => Some(IndexForm::Call),
        0x20 => Some(IndexForm::LocalGet),
        0x21 => Some(IndexForm::LocalSet),
        0x22 => Some(IndexForm::LocalTee),
        0x23 => Some(IndexForm::GlobalGet),
        0x24 => Some(IndexForm::GlobalSet),
        _ => None,
    }
}

/// The instruction of this form and index.
pub fn with_index(form: IndexForm, index: u32) -> Instr
    ensures { result ≡ indexed form index }
{
    match form {
        IndexForm::Br => Instr::Br(index),
        IndexForm::BrIf => Instr::BrIf(index),
        IndexForm::Call => Instr::Call(index),
        IndexForm::LocalGet => Instr::LocalGet(index),
        IndexForm::LocalSet => Instr::LocalSet(index),
        IndexForm::LocalTee => Instr::LocalTee(index),
        IndexForm::GlobalGet => Instr::GlobalGet(index),
        IndexForm::GlobalSet => Instr::GlobalSet(index),
    }
}

/// The form of an opcode that a memory argument stands behind.
pub fn access_form(code: u8) -> Option<AccessForm>
    ensures { MatchOption result ((f : AccessForm) → ¬ (access_code f ≡ code)) (λ f. access_code f ≡ code) }
{
    if let Some(ty) = load(code) {
        return Some(AccessForm::Load(ty));
    }
    if let Some(part) = narrow_load(code) {
        return Some(AccessForm::LoadNarrow(part));
    }
    if let Some(ty) = store(code) {
        return Some(AccessForm::Store(ty));
    }
    let part = narrow_store(code)?;
    Some(AccessForm::StoreNarrow(part))
}

/// The instruction of this form and memory argument.
pub fn with_argument(form: AccessForm, at: MemArg) -> Instr
    ensures { result ≡ accessed form at }
{
    match form {
        AccessForm::Load(ty) => Instr::Load(ty, at),
        AccessForm::LoadNarrow(part) => Instr::LoadNarrow(part, at),
        AccessForm::Store(ty) => Instr::Store(ty, at),
        AccessForm::StoreNarrow(part) => Instr::StoreNarrow(part, at),
    }
}

/// The instruction of an opcode that nothing stands behind.
pub fn bare(code: u8) -> Option<Instr>
    ensures { MatchOption result ((i : Instr) → IsBare i → ¬ (opcode i ≡ code)) (λ i. IsBare i × (opcode i ≡ code)) }
{
    match code {
        0x00 => Some(Instr::Unreachable),
        0x01 => Some(Instr::Nop),
        0x0F => Some(Instr::Return),
        0x1A => Some(Instr::Drop),
        0x1B => Some(Instr::Select),
        0xA7 => Some(Instr::Wrap),
        0xAC => Some(Instr::Extend(Sign::Signed)),
        0xAD => Some(Instr::Extend(Sign::Unsigned)),
        _ => numeric(code),
    }
}

/// The operation on numbers of an opcode.
fn numeric(code: u8) -> Option<Instr>
    ensures { MatchOption result ((i : Instr) → IsNumeric i → ¬ (opcode i ≡ code)) (λ i. IsNumeric i × (opcode i ≡ code)) }
{
    if let Some(ty) = zero_test(code) {
        return Some(Instr::Eqz(ty));
    }
    if let Some(o) = comparison_32(code) {
        return Some(Instr::Compare(ValType::I32, o));
    }
    if let Some(o) = comparison_64(code) {
        return Some(Instr::Compare(ValType::I64, o));
    }
    if let Some(o) = unary_32(code) {
        return Some(Instr::Unary(ValType::I32, o));
    }
    if let Some(o) = unary_64(code) {
        return Some(Instr::Unary(ValType::I64, o));
    }
    if let Some(o) = binary_32(code) {
        return Some(Instr::Binary(ValType::I32, o));
    }
    let o = binary_64(code)?;
    Some(Instr::Binary(ValType::I64, o))
}

/// The feature that an opcode is one of, where it is left out.
pub fn left_out_feature(code: u8) -> Option<Feature>
    ensures { result ≡ left_out code }
{
    match code {
        0x3F => Some(Feature::MemorySize),
        0x40 => Some(Feature::MemoryGrow),
        0x2A | 0x38 | 0x43 | 0x5B..=0x60 | 0x8B..=0x98 => Some(Feature::F32),
        0xA8..=0xA9 | 0xAE..=0xAF | 0xB2..=0xB6 | 0xBC | 0xBE => Some(Feature::F32),
        0x2B | 0x39 | 0x44 | 0x61..=0x66 | 0x99..=0xA6 => Some(Feature::F64),
        0xAA..=0xAB | 0xB0..=0xB1 | 0xB7..=0xBB | 0xBD | 0xBF => Some(Feature::F64),
        _ => None,
    }
}
