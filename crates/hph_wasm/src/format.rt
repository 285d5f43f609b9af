ghost use Rattle.std.specs.Prelude.{◌≡◌, ◌⊎◌, ◌<◌, ℕ, ◌-◌, ◌^◌, ℤ, pos, ◌+ℤ◌, ◌≤ℤ◌, ◌<ℤ◌, List, Some};
ghost use Rattle.hph_case.specs.Opcodes.{opcodes};
ghost use Rattle.hph_wasm.specs.Leb128.{Unsigned, Signed};
ghost use Rattle.hph_wasm.specs.Codes.{opcode, immediates, form, else_code, end_code};
ghost use Rattle.hph_wasm.specs.OpcodeTable.{tag_at, IsCode};
ghost use Rattle.hph_wasm.specs.ModuleGrammar.{SpellsModule};
ghost use Rattle.hph_wasm.specs.Unsupported.{IsSupported, IsUnsupported};

use crate::feature::Feature;
use crate::instr::Instr;
use crate::module::Module;

/// What LEB128 spells of so many bits lies in their range (Core Specification 1.0, 5.2.2).
pub fn numbers_in_range()
    ensures unsigned { (bits n : ℕ) (bytes : List ℕ) → Unsigned bits n bytes → n < 2 ^ bits }
    ensures signed_least { (bits : ℕ) (z : ℤ) (bytes : List ℕ) → Signed bits z bytes → pos 0 ≤ℤ (z +ℤ pos (2 ^ (bits - 1))) }
    ensures signed_greatest { (bits : ℕ) (z : ℤ) (bytes : List ℕ) → Signed bits z bytes → z <ℤ pos (2 ^ (bits - 1)) }
{}

/// Bytes spell at most one module (Core Specification 1.0, 5).
pub fn one_module()
    ensures { (bytes : List ℕ) (m n : Module) → SpellsModule bytes m → SpellsModule bytes n → m ≡ n }
{}

/// The opcodes of instructions, of `else` and of `end` are the codes of the table of opcodes, whose tags count the
/// immediates behind them, and instructions of one opcode differ in those alone (Core Specification 1.0, 5.4).
pub fn opcodes_are_the_tables()
    ensures tags { (i : Instr) → tag_at opcodes (opcode i) ≡ Some (immediates i) }
    ensures of_else { tag_at opcodes else_code ≡ Some 0 }
    ensures of_end { tag_at opcodes end_code ≡ Some 0 }
    ensures only { (code tag : ℕ) → tag_at opcodes code ≡ Some tag → IsCode code }
    ensures apart { (i j : Instr) → opcode i ≡ opcode j → form i ≡ form j }
{}

/// A feature that is left out is met at one offset of bytes at most, and at none where they spell a module that has
/// none (Core Specification 1.0, 5, less what `Feature` names).
pub fn one_unsupported_feature()
    ensures offset { (bytes : List ℕ) (n k : ℕ) (f g : Feature) → IsUnsupported bytes n f → IsUnsupported bytes k g → n ≡ k }
    ensures name { (bytes : List ℕ) (n k : ℕ) (f g : Feature) → IsUnsupported bytes n f → IsUnsupported bytes k g → f ≡ g }
    ensures supported { (bytes : List ℕ) (m : Module) (n : ℕ) (f : Feature) → SpellsModule bytes m → IsSupported m → ¬ IsUnsupported bytes n f }
{}

/// What is left out of a module that bytes spell is met in them: so bytes spell a module that has none of it, or meet
/// one at one offset, or are malformed.
pub fn unsupported_features_are_met()
    ensures { (bytes : List ℕ) (m : Module) → SpellsModule bytes m → IsSupported m ⊎ ((n : ℕ) × (f : Feature) × IsUnsupported bytes n f) }
{}
