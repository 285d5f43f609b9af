//! What holds of the bytes of every module. The function does nothing: it is there for its contract.
ghost use Rattle.hph_wasm.specs.ModuleGrammar.{SpellsModule};
ghost use Rattle.hph_wasm.specs.Spelling.{spelling, IsWritable};
ghost use Rattle.hph_wasm.specs.declared.module.Module.{Module};
ghost use Rattle.hph_wenc.specs.Fits.{ModuleFits};

use hph_leb::{i32_bytes_are_shortest, i64_bytes_are_shortest, u32_bytes_are_shortest};

/// The spelling of a module is one that the binary format allows, where the module can be written and
/// its numbers and names are in their ranges, as those of a `Module` value are (Core Specification 1.0, 5).
pub fn spellings_are_spelled()
    ensures { (m : Module) → IsWritable m → ModuleFits m → SpellsModule (spelling m) m }
{
    u32_bytes_are_shortest();
    i32_bytes_are_shortest();
    i64_bytes_are_shortest();
}
