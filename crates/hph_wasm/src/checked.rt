ghost use Rattle.std.specs.Prelude.{◌≡◌};
ghost use Rattle.hph_wasm.specs.ModuleValidity.{IsValid};
ghost use Rattle.hph_wasm.specs.ModuleGrammar.{IsShort};

use crate::module::Module;

/// A module that is valid (Core Specification 1.0, 3.4.10) and of which some spelling has fewer than 2^32 bytes.
#[derive(Debug, Drop)]
pub struct Checked {
    module: Module,
    ghost valid: { ∥ IsValid «module» ∥₁ },
    ghost short: { ∥ IsShort «module» ∥₁ },
}

impl Checked {
    /// The module, which has to be valid and short.
    pub fn new(checked: Module) -> Checked
        requires valid { IsValid checked }
        requires short { IsShort checked }
        ensures { result.«module» ≡ checked }
    {
        Checked { module: checked }
    }

    /// The module that was checked.
    pub fn module(&self) -> &Module
        ensures same { result.now ≡ self.now.«module» }
        ensures valid { ∥ IsValid result.now ∥₁ }
        ensures short { ∥ IsShort result.now ∥₁ }
    {
        &self.module
    }
}
