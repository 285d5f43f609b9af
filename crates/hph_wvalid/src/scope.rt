//! What stands around an instruction (Core Specification 1.0, 3.1.1).
ghost use Rattle.std.specs.Prelude.{◌≡◌, slice_get};
ghost use Rattle.std.specs.Option.{option_copied};
ghost use Rattle.hph_wvalid.specs.Spaces.{context_of};

use crate::spaces::Spaces;
use hph_wasm::{Func, FuncType, Module, ValType};
use sqlite_items::Items;

/// What stands around an instruction: the module, the function whose code it is in, and what a branch to each label takes, the
/// last type first.
#[derive(Drop)]
pub struct Scope<'a> {
    pub module: &'a Module,
    pub spaces: &'a Spaces,
    pub ty: &'a FuncType,
    pub func: &'a Func,
    /// The innermost label is the last one.
    pub labels: Items<Items<ValType>>,
}

impl<'a> Scope<'a> {
    /// The type of the local, of which the parameters are the first; none where there is no such local.
    #[tactic(auto, using(crate::proofs::Labels::local_within, crate::proofs::Labels::local_behind))]
    pub fn local(&self, local: u32) -> Option<ValType>
        ensures { result ≡ slice_get (context_of self.now).locals local }
    {
        let params = self.ty.params.len();
        let number = local as usize;
        if number < params {
            self.ty.params.get(number).copied()
        } else {
            self.func.locals.get((number - params) as u32)
        }
    }

    /// What a branch to the label takes, of which the innermost is 0; none where there is no such label.
    #[tactic(auto, using(crate::proofs::Labels::label_within, crate::proofs::Labels::label_past))]
    pub fn label(&self, label: u32) -> Option<&Items<ValType>>
        ensures { option_copied result ≡ slice_get (context_of self.now).labels label }
    {
        let labels = self.labels.len();
        let number = label as usize;
        if number < labels {
            self.labels.get(labels - 1 - number)
        } else {
            None
        }
    }
}
