//! Each law is the contract of a function that does nothing, so that crates above can cite it.

ghost use Rattle.hph_wasm.specs.declared.types.FuncType.{FuncType};
ghost use Rattle.hph_wasm.specs.declared.module.Func.{Func};
ghost use Rattle.hph_wasm.specs.declared.module.Module.{Module};
ghost use Rattle.hph_wasm.specs.Configuration.{Host};
ghost use Rattle.hph_wvalid_laws.specs.Decided.{OutsideIsDecided, BodyIsDecided, ModuleIsDecided, ReadinessIsDecided};

use hph_wasm::AnyHost;

/// What stands outside code is valid, or isn't: types, imports, functions' types, tables, memories, globals, exports and segments.
pub fn outside_code_is_decided()
    ensures { (m : Module) → OutsideIsDecided m }
{}

/// A body is valid, or has a first fault.
pub fn invalid_bodies_have_a_first_fault()
    ensures { (m : Module) (ty : FuncType) (func : Func) → BodyIsDecided m ty func }
{}

/// A module is valid, or has a first fault: outside code, or in the first body that isn't valid.
pub fn invalid_modules_have_a_first_fault()
    ensures { (m : Module) → ModuleIsDecided m }
{}

/// A module runs on a host, or has a first obstacle: the first import that the host doesn't have, then a missing `main`, then the
/// first segment that doesn't fit.
pub fn modules_run_or_have_a_first_obstacle<H: AnyHost>()
    ensures { (host : Host H.State H.Stop) (m : Module) → ReadinessIsDecided host m }
{}
