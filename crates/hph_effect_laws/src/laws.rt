ghost use Rattle.std.specs.Prelude.{◌≡◌, ℕ, List};
ghost use Rattle.hph_wasm.specs.declared.module.Module.{Module};
ghost use Rattle.hph_wasm.specs.Outcome.{Outcome};
ghost use Rattle.hph_wasm.specs.Run.{wasm, IsLinked, NeverTakesBack};
ghost use Rattle.hph_wasm.specs.Safety.{IsNeverStuck};
ghost use Rattle.hph_wasm.specs.ModuleValidity.{IsValid};
ghost use Rattle.hph_wasm.specs.Agrees.{IsRun, Follows, Agrees};
ghost use Rattle.hph_wasm.specs.HostAnswers.{ResultsFit, HaveOneType};
ghost use Rattle.hph_php.specs.Answers.{Stop};
ghost use Rattle.hph_effects.specs.Hosts.{HostStatus};
ghost use Rattle.hph_effects.specs.Effects.{php1};
ghost use Rattle.hph_effect_laws.specs.Below.{LeavesBelow};
ghost use Rattle.hph_effect_laws.specs.Laws.{TakesItsParams, IsImportedAsItself, CallsGoByRow, CountsArguments, StaysHalted, EndsHalted, GoesServing};

use hph_wasm::{AnyHost, both_directions, never_stuck, run_laws};

/// The host `php1` of hph_effects, before it has served a call.
#[derive(Clone, Copy, Debug)]
pub struct Php1;

impl AnyHost for Php1 {
    ghost use Rattle.std.specs.Prelude.{ℕ};
    ghost use Rattle.hph_php.specs.Answers.{Stop};
    ghost use Rattle.hph_effects.specs.Hosts.{HostStatus, Serving, empty_host};
    ghost use Rattle.hph_effects.specs.Effects.{php1};

    ghost State = { HostStatus };

    ghost Stop = { Stop };

    ghost meaning = { php1 };

    ghost state = { λ h. Serving empty_host };

    ghost faults = { λ h. 0 };
}

/// The effect of a row takes as many arguments, of the types, as the table of imports says.
#[tactic(auto, using(crate::proofs::Tables::takes_its_params))]
pub fn effects_take_their_parameters()
    ensures { TakesItsParams }
{}

/// A module imports a row by its name and type, under its number, and a call of that number is the row's.
#[tactic(auto, using(crate::proofs::Tables::is_imported_as_itself))]
pub fn rows_are_imported()
    ensures imported { IsImportedAsItself }
    ensures called { CallsGoByRow }
{}

/// A call with another number of arguments than its row takes is a wrong use.
#[tactic(auto, using(crate::proofs::Host::counts_arguments))]
pub fn calls_count_arguments()
    ensures { CountsArguments }
{}

/// What a row doesn't name stays as it is: the items of the operand stack, the holds and the frames below. Whatever lies there, the
/// reply is the same.
#[tactic(auto, using(crate::proofs::Host::leaves_below))]
pub fn calls_leave_what_lies_below()
    ensures { LeavesBelow }
{}

/// A host that has ended the run stays so; one that ends it has ended it with the same reason, and one that goes on serves.
#[tactic(auto, using(crate::proofs::Host::stays_halted))]
pub fn host_stays_halted()
    ensures stays { StaysHalted }
    ensures ends { EndsHalted }
    ensures goes { GoesServing }
{}

/// No call takes back what was printed.
#[tactic(auto, using(crate::proofs::Host::never_takes_back))]
pub fn host_never_takes_back()
    ensures { NeverTakesBack php1 }
{}

/// Each call gives just what the type of its row says, and a number is that of functions of one type.
#[tactic(auto, using(crate::proofs::Host::results_fit))]
pub fn host_keeps_its_types()
    ensures results { ResultsFit php1 }
    ensures types { HaveOneType php1 }
{}

/// On the host php1 a run that has ended stays so, and output only grows.
pub fn php1_runs()
    ensures { (state : HostStatus) (m : Module) → IsRun (wasm php1 state m) }
{
    host_never_takes_back();
    run_laws::<Php1>();
}

/// A module that follows a program on the host php1 does what the program does, and nothing else.
pub fn php1_both_directions()
    ensures { (state : HostStatus) (m : Module) (program : ℕ → Outcome Stop) (cost : ℕ → ℕ) →
        Follows program (wasm php1 state m) cost → Agrees program (wasm php1 state m) cost }
{
    php1_runs();
    both_directions::<Php1>();
}

/// On the host php1 there is always a rule to apply in a run of a valid module.
pub fn php1_never_stuck()
    ensures { (state : HostStatus) (m : Module) → IsValid m → IsLinked php1 m → IsNeverStuck php1 state m }
{
    host_keeps_its_types();
    never_stuck::<Php1>();
}
