// Laws of the definitions in specs/. Each is the contract of a function that does nothing, so that crates above can cite it.
ghost use Rattle.std.specs.Prelude.{◌≡◌, ℕ, ◌+◌, List, []};
ghost use Rattle.hph_wasm.specs.declared.types.FuncType.{FuncType};
ghost use Rattle.hph_wasm.specs.declared.module.Func.{Func};
ghost use Rattle.hph_wasm.specs.declared.module.Module.{Module};
ghost use Rattle.hph_wasm.specs.Outcome.{Outcome};
ghost use Rattle.hph_wasm.specs.Configuration.{Host, Configuration};
ghost use Rattle.hph_wasm.specs.Reduction.{reduce};
ghost use Rattle.hph_wasm.specs.Blocks.{BlocksAddTwo, BlocksAreSequences, BlocksAreEntered, LoopsAddTwo, LoopsAreSequences, LoopsAreEntered, IfsAddTwo, IfsAreSequences, IfsAreEntered, EmptyLabelsAreLeft, EmptyFramesAreLeft, EmptyFramesEnd};
ghost use Rattle.hph_wasm.specs.Run.{wasm, invoked, IsEntering, IsLinked, HasOneObstacle, NeverTakesBack};
ghost use Rattle.hph_wasm.specs.Standing.{RunsStand, TrapsAreAtOpcodes, TrapsHaveOnePlace};
ghost use Rattle.hph_wasm.specs.Safety.{RunsFit, IsNeverStuck};
ghost use Rattle.hph_wasm.specs.ModuleValidity.{IsValid};
ghost use Rattle.hph_wasm.specs.Faults.{HasOneFault, HasOneFirst};
ghost use Rattle.hph_wasm.specs.Agrees.{IsRun, Follows, Agrees};
ghost use Rattle.hph_wasm.specs.Rewriting.{StepsAreRewritings, TrapsAreByRule, RewritesOneWay};
ghost use Rattle.hph_wasm.specs.Ending.{EndsLeaveValues, StopsAreReplies, StuckIsFinal};
ghost use Rattle.hph_wasm.specs.HostAnswers.{ResultsFit, PutsArePrinted};

use crate::host::AnyHost;

/// A block's opcodes and its validity, by the list of the instructions inside.
pub fn blocks_are_sequences()
    ensures size { BlocksAddTwo }
    ensures valid { BlocksAreSequences }
{}

/// A block's first reduction, by the list of the instructions inside.
pub fn blocks_are_entered<H: AnyHost>()
    ensures { (host : Host H.State H.Stop) (m : Module) → BlocksAreEntered host m }
{}

/// A loop's opcodes and its validity, by the list of the instructions inside.
pub fn loops_are_sequences()
    ensures size { LoopsAddTwo }
    ensures valid { LoopsAreSequences }
{}

/// A loop's first reduction, by the list of the instructions inside.
pub fn loops_are_entered<H: AnyHost>()
    ensures { (host : Host H.State H.Stop) (m : Module) → LoopsAreEntered host m }
{}

/// An `if`'s opcodes and its validity, by the lists of its branches.
pub fn ifs_are_sequences()
    ensures size { IfsAddTwo }
    ensures valid { IfsAreSequences }
{}

/// An `if`'s first reduction, by the lists of its branches.
pub fn ifs_are_entered<H: AnyHost>()
    ensures { (host : Host H.State H.Stop) (m : Module) → IfsAreEntered host m }
{}

/// A branch or a return that takes no values needs none, and leaves those that are there; a function that gives none ends with an
/// empty stack.
pub fn empty_labels_are_left<H: AnyHost>()
    ensures labels { (host : Host H.State H.Stop) (m : Module) → EmptyLabelsAreLeft host m }
    ensures frames { (host : Host H.State H.Stop) (m : Module) → EmptyFramesAreLeft host m }
    ensures frames_end { (host : Host H.State H.Stop) (m : Module) → EmptyFramesEnd host m }
{}

/// A body has at most one first fault, none where it is valid, and one where it is not; so has a module.
pub fn first_faults()
    ensures body { (m : Module) (ty : FuncType) (func : Func) → HasOneFault m ty func }
    ensures whole { (m : Module) → HasOneFirst m }
{}

/// Reductions are made in turn.
pub fn reductions_in_turn<H: AnyHost>()
    ensures { (host : Host H.State H.Stop) (m : Module) (i j : ℕ) (c : Configuration H.State H.Stop) →
        reduce host m (i + j) c ≡ reduce host m j (reduce host m i c) }
{}

/// On a host that never takes back output, a run that has ended stays so, and output only grows.
pub fn run_laws<H: AnyHost>()
    ensures { (host : Host H.State H.Stop) (state : H.State) (m : Module) →
        NeverTakesBack host → IsRun (wasm host state m) }
{}

/// No function that a run has entered is taken back, and none is entered once the run is over.
pub fn entered_laws<H: AnyHost>()
    ensures { (host : Host H.State H.Stop) (state : H.State) (m : Module) →
        IsEntering (wasm host state m) (invoked host state m) }
{}

/// A module whose runs follow a program's does what the program does, and nothing else.
pub fn both_directions<H: AnyHost>()
    ensures { (program runs : ℕ → Outcome H.Stop) (cost : ℕ → ℕ) →
        IsRun runs → Follows program runs cost → Agrees program runs cost }
{}

/// Each step between configurations that go on is one rewriting by a rule of the Core Specification 1.0 (4.4), and each trap is
/// by a rule.
pub fn steps_are_rewritings<H: AnyHost>()
    ensures rewritten { (host : Host H.State H.Stop) (m : Module) → StepsAreRewritings host m }
    ensures trapped { (host : Host H.State H.Stop) (m : Module) → TrapsAreByRule host m }
{}

/// At most one rule applies, in one place of what is rewritten.
pub fn one_rule_applies<H: AnyHost>()
    ensures { (host : Host H.State H.Stop) (m : Module) → RewritesOneWay host m }
{}

/// Where a run is over as main's end has it, one rewriting leads to values alone; and it ends otherwise only by a call of an
/// import that the host doesn't go on from (4.4.7).
pub fn ends_are_by_rule<H: AnyHost>()
    ensures left { (host : Host H.State H.Stop) (m : Module) → EndsLeaveValues host m }
    ensures stopped { (host : Host H.State H.Stop) (m : Module) → StopsAreReplies host m }
{}

/// Where a run is stuck, no rule rewrites what it is to the standard, and the instruction that is next traps by none.
pub fn stuck_runs_have_no_rule<H: AnyHost>()
    ensures { (host : Host H.State H.Stop) (m : Module) → StuckIsFinal host m }
{}

/// Wherever a run is, the instructions that are left of each of its functions are the end of that function's body, and a branch to
/// a label leads to what stands in the body before those.
pub fn runs_stand<H: AnyHost>()
    ensures { (host : Host H.State H.Stop) (m : Module) → RunsStand host m }
{}

/// Where a run has trapped, the place that is seen is the function that runs and how many opcodes of its body stand before the
/// instruction's; that and what is left make up the body, so there is one such place.
pub fn traps_are_at_opcodes<H: AnyHost>()
    ensures placed { (host : Host H.State H.Stop) (m : Module) → TrapsAreAtOpcodes host m }
    ensures one_place { (host : Host H.State H.Stop) (m : Module) → TrapsHaveOnePlace host m }
{}

/// One obstacle at most is the first that keeps a module from running, and none does where it is linked and its segments fit.
pub fn one_obstacle_is_first<H: AnyHost>()
    ensures { (host : Host H.State H.Stop) (m : Module) → HasOneObstacle host m }
{}

/// A host over a sink can keep what it has printed, also where the sink doesn't tell its content.
pub fn puts_are_printed()
    ensures { PutsArePrinted }
{}

/// In a run of a valid module each configuration has values of the types that its instructions, labels and callers need, on a host
/// whose results fit and that has what is imported.
pub fn runs_fit<H: AnyHost>()
    ensures { (host : Host H.State H.Stop) (state : H.State) (m : Module) →
        IsValid m → IsLinked host m → ResultsFit host → RunsFit host state m }
{}

/// In a run of a valid module there is always a rule to apply, on a host whose results fit and that has what it imports.
pub fn never_stuck<H: AnyHost>()
    ensures { (host : Host H.State H.Stop) (state : H.State) (m : Module) →
        IsValid m → IsLinked host m → ResultsFit host → IsNeverStuck host state m }
{}
