//! Laws of the runs of programs. Each is the contract of a function that does nothing, so that crates above can cite it.

ghost use Rattle.std.specs.Prelude.{◌≡◌, ◌≤◌, ℕ, []};
ghost use Rattle.hph_ast.specs.declared.expr.Expr.{Expr};
ghost use Rattle.hph_ast.specs.declared.stmt.Statement.{Statement};
ghost use Rattle.hph_ast.specs.declared.program.Program.{Program};
ghost use Rattle.hph_wasm.specs.Outcome.{More};
ghost use Rattle.hph_wasm.specs.Agrees.{IsRun};
ghost use Rattle.hph_wasm.specs.Run.{IsEntering};
ghost use Rattle.hph_php.specs.Declarations.{codes_of};
ghost use Rattle.hph_php.specs.World.{World, Context};
ghost use Rattle.hph_php.specs.Expressions.{evaluate};
ghost use Rattle.hph_php.specs.Executions.{execute};
ghost use Rattle.hph_php.specs.Run.{php, calls, meanings_of, world_at};
ghost use Rattle.hph_growth.specs.Growth.{Grows, WorldGrows};

/// With no unit a program prints nothing and calls nothing, and hasn't ended.
#[tactic(auto, using(crate::proofs::RunLaws::no_output, crate::proofs::RunLaws::no_calls))]
pub fn no_unit_gives_nothing()
    ensures output { (p : Program) → php p 0 ≡ record { output = []; end = More } }
    ensures called { (p : Program) → calls p 0 ≡ [] }
{}

/// A run that has ended stays the same with more units, and what is printed with some units is a prefix of what is printed with more.
#[tactic(auto, using(crate::proofs::RunLaws::php_is_run))]
pub fn runs_stay_and_grow()
    ensures { (p : Program) → IsRun (php p) }
{}

/// What is called with some units is a prefix of what is called with more, and all of it once the run has ended.
#[tactic(auto, using(crate::proofs::RunLaws::calls_are_calling))]
pub fn calls_stay_and_grow()
    ensures { (p : Program) → IsEntering (php p) (calls p) }
{}

/// What a program's world answers where calls, files and constants may nest so deep, it answers where they may nest deeper.
pub fn deeper_worlds_agree()
    ensures { (p : Program) (d e : ℕ) → d ≤ e → WorldGrows (world_at (meanings_of p.files (codes_of p)) d)
        (world_at (meanings_of p.files (codes_of p)) e) }
{}

/// An expression whose value or end has come has the same with more units, in a world that agrees.
#[tactic(auto, using(crate::proofs::RunLaws::expressions_grow))]
pub fn expressions_keep_answers()
    ensures { (w later : World) → WorldGrows w later → (context : Context) (x : Expr) →
        Grows (evaluate w context x) (evaluate later context x) }
{}

/// A statement that was left or whose end has come is left in the same way with more units, in a world that agrees.
#[tactic(auto, using(crate::proofs::RunLaws::statements_grow))]
pub fn statements_keep_answers()
    ensures { (w later : World) → WorldGrows w later → (context : Context) (x : Statement) →
        Grows (execute w context x) (execute later context x) }
{}
