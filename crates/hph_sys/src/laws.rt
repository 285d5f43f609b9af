//! What the definitions of this crate are worth. The functions do nothing: each is there for its contract.
ghost use Rattle.std.specs.Prelude.{◌≡◌, ℕ, List};
ghost use Rattle.hph_type.specs.Types.{PhpType};
ghost use Rattle.hph_type.specs.Classes.{Parents};
ghost use Rattle.hph_sys.specs.Shape.{Shape};
ghost use Rattle.hph_sys.specs.Least.{IsLeast};
ghost use Rattle.hph_sys.specs.Lawful.{Lawful};
ghost use Rattle.hph_sys.specs.Laws.{AskedIsLeast, MetByAsked, IsMeetOfSolutions};

/// What pairs ask of a cell is the least upper bound of their types for it.
pub fn asked_is_least()
    ensures { (classes : Parents) (pairs : List (ℕ × PhpType)) → AskedIsLeast classes pairs }
{}

/// A scope's pairs are met exactly where what it asks of each cell is below the cell's type.
pub fn met_by_asked()
    ensures { (sys : Shape) (typing : List PhpType) (scope : ℕ) → MetByAsked sys typing scope }
{}

/// The least typing is, cell by cell, the meet of all solutions, and a solution itself.
pub fn least_is_the_meet()
    ensures { (sys : Shape) (typing : List PhpType) → Lawful sys → IsLeast sys typing
        → IsMeetOfSolutions sys typing }
{}

/// A solution that is below every solution is the least typing.
pub fn lowest_solution_is_least()
    ensures { (sys : Shape) (typing : List PhpType) → IsMeetOfSolutions sys typing → IsLeast sys typing }
{}

/// There is one least typing.
pub fn least_is_one()
    ensures { (sys : Shape) (a b : List PhpType) → Lawful sys → IsLeast sys a → IsLeast sys b → a ≡ b }
{}

/// Every system has a least typing.
pub fn there_is_a_least()
    ensures { (sys : Shape) → Lawful sys → (least : List PhpType) × IsLeast sys least }
{}
