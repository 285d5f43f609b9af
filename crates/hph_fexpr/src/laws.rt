//! Laws of the parser on lists of tokens: contracts of functions that do nothing.

ghost use Rattle.std.specs.Prelude.{◌≡◌, ◌≤◌, ℕ, Bool, List, Option, Some};
ghost use Rattle.hph_ast.specs.declared.token.At.{At};
ghost use Rattle.hph_ast.specs.declared.token.Token.{Token};
ghost use Rattle.hph_ast.specs.declared.token.Mark.TheVariants.{CloseBracket};
ghost use Rattle.hph_ast.specs.declared.expr.Expr.{Expr};
ghost use Rattle.hph_ast.specs.declared.expr.Item.{Item};
ghost use Rattle.hph_ast.specs.Levels.{top, Stops};
ghost use Rattle.hph_ast.specs.Nesting.{nesting, item_nesting, greatest};
ghost use Rattle.hph_ast.specs.Places.{on};
ghost use Rattle.hph_ast.specs.Shapes.{has_targets};
ghost use Rattle.hph_ast.specs.Expressions.{IsExpression, IsPostfix, IsPaths, IsTargets};
ghost use Rattle.hph_fexpr.specs.declared.form.Form.TheVariants.{Level, Postfix};
ghost use Rattle.hph_fexpr.specs.declared.elements.Elements.{Elements};
ghost use Rattle.hph_fexpr.specs.NestingLaws.{NestingLaws};
ghost use Rattle.hph_fexpr.specs.Endings.{Whole, Ends};
ghost use Rattle.hph_fexpr.specs.Lists.{paths};
ghost use Rattle.hph_fexpr.specs.Arrays.{elements};
ghost use Rattle.hph_fexpr.specs.Parser.{parse};
ghost use Rattle.hph_fexpr.specs.Public.{SpellsAt, expr_at};

use hph_ast::{
    expression_uses_a_front, nesting_of_classes, nesting_of_expressions, nesting_of_items,
    nesting_of_parts,
};

/// How deep nodes are nested, as the proofs take it.
fn nesting_laws()
    ensures { NestingLaws }
{
    nesting_of_expressions();
    nesting_of_classes();
    nesting_of_items();
    nesting_of_parts();
}

/// Tokens spell at most one expression of a level that does not go on, and it ends at one place.
pub fn one_expression()
    ensures { (level : ℕ) (tokens : List Token) (x y : Expr) (rest other : List Token) → level ≤ top → Whole level tokens x rest → Whole level tokens y other → (x ≡ y) × (rest ≡ other) }
{
    nesting_laws();
}

/// What the parser reads is in the grammar.
pub fn parser_is_sound()
    ensures level { (depth level : ℕ) (tokens : List Token) (x : Expr) (rest : List Token) → parse depth (Level level) tokens ≡ Some (x, rest) → Whole level tokens x rest }
    ensures postfix { (depth : ℕ) (tokens : List Token) (x : Expr) (rest : List Token) → parse depth Postfix tokens ≡ Some (x, rest) → IsPostfix tokens x rest }
{}

/// What is in the grammar, nested no deeper than the parser goes, is what it reads.
pub fn parser_is_complete()
    ensures level { (depth level : ℕ) (tokens : List Token) (x : Expr) (rest : List Token) → level ≤ top → Whole level tokens x rest → nesting x ≤ depth → parse depth (Level level) tokens ≡ Some (x, rest) }
    ensures postfix { (depth : ℕ) (tokens : List Token) (x : Expr) (rest : List Token) → IsPostfix tokens x rest → nesting x ≤ depth → Ends rest → parse depth Postfix tokens ≡ Some (x, rest) }
{
    nesting_laws();
}

/// Paths in parentheses, behind the one that opens, and the place of the one that closes.
pub fn paths_are_read()
    ensures sound { (depth : ℕ) (test : Expr → Bool) (tokens : List Token) (xs : List Expr) (last : At) (rest : List Token) → paths (parse depth) test tokens ≡ Some ((xs, last), rest) → (c : Token) × (last ≡ on c) × IsPaths test tokens xs c rest }
    ensures complete { (depth : ℕ) (test : Expr → Bool) (tokens : List Token) (xs : List Expr) (c : Token) (rest : List Token) → IsPaths test tokens xs c rest → greatest nesting xs ≤ depth → paths (parse depth) test tokens ≡ Some ((xs, on c), rest) }
{
    nesting_laws();
}

/// The elements and holes of a destructuring, behind the bracket that opens.
pub fn targets_are_read()
    ensures sound { (depth : ℕ) (tokens : List Token) (found : Elements) (rest : List Token) → elements (parse depth) CloseBracket tokens ≡ Some (found, rest) → (c : Token) × IsTargets tokens found.items c rest }
    ensures complete { (depth : ℕ) (tokens : List Token) (items : List Item) (c : Token) (rest : List Token) → IsTargets tokens items c rest → greatest item_nesting items ≤ depth → elements (parse depth) CloseBracket tokens ≡ Some (record { items = items; targets = has_targets items; close = on c }, rest) }
{
    nesting_laws();
}

/// What is read from a place on is what the tokens spell there.
pub fn expressions_are_read()
    ensures sound { (tokens : List Token) (at : ℕ) (x : Expr) (k : ℕ) → expr_at tokens at ≡ Some (x, k) → SpellsAt tokens at x k }
    ensures complete { (tokens : List Token) (at : ℕ) (x : Expr) (k : ℕ) → SpellsAt tokens at x k → expr_at tokens at ≡ Some (x, k) }
{
    nesting_laws();
    expression_uses_a_front();
}

/// Tokens from a place on spell at most one expression, and it ends at one place.
pub fn one_expression_at()
    ensures { (tokens : List Token) (at : ℕ) (x y : Expr) (k n : ℕ) → SpellsAt tokens at x k → SpellsAt tokens at y n → (x ≡ y) × (k ≡ n) }
{
    nesting_laws();
}
