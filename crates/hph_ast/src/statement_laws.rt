//! Laws of the nesting of statements and of what they declare: contracts of functions that do nothing.

ghost use Rattle.std.specs.Prelude.{◌≡◌, ℕ, suc, max, List, Option};
ghost use Rattle.hph_ast.specs.declared.token.At.{At};
ghost use Rattle.hph_ast.specs.declared.token.Identifier.{Identifier};
ghost use Rattle.hph_ast.specs.declared.expr.Expr.{Expr};
ghost use Rattle.hph_ast.specs.declared.function.DeclaredType.{DeclaredType};
ghost use Rattle.hph_ast.specs.declared.function.Function.{Function, out-Function};
ghost use Rattle.hph_ast.specs.declared.class.Class.{Class, out-Class};
ghost use Rattle.hph_ast.specs.declared.class.Modifiers.{Modifiers};
ghost use Rattle.hph_ast.specs.declared.class.ConstantItem.{ConstantItem};
ghost use Rattle.hph_ast.specs.declared.class.PropertyItem.{PropertyItem};
ghost use Rattle.hph_ast.specs.declared.class.Member.{Member};
ghost use Rattle.hph_ast.specs.declared.class.Member.TheVariants as member;
ghost use Rattle.hph_ast.specs.declared.stmt.Statement.{Statement};
ghost use Rattle.hph_ast.specs.declared.stmt.Statement.TheVariants as s;
ghost use Rattle.hph_ast.specs.declared.stmt.Case.{Case, out-Case};
ghost use Rattle.hph_ast.specs.declared.stmt.ElseIf.{ElseIf, out-ElseIf};
ghost use Rattle.hph_ast.specs.declared.stmt.ForeachTarget.{ForeachTarget};
ghost use Rattle.hph_ast.specs.declared.stmt.StaticVariable.{StaticVariable};
ghost use Rattle.hph_ast.specs.Nesting.{greatest, nesting};
ghost use Rattle.hph_ast.specs.StatementNesting.{maybe, type_nesting, param_nesting, target_nesting, member_nesting, statement_nesting, class_nesting, function_nesting, case_nesting, else_if_nesting};

/// How deep a statement is nested: one clause for each form.
pub fn nesting_of_statements()
    ensures empty { (at : At) → statement_nesting (s.Empty at) ≡ 1 }
    ensures inline_text { (at : At) (bytes : List ℕ) → statement_nesting (s.InlineText at bytes) ≡ 1 }
    ensures block { (at : At) (body : List Statement) → statement_nesting (s.Block at body) ≡ suc (greatest statement_nesting body) }
    ensures expression { (at : At) (x : Expr) → statement_nesting (s.Expression at x) ≡ suc (nesting x) }
    ensures function { (f : Function) → statement_nesting (s.Function f) ≡ function_nesting f }
    ensures class { (class : Class) → statement_nesting (s.Class class) ≡ class_nesting class }
    ensures if_statement { (at : At) (x : Expr) (body : Statement) (more : List ElseIf) (other : Option Statement) → statement_nesting (s.If at x body more other) ≡ suc (max (nesting x) (max (statement_nesting body) (max (greatest else_if_nesting more) (maybe statement_nesting other)))) }
    ensures while_loop { (at : At) (x : Expr) (body : Statement) → statement_nesting (s.While at x body) ≡ suc (max (nesting x) (statement_nesting body)) }
    ensures do_while_loop { (at : At) (body : Statement) (x : Expr) → statement_nesting (s.DoWhile at body x) ≡ suc (max (statement_nesting body) (nesting x)) }
    ensures for_loop { (at : At) (init test step : List Expr) (body : Statement) → statement_nesting (s.For at init test step body) ≡ suc (max (greatest nesting init) (max (greatest nesting test) (max (greatest nesting step) (statement_nesting body)))) }
    ensures foreach_loop { (at : At) (x : Expr) (key : Option Identifier) (value : ForeachTarget) (body : Statement) → statement_nesting (s.Foreach at x key value body) ≡ suc (max (nesting x) (max (target_nesting value) (statement_nesting body))) }
    ensures switch_statement { (at : At) (x : Expr) (cases : List Case) → statement_nesting (s.Switch at x cases) ≡ suc (max (nesting x) (greatest case_nesting cases)) }
    ensures break_statement { (at : At) (levels : Option ℕ) → statement_nesting (s.Break at levels) ≡ 1 }
    ensures continue_statement { (at : At) (levels : Option ℕ) → statement_nesting (s.Continue at levels) ≡ 1 }
    ensures return_statement { (at : At) (value : Option Expr) → statement_nesting (s.Return at value) ≡ suc (maybe nesting value) }
    ensures echo { (at : At) (values : List Expr) → statement_nesting (s.Echo at values) ≡ suc (greatest nesting values) }
    ensures global { (at : At) (names : List Identifier) → statement_nesting (s.Global at names) ≡ 1 }
    ensures static_variables { (at : At) (variables : List StaticVariable) → statement_nesting (s.Static at variables) ≡ suc (greatest (λ v. maybe nesting v.value) variables) }
    ensures unset { (at : At) (paths : List Expr) → statement_nesting (s.Unset at paths) ≡ suc (greatest nesting paths) }
    ensures constants { (at : At) (items : List ConstantItem) → statement_nesting (s.Const at items) ≡ suc (greatest (λ i. nesting i.value) items) }
{}

/// How deep a member of a class is nested.
pub fn nesting_of_members()
    ensures constants { (at : At) (mods : Modifiers) (items : List ConstantItem) → member_nesting (member.Constants at mods items) ≡ suc (greatest (λ i. nesting i.value) items) }
    ensures properties { (at : At) (mods : Modifiers) (ty : Option DeclaredType) (items : List PropertyItem) → member_nesting (member.Properties at mods ty items) ≡ suc (max (maybe type_nesting ty) (greatest (λ i. maybe nesting i.value) items)) }
    ensures method { (at : At) (mods : Modifiers) (f : Function) → member_nesting (member.Method at mods f) ≡ suc (function_nesting f) }
{}

/// How deep functions, classes, cases and branches are nested.
pub fn nesting_of_declarations()
    ensures function { (f : Function) → function_nesting f ≡ suc (max (greatest param_nesting (out-Function f).params) (max (maybe type_nesting (out-Function f).result) (greatest statement_nesting (out-Function f).body))) }
    ensures class { (class : Class) → class_nesting class ≡ suc (greatest member_nesting (out-Class class).members) }
    ensures case { (x : Case) → case_nesting x ≡ suc (max (maybe nesting (out-Case x).test) (greatest statement_nesting (out-Case x).body)) }
    ensures else_if { (x : ElseIf) → else_if_nesting x ≡ max (nesting (out-ElseIf x).test) (statement_nesting (out-ElseIf x).body) }
{}
