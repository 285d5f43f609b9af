//! Laws of the grammars and of nesting: contracts of functions that do nothing.

ghost use Rattle.std.specs.Prelude.{◌≡◌, ℕ, suc, max, Bool, List};
ghost use Rattle.hph_ast.specs.declared.token.At.{At};
ghost use Rattle.hph_ast.specs.declared.token.Token.{Token};
ghost use Rattle.hph_ast.specs.declared.operator.Binary.{Binary};
ghost use Rattle.hph_ast.specs.declared.operator.Prefix.{Prefix};
ghost use Rattle.hph_ast.specs.declared.operator.Assignment.{Assignment};
ghost use Rattle.hph_ast.specs.declared.expr.Update.{Update};
ghost use Rattle.hph_ast.specs.declared.expr.ArrayForm.{ArrayForm};
ghost use Rattle.hph_ast.specs.declared.expr.Expr.{Expr};
ghost use Rattle.hph_ast.specs.declared.expr.Expr.TheVariants as e;
ghost use Rattle.hph_ast.specs.declared.expr.ClassReference.{ClassReference};
ghost use Rattle.hph_ast.specs.declared.expr.ClassReference.TheVariants as c;
ghost use Rattle.hph_ast.specs.declared.expr.Item.{Item};
ghost use Rattle.hph_ast.specs.declared.expr.Item.TheVariants as item;
ghost use Rattle.hph_ast.specs.declared.expr.MemberName.{MemberName};
ghost use Rattle.hph_ast.specs.declared.expr.MemberName.TheVariants as member;
ghost use Rattle.hph_ast.specs.declared.expr.Step.{Step};
ghost use Rattle.hph_ast.specs.declared.expr.Step.TheVariants as s;
ghost use Rattle.hph_ast.specs.declared.expr.StringPart.{StringPart};
ghost use Rattle.hph_ast.specs.declared.expr.StringPart.TheVariants as part;
ghost use Rattle.hph_ast.specs.declared.stmt.Statement.{Statement};
ghost use Rattle.hph_ast.specs.Expressions.{IsExpression};
ghost use Rattle.hph_ast.specs.Statements.{IsStatement};
ghost use Rattle.hph_ast.specs.Fronts.{UsesFront};
ghost use Rattle.hph_ast.specs.Nesting.{greatest, nesting, class_nesting, item_nesting, member_nesting, step_nesting, part_nesting};

/// The tokens that spell an expression are a front of those that it is read from.
pub fn expression_uses_a_front()
    ensures { (level : ℕ) (tokens : List Token) (x : Expr) (rest : List Token) → IsExpression level tokens x rest → UsesFront tokens rest }
{}

/// The tokens that spell a statement are a front of those that it is read from.
pub fn statement_uses_a_front()
    ensures { (top : Bool) (tokens : List Token) (x : Statement) (rest : List Token) → IsStatement top tokens x rest → UsesFront tokens rest }
{}

/// How deep an expression is nested: one clause for each form.
pub fn nesting_of_expressions()
    ensures int { (at : At) (n : ℕ) → nesting (e.Int at n) ≡ 1 }
    ensures text { (at : At) (bytes : List ℕ) → nesting (e.Text at bytes) ≡ 1 }
    ensures interpolated { (at : At) (parts : List StringPart) → nesting (e.Interpolated at parts) ≡ suc (greatest part_nesting parts) }
    ensures variable { (at : At) (name : List ℕ) → nesting (e.Variable at name) ≡ 1 }
    ensures constant { (at : At) (name : List ℕ) → nesting (e.Constant at name) ≡ 1 }
    ensures directory { (at : At) → nesting (e.Directory at) ≡ 1 }
    ensures array { (at : At) (form : ArrayForm) (items : List Item) → nesting (e.Array at form items) ≡ suc (greatest item_nesting items) }
    ensures call { (at : At) (name : List ℕ) (xs : List Expr) → nesting (e.Call at name xs) ≡ suc (greatest nesting xs) }
    ensures dynamic_call { (at : At) (x : Expr) (xs : List Expr) → nesting (e.DynamicCall at x xs) ≡ suc (max (nesting x) (greatest nesting xs)) }
    ensures static_call { (at : At) (class : ClassReference) (name : MemberName) (xs : List Expr) → nesting (e.StaticCall at class name xs) ≡ suc (max (class_nesting class) (max (member_nesting name) (greatest nesting xs))) }
    ensures method_call { (at : At) (x : Expr) (name : MemberName) (xs : List Expr) → nesting (e.MethodCall at x name xs) ≡ suc (max (nesting x) (max (member_nesting name) (greatest nesting xs))) }
    ensures new { (at : At) (class : ClassReference) (xs : List Expr) → nesting (e.New at class xs) ≡ suc (max (class_nesting class) (greatest nesting xs)) }
    ensures class_constant { (at : At) (class : ClassReference) (name : List ℕ) → nesting (e.ClassConstant at class name) ≡ suc (class_nesting class) }
    ensures class_name { (at : At) (class : ClassReference) (colons : ℕ) → nesting (e.ClassName at class colons) ≡ suc (class_nesting class) }
    ensures static_property { (at : At) (class : ClassReference) (name : List ℕ) → nesting (e.StaticProperty at class name) ≡ suc (class_nesting class) }
    ensures paren { (at : At) (x : Expr) → nesting (e.Paren at x) ≡ suc (nesting x) }
    ensures isset { (at : At) (xs : List Expr) → nesting (e.Isset at xs) ≡ suc (greatest nesting xs) }
    ensures empty { (at : At) (x : Expr) → nesting (e.Empty at x) ≡ suc (nesting x) }
    ensures exit { (at : At) → nesting (e.Exit at) ≡ 1 }
    ensures exit_with { (at : At) (x : Expr) → nesting (e.ExitWith at x) ≡ suc (nesting x) }
    ensures path { (at : At) (x : Expr) (steps : List Step) → nesting (e.Path at x steps) ≡ suc (max (nesting x) (greatest step_nesting steps)) }
    ensures update { (at : At) (form : Update) (x : Expr) → nesting (e.Update at form x) ≡ suc (nesting x) }
    ensures prefix { (at : At) (op : Prefix) (x : Expr) → nesting (e.Prefix at op x) ≡ suc (nesting x) }
    ensures instance_of { (at : At) (x : Expr) (classes : List ClassReference) → nesting (e.InstanceOf at x classes) ≡ suc (max (nesting x) (greatest class_nesting classes)) }
    ensures run { (at : At) (x : Expr) (more : List (Binary × Expr)) → nesting (e.Run at x more) ≡ suc (max (nesting x) (greatest (λ o. nesting o.1) more)) }
    ensures pair { (at : At) (op : Binary) (x y : Expr) → nesting (e.Pair at op x y) ≡ suc (max (nesting x) (nesting y)) }
    ensures ternary { (at : At) (x y z : Expr) → nesting (e.Ternary at x y z) ≡ suc (max (nesting x) (max (nesting y) (nesting z))) }
    ensures short_ternary { (at : At) (x : Expr) (more : List Expr) → nesting (e.ShortTernary at x more) ≡ suc (max (nesting x) (greatest nesting more)) }
    ensures assign { (at : At) (op : Assignment) (x y : Expr) → nesting (e.Assign at op x y) ≡ suc (max (nesting x) (nesting y)) }
    ensures assign_reference { (at : At) (x y : Expr) (ampersand : ℕ) → nesting (e.AssignReference at x y ampersand) ≡ suc (max (nesting x) (nesting y)) }
    ensures destructure { (at : At) (items : List Item) (x : Expr) → nesting (e.Destructure at items x) ≡ suc (max (greatest item_nesting items) (nesting x)) }
    ensures named_argument { (at : At) (name : List ℕ) (x : Expr) → nesting (e.NamedArgument at name x) ≡ suc (nesting x) }
{}

/// How deep a class that an expression names is nested.
pub fn nesting_of_classes()
    ensures by_name { (at : At) (name : List ℕ) → class_nesting (c.ByName at name) ≡ 1 }
    ensures self_class { (at : At) → class_nesting (c.SelfClass at) ≡ 1 }
    ensures parent { (at : At) → class_nesting (c.Parent at) ≡ 1 }
    ensures static_class { (at : At) → class_nesting (c.Static at) ≡ 1 }
    ensures by_expression { (at : At) (x : Expr) → class_nesting (c.ByExpression at x) ≡ suc (nesting x) }
{}

/// How deep an element of an array is nested.
pub fn nesting_of_items()
    ensures plain { (at : At) (x : Expr) → item_nesting (item.Plain at x) ≡ suc (nesting x) }
    ensures keyed { (at : At) (x y : Expr) → item_nesting (item.Keyed at x y) ≡ suc (max (nesting x) (nesting y)) }
    ensures reference { (at : At) (x : Expr) → item_nesting (item.Reference at x) ≡ suc (nesting x) }
    ensures keyed_reference { (at : At) (x y : Expr) (ampersand : ℕ) → item_nesting (item.KeyedReference at x y ampersand) ≡ suc (max (nesting x) (nesting y)) }
    ensures hole { (at : At) → item_nesting (item.Hole at) ≡ 1 }
{}

/// What the names of members, steps and the pieces of strings add to the nodes that hold them.
pub fn nesting_of_parts()
    ensures named { (name : List ℕ) → member_nesting (member.Named name) ≡ 0 }
    ensures computed { (x : Expr) → member_nesting (member.Computed x) ≡ nesting x }
    ensures index { (at : At) (x : Expr) → step_nesting (s.Index at x) ≡ nesting x }
    ensures append { (at : At) → step_nesting (s.Append at) ≡ 0 }
    ensures property { (at : At) (name : MemberName) → step_nesting (s.Property at name) ≡ member_nesting name }
    ensures piece { (at : At) (bytes : List ℕ) → part_nesting (part.Piece at bytes) ≡ 0 }
    ensures interpolation { (x : Expr) → part_nesting (part.Interpolation x) ≡ nesting x }
{}
