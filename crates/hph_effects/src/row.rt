ghost use Rattle.std.specs.Prelude.{◌≡◌, IfSome, Some};
ghost use Rattle.std.specs.Option.{option_map};
ghost use Rattle.hph_effects.specs.declared.row.Row.{Row};
ghost use Rattle.hph_effects.specs.Rows.{row_number, all_rows, row_with, row_import};

use hph_case::import_rows;
use hph_wasm::ValType;

/// A function that modules import from `php1`, in the order of the imports' numbers. What it does is `effect_of` of specs/Effects.antt.
#[derive(Clone, Copy, Debug, PartialEq, Eq)]
pub enum Row {
    Write,
    Null,
    Bool,
    Int,
    Str,
    Arr,
    Drop,
    Dup,
    Get,
    Set,
    Ref,
    This,
    Bind,
    BindGlobal,
    BindStatic,
    Unset,
    Op2,
    Op1,
    Truth,
    PopInt,
    PopBool,
    StepKey,
    StepAppend,
    StepProp,
    PathGet,
    PathSet,
    PathOp,
    PathInc,
    PathTry,
    PathKeep,
    PathUnset,
    PathPush,
    PathPop,
    Elem,
    ElemKey,
    Hold,
    Held,
    Unhold,
    Iter,
    Next,
    Echo,
    FnDeclare,
    FnFind,
    Builtin,
    Enter,
    EnterM,
    Leave,
    ClassBegin,
    ClassMethod,
    ClassProp,
    ClassConst,
    ClassEnd,
    ClassKnown,
    Class,
    ClassDecl,
    ClassParent,
    ClassStatic,
    ClassNew,
    ParentInit,
    PropInit,
    Ctor,
    Method,
    Smethod,
    ConstFind,
    Sprop,
    LocInit,
    Instance,
    ConstSet,
    ConstGet,
    Once,
    Exit,
    Fatal,
}

macro_rules! variants {
    ([] $($variant:ident = $number:literal, $name:literal, [$($param:ident)*], [$($result:ident)*];)*) => {
        [$(Row::$variant,)*]
    };
}

macro_rules! number_of {
    ([$($row:tt)*] $($variant:ident = $number:literal, $name:literal, [$($param:ident)*], [$($result:ident)*];)*) => {
        match $($row)* {
            $(Row::$variant => $number,)*
        }
    };
}

macro_rules! name_of {
    ([$($row:tt)*] $($variant:ident = $number:literal, $name:literal, [$($param:ident)*], [$($result:ident)*];)*) => {
        match $($row)* {
            $(Row::$variant => $name,)*
        }
    };
}

macro_rules! params_of {
    ([$($row:tt)*] $($variant:ident = $number:literal, $name:literal, [$($param:ident)*], [$($result:ident)*];)*) => {
        match $($row)* {
            $(Row::$variant => &[$(ValType::$param,)*],)*
        }
    };
}

macro_rules! results_of {
    ([$($row:tt)*] $($variant:ident = $number:literal, $name:literal, [$($param:ident)*], [$($result:ident)*];)*) => {
        match $($row)* {
            $(Row::$variant => &[$(ValType::$result,)*],)*
        }
    };
}

impl Row {
    /// All rows, in the order of their numbers.
    pub fn all() -> [Row; 72]
        ensures { result ≡ all_rows }
    {
        import_rows!(variants)
    }

    /// The number of the row.
    #[tactic(auto, using(crate::proofs::RowLaws::number_inverse))]
    pub fn number(self) -> u16
        ensures value { result ≡ row_number self }
        ensures inverse { row_with (row_number self) ≡ Some self }
    {
        import_rows!(number_of self)
    }

    /// The row of this number, or None where there is none.
    pub fn from_number(number: u16) -> Option<Row>
        ensures value { result ≡ row_with number }
        ensures inverse { IfSome result (λ row. row_number row ≡ number) }
    {
        let all = Row::all();
        all.iter().copied().find(|row| row.number() == number)
    }

    /// The name that a module imports.
    pub fn name(self) -> &'static str
        ensures { option_map (λ import. import.name) (row_import self) ≡ Some result.now }
    {
        import_rows!(name_of self)
    }

    /// The types of the parameters.
    pub fn params(self) -> &'static [ValType]
        ensures { option_map (λ import. import.type.params) (row_import self) ≡ Some result.now }
    {
        import_rows!(params_of self)
    }

    /// The types of the results, of which there is one at most.
    pub fn results(self) -> &'static [ValType]
        ensures { option_map (λ import. import.type.results) (row_import self) ≡ Some result.now }
    {
        import_rows!(results_of self)
    }
}
