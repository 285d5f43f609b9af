ghost use Rattle.std.specs.Prelude.{◌≡◌};
ghost use Rattle.hph_case.specs.Imports.{imports};

use crate::cases::{Cases, Row};

/// The one list of the functions that a module imports from `php1`, in the order of their numbers (this project's own). It calls the macro `then` with what is given
/// behind it, in brackets, and the rows `Variant = number, name, [parameters], [results];`.
#[macro_export]
macro_rules! import_rows {
    ($then:ident $($given:tt)*) => {
        $then! {
            [$($given)*]
            Write = 0, "write", [I32 I32], [];
            Null = 1, "null", [], [];
            Bool = 2, "bool", [I32], [];
            Int = 3, "int", [I64], [];
            Str = 4, "str", [I32 I32], [];
            Arr = 5, "arr", [], [];
            Drop = 6, "drop", [], [];
            Dup = 7, "dup", [], [];
            Get = 8, "get", [I32], [];
            Set = 9, "set", [I32], [];
            Ref = 10, "ref", [I32], [];
            This = 11, "this", [], [];
            Bind = 12, "bind", [I32 I32], [];
            BindGlobal = 13, "bind_global", [I32 I32], [];
            BindStatic = 14, "bind_static", [I32 I32], [I32];
            Unset = 15, "unset", [I32], [];
            Op2 = 16, "op2", [I32], [];
            Op1 = 17, "op1", [I32], [];
            Truth = 18, "truth", [], [I32];
            PopInt = 19, "pop_int", [], [I64];
            PopBool = 20, "pop_bool", [], [I32];
            StepKey = 21, "step_key", [], [];
            StepAppend = 22, "step_append", [], [];
            StepProp = 23, "step_prop", [], [];
            PathGet = 24, "path_get", [I32], [];
            PathSet = 25, "path_set", [I32], [];
            PathOp = 26, "path_op", [I32 I32], [];
            PathInc = 27, "path_inc", [I32 I32], [];
            PathTry = 28, "path_try", [I32], [I32];
            PathKeep = 29, "path_keep", [I32], [I32];
            PathUnset = 30, "path_unset", [I32], [];
            PathPush = 31, "path_push", [I32 I32], [];
            PathPop = 32, "path_pop", [I32], [];
            Elem = 33, "elem", [], [];
            ElemKey = 34, "elem_key", [], [];
            Hold = 35, "hold", [], [];
            Held = 36, "held", [], [];
            Unhold = 37, "unhold", [], [];
            Iter = 38, "iter", [], [];
            Next = 39, "next", [], [I32];
            Echo = 40, "echo", [], [];
            FnDeclare = 41, "fn_declare", [I32], [];
            FnFind = 42, "fn_find", [], [I32];
            Builtin = 43, "builtin", [I32 I32], [];
            Enter = 44, "enter", [I32 I32 I32 I32], [];
            EnterM = 45, "enter_m", [I32 I32 I32 I32 I32], [];
            Leave = 46, "leave", [], [];
            ClassBegin = 47, "class_begin", [I32], [];
            ClassMethod = 48, "class_method", [I32 I32], [];
            ClassProp = 49, "class_prop", [I32 I32], [];
            ClassConst = 50, "class_const", [I32], [];
            ClassEnd = 51, "class_end", [I32], [];
            ClassKnown = 52, "class_known", [], [I32];
            Class = 53, "class", [], [];
            ClassDecl = 54, "class_decl", [I32], [];
            ClassParent = 55, "class_parent", [I32], [];
            ClassStatic = 56, "class_static", [], [];
            ClassNew = 57, "class_new", [], [I32];
            ParentInit = 58, "parent_init", [I32], [I32];
            PropInit = 59, "prop_init", [], [];
            Ctor = 60, "ctor", [], [I32];
            Method = 61, "method", [], [I32];
            Smethod = 62, "smethod", [I32], [I32];
            ConstFind = 63, "const_find", [], [I32];
            Sprop = 64, "sprop", [], [I32];
            LocInit = 65, "loc_init", [], [];
            Instance = 66, "instance", [], [];
            ConstSet = 67, "const_set", [], [];
            ConstGet = 68, "const_get", [], [];
            Once = 69, "once", [I32], [I32];
            Exit = 70, "exit", [], [];
            Fatal = 71, "fatal", [I32], [];
        }
    };
}

macro_rules! count {
    () => { 0 };
    ($a:ident) => { 1 };
    ($a:ident $b:ident) => { 2 };
    ($a:ident $b:ident $c:ident $d:ident) => { 4 };
    ($a:ident $b:ident $c:ident $d:ident $e:ident) => { 5 };
}

macro_rules! by_parameters {
    ([] $($variant:ident = $number:literal, $name:literal, [$($param:ident)*], [$($result:ident)*];)*) => {
        Cases { rows: [$(Row { code: $number, tag: count!($($param)*) },)*] }
    };
}

/// The functions that a module imports from `php1`. A tag counts the parameters.
pub fn imports() -> Cases<72>
    ensures { result.rows ≡ imports }
{
    import_rows!(by_parameters)
}
