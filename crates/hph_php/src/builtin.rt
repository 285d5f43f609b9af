ghost use Rattle.std.specs.Prelude.{◌≡◌, IfSome, Some};
ghost use Rattle.hph_php.specs.declared.builtin.Builtin.{Builtin};
ghost use Rattle.hph_php.specs.Codes.{builtin_code, builtin_name, all_builtins, builtin_with, builtin_named, is_named};

use hph_case::builtin_rows;

/// A function that is built in (PHP manual, Function Reference), in the order of its codes.
#[derive(Clone, Copy, Debug, PartialEq, Eq)]
pub enum Builtin {
    Strlen,
    Count,
    Intdiv,
    Abs,
    Ord,
    Chr,
    Substr,
    Strpos,
    StrRepeat,
    Strrev,
    Strtolower,
    Strtoupper,
    Trim,
    Implode,
    Explode,
    ArrayKeys,
    ArrayValues,
    ArrayPush,
    ArrayPop,
    InArray,
    ArrayKeyExists,
    IsInt,
    IsString,
    IsBool,
    IsArray,
    IsNull,
    IsObject,
    VarDump,
}

macro_rules! variants {
    ([] $($variant:ident = $code:literal, $least:literal, $name:literal;)*) => {
        [$(Builtin::$variant,)*]
    };
}

macro_rules! code_of {
    ([$($function:tt)*] $($variant:ident = $code:literal, $least:literal, $name:literal;)*) => {
        match $($function)* {
            $(Builtin::$variant => $code,)*
        }
    };
}

macro_rules! name_of {
    ([$($function:tt)*] $($variant:ident = $code:literal, $least:literal, $name:literal;)*) => {
        match $($function)* {
            $(Builtin::$variant => $name,)*
        }
    };
}

impl Builtin {
    /// All functions that are built in, in the order of their codes.
    #[tactic(auto, unfolding(crate::specs::Codes::all_builtins))]
    pub fn all() -> [Builtin; 28]
        ensures { result ≡ all_builtins }
    {
        builtin_rows!(variants)
    }

    /// The code of the function, this project's own.
    #[tactic(auto, using(crate::proofs::CodeLaws::builtin_inverse))]
    pub fn code(self) -> u32
        ensures value { result ≡ builtin_code self }
        ensures inverse { builtin_with (builtin_code self) ≡ Some self }
    {
        builtin_rows!(code_of self)
    }

    /// The one of this code, or None where there is none.
    pub fn from_code(code: u32) -> Option<Builtin>
        ensures value { result ≡ builtin_with code }
        ensures inverse { IfSome result (λ found. builtin_code found ≡ code) }
    {
        let all = Builtin::all();
        all.iter().copied().find(|found| found.code() == code)
    }

    /// The name of the function.
    pub fn name(self) -> &'static str
        ensures { result.now ≡ builtin_name self }
    {
        builtin_rows!(name_of self)
    }

    /// The function of a name in any ASCII case, or None where there is none.
    pub fn named(name: &[u8]) -> Option<Builtin>
        ensures { result ≡ builtin_named name.now }
    {
        let all = Builtin::all();
        all.iter().copied().find(|found| found.is_named(name))
    }

    fn is_named(self, name: &[u8]) -> bool
        ensures { result ≡ is_named self name.now }
    {
        self.name().as_bytes().eq_ignore_ascii_case(name)
    }
}
