ghost use Rattle.std.specs.Prelude.{◌≡◌, IfSome, Some};
ghost use Rattle.hph_php.specs.declared.operator.BinOp.{BinOp};
ghost use Rattle.hph_php.specs.declared.operator.UnOp.{UnOp};
ghost use Rattle.hph_php.specs.Codes.{binary_code, binary_operators, binary_with, unary_code, unary_operators, unary_with};

use hph_case::{binary_operator_rows, unary_operator_rows};

/// A binary operator on values (PHP manual, Operators), in the order of its codes.
#[derive(Clone, Copy, Debug, PartialEq, Eq)]
pub enum BinOp {
    Add,
    Sub,
    Mul,
    Div,
    Rem,
    Pow,
    ShiftLeft,
    ShiftRight,
    BitAnd,
    BitOr,
    BitXor,
    Concat,
    Less,
    LessEqual,
    Greater,
    GreaterEqual,
    Equal,
    NotEqual,
    Identical,
    NotIdentical,
    Spaceship,
    /// `xor`
    LogicalXor,
}

macro_rules! binary_variants {
    ([] $($variant:ident = $code:literal, $sign:literal;)*) => {
        [$(BinOp::$variant,)*]
    };
}

macro_rules! binary_code {
    ([$($operator:tt)*] $($variant:ident = $code:literal, $sign:literal;)*) => {
        match $($operator)* {
            $(BinOp::$variant => $code,)*
        }
    };
}

impl BinOp {
    /// All binary operators, in the order of their codes.
    #[tactic(auto, unfolding(crate::specs::Codes::binary_operators))]
    pub fn all() -> [BinOp; 22]
        ensures { result ≡ binary_operators }
    {
        binary_operator_rows!(binary_variants)
    }

    /// The code of the operator, this project's own.
    #[tactic(auto, using(crate::proofs::CodeLaws::binary_inverse))]
    pub fn code(self) -> u32
        ensures value { result ≡ binary_code self }
        ensures inverse { binary_with (binary_code self) ≡ Some self }
    {
        binary_operator_rows!(binary_code self)
    }

    /// The one of this code, or None where there is none.
    pub fn from_code(code: u32) -> Option<BinOp>
        ensures value { result ≡ binary_with code }
        ensures inverse { IfSome result (λ found. binary_code found ≡ code) }
    {
        let all = BinOp::all();
        all.iter().copied().find(|found| found.code() == code)
    }
}

/// A unary operator on values, or a cast (PHP manual, Operators and Type Juggling), in the order of its codes.
#[derive(Clone, Copy, Debug, PartialEq, Eq)]
pub enum UnOp {
    Plus,
    Minus,
    /// `~`
    BitNot,
    /// `!`
    Not,
    /// `(int)`
    ToInt,
    /// `(bool)`
    ToBool,
    /// `(string)`
    ToString,
    /// `(array)`
    ToArray,
}

macro_rules! unary_variants {
    ([] $($variant:ident = $code:literal, $sign:literal;)*) => {
        [$(UnOp::$variant,)*]
    };
}

macro_rules! unary_code {
    ([$($operator:tt)*] $($variant:ident = $code:literal, $sign:literal;)*) => {
        match $($operator)* {
            $(UnOp::$variant => $code,)*
        }
    };
}

impl UnOp {
    /// All unary operators and casts, in the order of their codes.
    #[tactic(auto, unfolding(crate::specs::Codes::unary_operators))]
    pub fn all() -> [UnOp; 8]
        ensures { result ≡ unary_operators }
    {
        unary_operator_rows!(unary_variants)
    }

    /// The code of the operator, this project's own.
    #[tactic(auto, using(crate::proofs::CodeLaws::unary_inverse))]
    pub fn code(self) -> u32
        ensures value { result ≡ unary_code self }
        ensures inverse { unary_with (unary_code self) ≡ Some self }
    {
        unary_operator_rows!(unary_code self)
    }

    /// The one of this code, or None where there is none.
    pub fn from_code(code: u32) -> Option<UnOp>
        ensures value { result ≡ unary_with code }
        ensures inverse { IfSome result (λ found. unary_code found ≡ code) }
    {
        let all = UnOp::all();
        all.iter().copied().find(|found| found.code() == code)
    }
}
