//! Tokens and syntax trees of PHP's profile, and what a front end can refuse.
//!
//! Rust has the types; specs/ has the grammars: which bytes spell which tokens, and
//! which tokens spell which tree. They are what readers of programs are to be proved against, in both directions.
//! docs/LANGUAGE.md says the same in words.
#![tactic(auto)]

mod class;
mod expr;
mod function;
mod keyword;
mod laws;
mod lexical;
mod operator;
mod program;
mod refusal;
mod statement_laws;
mod stmt;
mod token;

pub use class::{Access, Class, ConstantItem, Member, Modifiers, PropertyItem};
pub use expr::{ArrayForm, ClassReference, Expr, Item, MemberName, Step, StringPart, Update};
pub use function::{DeclaredType, Function, Param, TypeName};
pub use keyword::Keyword;
pub use laws::{
    expression_uses_a_front, nesting_of_classes, nesting_of_expressions, nesting_of_items,
    nesting_of_parts, statement_uses_a_front,
};
pub use lexical::{Mode, Start};
pub use operator::{Assignment, Binary, Cast, Grouping, IncludeForm, Prefix};
pub use program::{File, FileTree, Place, Program};
pub use refusal::{Construct, LexKind, LimitName, Refusal, Spot};
pub use statement_laws::{nesting_of_declarations, nesting_of_members, nesting_of_statements};
pub use stmt::{Case, ElseIf, ForeachTarget, Statement, StaticVariable};
pub use token::{At, Identifier, Kind, Mark, Token};
